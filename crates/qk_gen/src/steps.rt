//! The first step of each form of generator.
ghost use Rattle.std.specs.Prelude.{◌≡◌, ◌++◌, ◌∷◌, [], ℕ, List, IfOk, pos, neg_ℤ, option_map};
ghost use Rattle.std.specs.Option.{option_copied};
ghost use Rattle.std.specs.Ordering.{int_eq};
ghost use Rattle.qk_core.specs.Definitions.{FunctionData, UserGenData};
ghost use Rattle.qk_core.specs.ExprView.{view_expr, view_exprs};
ghost use Rattle.qk_core.specs.GenView.{view_gen, view_gens, view_weighteds};
ghost use Rattle.qk_eval.specs.Meaning.{meaning, and_then, calling, mean_all, or_crash as or_crash_of};
ghost use Rattle.qk_eval.specs.Parts.{number_of, small};
ghost use Rattle.qk_gen.specs.Drawing.{chosen as chosen_by, drawing, drawing_call, draws_at, draws_body, draws_reached, gens_count, length_of, place as place_by, size_of, total_weight, up_to as up_to_by, vector as vector_of};
ghost use Rattle.qk_gen.specs.Pending.{outcome, resume, settled_of};
ghost use Rattle.qk_gen.specs.declared.pending.Frame.{Frame};
ghost use Rattle.qk_splitmix.specs.SplitMix.{left as left_half, right as right_half};
ghost use Rattle.qk_value.specs.Data.{Data, int, bool, pair as pair_of};

use crate::choices::{at, reached, total};
use crate::expressions::{between, chosen, element, number_in, place, up_to, value_of, values_of};
use crate::items::{length_in, more_parts, or_crash, vector, wait};
use crate::pending::{Control, Frame};
use qk_base::{Cause, Memory, Seq};
use qk_core::{Core, Expr, GenExpr, Weighted};
use qk_eval::Shared;
use qk_splitmix::Gen;
use std::alloc::Global;

/// The first step of a generator. The expressions inside are evaluated at once, and take their units.
pub(crate) fn start<'e>(
    alloc: Global,
    core: &Core,
    generator: &'e GenExpr,
    g: Gen,
    size: u32,
    env: &Vec<Shared>,
    frames: &mut Vec<Frame<'e>>,
    left: &mut u32,
) -> Result<Control<'e>, Memory>
    ensures { IfOk result (λ next.
        outcome core.now.functions core.now.generators frames.new.items env.now.items next left.new
        ≡ outcome core.now.functions core.now.generators frames.old.items env.now.items (Control.Draw generator.entry g size) left.old) }
{
    match generator {
        GenExpr::Int => Ok(Control::Return(any_number(g, size))),
        GenExpr::Bool => Ok(Control::Return(any_truth(g))),
        GenExpr::Size => Ok(Control::Return(own_size(size))),
        GenExpr::Choose(first, second) => settled(between(
            alloc, core, first, second, g, env, left,
        )),
        GenExpr::Pure(expr) => settled(value_of(alloc, core, expr, env, left)),
        GenExpr::Elements(exprs) => settled(element(alloc, core, exprs, g, env, left)),
        GenExpr::List(item) => {
            let next = list(alloc, item, g, size, frames)?;
            Ok(next)
        }
        GenExpr::Vector(length, item) => {
            let next = sized(alloc, core, length, item, g, size, env, frames, left)?;
            Ok(next)
        }
        GenExpr::Pair(first, second) => pair(first, second, g, size, frames),
        GenExpr::Bind(first, body) => {
            let next = bind(first, body, g, size, frames)?;
            Ok(next)
        }
        GenExpr::OneOf(generators) => Ok(one_of(generators, g, size)),
        GenExpr::Frequency(parts) => frequency(parts.as_slice(), g, size),
        GenExpr::Resize(expr, generator) => resize(alloc, core, expr, generator, g, env, left),
        GenExpr::Make { kind, maker, parts } => {
            let (kind, maker, done) = (*kind, *maker, Vec::new(alloc));
            more_parts(alloc, kind, maker, parts.as_slice(), done, g, size, frames)
        }
        GenExpr::Call { generator, args } => {
            let args = args.as_slice();
            call(alloc, core, *generator, args, g, size, env, left)
        }
    }
}

// A value to go on with, or a crash, where memory was not wanted.
fn settled<'e>(given: Result<Result<Shared, Cause>, Memory>) -> Result<Control<'e>, Memory>
    ensures { result ≡ settled_of given }
{
    match given {
        Ok(given) => Ok(or_crash(given)),
        Err(wanted) => Err(wanted),
    }
}

fn any_number(g: Gen, size: u32) -> Shared
    ensures { result ≡ int (chosen_by g (neg_ℤ (pos size)) (pos size)) }
{
    let size = size as i64;
    Shared::int(chosen(g, -size, size))
}

fn any_truth(g: Gen) -> Shared
    ensures { result ≡ bool (int_eq (chosen_by g (pos 0) (pos 1)) (pos 1)) }
{
    Shared::truth(chosen(g, 0, 1) == 1)
}

fn own_size(size: u32) -> Shared
    ensures { result ≡ int (pos size) }
{
    Shared::int(size as i64)
}

// The length by the left half, the items by the right half.
fn list<'e>(
    alloc: Global,
    item: &'e GenExpr,
    g: Gen,
    size: u32,
    frames: &mut Vec<Frame<'e>>,
) -> Result<Control<'e>, Memory>
    ensures { IfOk result (λ next. (functions : List FunctionData) (generators : List UserGenData) (env : List Data) (u : ℕ) →
        outcome functions generators frames.new.items env next u
        ≡ and_then (vector_of (λ h v. drawing functions generators (view_gen item.now) env size h v) (length_of (chosen_by (left_half g) (pos 0) (pos size))) (right_half g) u) (resume functions generators frames.old.items env)) }
{
    let (first, rest) = g.split();
    let count = length_in(chosen(first, 0, size as i64));
    let next = vector(alloc, item, count, rest, size, frames)?;
    Ok(next)
}

// A list of as many items as an expression says.
fn sized<'e>(
    alloc: Global,
    core: &Core,
    length: &Expr,
    item: &'e GenExpr,
    g: Gen,
    size: u32,
    env: &[Shared],
    frames: &mut Vec<Frame<'e>>,
    left: &mut u32,
) -> Result<Control<'e>, Memory>
    ensures { IfOk result (λ next.
        outcome core.now.functions core.now.generators frames.new.items env.now next left.new
        ≡ and_then (and_then (meaning core.now.functions (view_expr length.now) env.now left.old) (λ x v.
        vector_of (λ h w. drawing core.now.functions core.now.generators (view_gen item.now) env.now size h w) (length_of (number_of x)) g v)) (resume core.now.functions core.now.generators frames.old.items env.now)) }
{
    match number_in(alloc, core, length, env, left)? {
        Err(cause) => Ok(Control::Crash(cause)),
        Ok(number) => {
            let count = length_in(number);
            let next = vector(alloc, item, count, g, size, frames)?;
            Ok(next)
        }
    }
}

// The first part by the left half, the second by the right half.
fn pair<'e>(
    first: &'e GenExpr,
    second: &'e GenExpr,
    g: Gen,
    size: u32,
    frames: &mut Vec<Frame<'e>>,
) -> Result<Control<'e>, Memory>
    ensures { IfOk result (λ next. (functions : List FunctionData) (generators : List UserGenData) (env : List Data) (u : ℕ) →
        outcome functions generators frames.new.items env next u
        ≡ and_then (and_then (drawing functions generators (view_gen first.now) env size (left_half g) u) (λ x v.
        and_then (drawing functions generators (view_gen second.now) env size (right_half g) v) (λ y w. or_crash_of (small (pair_of x y)) w))) (resume functions generators frames.old.items env)) }
{
    let (before, after) = g.split();
    let frame = Frame::Second {
        second,
        g: after,
        size,
    };
    let next = wait(frames, frame, first, before, size)?;
    Ok(next)
}

// What is bound by the left half, the body by the right half.
fn bind<'e>(
    first: &'e GenExpr,
    body: &'e GenExpr,
    g: Gen,
    size: u32,
    frames: &mut Vec<Frame<'e>>,
) -> Result<Control<'e>, Memory>
    ensures { IfOk result (λ next. (functions : List FunctionData) (generators : List UserGenData) (env : List Data) (u : ℕ) →
        outcome functions generators frames.new.items env next u
        ≡ and_then (and_then (drawing functions generators (view_gen first.now) env size (left_half g) u) (λ x v.
        drawing functions generators (view_gen body.now) (env ++ x ∷ []) size (right_half g) v)) (resume functions generators frames.old.items env)) }
{
    let (before, after) = g.split();
    let frame = Frame::Body {
        body,
        g: after,
        size,
    };
    let next = wait(frames, frame, first, before, size)?;
    Ok(next)
}

// A generator that was found, or the empty list.
fn found<'e>(generator: Option<&'e GenExpr>, g: Gen, size: u32) -> Control<'e>
    ensures { (functions : List FunctionData) (generators : List UserGenData) (frames : List Frame) (env : List Data) (u : ℕ) →
        outcome functions generators frames env result u
        ≡ and_then (draws_body functions (drawing_call functions generators) (option_map view_gen (option_copied generator.entry)) env size g u) (resume functions generators frames env) }
{
    match generator {
        None => Control::Return(Shared::nil()),
        Some(generator) => Control::Draw { generator, g, size },
    }
}

// The place by the left half, the generator there by the right half.
fn one_of<'e>(generators: &'e Seq<GenExpr>, g: Gen, size: u32) -> Control<'e>
    ensures { (functions : List FunctionData) (program : List UserGenData) (frames : List Frame) (env : List Data) (u : ℕ) →
        outcome functions program frames env result u
        ≡ and_then (draws_at functions (drawing_call functions program) (view_gens generators.now.items) (place_by (left_half g) (gens_count (view_gens generators.now.items))) env size (right_half g) u) (resume functions program frames env) }
{
    let (first, rest) = g.split();
    let place = place(first, generators.as_slice().len());
    found(at(generators, place), rest, size)
}

// The number by the left half, the generator whose weights reach it by the right half.
fn frequency<'e>(parts: &'e [Weighted], g: Gen, size: u32) -> Result<Control<'e>, Memory>
    ensures { IfOk result (λ next. (functions : List FunctionData) (generators : List UserGenData) (frames : List Frame) (env : List Data) (u : ℕ) →
        outcome functions generators frames env next u
        ≡ and_then (draws_reached functions (drawing_call functions generators) (view_weighteds parts.now) (up_to_by (left_half g) (total_weight (view_weighteds parts.now))) env size (right_half g) u) (resume functions generators frames env)) }
{
    let (first, rest) = g.split();
    let sum = total(parts)?;
    Ok(found(reached(parts, up_to(first, sum)), rest, size))
}

// The generator at the size that an expression says.
fn resize<'e>(
    alloc: Global,
    core: &Core,
    expr: &Expr,
    generator: &'e GenExpr,
    g: Gen,
    env: &[Shared],
    left: &mut u32,
) -> Result<Control<'e>, Memory>
    ensures { IfOk result (λ next. (frames : List Frame) →
        outcome core.now.functions core.now.generators frames env.now next left.new
        ≡ and_then (and_then (meaning core.now.functions (view_expr expr.now) env.now left.old) (λ x v.
        drawing core.now.functions core.now.generators (view_gen generator.now) env.now (size_of (number_of x)) g v)) (resume core.now.functions core.now.generators frames env.now)) }
{
    match number_in(alloc, core, expr, env, left)? {
        Err(cause) => Ok(Control::Crash(cause)),
        Ok(number) => Ok(Control::Draw {
            generator,
            g,
            size: number.max(0).min(1000) as u32,
        }),
    }
}

// A call with the values of these expressions.
fn call<'e>(
    alloc: Global,
    core: &Core,
    generator: u32,
    exprs: &[Expr],
    g: Gen,
    size: u32,
    env: &[Shared],
    left: &mut u32,
) -> Result<Control<'e>, Memory>
    ensures { IfOk result (λ next. (frames : List Frame) →
        outcome core.now.functions core.now.generators frames env.now next left.new
        ≡ and_then (and_then (mean_all (calling core.now.functions) (view_exprs exprs.now) env.now left.old) (λ xs v.
        drawing_call core.now.functions core.now.generators generator xs size g v)) (resume core.now.functions core.now.generators frames env.now)) }
{
    match values_of(alloc, core, exprs, env, left)? {
        Err(cause) => Ok(Control::Crash(cause)),
        Ok(args) => Ok(Control::Enter {
            generator,
            args,
            g,
            size,
        }),
    }
}
