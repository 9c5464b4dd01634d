//! The expressions inside generators, and numbers chosen by words.
ghost use Rattle.std.specs.Prelude.{◌≡◌, ◌<◌, ◌^◌, pos, ◌≤ℤ◌, IfOk, length, map, slice_get};
ghost use Rattle.std.specs.Int.{int_max};
ghost use Rattle.qk_core.specs.ExprView.{view_expr, view_exprs};
ghost use Rattle.qk_eval.specs.Meaning.{meaning, and_then, result as found, calling, mean_all, or_crash};
ghost use Rattle.qk_eval.specs.Parts.{number_of};
ghost use Rattle.qk_gen.specs.Drawing.{chosen as chosen_by, chosen_between, one_expr, place as place_by};
ghost use Rattle.qk_gen.specs.Pending.{given as given_of, given_as};
ghost use Rattle.qk_value.specs.Data.{int};

use qk_base::{Cause, Memory, Seq};
use qk_core::{Core, Expr};
use qk_eval::{Ending, Shared, eval_shared};
use qk_splitmix::{Gen, choose};
use std::alloc::Global;

/// A number of an interval, by the next word.
pub(crate) fn chosen(g: Gen, lo: i64, hi: i64) -> i64
    requires { lo ≤ℤ hi }
    ensures exact { result ≡ chosen_by g lo hi }
    ensures within { (lo ≤ℤ result) × (result ≤ℤ hi) }
{
    let (word, _) = g.next();
    choose(word, lo, hi)
}

/// One of so many places, by the next word.
pub(crate) fn place(g: Gen, count: usize) -> usize
    requires { count < 2 ^ 63 }
    ensures { result ≡ place_by g count }
{
    let last = count.saturating_sub(1) as i64;
    chosen(g, 0, last) as usize
}

/// One of 1 to that many, by the next word.
pub(crate) fn up_to(g: Gen, count: i64) -> u64
    requires { pos 0 ≤ℤ count }
    ensures { pos result ≡ chosen_by g (pos 1) (int_max count (pos 1)) }
{
    chosen(g, 1, count.max(1)) as u64
}

/// The value of an expression, or why there is none. It takes its units from those that are left.
pub(crate) fn value_of(
    alloc: Global,
    core: &Core,
    expr: &Expr,
    env: &[Shared],
    left: &mut u32,
) -> Result<Result<Shared, Cause>, Memory>
    ensures { IfOk result (λ given. or_crash given left.new ≡ meaning core.now.functions (view_expr expr.now) env.now left.old) }
{
    match eval_shared(alloc, core, expr, env, *left)? {
        Ending::Value { value, left: rest } => {
            *left = rest;
            Ok(Ok(value))
        }
        Ending::Crash(cause) => Ok(Err(cause)),
    }
}

/// The number that an expression comes to.
pub(crate) fn number_in(
    alloc: Global,
    core: &Core,
    expr: &Expr,
    env: &[Shared],
    left: &mut u32,
) -> Result<Result<i64, Cause>, Memory>
    ensures { IfOk result (λ given. given_of given left.new ≡ and_then (meaning core.now.functions (view_expr expr.now) env.now left.old) (λ x v. found (number_of x) v)) }
{
    match value_of(alloc, core, expr, env, left)? {
        Ok(value) => Ok(Ok(value.number())),
        Err(cause) => Ok(Err(cause)),
    }
}

/// A number between those that two expressions come to.
pub(crate) fn between(
    alloc: Global,
    core: &Core,
    first: &Expr,
    second: &Expr,
    g: Gen,
    env: &[Shared],
    left: &mut u32,
) -> Result<Result<Shared, Cause>, Memory>
    ensures { IfOk result (λ given. or_crash given left.new
        ≡ and_then (meaning core.now.functions (view_expr first.now) env.now left.old) (λ x v.
        and_then (meaning core.now.functions (view_expr second.now) env.now v) (λ y w. found (int (chosen_between g (number_of x) (number_of y))) w))) }
{
    match number_in(alloc, core, first, env, left)? {
        Err(cause) => Ok(Err(cause)),
        Ok(m) => {
            let given = between_it_and(alloc, core, m, second, g, env, left)?;
            Ok(given)
        }
    }
}

fn between_it_and(
    alloc: Global,
    core: &Core,
    m: i64,
    second: &Expr,
    g: Gen,
    env: &[Shared],
    left: &mut u32,
) -> Result<Result<Shared, Cause>, Memory>
    ensures { IfOk result (λ given. or_crash given left.new
        ≡ and_then (meaning core.now.functions (view_expr second.now) env.now left.old) (λ y w. found (int (chosen_between g m (number_of y))) w)) }
{
    match number_in(alloc, core, second, env, left)? {
        Err(cause) => Ok(Err(cause)),
        Ok(n) => Ok(Ok(Shared::int(chosen(g, m.min(n), m.max(n))))),
    }
}

/// The values of all these expressions, in order.
pub(crate) fn values_of(
    alloc: Global,
    core: &Core,
    exprs: &[Expr],
    env: &[Shared],
    left: &mut u32,
) -> Result<Result<Vec<Shared>, Cause>, Memory>
    ensures { IfOk result (λ all. given_as (λ xs. xs.items) all left.new ≡ mean_all (calling core.now.functions) (view_exprs exprs.now) env.now left.old) }
{
    let mut all = Vec::with_capacity(alloc, exprs.len())?;
    for expr in exprs {
        match value_of(alloc, core, expr, env, left)? {
            Ok(value) => all.push(value)?,
            Err(cause) => return Ok(Err(cause)),
        }
    }
    Ok(Ok(all))
}

/// The value of one of several expressions, by its place.
pub(crate) fn element(
    alloc: Global,
    core: &Core,
    exprs: &Seq<Expr>,
    g: Gen,
    env: &[Shared],
    left: &mut u32,
) -> Result<Result<Shared, Cause>, Memory>
    ensures { IfOk result (λ given. or_crash given left.new
        ≡ one_expr core.now.functions (slice_get (map view_expr exprs.now.items) (place_by g (length (map view_expr exprs.now.items)))) env.now left.old) }
{
    let place = place(g, exprs.as_slice().len());
    match exprs.get(place) {
        None => Ok(Ok(Shared::nil())),
        Some(expr) => {
            let given = value_of(alloc, core, expr, env, left)?;
            Ok(given)
        }
    }
}
