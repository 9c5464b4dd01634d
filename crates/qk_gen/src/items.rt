//! Lists and made values: one item or part after another.
ghost use Rattle.std.specs.Prelude.{◌≡◌, ◌++◌, ◌∷◌, [], ℕ, List, IfOk, OnOk};
ghost use Rattle.qk_core.specs.Definitions.{FunctionData, UserGenData};
ghost use Rattle.qk_core.specs.GenView.{view_gen, view_gens};
ghost use Rattle.qk_eval.specs.Meaning.{and_then};
ghost use Rattle.qk_gen.specs.Drawing.{drawing, vector as vector_of, length_of};
ghost use Rattle.qk_gen.specs.Pending.{outcome, resume, control_of, listed, listed_with, made_with};
ghost use Rattle.qk_value.specs.Data.{Data};

use crate::pending::{Control, Frame};
use qk_base::{Cause, Memory};
use qk_core::GenExpr;
use qk_eval::Shared;
use qk_splitmix::Gen;
use std::alloc::Global;

/// A value to go on with, or a crash.
pub(crate) fn or_crash<'e>(given: Result<Shared, Cause>) -> Control<'e>
    ensures { result ≡ control_of given }
{
    match given {
        Ok(value) => Control::Return(value),
        Err(cause) => Control::Crash(cause),
    }
}

/// A piece of pending work, and what is drawn before it.
pub(crate) fn wait<'e>(
    frames: &mut Vec<Frame<'e>>,
    frame: Frame<'e>,
    first: &'e GenExpr,
    g: Gen,
    size: u32,
) -> Result<Control<'e>, Memory>
    ensures next { IfOk result (λ next. next ≡ Control.Draw first.entry g size) }
    ensures frames { OnOk result (frames.new.items ≡ frames.old.items ++ frame.entry ∷ []) }
{
    frames.push(frame)?;
    Ok(Control::Draw {
        generator: first,
        g,
        size,
    })
}

/// So many more items of a list.
pub(crate) fn more_items<'e>(
    alloc: Global,
    item: &'e GenExpr,
    more: u32,
    weight: u64,
    done: Vec<Shared>,
    g: Gen,
    size: u32,
    frames: &mut Vec<Frame<'e>>,
) -> Result<Control<'e>, Memory>
    ensures { IfOk result (λ next. (functions : List FunctionData) (generators : List UserGenData) (env : List Data) (u : ℕ) →
        outcome functions generators frames.new.items env next u
        ≡ and_then (listed (λ h v. drawing functions generators (view_gen item.now) env size h v) more weight done.items g u) (resume functions generators frames.old.items env)) }
{
    if more == 0 {
        let given = Shared::list(alloc, done)?;
        return Ok(or_crash(given));
    }
    let (left, right) = g.split();
    let frame = Frame::Items {
        item,
        more: more - 1,
        weight,
        done,
        g: right,
        size,
    };
    let next = wait(frames, frame, item, left, size)?;
    Ok(next)
}

/// One item more, unless the list is too heavy with it.
pub(crate) fn add_item<'e>(
    alloc: Global,
    item: &'e GenExpr,
    more: u32,
    weight: u64,
    mut done: Vec<Shared>,
    value: Shared,
    g: Gen,
    size: u32,
    frames: &mut Vec<Frame<'e>>,
) -> Result<Control<'e>, Memory>
    ensures { IfOk result (λ next. (functions : List FunctionData) (generators : List UserGenData) (env : List Data) (u : ℕ) →
        outcome functions generators frames.new.items env next u
        ≡ and_then (listed_with (λ h v. drawing functions generators (view_gen item.now) env size h v) more weight done.items value g u) (resume functions generators frames.old.items env)) }
{
    let weight = weight.saturating_add(value.weight());
    if weight > 65_536 {
        return Ok(Control::Crash(Cause::Weight));
    }
    done.push(value)?;
    let next = more_items(alloc, item, more, weight, done, g, size, frames)?;
    Ok(next)
}

/// A number as a length: below 0 counts as 0.
pub(crate) fn length_in(number: i64) -> u64
    ensures { result ≡ length_of number }
{
    if number < 0 { 0 } else { number as u64 }
}

/// A list of that many items.
pub(crate) fn vector<'e>(
    alloc: Global,
    item: &'e GenExpr,
    count: u64,
    g: Gen,
    size: u32,
    frames: &mut Vec<Frame<'e>>,
) -> Result<Control<'e>, Memory>
    ensures { IfOk result (λ next. (functions : List FunctionData) (generators : List UserGenData) (env : List Data) (u : ℕ) →
        outcome functions generators frames.new.items env next u
        ≡ and_then (vector_of (λ h v. drawing functions generators (view_gen item.now) env size h v) count g u) (resume functions generators frames.old.items env)) }
{
    if count > 65_535 {
        return Ok(Control::Crash(Cause::Weight));
    }
    let done = Vec::new(alloc);
    let next = more_items(alloc, item, count as u32, 1, done, g, size, frames)?;
    Ok(next)
}

/// The rest of a made value's parts.
pub(crate) fn more_parts<'e>(
    alloc: Global,
    kind: u32,
    maker: u32,
    rest: &'e [GenExpr],
    done: Vec<Shared>,
    g: Gen,
    size: u32,
    frames: &mut Vec<Frame<'e>>,
) -> Result<Control<'e>, Memory>
    ensures { IfOk result (λ next. (functions : List FunctionData) (generators : List UserGenData) (env : List Data) (u : ℕ) →
        outcome functions generators frames.new.items env next u
        ≡ and_then (made_with functions generators kind maker done.items (view_gens rest.now) env size g u) (resume functions generators frames.old.items env)) }
{
    match rest.split_first() {
        None => {
            let given = Shared::made(alloc, kind, maker, done)?;
            Ok(or_crash(given))
        }
        Some((first, rest)) => {
            let (left, right) = g.split();
            let frame = Frame::Parts {
                kind,
                maker,
                rest,
                done,
                g: right,
                size,
            };
            let next = wait(frames, frame, first, left, size)?;
            Ok(next)
        }
    }
}

/// One part more of a made value.
pub(crate) fn add_part<'e>(
    alloc: Global,
    kind: u32,
    maker: u32,
    rest: &'e [GenExpr],
    mut done: Vec<Shared>,
    value: Shared,
    g: Gen,
    size: u32,
    frames: &mut Vec<Frame<'e>>,
) -> Result<Control<'e>, Memory>
    ensures { IfOk result (λ next. (functions : List FunctionData) (generators : List UserGenData) (env : List Data) (u : ℕ) →
        outcome functions generators frames.new.items env next u
        ≡ and_then (made_with functions generators kind maker (done.items ++ value ∷ []) (view_gens rest.now) env size g u) (resume functions generators frames.old.items env)) }
{
    done.push(value)?;
    let next = more_parts(alloc, kind, maker, rest, done, g, size, frames)?;
    Ok(next)
}
