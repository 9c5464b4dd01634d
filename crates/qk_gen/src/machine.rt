//! The machine: the frame on top with its value, and calls of generators of the program.
ghost use Rattle.std.specs.Prelude.{◌≡◌, ℕ, List, IfOk, option_map};
ghost use Rattle.std.specs.Option.{option_copied};
ghost use Rattle.qk_core.specs.Definitions.{FunctionData, UserGenData};
ghost use Rattle.qk_core.specs.GenView.{view_gen};
ghost use Rattle.qk_eval.specs.Meaning.{and_then};
ghost use Rattle.qk_gen.specs.Drawing.{body_of as body_found, drawing_call};
ghost use Rattle.qk_gen.specs.Pending.{outcome, resume, after};

use crate::items::{add_item, add_part, or_crash, wait};
use crate::pending::{Control, Frame};
use qk_base::{Cause, Memory};
use qk_core::{Core, GenExpr};
use qk_eval::Shared;
use qk_splitmix::Gen;
use std::alloc::Global;
use std::mem;

/// The topmost piece of pending work, with the value that it waited for.
pub(crate) fn go_on<'e>(
    alloc: Global,
    frame: Frame<'e>,
    value: Shared,
    env: &mut Vec<Shared>,
    frames: &mut Vec<Frame<'e>>,
) -> Result<Control<'e>, Memory>
    ensures { IfOk result (λ next. (functions : List FunctionData) (generators : List UserGenData) (u : ℕ) →
        outcome functions generators frames.new.items env.new.items next u
        ≡ after functions generators (resume functions generators frames.old.items) frame.entry env.old.items value u) }
{
    match frame {
        Frame::Second { second, g, size } => wait(frames, Frame::Both(value), second, g, size),
        Frame::Both(first) => {
            let given = Shared::pair(alloc, first, value)?;
            Ok(or_crash(given))
        }
        Frame::Body { body, g, size } => {
            env.push(value)?;
            let next = wait(frames, Frame::Unbind, body, g, size)?;
            Ok(next)
        }
        Frame::Unbind => {
            env.truncate(env.len().saturating_sub(1));
            Ok(Control::Return(value))
        }
        Frame::Items {
            item,
            more,
            weight,
            done,
            g,
            size,
        } => add_item(alloc, item, more, weight, done, value, g, size, frames),
        Frame::Parts {
            kind,
            maker,
            rest,
            done,
            g,
            size,
        } => add_part(alloc, kind, maker, rest, done, value, g, size, frames),
        Frame::Leave(old) => {
            *env = old;
            Ok(Control::Return(value))
        }
    }
}

// The body of a generator of the program.
fn body_of(core: &Core, number: u32) -> Option<&GenExpr>
    ensures { option_map view_gen (option_copied result) ≡ body_found core.now.generators number }
{
    if number < core.generators() {
        Some(&core.generator(number).body)
    } else {
        None
    }
}

/// A call takes one unit, and the body has the arguments as its environment.
pub(crate) fn enter<'e>(
    core: &'e Core,
    generator: u32,
    args: Vec<Shared>,
    g: Gen,
    size: u32,
    env: &mut Vec<Shared>,
    frames: &mut Vec<Frame<'e>>,
    left: &mut u32,
) -> Result<Control<'e>, Memory>
    ensures { IfOk result (λ next.
        outcome core.now.functions core.now.generators frames.new.items env.new.items next left.new
        ≡ and_then (drawing_call core.now.functions core.now.generators generator args.items size g left.old) (resume core.now.functions core.now.generators frames.old.items env.old.items)) }
{
    if *left == 0 {
        return Ok(Control::Crash(Cause::Fuel));
    }
    *left -= 1;
    match body_of(core, generator) {
        None => Ok(Control::Return(Shared::nil())),
        Some(body) => {
            let old = mem::replace(env, args);
            let next = wait(frames, Frame::Leave(old), body, g, size)?;
            Ok(next)
        }
    }
}
