//! One attempt of a property.
ghost use Rattle.std.specs.Prelude.{◌≡◌, ◌≤◌, IfOk};
ghost use Rattle.qk_command.specs.Attempt.{attempted};

use crate::drawing::draw_all_shared;
use crate::judging::{judge_shared, without_marks};
use qk_base::{Memory, Outcome, Verdict};
use qk_core::{Core, Property};
use qk_splitmix::Gen;
use std::alloc::Global;

/// An attempt: its values are drawn with so many units of fuel, and judged with as many anew. A crash while drawing fails with its
/// cause.
pub fn attempt(
    alloc: Global,
    core: &Core,
    property: &Property,
    g: Gen,
    size: u32,
    fuel: u32,
) -> Result<Outcome, Memory>
    requires { size ≤ 1000 }
    ensures { IfOk result (λ outcome. outcome ≡ attempted core.now property.now size g fuel) }
{
    let drawn = draw_all_shared(alloc, core, property, g, size, fuel)?;
    match drawn.crash {
        Some(cause) => Ok(without_marks(alloc, Verdict::Fail(cause))),
        None => judge_shared(alloc, core, property, &drawn.values, fuel),
    }
}
