//! The shrinking of a failing attempt.
ghost use Rattle.std.specs.Prelude.{◌≡◌, ◌≤◌, ◌<◌, true, IfOk};
ghost use Rattle.qk_eval.specs.Answers.{AreSmall};
ghost use Rattle.qk_property.specs.Attempts.{drawn_at};
ghost use Rattle.qk_property.specs.Points.{fails_at, IsSmallPoint};
ghost use Rattle.qk_property.specs.Settings.{AreInRange, report_settings};
ghost use Rattle.qk_property.specs.Shrunk.{IsShrunk};
ghost use Rattle.qk_splitmix.specs.Attempts.{attempt_gen};

use crate::family::PropertyFamily;
use crate::point::Point;
use crate::settings::RunSettings;
use crate::trial::generator_of;
use qk_base::{Gate, Memory};
use qk_command::{Drawn, draw_all_shared};
use qk_core::{Core, Property};
use qk_eval::Shared;
use qk_minimise::{Minimum, descend, greedy};
use std::alloc::Global;
use std::thread::Threads;

/// What an attempt draws at a size, in a run with that seed.
pub fn drawn_point(
    alloc: Global,
    core: &Core,
    property: &Property,
    seed: u64,
    fuel: u32,
    attempt: u64,
    size: u32,
) -> Result<Point, Memory>
    requires { size ≤ 1000 }
    ensures point { IfOk result (λ point. point ≡ drawn_at core.now property.now seed fuel attempt size) }
    ensures small { IfOk result (λ point. IsSmallPoint point) }
{
    let own = generator_of(seed, attempt);
    let Drawn { values, crash } = draw_all_shared(alloc, core, property, own, size, fuel)?;
    are_small(&values);
    Ok(Point { values, crash })
}

// That shared values are small, whatever they are.
fn are_small(values: &[Shared])
    ensures { AreSmall values.now }
{
    for value in values {
        value.is_small();
    }
}

/// Shrinks a failing point, by the descent or greedily.
pub fn shrink<R: Threads + Sync, G: Gate>(
    rt: &R,
    alloc: Global,
    gate: &G,
    core: &Core,
    property: &Property,
    settings: &RunSettings,
    point: Point,
) -> Result<Minimum<Point>, Memory>
    requires in_range { AreInRange settings.now }
    requires small { IsSmallPoint point }
    requires fails { fails_at core.now property.now settings.now.fuel point ≡ true }
    ensures shrunk { IfOk result (λ minimum. IsShrunk (report_settings settings.now) core.now property.now point minimum) }
    ensures small { IfOk result (λ minimum. IsSmallPoint minimum.point) }
{
    let family = PropertyFamily::make(core, property, settings.fuel);
    let limit = settings.shrinks;
    let workers = settings.workers;
    if settings.greedy {
        greedy(rt, alloc, gate, &family, point, limit, workers)
    } else {
        descend(rt, alloc, gate, &family, point, limit, workers)
    }
}
