//! An attempt that is drawn again, and the steps from its values on.
ghost use Rattle.std.specs.Prelude.{◌≡◌, ◌≤◌, IfOk};
ghost use Rattle.qk_property.specs.Points.{children_at, fails_at, IsSmallPoint, IsSmallOr};
ghost use Rattle.qk_property.specs.Replayed.{followed, replayed, step_to};

use crate::family::PropertyFamily;
use crate::point::Point;
use crate::shrinking::drawn_point;
use qk_base::{Family, Memory};
use qk_core::{Core, Property};
use std::alloc::Global;

/// Draws an attempt again and follows the steps of a shrink from its values. There is no answer where the attempt does not fail, or
/// where a step is no candidate of the values before it or does not fail.
pub fn replay(
    alloc: Global,
    core: &Core,
    property: &Property,
    seed: u64,
    fuel: u32,
    attempt: u64,
    size: u32,
    path: &[u64],
) -> Result<Option<Point>, Memory>
    requires { size ≤ 1000 }
    ensures point { IfOk result (λ point. point ≡ replayed core.now property.now seed fuel attempt size path.now) }
    ensures small { IfOk result (λ point. IsSmallOr point) }
{
    let family = PropertyFamily::make(core, property, fuel);
    let point = drawn_point(alloc, core, property, seed, fuel, attempt, size)?;
    if !family.fails(alloc, &point)? {
        return Ok(None);
    }
    follow(alloc, &family, point, path)
}

// The point that the steps lead to.
fn follow(
    alloc: Global,
    family: &PropertyFamily<'_>,
    start: Point,
    path: &[u64],
) -> Result<Option<Point>, Memory>
    requires { IsSmallPoint start }
    ensures point { IfOk result (λ point. point ≡ followed (children_at family.now.core.now family.now.property.now family.now.fuel) (fails_at family.now.core.now family.now.property.now family.now.fuel) start path.now) }
    ensures small { IfOk result (λ point. IsSmallOr point) }
{
    let mut point = start;
    for i in 0..path.len() {
        match step(alloc, family, &point, path[i])? {
            None => return Ok(None),
            Some(next) => point = next,
        }
    }
    Ok(Some(point))
}

// The candidate of that number, where there is one and it fails.
fn step(
    alloc: Global,
    family: &PropertyFamily<'_>,
    point: &Point,
    number: u64,
) -> Result<Option<Point>, Memory>
    requires { IsSmallPoint point.now }
    ensures point { IfOk result (λ next. next ≡ step_to (children_at family.now.core.now family.now.property.now family.now.fuel) (fails_at family.now.core.now family.now.property.now family.now.fuel) point.now number) }
    ensures small { IfOk result (λ next. IsSmallOr next) }
{
    let spread = family.spread(alloc, point)?;
    if number >= family.count(&spread) {
        return Ok(None);
    }
    let candidate = family.child(alloc, &spread, number)?;
    if family.fails(alloc, &candidate)? {
        Ok(Some(candidate))
    } else {
        Ok(None)
    }
}
