//! The descent.
ghost use Rattle.std.specs.Prelude.{◌≡◌, ◌<◌, ◌≤◌, ◌↔◌, true, false, length, All, IfOk};
ghost use Rattle.qk_minimise.specs.Descent.{descent};
ghost use Rattle.qk_minimise.specs.Minimal.{minimal_of};

use crate::frontier::first_failing;
use crate::minimum::Minimum;
use qk_base::{Family, Gate, Memory, Seq};
use qk_scan::Pace;
use std::alloc::Global;
use std::thread::Threads;

/// Goes from a failing point to its first failing candidate, from there to its first failing candidate, and so on, until no
/// candidate fails or `limit` steps are made; then no candidate of the last point is tried. `tried` counts, for each step, the
/// candidates up to and including the failing one, and all candidates of the last point where the limit is not met. As in
/// QuickCheck, the first failing candidate is taken; the answer is the same for every number of workers. A candidate is made
/// once to be tried and once more where it is the first failing one. The gate is entered with places in a frontier.
pub fn descend<R: Threads + Sync, F: Family, G: Gate>(
    rt: &R,
    alloc: Global,
    gate: &G,
    family: &F,
    point: F::Point,
    limit: u32,
    workers: u32,
) -> Result<Minimum<F::Point>, Memory>
    requires owned { F.owns family.now point }
    requires fails { F.failing family.now point ≡ true }
    requires limit { limit ≤ 1024 }
    requires workers { (0 < workers) × (workers ≤ 64) }
    ensures descent { IfOk result (λ minimum. minimum ≡ minimal_of (descent (F.children family.now) (F.failing family.now) limit point)) }
    ensures owned { IfOk result (λ minimum. F.owns family.now minimum.point) }
    ensures fails { IfOk result (λ minimum. F.failing family.now minimum.point ≡ true) }
    ensures steps { IfOk result (λ minimum. (length minimum.path ≤ limit) × ((minimum.limit_met ≡ true) ↔ (length minimum.path ≡ limit))) }
    ensures least { IfOk result (λ minimum. minimum.limit_met ≡ false → All (λ candidate. F.failing family.now candidate ≡ false) (F.children family.now minimum.point)) }
{
    go_down(rt, alloc, gate, family, point, limit, workers)
}

/// The descent, step by step.
fn go_down<R: Threads + Sync, F: Family, G: Gate>(
    rt: &R,
    alloc: Global,
    gate: &G,
    family: &F,
    start: F::Point,
    limit: u32,
    workers: u32,
) -> Result<Minimum<F::Point>, Memory>
    requires owned { F.owns family.now start }
    requires limit { limit ≤ 1024 }
    requires workers { (0 < workers) × (workers ≤ 64) }
    ensures descent { IfOk result (λ minimum. minimum ≡ minimal_of (descent (F.children family.now) (F.failing family.now) limit start)) }
    ensures owned { IfOk result (λ minimum. F.owns family.now minimum.point) }
{
    let mut pace = Pace::make(workers);
    let mut point = start;
    let mut path = Seq::make(alloc);
    let mut tried = 0u64;
    for step in 0..limit {
        let spread = family.spread(alloc, &point)?;
        let count = family.count(&spread);
        let Some(place) = first_failing(rt, alloc, gate, family, &spread, &mut pace)? else {
            return Ok(Minimum {
                point,
                path,
                tried: Some(tried + count),
                limit_met: false,
            });
        };
        path.add(place)?;
        tried += place + 1;
        point = family.child(alloc, &spread, place)?;
    }
    Ok(Minimum {
        point,
        path,
        tried: Some(tried),
        limit_met: true,
    })
}
