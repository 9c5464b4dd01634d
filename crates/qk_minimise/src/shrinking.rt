//! Greedy shrinking.
ghost use Rattle.std.specs.Prelude.{◌≡◌, ℕ, ◌<◌, ◌≤◌, true, length, IfOk, All, None};
ghost use Rattle.qk_path.specs.Points.{Leads, reached};
ghost use Rattle.qk_minimise.specs.Crew.{IsReady};
ghost use Rattle.qk_minimise.specs.Greedy.{IsMinimum};

use crate::crew::{Hired, bring_back, crew, hire};
use crate::minimum::Minimum;
use qk_base::{Family, Gate, Memory};
use qk_path::{ClosedPath, PathTable};
use std::alloc::Global;
use std::thread::Threads;

/// Lets the walkers walk, and closes their table. Where the limit is not met, the walker whose path is the whole path is done at its end,
/// so that each candidate there was drawn by a walker that stayed there, and does not fail.
fn run_crew<R: Threads + Sync, F: Family, G: Gate>(
    rt: &R,
    alloc: Global,
    gate: &G,
    table: PathTable<'_, F>,
    mut walkers: Vec<Hired<F>>,
) -> Result<ClosedPath, Memory>
    requires all { (0 < length walkers.items) × (length walkers.items ≡ table.table.shared.key.walkers) }
    requires owned { F.owns table.family.now table.root.now }
    requires ready { All (λ h. IsReady table.table.shared.table_id table.family.now table.root.now table.limit h.walker) walkers.items }
    ensures { IfOk result (λ c. IsMinimum (F.children table.entry.family.now) (F.failing table.entry.family.now) table.entry.root.now table.entry.limit
        (reached (F.children table.entry.family.now) table.entry.root.now c.path.items) c.path.items c.limit_met) }
{
    crew(rt, alloc, gate, &table, walkers.as_mut_slice());
    let list = bring_back(alloc, &table, walkers)?;
    Ok(table.close(list))
}

/// How many walkers pay at a root: no more than it has candidates, and at least one.
fn walkers_at<F: Family>(
    alloc: Global,
    family: &F,
    root: &F::Point,
    workers: u32,
) -> Result<u32, Memory>
    requires owned { F.owns family.now root.now }
    requires workers { (0 < workers) × (workers ≤ 64) }
    ensures { IfOk result (λ walkers. (0 < walkers) × (walkers ≤ workers)) }
{
    let spread = family.spread(alloc, root)?;
    let count = family.count(&spread);
    if count < workers as u64 {
        return Ok(count.max(1) as u32);
    }
    Ok(workers)
}

/// A path to a minimum, found by many walkers.
fn find_path<R: Threads + Sync, F: Family, G: Gate>(
    rt: &R,
    alloc: Global,
    gate: &G,
    family: &F,
    root: &F::Point,
    limit: u32,
    workers: u32,
) -> Result<ClosedPath, Memory>
    requires owned { F.owns family.now root.now }
    requires fails { F.failing family.now root.now ≡ true }
    requires limit { limit ≤ 1024 }
    requires workers { (0 < workers) × (workers ≤ 64) }
    ensures { IfOk result (λ c. IsMinimum (F.children family.now) (F.failing family.now) root.now limit (reached (F.children family.now) root.now c.path.items) c.path.items c.limit_met) }
{
    let few = walkers_at(alloc, family, root, workers)?;
    let (table, walkers) = PathTable::make(alloc, family, root, few, limit)?;
    let ready = hire(alloc, &table, walkers)?;
    run_crew(rt, alloc, gate, table, ready)
}

/// The point that a path leads to.
fn follow<F: Family>(
    alloc: Global,
    family: &F,
    root: F::Point,
    path: &[u64],
) -> Result<F::Point, Memory>
    requires owned { F.owns family.now root }
    requires fails { F.failing family.now root ≡ true }
    requires leads { Leads (F.children family.now) (F.failing family.now) root path.now }
    ensures { IfOk result (λ point. (point ≡ reached (F.children family.now) root path.now) × F.owns family.now point × (F.failing family.now point ≡ true)) }
{
    let mut point = root;
    for i in 0..path.len() {
        let spread = family.spread(alloc, &point)?;
        point = family.child(alloc, &spread, path[i])?;
    }
    Ok(point)
}

/// Goes from a failing point to a failing candidate, from there to a failing candidate, and so on, until no candidate fails or `limit` steps
/// are made; then no candidate of the last point is tried. At each point the step is the failing candidate that is offered first, so that
/// which minimum is found depends on the order in which the workers come. No worker waits for another: whoever is done at a point leaves, and
/// a step takes all others on, wherever they are. No more walkers start than the first point has candidates. `tried` is none, since it depends on the workers too. The gate is entered with the low 32
/// bits of a candidate's number.
pub fn greedy<R: Threads + Sync, F: Family, G: Gate>(
    rt: &R,
    alloc: Global,
    gate: &G,
    family: &F,
    point: F::Point,
    limit: u32,
    workers: u32,
) -> Result<Minimum<F::Point>, Memory>
    requires owned { F.owns family.now point }
    requires fails { F.failing family.now point ≡ true }
    requires limit { limit ≤ 1024 }
    requires workers { (0 < workers) × (workers ≤ 64) }
    ensures minimum { IfOk result (λ minimum. IsMinimum (F.children family.now) (F.failing family.now) point limit minimum.point minimum.path minimum.limit_met) }
    ensures owned { IfOk result (λ minimum. F.owns family.now minimum.point) }
    ensures fails { IfOk result (λ minimum. F.failing family.now minimum.point ≡ true) }
    ensures tried { IfOk result (λ minimum. minimum.tried ≡ None) }
{
    let ClosedPath { path, limit_met } = find_path(
        rt, alloc, gate, family, &point, limit, workers,
    )?;
    let end = follow(alloc, family, point, path.as_slice())?;
    Ok(Minimum {
        point: end,
        path,
        tried: None,
        limit_met,
    })
}
