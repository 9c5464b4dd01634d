//! The walkers of a greedy shrink, side by side.
ghost use Rattle.std.specs.Prelude.{◌≡◌, ◌<◌, length, false, IfOk, All};
ghost use Rattle.std.specs.Thread.{IsSync};
ghost use Rattle.qk_minimise.specs.Crew.{IsReady, IsDone};

use crate::walking::walk;
use qk_base::{Family, Gate, Memory, Seq};
use qk_path::{PathTable, Walker};
use std::alloc::Global;
use std::thread::{Threads, for_each_mut};

/// A walker, and whether its walk wanted memory.
#[derive(Drop)]
pub(crate) struct Hired<F: Family> {
    pub(crate) walker: Walker<F>,
    pub(crate) failed: bool,
}

/// The walkers, none of which has wanted memory.
pub(crate) fn hire<F: Family>(
    alloc: Global,
    table: &PathTable<'_, F>,
    mut walkers: Seq<Walker<F>>,
) -> Result<Vec<Hired<F>>, Memory>
    requires { All (IsReady table.now.table.shared.table_id table.now.family.now table.now.root.now table.now.limit) walkers.items }
    ensures { IfOk result (λ v. (length v.items ≡ length walkers.items) × All (λ h. IsReady table.now.table.shared.table_id table.now.family.now table.now.root.now table.now.limit h.walker) v.items) }
{
    let _ = table;
    let mut ready = Vec::with_capacity(alloc, walkers.len())?;
    while let Some(walker) = walkers.pop() {
        let failed = false;
        if ready.push(Hired { walker, failed }).is_err() {
            return Err(Memory);
        }
    }
    Ok(ready)
}

/// The walk of one walker.
fn set_off<F: Family, G: Gate>(
    alloc: Global,
    gate: &G,
    table: &PathTable<'_, F>,
    hired: &mut Hired<F>,
)
    requires owned { F.owns table.now.family.now table.now.root.now }
    requires ready { IsReady table.now.table.shared.table_id table.now.family.now table.now.root.now table.now.limit hired.old.walker }
    ensures { hired.new.failed ≡ false → IsDone table.now.table.shared.table_id (F.children table.now.family.now) (F.failing table.now.family.now) table.now.family.now table.now.root.now table.now.limit hired.new.walker }
{
    let Hired { walker, failed } = hired;
    *failed = walk(alloc, gate, table, walker).is_err();
}

/// Lets each walker walk, in a thread of its own but for the last, which walks in this one. No walker waits for another between two
/// levels.
pub(crate) fn crew<R: Threads + Sync, F: Family, G: Gate>(
    rt: &R,
    alloc: Global,
    gate: &G,
    table: &PathTable<'_, F>,
    walkers: &mut [Hired<F>],
)
    requires some { 0 < length walkers.old }
    requires owned { F.owns table.now.family.now table.now.root.now }
    requires ready { All (λ h. IsReady table.now.table.shared.table_id table.now.family.now table.now.root.now table.now.limit h.walker) walkers.old }
    ensures same { length walkers.new ≡ length walkers.old }
    ensures walked { All (λ h. h.failed ≡ false → IsDone table.now.table.shared.table_id (F.children table.now.family.now) (F.failing table.now.family.now) table.now.family.now table.now.root.now table.now.limit h.walker) walkers.new }
{
    let count = walkers.len();
    for_each_mut(
        rt,
        walkers,
        count,
        &|_place: usize, hired: &mut Hired<F>|
            requires { IsSync F.row × IsSync G.row × F.owns table.now.family.now table.now.root.now
                × IsReady table.now.table.shared.table_id table.now.family.now table.now.root.now table.now.limit hired.now.walker }
            ensures { hired.exit.now.failed ≡ false → IsDone table.entry.now.table.shared.table_id (F.children table.entry.now.family.now) (F.failing table.entry.now.family.now) table.entry.now.family.now table.entry.now.root.now table.entry.now.limit hired.exit.now.walker }
        { set_off(alloc, gate, table, hired) },
    );
}

/// The walkers, in a list as a table takes them back.
pub(crate) fn bring_back<F: Family>(
    alloc: Global,
    table: &PathTable<'_, F>,
    mut walkers: Vec<Hired<F>>,
) -> Result<Seq<Walker<F>>, Memory>
    requires { All (λ h. h.failed ≡ false → IsDone table.now.table.shared.table_id (F.children table.now.family.now) (F.failing table.now.family.now) table.now.family.now table.now.root.now table.now.limit h.walker) walkers.items }
    ensures { IfOk result (λ v. (length v.items ≡ length walkers.items)
        × All (IsDone table.now.table.shared.table_id (F.children table.now.family.now) (F.failing table.now.family.now) table.now.family.now table.now.root.now table.now.limit) v.items) }
{
    let _ = table;
    let mut list = Seq::make(alloc);
    while let Some(hired) = walkers.pop() {
        let Hired { walker, failed } = hired;
        if failed {
            return Err(Memory);
        }
        list.add(walker)?;
    }
    Ok(list)
}
