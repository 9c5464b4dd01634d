//! One walker of a greedy shrink.
ghost use Rattle.std.specs.Prelude.{◌≡◌, ℕ, ◌<◌, ◌^◌, List, [], ◌∷◌, ◌++◌, length, IfOk, OnErr};
ghost use Rattle.qk_totals.specs.Totals.{drawn};
ghost use Rattle.qk_path.specs.Points.{Leads, reached, width};
ghost use Rattle.qk_path.specs.Views.{IsEmptyView};
ghost use Rattle.qk_path.specs.Walkers.{view_of, IsWalkerOf};
ghost use Rattle.qk_minimise.specs.Walk.{Walks, Halted, Tried, Turned, Passed, Walked};

use qk_base::{Family, Gate, Memory};
use qk_path::{PathTable, Taken, Walker};
use std::alloc::Global;

/// A number's low 32 bits are what it leaves by this one.
const WIDE: u64 = 1 << 32;

/// What one turn of a walker came to.
#[derive(Drop)]
enum Turn {
    /// It drew a number, and no step was taken.
    Claimed,
    /// It knows one more step.
    Moved(u64),
    /// It is done, and no step was taken.
    Left,
}

/// Tries a candidate that was drawn, and offers it where it fails: the step that the walker then knows.
fn try_one<F: Family, G: Gate>(
    alloc: Global,
    gate: &G,
    table: &PathTable<'_, F>,
    walker: &mut Walker<F>,
    spread: &F::Spread,
    number: u64,
) -> Result<Option<u64>, Memory>
    requires walker { IsWalkerOf table.now.table.shared.table_id table.now.family.now table.now.root.now table.now.limit walker.old }
    requires level { length (view_of walker.old).path < table.now.limit }
    requires number { (0 < drawn (length (view_of walker.old).path) number (view_of walker.old).draws) × (number < 2 ^ 40) × (number < width (F.children table.now.family.now) table.now.root.now (view_of walker.old).path) }
    requires spread { F.listed table.now.family.now spread.now ≡ F.children table.now.family.now (reached (F.children table.now.family.now) table.now.root.now (view_of walker.old).path) }
    requires owned { F.owns table.now.family.now table.now.root.now }
    requires leads { Leads (F.children table.now.family.now) (F.failing table.now.family.now) table.now.root.now (view_of walker.old).path }
    ensures walker { IsWalkerOf table.now.table.shared.table_id table.now.family.now table.now.root.now table.now.limit walker.new }
    ensures tried { IfOk result (Tried (F.children table.now.family.now) (F.failing table.now.family.now) table.now.root.now number (view_of walker.old) (view_of walker.new)) }
    ensures failed { OnErr result (view_of walker.new ≡ view_of walker.old) }
{
    gate.enter((number % WIDE) as u32);
    let family = table.family();
    let point = family.child(alloc, spread, number)?;
    if family.fails(alloc, &point)? {
        match table.offer(walker, number) {
            Taken::Mine => Ok(Some(number)),
            Taken::Other(step) => Ok(Some(step)),
        }
    } else {
        Ok(None)
    }
}

/// One look and, where it finds no step and the walker is not done, one claim.
fn one_turn<F: Family, G: Gate>(
    alloc: Global,
    gate: &G,
    table: &PathTable<'_, F>,
    walker: &mut Walker<F>,
    spread: &F::Spread,
) -> Result<Turn, Memory>
    requires walker { IsWalkerOf table.now.table.shared.table_id table.now.family.now table.now.root.now table.now.limit walker.old }
    requires level { length (view_of walker.old).path < table.now.limit }
    requires walks { Walks (F.children table.now.family.now) (F.failing table.now.family.now) table.now.root.now (view_of walker.old) }
    requires spread { F.listed table.now.family.now spread.now ≡ F.children table.now.family.now (reached (F.children table.now.family.now) table.now.root.now (view_of walker.old).path) }
    requires owned { F.owns table.now.family.now table.now.root.now }
    ensures walker { IsWalkerOf table.now.table.shared.table_id table.now.family.now table.now.root.now table.now.limit walker.new }
    ensures turned { IfOk result (Turned (F.children table.now.family.now) (F.failing table.now.family.now) table.now.root.now (view_of walker.old) (view_of walker.new)) }
    ensures halted { OnErr result (Halted (F.children table.now.family.now) (F.failing table.now.family.now) table.now.root.now (view_of walker.new)) }
{
    if let Some(step) = table.look(walker) {
        return Ok(Turn::Moved(step));
    }
    if walker.done() {
        return Ok(Turn::Left);
    }
    let count = table.family().count(spread);
    let number = table.claim(walker, count);
    if count <= number {
        return Ok(Turn::Claimed);
    }
    match try_one(alloc, gate, table, walker, spread, number)? {
        Some(step) => Ok(Turn::Moved(step)),
        None => Ok(Turn::Claimed),
    }
}

/// Stays at a level until a step is known there, or the walker is done.
fn stay<F: Family, G: Gate>(
    alloc: Global,
    gate: &G,
    table: &PathTable<'_, F>,
    walker: &mut Walker<F>,
    spread: &F::Spread,
) -> Result<Option<u64>, Memory>
    requires walker { IsWalkerOf table.now.table.shared.table_id table.now.family.now table.now.root.now table.now.limit walker.old }
    requires level { length (view_of walker.old).path < table.now.limit }
    requires walks { Walks (F.children table.now.family.now) (F.failing table.now.family.now) table.now.root.now (view_of walker.old) }
    requires spread { F.listed table.now.family.now spread.now ≡ F.children table.now.family.now (reached (F.children table.now.family.now) table.now.root.now (view_of walker.old).path) }
    requires owned { F.owns table.now.family.now table.now.root.now }
    ensures walker { IsWalkerOf table.now.table.shared.table_id table.now.family.now table.now.root.now table.now.limit walker.new }
    ensures passed { IfOk result (Passed (F.children table.now.family.now) (F.failing table.now.family.now) table.now.root.now (view_of walker.old).path (view_of walker.new)) }
    ensures halted { OnErr result (Halted (F.children table.now.family.now) (F.failing table.now.family.now) table.now.root.now (view_of walker.new)) }
{
    loop {
        match one_turn(alloc, gate, table, walker, spread)? {
            Turn::Claimed => {}
            Turn::Moved(step) => return Ok(Some(step)),
            Turn::Left => return Ok(None),
        }
    }
}

/// The candidates of the point that the walker has reached by its last step, given those of the point before.
fn next_spread<F: Family>(
    alloc: Global,
    table: &PathTable<'_, F>,
    walker: &Walker<F>,
    spread: &F::Spread,
    step: u64,
) -> Result<F::Spread, Memory>
    requires step { (before : List ℕ) × ((view_of walker.now).path ≡ before ++ step ∷ []) × (F.listed table.now.family.now spread.now ≡ F.children table.now.family.now (reached (F.children table.now.family.now) table.now.root.now before)) }
    requires owned { F.owns table.now.family.now table.now.root.now }
    requires leads { Leads (F.children table.now.family.now) (F.failing table.now.family.now) table.now.root.now (view_of walker.now).path }
    ensures { IfOk result (λ next. F.listed table.now.family.now next ≡ F.children table.now.family.now (reached (F.children table.now.family.now) table.now.root.now (view_of walker.now).path)) }
{
    let _ = walker;
    let family = table.family();
    let point = family.child(alloc, spread, step)?;
    family.spread(alloc, &point)
}

/// One walker of a greedy shrink, which callers may run from threads of their own. It waits for nobody. It looks before each claim, and
/// moves on where a step was taken. Else it claims, enters the gate with the low 32 bits of the number, tries the candidate and, where that
/// fails, offers it. It ends at the limit, or where it is done at its level and sees no step. After want of memory the walker keeps the
/// steps that it made.
pub fn walk<F: Family, G: Gate>(
    alloc: Global,
    gate: &G,
    table: &PathTable<'_, F>,
    walker: &mut Walker<F>,
) -> Result<(), Memory>
    requires walker { IsWalkerOf table.now.table.shared.table_id table.now.family.now table.now.root.now table.now.limit walker.old × IsEmptyView (view_of walker.old) }
    requires owned { F.owns table.now.family.now table.now.root.now }
    ensures walker { IsWalkerOf table.now.table.shared.table_id table.now.family.now table.now.root.now table.now.limit walker.new }
    ensures walked { IfOk result (λ _. Walked (F.children table.now.family.now) (F.failing table.now.family.now) table.now.root.now table.now.limit (view_of walker.new)) }
    ensures halted { OnErr result (Halted (F.children table.now.family.now) (F.failing table.now.family.now) table.now.root.now (view_of walker.new)) }
{
    if table.limit() == 0 {
        return Ok(());
    }
    let mut spread = table.family().spread(alloc, table.root())?;
    while let Some(step) = stay(alloc, gate, table, walker, &spread)? {
        if walker.level() == table.limit() {
            return Ok(());
        }
        spread = next_spread(alloc, table, walker, &spread, step)?;
    }
    Ok(())
}
