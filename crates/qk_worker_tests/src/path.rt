//! Worked examples of path tables.
ghost use Rattle.std.specs.Prelude.{◌≡◌, ◌+◌, ◌<◌, ◌≤◌, ℕ, [], ◌∷◌, length, All, IfOk, Some, None, cond, nat_eq, true, ⊤};
ghost use Rattle.std.specs.Option.{IfSome, IfNone};
ghost use Rattle.qk_totals.specs.Totals.{drawn};
ghost use Rattle.qk_path.specs.Walkers.{view_of, IsWalkerOf};

use qk_base::{Family, Memory, Seq};
use qk_path::{PathTable, Taken, Walker};
use std::alloc::Global;
use std::test::Fail;

/// The number 16 with its candidates, under a property that fails for 16, 8 and 12.
struct Sixteen;

impl Family for Sixteen {
    type Point = u64;

    type Spread = bool;

    ghost owns = { λ family point. ⊤ };

    ghost children = { λ family point. cond (nat_eq point 16) (0 ∷ 8 ∷ 12 ∷ 14 ∷ 15 ∷ []) [] };

    ghost failing = { λ family point. cond (nat_eq point 16) true (cond (nat_eq point 8) true (nat_eq point 12)) };

    ghost listed = { λ family spread. cond spread (0 ∷ 8 ∷ 12 ∷ 14 ∷ 15 ∷ []) [] };

    fn spread(&self, _alloc: Global, point: &u64) -> Result<bool, Memory> {
        Ok(*point == 16)
    }

    fn count(&self, spread: &bool) -> u64 {
        if *spread { 5 } else { 0 }
    }

    fn child(&self, _alloc: Global, _spread: &bool, k: u64) -> Result<u64, Memory> {
        Ok(match k {
            0 => 0,
            1 => 8,
            2 => 12,
            3 => 14,
            _ => 15,
        })
    }

    fn fails(&self, _alloc: Global, point: &u64) -> Result<bool, Memory> {
        Ok(if *point == 16 || *point == 8 {
            true
        } else {
            *point == 12
        })
    }

    ghost children_are_owned = { λ family point owned k d within. tt };
}

fn table_of<'f>(
    alloc: Global,
    family: &'f Sixteen,
    root: &'f u64,
    limit: u32,
) -> Result<(PathTable<'f, Sixteen>, Walker<Sixteen>, Walker<Sixteen>), Memory>
    requires { (root.now ≡ 16) × (limit ≤ 10) }
    ensures { IfOk result (λ r. (r.0.root.now ≡ 16) × (r.0.limit ≡ limit) × (r.0.table.shared.key.walkers ≡ 2)
        × IsWalkerOf r.0.table.shared.table_id r.0.family.now r.0.root.now r.0.limit r.1 × ((view_of r.1).path ≡ [])
        × IsWalkerOf r.0.table.shared.table_id r.0.family.now r.0.root.now r.0.limit r.2 × ((view_of r.2).path ≡ [])) }
{
    let (table, mut walkers) = PathTable::make(alloc, family, root, 2, limit)?;
    let Some(second) = walkers.pop() else {
        unreachable!()
    };
    let Some(first) = walkers.pop() else {
        unreachable!()
    };
    Ok((table, first, second))
}

fn both(
    alloc: Global,
    table: &PathTable<'_, Sixteen>,
    first: Walker<Sixteen>,
    second: Walker<Sixteen>,
) -> Result<Seq<Walker<Sixteen>>, Memory>
    requires first { IsWalkerOf table.now.table.shared.table_id table.now.family.now table.now.root.now table.now.limit first }
    requires second { IsWalkerOf table.now.table.shared.table_id table.now.family.now table.now.root.now table.now.limit second }
    ensures { IfOk result (λ v. (length v.items ≡ 2) × All (IsWalkerOf table.now.table.shared.table_id table.now.family.now table.now.root.now table.now.limit) v.items) }
{
    let _ = table;
    let mut list = Seq::make(alloc);
    list.add(first)?;
    list.add(second)?;
    Ok(list)
}

/// A claim at the root, where the walker is not done there.
fn claim(table: &PathTable<'_, Sixteen>, walker: &mut Walker<Sixteen>) -> Option<u64>
    requires walker { IsWalkerOf table.now.table.shared.table_id table.now.family.now table.now.root.now table.now.limit walker.old }
    requires start { (table.now.root.now ≡ 16) × (0 < table.now.limit) × ((view_of walker.old).path ≡ []) }
    ensures walker { IsWalkerOf table.now.table.shared.table_id table.now.family.now table.now.root.now table.now.limit walker.new }
    ensures path { (view_of walker.new).path ≡ [] }
    ensures drawn { IfSome result (λ k. 0 < drawn 0 k (view_of walker.new).draws) }
    ensures kept { (x : ℕ) → 0 < drawn 0 x (view_of walker.old).draws → 0 < drawn 0 x (view_of walker.new).draws }
{
    if walker.done() {
        return None;
    }
    Some(table.claim(walker, 5))
}

/// Offers candidate 1 or 2 of the root.
fn offer(table: &PathTable<'_, Sixteen>, walker: &mut Walker<Sixteen>, k: u64) -> Option<Taken>
    requires walker { IsWalkerOf table.now.table.shared.table_id table.now.family.now table.now.root.now table.now.limit walker.old }
    requires start { (table.now.root.now ≡ 16) × (0 < table.now.limit) × ((view_of walker.old).path ≡ []) }
    requires drawn { 0 < drawn 0 k (view_of walker.old).draws }
    ensures walker { IsWalkerOf table.now.table.shared.table_id table.now.family.now table.now.root.now table.now.limit walker.new }
{
    if k == 1 || k == 2 {
        Some(table.offer(walker, k))
    } else {
        None
    }
}

/// A look at the root.
fn look(table: &PathTable<'_, Sixteen>, walker: &mut Walker<Sixteen>) -> Option<u64>
    requires walker { IsWalkerOf table.now.table.shared.table_id table.now.family.now table.now.root.now table.now.limit walker.old }
    requires start { (0 < table.now.limit) × ((view_of walker.old).path ≡ []) }
    ensures walker { IsWalkerOf table.now.table.shared.table_id table.now.family.now table.now.root.now table.now.limit walker.new }
    ensures path { IfNone result ((view_of walker.new).path ≡ []) }
{
    table.look(walker)
}

#[test]
fn two_walkers(rt: HostRuntime) -> Result<(), Fail> {
    let alloc = rt.alloc();
    let root = 16;
    let Ok((table, mut one, mut other)) = table_of(alloc, &Sixteen, &root, 10) else {
        panic!(rt; "memory")
    };
    let (Some(zero), Some(first)) = (claim(&table, &mut one), claim(&table, &mut one)) else {
        panic!(rt; "done")
    };
    let Some(second) = claim(&table, &mut other) else {
        panic!(rt; "done")
    };
    let (third, fourth) = (claim(&table, &mut other), claim(&table, &mut one));
    assert_eq!(rt;
        (zero, first, second, third, fourth),
        (0, 1, 2, Some(3), Some(4))
    );
    assert_eq!(rt; claim(&table, &mut other), Some(5));
    assert!(rt; other.done() && !one.done());
    assert_eq!(rt; offer(&table, &mut one, first), Some(Taken::Mine));
    assert_eq!(rt; offer(&table, &mut other, second), Some(Taken::Other(1)));
    assert_eq!(rt; (one.level(), other.level()), (1, 1));
    assert!(rt; !one.done() && !other.done());
    assert_eq!(rt; other.path(), [1].as_slice());
    assert_eq!(rt; (*table.root(), table.limit()), (16, 10));
    let Ok(list) = both(alloc, &table, one, other) else {
        panic!(rt; "memory")
    };
    let closed = table.close(list);
    assert_eq!(rt; closed.path.as_slice(), [1].as_slice());
    assert!(rt; !closed.limit_met);
    Ok(())
}

#[test]
fn a_look_after_a_step(rt: HostRuntime) -> Result<(), Fail> {
    let alloc = rt.alloc();
    let root = 16;
    let Ok((table, mut one, mut other)) = table_of(alloc, &Sixteen, &root, 1) else {
        panic!(rt; "memory")
    };
    if look(&table, &mut other).is_some() {
        panic!(rt; "no step was taken")
    }
    let (_, Some(first)) = (claim(&table, &mut one), claim(&table, &mut one)) else {
        panic!(rt; "done")
    };
    assert_eq!(rt; offer(&table, &mut one, first), Some(Taken::Mine));
    assert_eq!(rt; look(&table, &mut other), Some(1));
    let Ok(list) = both(alloc, &table, one, other) else {
        panic!(rt; "memory")
    };
    let closed = table.close(list);
    assert_eq!(rt; closed.path.as_slice(), [1].as_slice());
    assert!(rt; closed.limit_met);
    Ok(())
}
