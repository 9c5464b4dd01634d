//! Greedy shrinking over numbers.
ghost use Rattle.std.specs.Prelude.{◌≡◌, ◌<◌, ◌≤◌, ◌==◌, ◌||◌, true, cond, nat_eq, [], ◌∷◌, ⊤};

use super::Halves;
use qk_base::{Family, Memory, OpenGate, OrderGate, Seq};
use qk_minimise::{Minimum, greedy, walk};
use qk_path::{ClosedPath, PathTable};
use std::alloc::Global;
use std::test::Fail;

/// The number 10 with candidates 0 and 1, and the number 1 with candidates 2, 3 and 4. Only 10 and 1 fail.
#[derive(Drop)]
struct Forked;

impl Family for Forked {
    type Point = u64;

    type Spread = u64;

    ghost owns = { λ _ _. ⊤ };

    ghost children = { λ _ point. cond (nat_eq point 10) (0 ∷ 1 ∷ []) (cond (nat_eq point 1) (2 ∷ 3 ∷ 4 ∷ []) []) };

    ghost failing = { λ _ point. point == 10 || point == 1 };

    ghost listed = { λ _ point. cond (nat_eq point 10) (0 ∷ 1 ∷ []) (cond (nat_eq point 1) (2 ∷ 3 ∷ 4 ∷ []) []) };

    fn spread(&self, _alloc: Global, point: &u64) -> Result<u64, Memory> {
        Ok(*point)
    }

    fn count(&self, spread: &u64) -> u64 {
        if *spread == 10 {
            2
        } else if *spread == 1 {
            3
        } else {
            0
        }
    }

    fn child(&self, _alloc: Global, spread: &u64, k: u64) -> Result<u64, Memory> {
        Ok(if *spread == 10 { k } else { k + 2 })
    }

    fn fails(&self, _alloc: Global, point: &u64) -> Result<bool, Memory> {
        Ok(*point == 10 || *point == 1)
    }

    ghost children_are_owned = { λ family point owned k d within. tt };
}

fn is_by(minimum: &Minimum<u64>, path: &[u64], point: u64) -> bool {
    minimum.point == point && minimum.path.as_slice() == path && minimum.tried.is_none()
}

#[test]
fn walkers_do_not_wait_between_levels(rt: HostRuntime) -> Result<(), Fail> {
    let mut order = Seq::make(rt.alloc());
    order.append(&[1, 2, 0])?;
    let gate = OrderGate::make(order, 200_000_000);
    let found = greedy(&rt, rt.alloc(), &gate, &Forked, 10, 10, 2)?;
    assert!(rt; is_by(&found, &[1], 1));
    assert!(rt; !found.limit_met);
    assert!(rt; gate.kept());
    Ok(())
}

/// The walk of one walker that has its table for itself, and whether it is done in the end.
fn walk_alone<F: Family>(
    alloc: Global,
    family: &F,
    root: &F::Point,
    limit: u32,
) -> Result<(ClosedPath, bool), Memory>
    requires owned { F.owns family.now root.now }
    requires fails { F.failing family.now root.now ≡ true }
    requires limit { limit ≤ 1024 }
{
    let (table, mut walkers) = PathTable::make(alloc, family, root, 1, limit)?;
    let Some(mut walker) = walkers.pop() else {
        unreachable!()
    };
    walk(alloc, &OpenGate, &table, &mut walker)?;
    let done = walker.done();
    walkers.add(walker)?;
    Ok((table.close(walkers), done))
}

#[test]
fn one_walker_descends(rt: HostRuntime) -> Result<(), Fail> {
    for (least, more, start, limit, path, met) in [
        (31, (31, 31), 31, 1024, [].as_slice(), false),
        (16, (8, 12), 16, 10, [1].as_slice(), false),
        (5, (5, 5), 31, 2, [1, 1].as_slice(), true),
        (5, (5, 5), 31, 0, [].as_slice(), true),
        (0, (0, 0), 31, 1024, [0].as_slice(), false),
    ] {
        let halves = Halves { least, more };
        let (closed, done) = walk_alone(rt.alloc(), &halves, &start, limit)?;
        assert_eq!(rt; closed.path.as_slice(), path);
        assert_eq!(rt; (closed.limit_met, done), (met, !met));
    }
    Ok(())
}
