//! Descents over numbers.
ghost use Rattle.std.specs.Prelude.{◌≡◌, true, ◌<◌, ◌≤◌, ◌+◌, ◌-◌, ◌/◌, ◌^◌, ◌==◌, ◌||◌, ⊤, min, nat_le, map, length};
ghost use Rattle.std.specs.List.{range_with_len};

use qk_base::{Family, Memory, OpenGate};
use qk_minimise::{Minimum, descend};
use std::alloc::Global;
use std::process::Abort;
use std::test::Fail;

mod shrinks;

/// The numbers below 32. The candidates of x are x less x, x / 2, x / 4 and so on. What is at least `least` fails, and two more.
#[derive(Drop)]
struct Halves {
    least: u64,
    more: (u64, u64),
}

impl Family for Halves {
    type Point = u64;

    type Spread = u64;

    ghost owns = { λ _ _. ⊤ };

    ghost children = { λ _ x. map (λ k. x - x / 2 ^ k) (range_with_len 0 (min x 1 + min (x / 2) 1 + min (x / 4) 1 + min (x / 8) 1 + min (x / 16) 1)) };

    ghost failing = { λ family x. nat_le family.least x || x == family.more.0 || x == family.more.1 };

    ghost listed = { λ _ x. map (λ k. x - x / 2 ^ k) (range_with_len 0 (min x 1 + min (x / 2) 1 + min (x / 4) 1 + min (x / 8) 1 + min (x / 16) 1)) };

    fn spread(&self, _alloc: Global, point: &u64) -> Result<u64, Memory> {
        Ok(*point)
    }

    fn count(&self, spread: &u64) -> u64 {
        let x = *spread;
        x.min(1) + (x / 2).min(1) + (x / 4).min(1) + (x / 8).min(1) + (x / 16).min(1)
    }

    fn child(&self, _alloc: Global, spread: &u64, k: u64) -> Result<u64, Memory> {
        Ok(*spread - (*spread >> k))
    }

    fn fails(&self, _alloc: Global, point: &u64) -> Result<bool, Memory> {
        Ok(self.least <= *point || *point == self.more.0 || *point == self.more.1)
    }

    ghost children_are_owned = { λ family point owned k d within. tt };
}

fn expect(
    rt: &impl Abort,
    minimum: &Minimum<u64>,
    point: u64,
    path: &[u64],
    tried: u64,
    met: bool,
) {
    assert_eq!(rt; minimum.point, point);
    assert_eq!(rt; minimum.path.as_slice(), path);
    assert_eq!(rt; minimum.tried, Some(tried));
    assert_eq!(rt; minimum.limit_met, met);
}

// From each number by at most so many steps, with one, two and many workers.
#[test]
fn first_failing_candidates(rt: HostRuntime) -> Result<(), Fail> {
    let five = Halves {
        least: 5,
        more: (5, 5),
    };
    let three = Halves {
        least: 16,
        more: (8, 12),
    };
    for workers in [1, 2, 64] {
        let whole = descend(&rt, rt.alloc(), &OpenGate, &five, 8, 1024, workers)?;
        expect(&rt, &whole, 5, &[2, 2], 9, false);
        let two = descend(&rt, rt.alloc(), &OpenGate, &five, 8, 2, workers)?;
        expect(&rt, &two, 5, &[2, 2], 6, true);
        let none = descend(&rt, rt.alloc(), &OpenGate, &five, 8, 0, workers)?;
        expect(&rt, &none, 8, &[], 0, true);
        let found = descend(&rt, rt.alloc(), &OpenGate, &three, 16, 1024, workers)?;
        expect(&rt, &found, 8, &[1], 6, false);
    }
    Ok(())
}
