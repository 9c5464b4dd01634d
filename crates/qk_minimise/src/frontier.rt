//! Frontiers: consecutive candidates of a point, which many workers try at once.
ghost use Rattle.std.specs.Prelude.{◌≡◌, ℕ, ◌+◌, ◌^◌, ◌<◌, ◌≤◌, length, take, drop, IfOk, All, position};
ghost use Rattle.std.specs.List.{position_from};
ghost use Rattle.qk_minimise.specs.Candidates.{fails_at};

use qk_base::{Family, Gate, Memory};
use qk_scan::{Jobs, Pace, scan_paced};
use std::alloc::Global;
use std::marker::Model;
use std::thread::Threads;

/// The candidates of the first frontier of a point.
const FIRST: u64 = 64;

/// The most candidates that are scanned at once.
const MOST: u64 = 4096;

/// `count` candidates from the one of number `first` on. Job `i` asks whether candidate `first + i` fails. The answer holds no point,
/// so that a frontier takes no memory for its points.
#[derive(Drop)]
struct Frontier<'a, F: Family> {
    family: &'a F,
    spread: &'a F::Spread,
    first: u64,
    count: u32,
}

impl<'a, F: Family> Model for Frontier<'a, F> {
    ghost use Rattle.std.specs.Prelude.{◌+◌, ◌^◌, ◌≤◌, length, All};
    ghost use Rattle.qk_minimise.specs.Candidates.{Candidates};

    ghost Value = { Candidates F F.Spread };

    ghost view = { λ f. record { family = f.family.now; spread = f.spread.now; first = f.first; count = f.count } };

    ghost invariant = { λ f. (f.count ≤ 4096) × (f.first ≤ 2 ^ 40) × (f.first + f.count ≤ length (F.listed f.family.now f.spread.now)) × All (F.owns f.family.now) (F.listed f.family.now f.spread.now) };
}

impl<'a, F: Family> Jobs for Frontier<'a, F> {
    type Answer = bool;

    ghost total = { λ frontier. frontier.count };

    ghost answer_at = { λ frontier i. fails_at (F.failing frontier.family) (F.listed frontier.family frontier.spread) (frontier.first + i) };

    ghost hits = { λ _ fails. fails };

    fn count(&self) -> u32 {
        self.count
    }

    fn perform(&self, alloc: Global, index: u32) -> Result<bool, Memory> {
        let point = self
            .family
            .child(alloc, self.spread, self.first + index as u64)?;
        self.family.fails(alloc, &point)
    }

    fn hit(&self, fails: &bool) -> bool {
        *fails
    }
}

/// The place of the first hit.
fn first_hit(answers: &[bool]) -> Option<usize>
    ensures { result ≡ position (λ fails. fails) answers.now }
{
    answers.iter().position(|fails| *fails)
}

/// The number of the first failing one among `count` candidates from `first` on.
fn first_within<R: Threads + Sync, F: Family, G: Gate>(
    rt: &R,
    alloc: Global,
    gate: &G,
    family: &F,
    spread: &F::Spread,
    first: u64,
    count: u32,
    pace: &mut Pace,
) -> Result<Option<u64>, Memory>
    requires few { count ≤ 4096 }
    requires early { first ≤ 2 ^ 40 }
    requires within { first + count ≤ length (F.listed family.now spread.now) }
    requires owned { All (F.owns family.now) (F.listed family.now spread.now) }
    ensures { IfOk result (λ place. place ≡ position_from (F.failing family.now) first (take count (drop first (F.listed family.now spread.now)))) }
{
    let frontier = Frontier {
        family,
        spread,
        first,
        count,
    };
    let answers = scan_paced(rt, alloc, gate, &frontier, pace)?;
    match first_hit(answers.as_slice()) {
        None => Ok(None),
        Some(place) => Ok(Some(first + place as u64)),
    }
}

/// The number of the first failing candidate, found frontier by frontier, each four times as long as the one before.
pub(crate) fn first_failing<R: Threads + Sync, F: Family, G: Gate>(
    rt: &R,
    alloc: Global,
    gate: &G,
    family: &F,
    spread: &F::Spread,
    pace: &mut Pace,
) -> Result<Option<u64>, Memory>
    requires owned { All (F.owns family.now) (F.listed family.now spread.now) }
    ensures { IfOk result (λ place. place ≡ position (F.failing family.now) (F.listed family.now spread.now)) }
{
    let count = family.count(spread);
    let mut first = 0;
    let mut most = FIRST;
    while first < count {
        let size = (count - first).min(most);
        let place = first_within(rt, alloc, gate, family, spread, first, size as u32, pace)?;
        if place.is_some() {
            return Ok(place);
        }
        first += size;
        most = (most * 4).min(MOST);
    }
    Ok(None)
}
