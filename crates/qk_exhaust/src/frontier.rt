//! Frontiers: consecutive cases, which many workers judge at once.
ghost use Rattle.std.specs.Prelude.{◌≡◌, ℕ, ◌+◌, ◌^◌, ◌<◌, ◌≤◌, length, min, take, drop, IfOk};
ghost use Rattle.qk_exhaust.specs.Run.{fails, walked};

use crate::cases::Cases;
use crate::walked::{Walked, walk};
use qk_base::{Gate, Memory, Verdict};
use qk_scan::{Jobs, scan};
use std::alloc::Global;
use std::marker::Model;
use std::thread::Threads;

/// `count` cases from the one of number `first` on. Job `i` judges case `first + i`.
#[derive(Drop)]
struct Frontier<'a, C: Cases> {
    cases: &'a C,
    first: u64,
    count: u32,
}

impl<'a, C: Cases> Model for Frontier<'a, C> {
    ghost use Rattle.std.specs.Prelude.{◌+◌, ◌^◌, ◌≤◌, length, min};
    ghost use Rattle.qk_exhaust.specs.Stretches.{Stretch};

    ghost Value = { Stretch C };

    ghost view = { λ f. record { cases = f.cases.now; first = f.first; count = f.count } };

    ghost invariant = { λ f. (f.count ≤ 4096) × (f.first + f.count ≤ min (length (C.verdicts f.cases.now)) (2 ^ 40)) };
}

impl<'a, C: Cases> Jobs for Frontier<'a, C> {
    type Answer = Verdict;

    ghost use Rattle.std.specs.Prelude.{get_or, ◌+◌};
    ghost use Rattle.qk_base.specs.declared.outcome.Verdict.TheVariants as told;

    ghost total = { λ frontier. frontier.count };

    ghost answer_at = { λ frontier i. get_or (C.verdicts frontier.cases) (frontier.first + i) told.Pass };

    ghost hits = { λ _ verdict. fails verdict };

    fn count(&self) -> u32 {
        self.count
    }

    fn perform(&self, alloc: Global, index: u32) -> Result<Verdict, Memory> {
        self.cases.verdict(alloc, self.first + index as u64)
    }

    fn hit(&self, verdict: &Verdict) -> bool {
        matches!(verdict, Verdict::Fail(_))
    }
}

/// The walk over `count` cases from `first` on, before which so many were discarded.
pub(crate) fn walk_frontier<R: Threads + Sync, C: Cases, G: Gate>(
    rt: &R,
    alloc: Global,
    gate: &G,
    cases: &C,
    before: (u64, u64),
    count: u32,
    workers: u32,
) -> Result<Walked, Memory>
    requires workers { (0 < workers) × (workers ≤ 64) }
    requires few { count ≤ 4096 }
    requires within { before.0 + count ≤ min (length (C.verdicts cases.now)) (2 ^ 40) }
    requires fewer { before.1 ≤ before.0 }
    ensures walked { IfOk result (λ w. w ≡ walked before.0 before.1 (take count (drop before.0 (C.verdicts cases.now)))) }
    ensures fewer { IfOk result (λ w. w.discards ≤ before.0 + count) }
{
    let frontier = Frontier {
        cases,
        first: before.0,
        count,
    };
    let answers = scan(rt, alloc, gate, &frontier, workers)?;
    let walked = walk(answers.as_slice(), before.0, before.1);
    Ok(walked)
}
