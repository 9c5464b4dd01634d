//! The run over all cases, or over the first of them.
ghost use Rattle.std.specs.Prelude.{◌≡◌, ◌<◌, ◌≤◌, length, take, IfOk};
ghost use Rattle.qk_exhaust.specs.Run.{IsExhausted, walked};

use crate::cases::Cases;
use crate::frontier::walk_frontier;
use crate::walked::Walked;
use qk_base::{Gate, Memory};
use std::alloc::Global;
use std::thread::Threads;

/// The most cases that are scanned at once.
const FRONTIER: u64 = 4096;

/// How many cases were looked at, whether these are all, and what the walk over them came to.
#[derive(Clone, Copy, Debug, PartialEq, Eq)]
pub struct Exhausted {
    pub looked: u64,
    pub all: bool,
    pub walked: Walked,
}

/// Judges the first `most` cases, or all where there are no more, up to the first that fails. The answer is the same for every number
/// of workers and every interleaving of their steps.
pub fn exhaust<R: Threads + Sync, C: Cases, G: Gate>(
    rt: &R,
    alloc: Global,
    gate: &G,
    cases: &C,
    most: u64,
    workers: u32,
) -> Result<Exhausted, Memory>
    requires workers { (0 < workers) × (workers ≤ 64) }
    requires most { most ≤ 1000000 }
    ensures { IfOk result (λ e. IsExhausted most (C.verdicts cases.now) e) }
{
    let count = cases.count();
    let looked = count.min(most);
    let walked = walk_cases(rt, alloc, gate, cases, looked, workers)?;
    Ok(Exhausted {
        looked,
        all: count <= most,
        walked,
    })
}

// The walk over the first cases, frontier by frontier.
fn walk_cases<R: Threads + Sync, C: Cases, G: Gate>(
    rt: &R,
    alloc: Global,
    gate: &G,
    cases: &C,
    looked: u64,
    workers: u32,
) -> Result<Walked, Memory>
    requires workers { (0 < workers) × (workers ≤ 64) }
    requires looked { (looked ≤ 1000000) × (looked ≤ length (C.verdicts cases.now)) }
    ensures { IfOk result (λ w. w ≡ walked 0 0 (take looked (C.verdicts cases.now))) }
{
    let mut first = 0;
    let mut discards = 0;
    while first < looked {
        let size = (looked - first).min(FRONTIER);
        let walked = walk_frontier(
            rt,
            alloc,
            gate,
            cases,
            (first, discards),
            size as u32,
            workers,
        )?;
        if walked.failed.is_some() {
            return Ok(walked);
        }
        discards = walked.discards;
        first += size;
    }
    Ok(Walked {
        failed: None,
        discards,
    })
}
