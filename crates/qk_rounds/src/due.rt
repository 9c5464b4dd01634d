//! The due slots of a window, and their attempts as the jobs of a scan.
ghost use Rattle.std.specs.Prelude.{◌≡◌, ℕ, ◌+◌, ◌^◌, ◌<◌, ◌≤◌, length, map, IfOk, All};
ghost use Rattle.qk_base.specs.Judged.{Judged};
ghost use Rattle.qk_scan.specs.Prefix.{prefix_to_hit};
ghost use Rattle.qk_rounds.specs.Due.{due_at, due_outcome, Ready};
ghost use Rattle.qk_rounds.specs.Windows.{fails};

use crate::fold::outcome_fails;
use crate::folded::Folded;
use crate::trial::Trial;
use qk_base::{Gate, Memory, Outcome, Seq};
use qk_scan::{Jobs, Pace, scan_paced};
use std::alloc::Global;
use std::thread::Threads;

/// A due slot, by its place in the window, and its predicted size.
#[derive(Clone, Copy, Debug)]
pub struct Due {
    pub index: u32,
    pub size: u32,
}

/// The due slots in order.
pub(crate) fn due_slots(alloc: Global, folded: &[Folded]) -> Result<Seq<Due>, Memory>
    requires { length folded.now ≤ 4096 }
    ensures { IfOk result (λ due. due.items ≡ due_at 0 folded.now) }
{
    let mut due = Seq::make(alloc);
    due.reserve(folded.len())?;
    for i in 0..folded.len() {
        if folded[i].due {
            due.add(Due {
                index: i as u32,
                size: folded[i].size,
            })?;
        }
    }
    Ok(due)
}

/// The attempts of due slots; slot 0 is that of attempt `from`.
#[derive(Drop)]
struct DueTrials<'a, T: Trial> {
    trial: &'a T,
    from: u64,
    due: &'a [Due],
    ghost early: { from ≤ 2 ^ 32 },
    ghost few: { length due.now ≤ 4096 },
    ghost ready: { Ready (T.prepared trial.now) from due.now },
}

impl<'a, T: Trial> Jobs for DueTrials<'a, T> {
    type Answer = Outcome;

    ghost use Rattle.std.specs.Prelude.{length, slice_index_or};

    ghost total = { λ jobs. length jobs.due.now };

    ghost answer_at = { λ jobs i. due_outcome (T.outcome jobs.trial.now) jobs.from (slice_index_or jobs.due.now i (record { index = 0; size = 0 })) };

    ghost hits = { λ _ outcome. fails outcome };

    fn count(&self) -> u32 {
        self.due.len() as u32
    }

    fn perform(&self, alloc: Global, index: u32) -> Result<Outcome, Memory> {
        let due = self.due[index as usize];
        self.trial
            .perform(alloc, self.from + due.index as u64, due.size)
    }

    fn hit(&self, outcome: &Outcome) -> bool {
        outcome_fails(outcome)
    }
}

/// The outcomes of the due slots up to the first that fails.
pub(crate) fn scan_due<R: Threads + Sync, T: Trial, G: Gate>(
    rt: &R,
    alloc: Global,
    gate: &G,
    trial: &T,
    from: u64,
    due: &[Due],
    pace: &mut Pace,
) -> Result<Seq<Outcome>, Memory>
    requires early { from ≤ 2 ^ 32 }
    requires few { length due.now ≤ 4096 }
    requires ready { Ready (T.prepared trial.now) from due.now }
    ensures { IfOk result (λ answers. answers.items ≡ prefix_to_hit fails (map (λ d. due_outcome (T.outcome trial.now) from d) due.now)) }
{
    let jobs = DueTrials { trial, from, due };
    scan_paced(rt, alloc, gate, &jobs, pace)
}
