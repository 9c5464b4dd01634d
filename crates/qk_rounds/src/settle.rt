//! A window, repaired until none of its slots is due.
ghost use Rattle.std.specs.Prelude.{◌≡◌, ℕ, ◌+◌, ◌*◌, ◌^◌, ◌<◌, ◌≤◌, length, take, IfOk, None};
ghost use Rattle.qk_schedule.specs.Course.{TakesAll};
ghost use Rattle.qk_rounds.specs.Trial.{Includes};
ghost use Rattle.qk_rounds.specs.Round.{Knows};
ghost use Rattle.qk_rounds.specs.Window.{IsSettled, IsWindow};

use crate::fold::fold_slots;
use crate::known::Known;
use crate::repair::round_paced;
use crate::slots::Slots;
use crate::trial::Trial;
use crate::work::Work;
use qk_base::{Gate, Memory};
use qk_scan::Pace;
use qk_schedule::Course;
use std::alloc::Global;
use std::thread::Threads;

/// Rounds of repair until none is due. Each makes one more slot exact, so there are at most as many rounds as slots.
fn settle<R: Threads + Sync, C: Course, T: Trial, G: Gate>(
    rt: &R,
    alloc: Global,
    gate: &G,
    course: &C,
    trial: &T,
    state: &C::State,
    from: u64,
    slots: &mut Slots,
    pace: &mut Pace,
    begun: Work,
) -> Result<Work, Memory>
    requires early { from ≤ 2 ^ 32 }
    requires few { length slots.old ≤ 4096 }
    requires proper { C.proper course.now state.now }
    requires running { (C.rules course.now).stop state.now ≡ None }
    requires among { (i : ℕ) → i < length slots.old → Includes (T.prepared trial.now) (from + i) }
    requires knows { Knows (T.outcome trial.now) from slots.old }
    requires takes { TakesAll (C.takes course.now) (T.outcome trial.now) }
    requires little { (begun.rounds ≤ 2 ^ 62) × (begun.trials ≤ 2 ^ 62) }
    ensures { IfOk result (IsSettled (C.plans course.now) (T.outcome trial.now) state.now from slots.old slots.new begun) }
{
    let mut work = begun;
    let window = slots.len();
    for _done in 0..window {
        match round_paced(rt, alloc, gate, course, trial, state, from, slots, pace)? {
            None => return Ok(work),
            Some(count) => {
                work.rounds += 1;
                work.trials += count as u64;
            }
        }
    }
    Ok(work)
}

/// A window that is settled.
#[derive(Drop)]
pub(crate) struct Window {
    pub(crate) slots: Slots,
    pub(crate) count: usize,
    pub(crate) work: Work,
    ghost within: { count ≤ length slots },
}

impl Window {
    /// The slots of its fold.
    pub(crate) fn folded(&self) -> &[Option<Known>]
        ensures slots { result.now ≡ take self.now.count self.now.slots }
        ensures few { length result.now ≤ 4096 }
    {
        let (folded, _) = self.slots.as_slice().split_at(self.count);
        folded
    }
}

/// The window from attempt `from` on, begun and settled. The first `count` of its slots are folded.
pub(crate) fn settled_window<R: Threads + Sync, C: Course, T: Trial, G: Gate>(
    rt: &R,
    alloc: Global,
    gate: &G,
    course: &C,
    trial: &T,
    state: &C::State,
    from: u64,
    window: u32,
    pace: &mut Pace,
    before: Work,
) -> Result<Window, Memory>
    requires window { (0 < window) × (window ≤ 4096) }
    requires early { from ≤ 2 ^ 32 }
    requires proper { C.proper course.now state.now }
    requires running { (C.rules course.now).stop state.now ≡ None }
    requires prepared { T.prepared trial.now ≡ record { first = from; count = window } }
    requires takes { TakesAll (C.takes course.now) (T.outcome trial.now) }
    requires little { (before.windows ≤ 2 ^ 62) × (before.rounds ≤ 2 ^ 62) × (before.trials ≤ 2 ^ 62) }
    ensures { IfOk result (λ w. IsWindow (C.plans course.now) (T.outcome trial.now) window state.now from before w.slots w.count w.work) }
{
    let begun = Work {
        windows: before.windows + 1,
        rounds: before.rounds,
        trials: before.trials,
    };
    let mut slots = Slots::make(alloc, window)?;
    let work = settle(
        rt, alloc, gate, course, trial, state, from, &mut slots, pace, begun,
    )?;
    let count = fold_slots(alloc, course, state, slots.as_slice())?.len();
    Ok(Window { slots, count, work })
}
