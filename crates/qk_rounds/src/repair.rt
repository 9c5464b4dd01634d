//! One round of repair.
ghost use Rattle.std.specs.Prelude.{◌≡◌, ℕ, ◌+◌, ◌^◌, ◌<◌, ◌≤◌, length, All, IfOk, OnOk, OnErr, None};
ghost use Rattle.qk_schedule.specs.Course.{TakesAll};
ghost use Rattle.qk_rounds.specs.Trial.{Includes};
ghost use Rattle.qk_rounds.specs.Windows.{answers_of, stored};
ghost use Rattle.qk_rounds.specs.Round.{Knows, IsRound};

use crate::due::{due_slots, scan_due};
use crate::fold::{any_due, fold_slots};
use crate::folded::Folded;
use crate::known::Known;
use crate::slots::Slots;
use crate::store::store;
use crate::trial::Trial;
use qk_base::{Gate, Memory};
use qk_scan::Pace;
use qk_schedule::Course;
use std::alloc::Global;
use std::thread::Threads;

/// Runs the attempts of the due slots up to the first that fails, and stores their outcomes. It answers how many there are.
fn repair_due<R: Threads + Sync, T: Trial, G: Gate>(
    rt: &R,
    alloc: Global,
    gate: &G,
    trial: &T,
    from: u64,
    folded: &[Folded],
    slots: &mut [Option<Known>],
    pace: &mut Pace,
) -> Result<u32, Memory>
    requires early { from ≤ 2 ^ 32 }
    requires few { length slots.old ≤ 4096 }
    requires within { length folded.now ≤ length slots.old }
    requires small { All (λ f. f.size ≤ 1000) folded.now }
    requires among { (i : ℕ) → i < length slots.old → Includes (T.prepared trial.now) (from + i) }
    ensures stores { OnOk result (slots.new ≡ stored folded.now (answers_of (T.outcome trial.now) from folded.now) slots.old) }
    ensures count { IfOk result (λ count. count ≡ length (answers_of (T.outcome trial.now) from folded.now)) }
    ensures err { OnErr result (slots.new ≡ slots.old) }
{
    let due = due_slots(alloc, folded)?;
    let answers = scan_due(rt, alloc, gate, trial, from, due.as_slice(), pace)?;
    let count = answers.len() as u32;
    store(slots, due.as_slice(), answers);
    Ok(count)
}

/// One round of repair. The sizes of the window's attempts are predicted from the state on; slots that are unknown, or that know
/// another size, are due, and are guessed to repeat what they know, else to pass. The due attempts run up to the first that fails,
/// and their outcomes are stored. The answer is their number; None says that no slot was due.
pub fn round<R: Threads + Sync, C: Course, T: Trial, G: Gate>(
    rt: &R,
    alloc: Global,
    gate: &G,
    course: &C,
    trial: &T,
    state: &C::State,
    from: u64,
    slots: &mut Slots,
    workers: u32,
) -> Result<Option<u32>, Memory>
    requires workers { (0 < workers) × (workers ≤ 64) }
    requires early { from ≤ 2 ^ 32 }
    requires proper { C.proper course.now state.now }
    requires running { (C.rules course.now).stop state.now ≡ None }
    requires among { (i : ℕ) → i < length slots.old → Includes (T.prepared trial.now) (from + i) }
    requires knows { Knows (T.outcome trial.now) from slots.old }
    requires takes { TakesAll (C.takes course.now) (T.outcome trial.now) }
    ensures ok { IfOk result (IsRound (C.rules course.now) (C.plans course.now) (T.outcome trial.now) state.now from slots.old slots.new) }
    ensures err { OnErr result (slots.new ≡ slots.old) }
{
    let mut pace = Pace::fixed(workers);
    round_paced(
        rt, alloc, gate, course, trial, state, from, slots, &mut pace,
    )
}

/// `round` with as many workers as a pace says.
pub(crate) fn round_paced<R: Threads + Sync, C: Course, T: Trial, G: Gate>(
    rt: &R,
    alloc: Global,
    gate: &G,
    course: &C,
    trial: &T,
    state: &C::State,
    from: u64,
    slots: &mut Slots,
    pace: &mut Pace,
) -> Result<Option<u32>, Memory>
    requires early { from ≤ 2 ^ 32 }
    requires proper { C.proper course.now state.now }
    requires running { (C.rules course.now).stop state.now ≡ None }
    requires among { (i : ℕ) → i < length slots.old → Includes (T.prepared trial.now) (from + i) }
    requires knows { Knows (T.outcome trial.now) from slots.old }
    requires takes { TakesAll (C.takes course.now) (T.outcome trial.now) }
    ensures ok { IfOk result (IsRound (C.rules course.now) (C.plans course.now) (T.outcome trial.now) state.now from slots.old slots.new) }
    ensures err { OnErr result (slots.new ≡ slots.old) }
{
    let folded = fold_slots(alloc, course, state, slots.slots.as_slice())?;
    if !any_due(folded.as_slice()) {
        return Ok(None);
    }
    let folded = folded.as_slice();
    let slots = slots.slots.as_mut_slice();
    let count = repair_due(rt, alloc, gate, trial, from, folded, slots, pace)?;
    Ok(Some(count))
}
