//! The fold of a window: the sizes that are predicted for its slots.
ghost use Rattle.std.specs.Prelude.{◌≡◌, ◌<◌, ◌≤◌, length, IfOk, All, None};
ghost use Rattle.qk_base.specs.Judged.{cause_of};
ghost use Rattle.qk_rounds.specs.Windows.{fold, fails, is_due, is_hit, guess, some_due};

use crate::folded::Folded;
use crate::known::Known;
use qk_base::{Cause, Memory, Outcome, Seq, Verdict};
use qk_schedule::Course;
use std::alloc::Global;

/// Why an attempt failed, if it did.
pub(crate) fn failure(outcome: &Outcome) -> Option<Cause>
    ensures { result ≡ cause_of outcome.now.verdict }
{
    match outcome.verdict {
        Verdict::Fail(cause) => Some(cause),
        _ => None,
    }
}

pub(crate) fn outcome_fails(outcome: &Outcome) -> bool
    ensures { result ≡ fails outcome.now }
{
    failure(outcome).is_some()
}

fn slot_is_due(slot: &Option<Known>, size: u32) -> bool
    ensures { result ≡ is_due slot.now size }
{
    match slot {
        None => true,
        Some(known) => known.size != size,
    }
}

fn slot_is_hit(slot: &Option<Known>, size: u32) -> bool
    ensures { result ≡ is_hit slot.now size }
{
    match slot {
        None => false,
        Some(known) => known.size == size && outcome_fails(&known.outcome),
    }
}

fn slot_guess(slot: &Option<Known>) -> bool
    ensures { result ≡ guess slot.now }
{
    match slot {
        None => true,
        Some(known) => !matches!(known.outcome.verdict, Verdict::Discard),
    }
}

/// The size that is predicted for each slot, and whether it is due.
pub(crate) fn fold_slots<C: Course>(
    alloc: Global,
    course: &C,
    state: &C::State,
    slots: &[Option<Known>],
) -> Result<Seq<Folded>, Memory>
    requires proper { C.proper course.now state.now }
    requires running { (C.rules course.now).stop state.now ≡ None }
    ensures folds { IfOk result (λ folded. folded.items ≡ fold (C.plans course.now) ((C.plans course.now).plan state.now) slots.now) }
    ensures small { IfOk result (λ folded. All (λ f. f.size ≤ 1000) folded.items) }
    ensures within { IfOk result (λ folded. length folded.items ≤ length slots.now) }
{
    let mut folded = Seq::make(alloc);
    folded.reserve(slots.len())?;
    let mut plan = course.plan(state);
    for slot in slots {
        let size = course.plan_size(plan);
        let due = slot_is_due(slot, size);
        folded.add(Folded { size, due })?;
        let hit = slot_is_hit(slot, size);
        plan = course.plan_step(plan, slot_guess(slot));
        if hit || course.plan_ends(plan) {
            return Ok(folded);
        }
    }
    Ok(folded)
}

pub(crate) fn any_due(folded: &[Folded]) -> bool
    ensures { result ≡ some_due folded.now }
{
    folded.iter().any(|slot| slot.due)
}
