//! Attempts one after another, each at its true size.
ghost use Rattle.std.specs.Prelude.{◌≡◌, ◌+◌, ◌^◌, ◌<◌, ◌≤◌, true, IfOk, OnOk, OnErr, None, ◌↔◌};
ghost use Rattle.qk_base.specs.Judged.{Judged};
ghost use Rattle.qk_schedule.specs.Course.{TakesAll};
ghost use Rattle.qk_rounds.specs.Advance.{Advances, Halts};
ghost use Rattle.qk_rounds.specs.Trial.{Includes, MayPrepare};

use crate::commit::CommitEnd;
use crate::fold::failure;
use crate::trial::Trial;
use qk_base::{Memory, Tally};
use qk_schedule::{Course, Finish};
use std::alloc::Global;

/// One attempt, committed where it does not fail, and how the run ended, if it has.
fn attempt<C: Course, T: Trial, K: Tally>(
    alloc: Global,
    course: &C,
    trial: &T,
    state: &mut C::State,
    tally: &mut K,
    number: u64,
) -> Result<Option<Finish>, Memory>
    requires proper { C.proper course.now state.old }
    requires running { (C.rules course.now).stop state.old ≡ None }
    requires among { Includes (T.prepared trial.now) number }
    requires course_takes { TakesAll (C.takes course.now) (T.outcome trial.now) }
    requires tally_takes { TakesAll (K.takes tally.old) (T.outcome trial.now) }
    ensures ok { IfOk result (λ finish. Advances (C.rules course.now) (T.outcome trial.now) (C.proper course.now) (K.stands_for tally.old) (K.stands_for tally.new) state.old number state.new (number + 1) finish) }
    ensures err { OnErr result (Halts (C.rules course.now) (T.outcome trial.now) (K.stands_for tally.old) (K.stands_for tally.new) state.old number) }
    ensures taking { (other : Judged) → K.takes tally.new other ↔ K.takes tally.old other }
    ensures same_made { K.made tally.new ≡ K.made tally.old }
{
    let size = course.size(state);
    let outcome = trial.perform(alloc, number, size)?;
    if let Some(cause) = failure(&outcome) {
        let finish = Finish::Failed {
            attempt: number,
            size,
            cause,
        };
        return Ok(Some(finish));
    }
    tally.add(alloc, &outcome)?;
    course.step(state, &outcome);
    Ok(None)
}

/// Whether the run goes on, and at no greater size.
fn goes_on<C: Course>(course: &C, state: &C::State, most: u32) -> bool
    requires proper { C.proper course.now state.now }
    ensures { result ≡ true → (C.rules course.now).stop state.now ≡ None }
{
    course.stop(state).is_none() && course.size(state) <= most
}

/// The sequential run itself, on the calling thread: at most `count` attempts, up to one that fails, or after which the run stops or the
/// next size is greater than `most`.
pub(crate) fn stretch<C: Course, T: Trial, K: Tally>(
    alloc: Global,
    course: &C,
    trial: &mut T,
    state: &mut C::State,
    tally: &mut K,
    from: u64,
    count: u32,
    most: u32,
) -> Result<CommitEnd, Memory>
    requires count { (0 < count) × (count ≤ 4096) }
    requires early { (C.rules course.now).rest state.old + from ≤ 2 ^ 32 }
    requires proper { C.proper course.now state.old }
    requires running { (C.rules course.now).stop state.old ≡ None }
    requires next { MayPrepare (T.prepared trial.old) from }
    requires course_takes { TakesAll (C.takes course.now) (T.outcome trial.old) }
    requires tally_takes { TakesAll (K.takes tally.old) (T.outcome trial.old) }
    ensures ok { IfOk result (λ end. Advances (C.rules course.now) (T.outcome trial.old) (C.proper course.now) (K.stands_for tally.old) (K.stands_for tally.new) state.old from state.new end.next end.finish) }
    ensures further { IfOk result (λ end. from < end.next) }
    ensures next { IfOk result (λ end. end.finish ≡ None → MayPrepare (T.prepared trial.new) end.next) }
    ensures err { OnErr result (Halts (C.rules course.now) (T.outcome trial.old) (K.stands_for tally.old) (K.stands_for tally.new) state.old from) }
    ensures same_outcomes { T.outcome trial.new ≡ T.outcome trial.old }
    ensures taking { (other : Judged) → K.takes tally.new other ↔ K.takes tally.old other }
    ensures same_made { K.made tally.new ≡ K.made tally.old }
{
    trial.prepare(alloc, from, count)?;
    let mut number = from;
    for _done in 0..count {
        let finish = attempt(alloc, course, trial, state, tally, number)?;
        number += 1;
        if finish.is_some() {
            return Ok(CommitEnd {
                next: number,
                finish,
            });
        }
        if !goes_on(course, state, most) {
            return Ok(CommitEnd {
                next: number,
                finish: None,
            });
        }
    }
    Ok(CommitEnd {
        next: number,
        finish: None,
    })
}
