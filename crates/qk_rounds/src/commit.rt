//! The slots of a settled window, committed in order.
ghost use Rattle.std.specs.Prelude.{◌≡◌, ℕ, ◌+◌, ◌^◌, ◌<◌, ◌≤◌, length, List, IfOk, OnErr, ◌↔◌};
ghost use Rattle.qk_base.specs.Judged.{Judged};
ghost use Rattle.qk_rounds.specs.Work.{committed};
ghost use Rattle.qk_rounds.specs.Commit.{Committable, IsCommit, StandsForPrefix};

use crate::fold::failure;
use crate::known::Known;
use qk_base::{Memory, Tally};
use qk_schedule::{Course, Finish};
use std::alloc::Global;

/// The number after the last committed one, and how the run ended, if it has.
#[derive(Clone, Copy)]
pub(crate) struct CommitEnd {
    pub(crate) next: u64,
    pub(crate) finish: Option<Finish>,
}

/// Commits the slots in order, up to one that knows a Fail; the first is that of attempt `from`.
pub(crate) fn commit<C: Course, K: Tally>(
    alloc: Global,
    course: &C,
    state: &mut C::State,
    tally: &mut K,
    slots: &[Option<Known>],
    from: u64,
) -> Result<CommitEnd, Memory>
    requires early { from ≤ 2 ^ 32 }
    requires few { length slots.now ≤ 4096 }
    requires ready { Committable (C.rules course.now) (C.proper course.now) (λ o. C.takes course.now o × K.takes tally.old o) slots.now state.old }
    ensures ok { IfOk result (λ end. (done : List Judged) → IsCommit (K.stands_for tally.old) (K.stands_for tally.new) done (committed (C.rules course.now) slots.now state.old from done) state.new end.next end.finish) }
    ensures err { OnErr result ((done : List Judged) → K.stands_for tally.old done → StandsForPrefix (K.stands_for tally.new) (committed (C.rules course.now) slots.now state.old from done).done) }
    ensures taking { (other : Judged) → K.takes tally.new other ↔ K.takes tally.old other }
    ensures same_made { K.made tally.new ≡ K.made tally.old }
{
    let count = slots.len();
    for i in 0..count {
        let number = from + i as u64;
        match &slots[i] {
            None => unreachable!(),
            Some(known) => {
                if let Some(cause) = failure(&known.outcome) {
                    let finish = Finish::Failed {
                        attempt: number,
                        size: known.size,
                        cause,
                    };
                    return Ok(CommitEnd {
                        next: number,
                        finish: Some(finish),
                    });
                }
                tally.add(alloc, &known.outcome)?;
                course.step(state, &known.outcome);
            }
        }
    }
    Ok(CommitEnd {
        next: from + count as u64,
        finish: None,
    })
}
