//! The run of a property by windows that grow and shrink, and by stretches alone between them.
ghost use Rattle.std.specs.Prelude.{◌≡◌, ◌+◌, ◌^◌, ◌<◌, ◌≤◌, [], IfOk, OnErr, None, ◌↔◌};
ghost use Rattle.qk_base.specs.Judged.{Judged};
ghost use Rattle.qk_schedule.specs.Course.{TakesAll};
ghost use Rattle.qk_schedule.specs.Sequential.{sequential};
ghost use Rattle.qk_rounds.specs.Advance.{Advances, Halts};
ghost use Rattle.qk_rounds.specs.Commit.{StandsForPrefix};
ghost use Rattle.qk_rounds.specs.Run.{IsRun};
ghost use Rattle.qk_rounds.specs.Trial.{MayPrepare};

use crate::alone::stretch;
use crate::batches::Batches;
use crate::commit::{CommitEnd, commit};
use crate::known::Known;
use crate::run::ended_by;
use crate::settle::settled_window;
use crate::trial::Trial;
use crate::work::Work;
use qk_base::{Gate, Memory, Tally};
use qk_schedule::{Course, Finish};
use std::alloc::Global;
use std::thread::Threads;

/// How a run ended: the last state, and why.
#[derive(Drop)]
pub struct Reached<S> {
    pub state: S,
    pub finish: Finish,
}

const NO_WORK: Work = Work {
    windows: 0,
    rounds: 0,
    trials: 0,
};

/// The size of the last attempt of a window.
fn last_size(slots: &[Option<Known>]) -> u32 {
    match slots.last() {
        Some(Some(known)) => known.size,
        _ => 0,
    }
}

/// A window of attempts at guessed sizes, repaired until every guess was right, and committed.
fn window<R: Threads + Sync, C: Course, T: Trial, K: Tally, G: Gate>(
    rt: &R,
    alloc: Global,
    gate: &G,
    course: &C,
    trial: &mut T,
    state: &mut C::State,
    tally: &mut K,
    from: u64,
    batches: &mut Batches,
) -> Result<CommitEnd, Memory>
    requires early { (C.rules course.now).rest state.old + from ≤ 2 ^ 32 }
    requires proper { C.proper course.now state.old }
    requires running { (C.rules course.now).stop state.old ≡ None }
    requires next { MayPrepare (T.prepared trial.old) from }
    requires course_takes { TakesAll (C.takes course.now) (T.outcome trial.old) }
    requires tally_takes { TakesAll (K.takes tally.old) (T.outcome trial.old) }
    ensures ok { IfOk result (λ end. Advances (C.rules course.now) (T.outcome trial.old) (C.proper course.now) (K.stands_for tally.old) (K.stands_for tally.new) state.old from state.new end.next end.finish) }
    ensures further { IfOk result (λ end. end.finish ≡ None → from < end.next) }
    ensures next { IfOk result (λ end. end.finish ≡ None → MayPrepare (T.prepared trial.new) end.next) }
    ensures err { OnErr result (Halts (C.rules course.now) (T.outcome trial.old) (K.stands_for tally.old) (K.stands_for tally.new) state.old from) }
    ensures same_outcomes { T.outcome trial.new ≡ T.outcome trial.old }
    ensures taking { (other : Judged) → K.takes tally.new other ↔ K.takes tally.old other }
    ensures same_made { K.made tally.new ≡ K.made tally.old }
{
    let slots = batches.window();
    trial.prepare(alloc, from, slots)?;
    let pace = &mut batches.pace;
    let settled = settled_window(
        rt, alloc, gate, course, trial, state, from, slots, pace, NO_WORK,
    )?;
    let folded = settled.folded();
    batches.learn(folded.len() as u32, settled.work.trials, last_size(folded));
    let end = commit(alloc, course, state, tally, folded, from)?;
    Ok(end)
}

/// The next attempts, by a stretch alone or by a window.
fn batch<R: Threads + Sync, C: Course, T: Trial, K: Tally, G: Gate>(
    rt: &R,
    alloc: Global,
    gate: &G,
    course: &C,
    trial: &mut T,
    state: &mut C::State,
    tally: &mut K,
    from: u64,
    batches: &mut Batches,
) -> Result<CommitEnd, Memory>
    requires early { (C.rules course.now).rest state.old + from ≤ 2 ^ 32 }
    requires proper { C.proper course.now state.old }
    requires running { (C.rules course.now).stop state.old ≡ None }
    requires next { MayPrepare (T.prepared trial.old) from }
    requires course_takes { TakesAll (C.takes course.now) (T.outcome trial.old) }
    requires tally_takes { TakesAll (K.takes tally.old) (T.outcome trial.old) }
    ensures ok { IfOk result (λ end. Advances (C.rules course.now) (T.outcome trial.old) (C.proper course.now) (K.stands_for tally.old) (K.stands_for tally.new) state.old from state.new end.next end.finish) }
    ensures further { IfOk result (λ end. end.finish ≡ None → from < end.next) }
    ensures next { IfOk result (λ end. end.finish ≡ None → MayPrepare (T.prepared trial.new) end.next) }
    ensures err { OnErr result (Halts (C.rules course.now) (T.outcome trial.old) (K.stands_for tally.old) (K.stands_for tally.new) state.old from) }
    ensures same_outcomes { T.outcome trial.new ≡ T.outcome trial.old }
    ensures taking { (other : Judged) → K.takes tally.new other ↔ K.takes tally.old other }
    ensures same_made { K.made tally.new ≡ K.made tally.old }
{
    let Some(count) = batches.stretch() else {
        return window(rt, alloc, gate, course, trial, state, tally, from, batches);
    };
    let most = batches.most_size();
    let end = stretch(alloc, course, trial, state, tally, from, count, most)?;
    batches.rest(count, end.next - from);
    Ok(end)
}

/// `drive` with windows that grow and shrink as they pay. Where several workers do not pay, or too many guesses are wrong, attempts run on
/// the calling thread, one after another. State, finish and committed outcomes are those of the sequential run, whatever the number of
/// workers.
pub fn drive_freely<R: Threads + Sync, C: Course, T: Trial, K: Tally, G: Gate>(
    rt: &R,
    alloc: Global,
    gate: &G,
    course: &C,
    trial: &mut T,
    tally: &mut K,
    workers: u32,
) -> Result<Reached<C::State>, Memory>
    requires workers { (0 < workers) × (workers ≤ 64) }
    requires fresh { (T.prepared trial.old).count ≡ 0 }
    requires empty { K.stands_for tally.old [] }
    requires course_takes { TakesAll (C.takes course.now) (T.outcome trial.old) }
    requires tally_takes { TakesAll (K.takes tally.old) (T.outcome trial.old) }
    ensures run { IfOk result (λ reached. IsRun reached.state reached.finish (sequential (C.rules course.now) (T.outcome trial.old))) }
    ensures tally { IfOk result (λ _. K.stands_for tally.new (sequential (C.rules course.now) (T.outcome trial.old)).done) }
    ensures memory { OnErr result (StandsForPrefix (K.stands_for tally.new) (sequential (C.rules course.now) (T.outcome trial.old)).done) }
    ensures same_outcomes { T.outcome trial.new ≡ T.outcome trial.old }
    ensures taking { (other : Judged) → K.takes tally.new other ↔ K.takes tally.old other }
    ensures same_made { K.made tally.new ≡ K.made tally.old }
{
    let mut state = course.start(alloc)?;
    let mut number = 0;
    let mut batches = Batches::make(workers);
    loop {
        if let Some(stop) = course.stop(&state) {
            let finish = ended_by(stop);
            return Ok(Reached { state, finish });
        }
        let end = batch(
            rt,
            alloc,
            gate,
            course,
            trial,
            &mut state,
            tally,
            number,
            &mut batches,
        )?;
        if let Some(finish) = end.finish {
            return Ok(Reached { state, finish });
        }
        number = end.next;
    }
}
