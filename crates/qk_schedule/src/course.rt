//! The course of a run.
ghost use Rattle.std.specs.Prelude.{◌≡◌, ℕ, ◌+◌, ◌^◌, ◌<◌, ◌≤◌, IfOk, None, Option, true, false, Bool};
ghost use Rattle.qk_base.specs.Judged.{Judged, DoesNotFail, passes};
ghost use Rattle.qk_schedule.specs.Course.{Rules, Plans, Lawful};

use crate::stop::Stop;
use qk_base::{Memory, Outcome};
use std::alloc::Global;

/// The states that a run goes through: where it begins, the size of each attempt, what an outcome changes, and where it stops.
/// A plan is what predicts the sizes of attempts that have not run yet.
pub trait Course: Sync {
    /// What a run has counted.
    type State: Drop;

    /// What predicts sizes.
    type Plan: Copy;

    /// The states as plain data.
    ghost rules: { Self → Rules Self.State };

    /// The plans as plain data.
    ghost plans: { Self → Plans Self.State Self.Plan };

    /// The outcomes that the course takes.
    ghost takes: { Self → Judged → Type 0 };

    /// A condition of each call that takes a state.
    ghost proper: { Self → Self.State → Type 0 };

    /// A condition of the calls that go on from a plan.
    ghost goes_on: { Self → Self.Plan → Type 0 };

    /// The state before attempt 0.
    fn start(&self, alloc: Global) -> Result<Self::State, Memory>
        ensures { IfOk result (λ state. state ≡ (rules self.now).start) };

    /// The size of the next attempt.
    fn size(&self, state: &Self::State) -> u32
        requires { proper self.now state.now }
        ensures size { result ≡ (rules self.now).size state.now }
        ensures bounded { result ≤ 1000 };

    /// The state after an outcome.
    fn step(&self, state: &mut Self::State, outcome: &Outcome)
        requires proper { proper self.now state.old }
        requires running { (rules self.now).stop state.old ≡ None }
        requires taken { takes self.now outcome.now }
        ensures { state.new ≡ (rules self.now).step state.old outcome.now };

    /// Why the run stops here, if it does.
    fn stop(&self, state: &Self::State) -> Option<Stop>
        requires { proper self.now state.now }
        ensures { result ≡ (rules self.now).stop state.now };

    /// The plan of a state.
    fn plan(&self, state: &Self::State) -> Self::Plan
        requires { proper self.now state.now }
        ensures { result ≡ (plans self.now).plan state.now };

    /// The size of the next attempt of a plan.
    fn plan_size(&self, plan: Self::Plan) -> u32
        requires { goes_on self.now plan }
        ensures size { result ≡ (plans self.now).size plan }
        ensures bounded { result ≤ 1000 };

    /// The plan after an attempt that passes, or is discarded.
    fn plan_step(&self, plan: Self::Plan, pass: bool) -> Self::Plan
        requires { goes_on self.now plan }
        ensures { result ≡ (plans self.now).step plan pass };

    /// Whether the run may stop at a plan.
    fn plan_ends(&self, plan: Self::Plan) -> bool
        ensures { result ≡ (plans self.now).ends plan };

    /// None of the outcomes that are taken is a Fail.
    ghost taken_does_not_fail: { (c : Self) (o : Judged) → takes c o → DoesNotFail o };

    /// The first state is proper.
    ghost start_is_proper: { (c : Self) → proper c (rules c).start };

    /// A step keeps a state proper.
    ghost step_is_proper: { (c : Self) (s : Self.State) (o : Judged) → proper c s → (rules c).stop s ≡ None → takes c o → proper c ((rules c).step s o) };

    /// A state without a stop has a rest of attempts.
    ghost rest_is_some: { (c : Self) (s : Self.State) → proper c s → (rules c).stop s ≡ None → 0 < (rules c).rest s };

    /// The rest of attempts is at most 2^32.
    ghost rest_is_bounded: { (c : Self) (s : Self.State) → proper c s → (rules c).rest s ≤ 2 ^ 32 };

    /// Each step makes the rest of attempts smaller.
    ghost rest_falls: { (c : Self) (s : Self.State) (o : Judged) → proper c s → (rules c).stop s ≡ None → takes c o → (rules c).rest ((rules c).step s o) < (rules c).rest s };

    /// Each size is at most 1,000.
    ghost sizes_are_small: { (c : Self) (p : Self.Plan) → goes_on c p → (plans c).size p ≤ 1000 };

    /// Where a state has no stop, its size is that of its plan.
    ghost sizes_agree: { (c : Self) (s : Self.State) → proper c s → (rules c).stop s ≡ None → (rules c).size s ≡ (plans c).size ((plans c).plan s) };

    /// The plan after a step is the step of the plan.
    ghost steps_agree: { (c : Self) (s : Self.State) (o : Judged) → proper c s → (rules c).stop s ≡ None → takes c o → (plans c).plan ((rules c).step s o) ≡ (plans c).step ((plans c).plan s) (passes o) };

    /// Where the run may not stop at a state's plan, the state has no stop.
    ghost runs_until_plan_ends: { (c : Self) (s : Self.State) → proper c s → (plans c).ends ((plans c).plan s) ≡ false → (rules c).stop s ≡ None };

    /// The plan of a state without a stop goes on.
    ghost goes_on_where_running: { (c : Self) (s : Self.State) → proper c s → (rules c).stop s ≡ None → goes_on c ((plans c).plan s) };

    /// A plan goes on where the run may not stop at it.
    ghost goes_on_until_ends: { (c : Self) (p : Self.Plan) → (plans c).ends p ≡ false → goes_on c p };

    /// All of these laws at once.
    ghost lawful: { (c : Self) → Lawful (rules c) (plans c) (takes c) (proper c) (goes_on c) } = { λ c. record {
      taken_does_not_fail = taken_does_not_fail c;
      start_is_proper = start_is_proper c;
      step_is_proper = step_is_proper c;
      rest_is_some = rest_is_some c;
      rest_is_bounded = rest_is_bounded c;
      rest_falls = rest_falls c;
      sizes_are_small = sizes_are_small c;
      sizes_agree = sizes_agree c;
      steps_agree = steps_agree c;
      runs_until_plan_ends = runs_until_plan_ends c;
      goes_on_where_running = goes_on_where_running c;
      goes_on_until_ends = goes_on_until_ends c;
    } };
}
