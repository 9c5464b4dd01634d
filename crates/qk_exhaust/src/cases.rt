//! What a run needs to know of its cases.
ghost use Rattle.std.specs.Prelude.{◌≡◌, ◌<◌, ◌^◌, List, length, min, get_or, IfOk};
ghost use Rattle.qk_base.specs.declared.outcome.Verdict.{Verdict as Told};
ghost use Rattle.qk_base.specs.declared.outcome.Verdict.TheVariants as told;

use qk_base::{Memory, Verdict};
use std::alloc::Global;

/// Cases numbered from 0, each with one verdict whoever judges it and whenever.
pub trait Cases: Sync {
    ghost verdicts: { Self → List Told };

    /// How many cases there are, or 2^40 where there are more.
    fn count(&self) -> u64
        ensures { result ≡ min (length (verdicts self.now)) (2 ^ 40) };

    /// The verdict of one case.
    fn verdict(&self, alloc: Global, number: u64) -> Result<Verdict, Memory>
        requires { number < min (length (verdicts self.now)) (2 ^ 40) }
        ensures { IfOk result (λ verdict. verdict ≡ get_or (verdicts self.now) number told.Pass) };
}
