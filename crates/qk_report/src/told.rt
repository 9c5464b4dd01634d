//! What is told of a property's run.
ghost use Rattle.std.specs.Prelude.{◌≡◌};
ghost use Rattle.qk_report.specs.FailureView.{failure_behind};
ghost use Rattle.qk_report.specs.PropertyBlock.{failure_of};
ghost use Rattle.qk_report.specs.ToldView.{told_in};

use crate::failure::FailureRef;
use qk_base::{Cause, Seq};
use qk_schedule::Finish;
use qk_value::Value;

/// What is told of a property's run: how it ended, the attempts that passed and those that were discarded, and where it failed
/// the last values with their cause and whether it came while drawing, the path of candidates to them, how many candidates were
/// tried (greedy shrinking does not count them), whether the limit of steps was met, and the seed and the fuel of the run. Last,
/// where it is wanted, the work: windows, rounds and trials.
#[derive(Drop)]
pub struct Told {
    pub finish: Finish,
    pub successes: u64,
    pub discards: u64,
    pub values: Seq<Value>,
    pub cause: Cause,
    pub drawing: bool,
    pub path: Seq<u64>,
    pub tried: Option<u64>,
    pub limit_met: bool,
    pub seed: u64,
    pub fuel: u32,
    pub work: Option<(u64, u64, u64)>,
}

impl Told {
    /// The failure of that attempt at that size.
    pub(crate) fn failure(&self, attempt: u64, size: u32) -> FailureRef<'_>
        ensures { failure_behind result ≡ failure_of (told_in self.now) attempt size }
    {
        FailureRef {
            attempt,
            size,
            cause: self.cause,
            drawing: self.drawing,
            values: self.values.as_slice(),
            path: self.path.as_slice(),
            tried: self.tried,
            limit_met: self.limit_met,
            seed: self.seed,
            fuel: self.fuel,
        }
    }
}
