//! What is told of a failure.
ghost use Rattle.std.specs.Prelude.{◌≡◌};
ghost use Rattle.qk_report.specs.FailureView.{failure_behind, failure_in};

use qk_base::{Cause, Seq};
use qk_value::Value;

/// What is told of a failing property: the attempt with its size, the last values with their cause and whether it came while
/// drawing, the path of candidates to them, how many candidates were tried (greedy shrinking does not count them), whether the
/// limit of steps was met, and the seed and the fuel of the run.
#[derive(Drop)]
pub struct Failure {
    pub attempt: u64,
    pub size: u32,
    pub cause: Cause,
    pub drawing: bool,
    pub values: Seq<Value>,
    pub path: Seq<u64>,
    pub tried: Option<u64>,
    pub limit_met: bool,
    pub seed: u64,
    pub fuel: u32,
}

/// A failure whose values and path are lent.
#[derive(Clone, Copy)]
pub(crate) struct FailureRef<'f> {
    pub attempt: u64,
    pub size: u32,
    pub cause: Cause,
    pub drawing: bool,
    pub values: &'f [Value],
    pub path: &'f [u64],
    pub tried: Option<u64>,
    pub limit_met: bool,
    pub seed: u64,
    pub fuel: u32,
}

impl Failure {
    pub(crate) fn lent(&self) -> FailureRef<'_>
        ensures { failure_behind result ≡ failure_in self.now }
    {
        FailureRef {
            attempt: self.attempt,
            size: self.size,
            cause: self.cause,
            drawing: self.drawing,
            values: self.values.as_slice(),
            path: self.path.as_slice(),
            tried: self.tried,
            limit_met: self.limit_met,
            seed: self.seed,
            fuel: self.fuel,
        }
    }
}
