//! How many properties passed and failed.
ghost use Rattle.std.specs.Prelude.{◌≡◌, ◌+◌, ◌<◌, ◌^◌, not, if◌then◌else◌};

/// How many properties passed and failed.
#[derive(Clone, Copy, Debug, PartialEq, Eq)]
pub(crate) struct CaseTotals {
    pub passed: u64,
    pub failed: u64,
}

impl CaseTotals {
    /// One property more, of which a case failed or none.
    pub fn with(self, fails: bool) -> CaseTotals
        requires passed { self.passed + 1 < 2 ^ 64 }
        requires failed { self.failed + 1 < 2 ^ 64 }
        ensures passed { result.passed ≡ self.passed + (if not fails then 1 else 0) }
        ensures failed { result.failed ≡ self.failed + (if fails then 1 else 0) }
    {
        if fails {
            CaseTotals {
                failed: self.failed + 1,
                ..self
            }
        } else {
            CaseTotals {
                passed: self.passed + 1,
                ..self
            }
        }
    }
}
