//! How a run ends.

use qk_base::Cause;

/// How a run ends.
#[derive(Clone, Copy, Debug, PartialEq, Eq)]
pub enum Finish {
    /// As many attempts passed as are wanted.
    Passed,
    /// Too many attempts were discarded.
    GaveUp,
    /// An attempt failed: its number, counted from 0, its size and the cause.
    Failed {
        attempt: u64,
        size: u32,
        cause: Cause,
    },
}
