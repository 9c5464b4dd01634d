//! Why a run stops.

/// Why a run stops before its next attempt.
#[derive(Clone, Copy, Debug, PartialEq, Eq)]
pub enum Stop {
    /// As many attempts passed as are wanted.
    Passed,
    /// Too many attempts were discarded.
    GaveUp,
}
