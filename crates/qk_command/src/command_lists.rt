//! What a list of commands comes to.

use qk_base::Cause;

/// Whether a list of commands keeps its preconditions.
#[derive(Clone, Copy, Debug, PartialEq, Eq)]
pub enum Kept {
    /// Each does; so many units of fuel are left.
    Yes { left: u32 },
    /// The first command whose precondition is false has that index.
    No { step: u32 },
    Crash(Cause),
}

/// How a system ran a list of commands.
#[derive(Clone, Copy, Debug, PartialEq, Eq)]
pub enum Ran {
    /// As its model says; so many units of fuel are left.
    Held { left: u32 },
    /// It broke at the command of that index, or before the first, which counts as 0. The cause is `Post` where the
    /// postcondition was false, else that of a crash.
    Broke { step: u32, cause: Cause },
}
