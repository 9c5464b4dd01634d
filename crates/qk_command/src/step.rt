//! What a step of judging comes to.

use qk_base::Cause;

/// What a step of judging comes to: it goes on with the units that are left, or is the end of the judging.
#[derive(Clone, Copy, Debug, PartialEq, Eq)]
pub(crate) enum Step {
    On { left: u32 },
    Discard,
    Fail(Cause),
}
