//! What an evaluation over shared values comes to.

use crate::shared::Shared;
use qk_base::Cause;

/// What an evaluation over shared values comes to.
#[derive(Drop)]
pub enum Ending {
    /// A value, and the units of fuel that are left.
    Value { value: Shared, left: u32 },
    Crash(Cause),
}
