//! What an evaluation comes to.

use qk_base::Cause;
use qk_value::Value;

/// What an evaluation comes to.
#[derive(Drop)]
pub enum Answer {
    /// A value, and the units of fuel that are left.
    Value { value: Value, left: u32 },
    Crash(Cause),
}
