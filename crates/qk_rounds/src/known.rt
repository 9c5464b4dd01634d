//! What a slot knows.

use qk_base::Outcome;

/// An outcome, and the size at which it was met.
#[derive(Drop)]
pub struct Known {
    pub size: u32,
    pub outcome: Outcome,
}
