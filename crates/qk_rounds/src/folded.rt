//! What the fold of a window says of a slot.

/// The size that is predicted for a slot, and whether it is due.
#[derive(Clone, Copy, Debug)]
pub struct Folded {
    pub size: u32,
    pub due: bool,
}
