//! What predicts sizes.
ghost use Rattle.std.specs.Prelude.{◌≤◌};

/// The three numbers of a state that decide sizes and stops, for predictions inside a window.
#[derive(Clone, Copy, Debug)]
pub struct Plan {
    pub successes: u64,
    pub discards: u64,
    pub recent: u64,
    ghost ordered: { recent ≤ discards },
}
