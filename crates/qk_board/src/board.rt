//! The board.
ghost use Rattle.std.specs.Prelude.{◌≡◌, ℕ, ◌+◌, ◌<◌, ◌≤◌, length};

use crate::layout::Layout;
use crate::view::{BoardRule, BoardView, Plan};
use atomic_table::Table;
use std::alloc::Global;

mod calls;
mod closes;
mod makes;

/// What a claim gives.
#[derive(Clone, Copy, Drop, Debug, PartialEq, Eq)]
pub enum Claim {
    /// A number that no other claim gives.
    Number(u32),
    /// Every number of the range was claimed.
    Dry,
}

/// The numbers below a limit, each of which one claim gives, and a bound that only falls. One word holds the bound, and one word
/// for each range the index of its next claim.
#[derive(Drop)]
pub struct Board<L: Layout> {
    table: Table<(), BoardView, Plan, BoardRule, Global>,
    layout: L,
    ghost words: { (table.shared.table_id.words ≡ length (L.lengths_of layout) + 1) × (length (L.lengths_of layout) ≤ 64) × (table.shared.table_id.slots ≡ 0) },
    ghost planned: { (table.shared.key.limit ≡ L.limit_of layout) × (table.shared.key.lengths.items ≡ L.lengths_of layout) × (0 < table.shared.key.seats) × (table.shared.key.seats ≤ 64) },
}

/// What a board came to.
#[derive(Clone, Copy, Drop, Debug, PartialEq, Eq)]
pub struct Closed {
    /// The least of the limit and all lowered numbers.
    pub bound: u32,
    /// Bit r is set where the word of range r reached its length.
    pub dry: u64,
}
