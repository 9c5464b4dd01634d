//! The table.
ghost use Rattle.std.specs.Prelude.{◌≡◌, ℕ, ◌+◌, ◌*◌, ◌<◌, ◌≤◌};

use crate::view::{PathRule, PathView, Start};
use atomic_table::Table;
use qk_base::{Family, Seq};
use std::alloc::Global;

mod calls;
mod closes;
mod makes;

/// What an offer came to.
#[derive(Clone, Copy, Drop, Debug, PartialEq, Eq)]
pub enum Taken {
    /// The offered candidate is the step.
    Mine,
    /// Another walker had taken the step, to this candidate.
    Other(u64),
}

/// The points on one path from a root, each step of which leads to a failing candidate. For each level one word counts the claims of
/// candidates, and one holds the step that was taken there, plus 1.
#[derive(Drop)]
pub struct PathTable<'f, F: Family> {
    table: Table<(), PathView<F, F::Point>, Start<'f, F>, PathRule<F>, Global>,
    family: &'f F,
    root: &'f F::Point,
    limit: u32,
    ghost words: { (table.shared.table_id.words ≡ 2 * limit + 1) × (table.shared.table_id.slots ≡ 0) × (limit ≤ 1024) },
    ghost started: { (table.shared.key.family.now ≡ family.now) × (table.shared.key.root.now ≡ root.now) × (table.shared.key.limit ≡ limit) × (0 < table.shared.key.walkers) × (table.shared.key.walkers ≤ 64) },
}

/// What a table came to.
#[derive(Drop)]
pub struct ClosedPath {
    /// The steps from the root.
    pub path: Seq<u64>,
    /// Whether the path has as many steps as the limit.
    pub limit_met: bool,
}
