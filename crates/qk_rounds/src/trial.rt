//! Attempts by number and size.
ghost use Rattle.std.specs.Prelude.{◌≡◌, ℕ, ◌+◌, ◌^◌, ◌<◌, ◌≤◌, IfOk, OnOk, OnErr};
ghost use Rattle.qk_base.specs.Judged.{Judged};
ghost use Rattle.qk_rounds.specs.Trial.{Range, Includes, MayPrepare};

use qk_base::{Memory, Outcome};
use std::alloc::Global;

/// Runs attempts by their number and size, in any order and from any worker. The outcome of each number and size is fixed.
pub trait Trial: Sync {
    /// The outcome of each number and size.
    ghost outcome: { Self → ℕ → ℕ → Judged };

    /// The numbers that are prepared.
    ghost prepared: { Self → Range };

    /// Prepares the `count` numbers from `from` on, and no others. Numbers are prepared in order: from 0 at first, and then from
    /// the first prepared number to one past the last.
    fn prepare(&mut self, alloc: Global, from: u64, count: u32) -> Result<(), Memory>
        requires count { (0 < count) × (count ≤ 4096) }
        requires next { MayPrepare (prepared self.old) from }
        ensures same_outcomes { outcome self.new ≡ outcome self.old }
        ensures ok { OnOk result (prepared self.new ≡ record { first = from; count = count }) }
        ensures err { OnErr result (prepared self.new ≡ prepared self.old) };

    /// The outcome of an attempt at a size.
    fn perform(&self, alloc: Global, number: u64, size: u32) -> Result<Outcome, Memory>
        requires among { Includes (prepared self.now) number }
        requires small { size ≤ 1000 }
        ensures { IfOk result (λ o. o ≡ outcome self.now number size) };
}
