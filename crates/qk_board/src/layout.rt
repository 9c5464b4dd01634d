//! How ranges of indexes make up the numbers below a limit.
ghost use Rattle.std.specs.Prelude.{◌≡◌, ℕ, ◌<◌, ◌≤◌, List, length, slice_index};
ghost use Rattle.qk_board.specs.Layouts.{IsLayout};

use std::marker::Sync;

/// A bijection from the pairs of a range and an index below the range's length to the numbers below a limit.
pub trait Layout: Sync + Drop {
    ghost limit_of: { Self → ℕ };

    ghost lengths_of: { Self → List ℕ };

    ghost number_of: { Self → ℕ → ℕ → ℕ };

    /// The limit of the numbers, at most 65,536.
    fn limit(&self) -> u32
        ensures { (result ≡ limit_of self.now) × (result ≤ 65536) };

    /// The number of ranges, 1 to 64.
    fn ranges(&self) -> u32
        ensures { (result ≡ length (lengths_of self.now)) × (0 < result) × (result ≤ 64) };

    /// How many indexes a range has: none where there is no such range.
    fn length(&self, range: u32) -> u32
        ensures { (result ≡ slice_index (lengths_of self.now) range) × (result ≤ 65536) };

    /// The number of an index of a range.
    fn number(&self, range: u32, index: u32) -> u32
        requires { index < slice_index (lengths_of self.now) range }
        ensures { result ≡ number_of self.now range index };

    // The numbers of all pairs are those below the limit, each once.
    ghost bijection: { (l : Self) → IsLayout (limit_of l) (lengths_of l) (number_of l) };
}
