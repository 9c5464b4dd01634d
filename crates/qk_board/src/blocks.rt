//! The layout in which each range is a block of consecutive numbers.
ghost use Rattle.std.specs.Prelude.{◌≡◌, ◌<◌, ◌≤◌};
ghost use Rattle.qk_board.specs.Layouts.{block_width};

use crate::layout::Layout;

/// The layout of consecutive blocks of `ceil(limit / ranges)` numbers, of which the last ones are shorter or empty: index i of range r
/// is `r * ceil(limit / ranges) + i`.
#[derive(Clone, Copy, Drop)]
pub struct Blocks {
    limit: u32,
    ranges: u32,
    ghost few: { (limit ≤ 65536) × (0 < ranges) × (ranges ≤ 64) },
}

impl Blocks {
    /// That many ranges for the numbers below the limit.
    pub fn make(limit: u32, ranges: u32) -> Blocks
        requires { (limit ≤ 65536) × (0 < ranges) × (ranges ≤ 64) }
        ensures { (result.limit ≡ limit) × (result.ranges ≡ ranges) }
    {
        Blocks { limit, ranges }
    }

    fn width(&self) -> u32
        ensures { (result ≡ block_width self.now.limit self.now.ranges) × (result ≤ 65536) }
    {
        self.limit.div_ceil(self.ranges)
    }
}

impl Layout for Blocks {
    ghost use Rattle.qk_board.specs.Layouts.{block_lengths, block_width};
    ghost use Rattle.qk_board.specs.BlocksLaw.{blocks_law};
    ghost use Rattle.std.specs.Prelude.{◌+◌, ◌*◌};

    ghost limit_of = { λ b. b.limit };

    ghost lengths_of = { λ b. block_lengths b.limit b.ranges };

    ghost number_of = { λ b r i. r * block_width b.limit b.ranges + i };

    ghost bijection = { λ b. blocks_law b.limit b.ranges b.few.1 };

    fn limit(&self) -> u32 {
        self.limit
    }

    fn ranges(&self) -> u32 {
        self.ranges
    }

    fn length(&self, range: u32) -> u32 {
        if range >= self.ranges {
            return 0;
        }
        let width = self.width();
        let start = range * width;
        if start < self.limit {
            width.min(self.limit - start)
        } else {
            0
        }
    }

    fn number(&self, range: u32, index: u32) -> u32 {
        range * self.width() + index
    }
}
