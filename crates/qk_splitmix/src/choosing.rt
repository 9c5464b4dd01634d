//! A number of an interval from a word.
ghost use Rattle.std.specs.Prelude.{◌≡◌, ◌+◌, ◌*◌, ◌/◌, ◌^◌, ◌<◌, ◌≤◌, pos, ◌+ℤ◌, ◌≤ℤ◌, FitsSigned};
ghost use Rattle.std.specs.Int.{w64};
ghost use Rattle.qk_splitmix.specs.Picking.{pick};

/// The number of `lo` to `hi` at the place that the word has among all words, so that of 2^64 words each number gets the same
/// share, but for one word. Over all of `i64` the interval has 2^64 numbers.
pub fn choose(word: u64, lo: i64, hi: i64) -> i64
    requires { lo ≤ℤ hi }
    ensures exact { result ≡ pick word lo hi }
    ensures within { (lo ≤ℤ result) × (result ≤ℤ hi) }
{
    let place = place_in(word, hi.abs_diff(lo));
    moved_up(lo, place)
}

/// The place of 0 to `last` that the word has among all words.
fn place_in(word: u64, last: u64) -> u64
    ensures exact { result ≡ word * (last + 1) / 2 ^ 64 }
    ensures within { result ≤ last }
{
    ((word as u128 * (last as u128 + 1)) >> 64) as u64
}

fn moved_up(lo: i64, steps: u64) -> i64
    requires { FitsSigned w64 (lo +ℤ pos steps) }
    ensures { result ≡ lo +ℤ pos steps }
{
    (lo as i128 + steps as i128) as i64
}
