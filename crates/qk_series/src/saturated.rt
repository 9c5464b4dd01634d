//! Counts that stop at 2^40.
ghost use Rattle.std.specs.Prelude.{◌≡◌, ◌+◌, ◌*◌, ◌≤◌, ◌^◌};
ghost use Rattle.qk_series.specs.Members.{saturated};

/// The greatest count.
const MOST: u64 = 1 << 40;

pub(crate) fn sum(a: u64, b: u64) -> u64
    ensures { result ≡ saturated (a + b) }
{
    a.saturating_add(b).min(MOST)
}

pub(crate) fn product(a: u64, b: u64) -> u64
    ensures { result ≡ saturated (a * b) }
{
    a.saturating_mul(b).min(MOST)
}
