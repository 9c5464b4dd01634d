//! The candidates of numbers and of truth values, by number.
ghost use Rattle.std.specs.Prelude.{◌≡◌, ◌≤◌, ◌<◌, ◌^◌, length, map, pos, neg_ℤ};
ghost use Rattle.qk_shrink.specs.Halves.{halves};
ghost use Rattle.qk_shrink.specs.Numbers.{distances, number_candidates, truth_candidates};
ghost use Rattle.qk_shrink.specs.Sought.{IfHere, sought};

use crate::sought::Sought;

/// How many candidates a number has.
pub(crate) fn count_number(n: i64) -> u64
    ensures count { result ≡ length (number_candidates n) }
    ensures bounded { result ≤ 65 }
{
    let halves = count_halves(n.unsigned_abs());
    if n < 0 && n != i64::MIN {
        halves + 1
    } else {
        halves
    }
}

// How often a number is halved until it is 0.
fn count_halves(m: u64) -> u64
    ensures count { result ≡ length (halves m) }
    ensures bounded { result ≤ 64 }
{
    let mut half = m;
    let mut count = 0u64;
    while half > 0 {
        count += 1;
        half /= 2;
    }
    count
}

/// A number's candidate `k`.
pub(crate) fn seek_number(n: i64, k: u64) -> Sought<i64>
    ensures { result ≡ sought (number_candidates n) k }
{
    if n >= 0 {
        return seek_above(n as u64, k);
    }
    if n == i64::MIN {
        return seek_below(n.unsigned_abs(), k);
    }
    if k == 0 {
        return Sought::Here(-n);
    }
    seek_below(n.unsigned_abs(), k - 1)
}

// Among the numbers that are nearer to zero than m.
fn seek_above(m: u64, k: u64) -> Sought<i64>
    requires { m < 2 ^ 63 }
    ensures { result ≡ sought (map pos (distances m)) k }
{
    match seek_distance(m, k) {
        Sought::Here(distance) => Sought::Here(positive(distance)),
        Sought::Past(left) => Sought::Past(left),
    }
}

// Among the numbers that are nearer to zero than -m.
fn seek_below(m: u64, k: u64) -> Sought<i64>
    requires { m ≤ 2 ^ 63 }
    ensures { result ≡ sought (map (λ d. neg_ℤ (pos d)) (distances m)) k }
{
    match seek_distance(m, k) {
        Sought::Here(distance) => Sought::Here(negative(distance)),
        Sought::Past(left) => Sought::Past(left),
    }
}

fn positive(distance: u64) -> i64
    requires { distance < 2 ^ 63 }
    ensures { result ≡ pos distance }
{
    distance as i64
}

fn negative(distance: u64) -> i64
    requires { distance < 2 ^ 63 }
    ensures { result ≡ neg_ℤ (pos distance) }
{
    -(distance as i64)
}

// The distance from zero of candidate `k` of the number m or -m, its opposite aside.
fn seek_distance(m: u64, k: u64) -> Sought<u64>
    ensures found { result ≡ sought (distances m) k }
    ensures nearer { IfHere result (λ d. d < m) }
{
    let mut half = m;
    let mut left = k;
    while half > 0 {
        if left == 0 {
            return Sought::Here(m - half);
        }
        left -= 1;
        half /= 2;
    }
    Sought::Past(left)
}

/// How many candidates a truth value has.
pub(crate) fn count_truth(b: bool) -> u64
    ensures count { result ≡ length (truth_candidates b) }
    ensures bounded { result ≤ 1 }
{
    if b { 1 } else { 0 }
}

/// A truth value's candidate `k`.
pub(crate) fn seek_truth(b: bool, k: u64) -> Sought<bool>
    ensures { result ≡ sought (truth_candidates b) k }
{
    if !b {
        return Sought::Past(k);
    }
    if k == 0 {
        return Sought::Here(false);
    }
    Sought::Past(k - 1)
}
