//! Numbers in decimal.
ghost use Rattle.std.specs.Prelude.{◌≡◌, ◌+◌, ◌*◌, ◌-◌, ◌^◌, ◌<◌, ◌≤◌, SomeIff, true};
ghost use Rattle.std.specs.Str.{all_ascii_digits};
ghost use Rattle.qk_report.specs.Numerals.{number_of};

/// The number that digits write, leading zeros or not, where it fits 64 bits.
pub fn number_of(digits: &[u8]) -> Option<u64>
    requires { all_ascii_digits digits.now ≡ true }
    ensures { result ≡ number_of digits.now }
{
    let mut number = 0u64;
    for digit in digits {
        match with_digit(number, *digit) {
            None => return None,
            Some(longer) => number = longer,
        }
    }
    Some(number)
}

/// The number with one digit more at its end.
fn with_digit(number: u64, digit: u8) -> Option<u64>
    requires { (48 ≤ digit) × (digit ≤ 57) }
    ensures { SomeIff result (number * 10 + (digit - 48) < 2 ^ 64) (number * 10 + (digit - 48)) }
{
    match number.checked_mul(10) {
        None => None,
        Some(tens) => tens.checked_add(u64::from(digit - b'0')),
    }
}
