//! Numbers as options take them.
ghost use Rattle.std.specs.Prelude.{◌≡◌, ◌&&◌, nat_le};
ghost use Rattle.std.specs.Str.{all_ascii_digits};
ghost use Rattle.qk_words.specs.Parts.{is_number, is_number_within};

use qk_report::number_of;

fn are_digits(text: &[u8]) -> bool
    ensures { result ≡ all_ascii_digits text.now }
{
    for byte in text {
        if !byte.is_ascii_digit() {
            return false;
        }
    }
    true
}

/// Whether the text is one to twenty digits.
fn is_number(text: &[u8]) -> bool
    ensures { result ≡ is_number text.now }
{
    !text.is_empty() && text.len() <= 20 && are_digits(text)
}

/// Whether the text is a number that is at least the one and at most the other.
pub fn is_number_within(text: &[u8], least: u64, greatest: u64) -> bool
    ensures { result ≡ is_number_within least greatest text.now }
{
    if !is_number(text) {
        return false;
    }
    match number_of(text) {
        None => false,
        Some(number) => least <= number && number <= greatest,
    }
}
