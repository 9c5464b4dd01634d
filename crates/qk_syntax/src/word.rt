//! Words: numbers and names.
ghost use Rattle.std.specs.Prelude.{◌≡◌, min, true, false, IfOk, IfErr, IsTrue, IsFalse, Some, None};
ghost use Rattle.std.specs.List.{list_all};
ghost use Rattle.qk_syntax.specs.Words.{begins_with_digit, begins_with_minus, without_minus, is_number_word, is_digit, magnitude, number_of, fits_signed, signed_number, word_fault, word_tree};
ghost use Rattle.qk_syntax.specs.Refusals.{IfRefusal};
ghost use Rattle.qk_syntax.specs.View.{view};

use crate::lexis::is_digit;
use crate::tree::{Node, Tree};
use qk_base::{Bytes, Fault, Memory, Place, Refusal};
use std::alloc::Global;

pub const BAD_NUMBER: u16 = 5;

pub const WIDE_NUMBER: u16 = 6;

pub const LONG_NAME: u16 = 7;

/// The most bytes of a name.
const MOST_NAME: usize = 64;

/// The size of the least number.
const LEAST: u64 = 9223372036854775808;

fn begins_with_minus(word: &[u8]) -> bool
    ensures { result ≡ begins_with_minus word.now }
{
    match word {
        [first, ..] => *first == 45,
        [] => false,
    }
}

/// The word without the `-` that may stand before it.
fn without_minus(word: &[u8]) -> &[u8]
    ensures { result.now ≡ without_minus word.now }
{
    match word {
        [45, rest @ ..] => rest,
        _ => word,
    }
}

fn begins_with_digit(word: &[u8]) -> bool
    ensures { result ≡ begins_with_digit word.now }
{
    match word {
        [first, ..] => is_digit(*first),
        [] => false,
    }
}

fn all_digits(word: &[u8]) -> bool
    ensures { result ≡ list_all is_digit word.now }
{
    word.iter().all(|b| is_digit(*b))
}

/// The number that digits spell, or the greatest word where it is greater.
fn magnitude(digits: &[u8]) -> u64
    requires { list_all is_digit digits.now ≡ true }
    ensures { result ≡ min (magnitude digits.now) u64.MAX }
{
    let mut sum = 0u64;
    for digit in digits {
        sum = sum
            .saturating_mul(10)
            .saturating_add(u64::from(*digit - 48));
    }
    sum
}

/// The number of a number word, or the code of its fault.
fn number(word: &[u8]) -> Result<i64, u16>
    requires { is_number_word word.now ≡ true }
    ensures ok { IfOk result (λ n. (word_fault word.now ≡ None) × (n ≡ number_of word.now)) }
    ensures err { IfErr result (λ code. word_fault word.now ≡ Some code) }
{
    let digits = without_minus(word);
    if !all_digits(digits) {
        return Err(BAD_NUMBER);
    }
    signed(begins_with_minus(word), magnitude(digits))
}

/// The number of that size.
fn signed(minus: bool, size: u64) -> Result<i64, u16>
    ensures ok { IfOk result (λ n. IsTrue (fits_signed minus size) × (n ≡ signed_number minus size)) }
    ensures err { IfErr result (λ code. IsFalse (fits_signed minus size) × (code ≡ 6)) }
{
    if minus && size == LEAST {
        return Ok(i64::MIN);
    }
    if size >= LEAST {
        return Err(WIDE_NUMBER);
    }
    let size = size as i64;
    Ok(if minus { -size } else { size })
}

/// The tree of a word.
pub fn read_word(alloc: Global, word: &[u8], place: Place) -> Result<Tree, Fault>
    ensures ok { IfOk result (λ tree. (word_fault word.now ≡ None) × (view tree ≡ word_tree place word.now)) }
    ensures refused { IfErr result (λ e. IfRefusal e (λ r. (word_fault word.now ≡ Some r.code) × (r.place ≡ place))) }
{
    if begins_with_digit(without_minus(word)) {
        return match number(word) {
            Ok(n) => Ok(Tree {
                place,
                node: Node::Number(n),
            }),
            Err(code) => Err(Fault::Refused(Refusal { code, place })),
        };
    }
    if word.len() > MOST_NAME {
        return Err(Fault::Refused(Refusal {
            code: LONG_NAME,
            place,
        }));
    }
    Ok(Tree {
        place,
        node: Node::Name(copy(alloc, word)?),
    })
}

/// The bytes in a list of their own.
fn copy(alloc: Global, bytes: &[u8]) -> Result<Bytes, Memory>
    ensures { IfOk result (λ copy. copy.items ≡ bytes.now) }
{
    let mut copy = Bytes::make(alloc);
    copy.append(bytes)?;
    Ok(copy)
}
