//! Replay tokens from words.
ghost use Rattle.std.specs.Prelude.{◌≡◌, ◌≤◌, ◌∷◌, IfOk, IfSome, option_map, option_and_then, length, take, drop};
ghost use Rattle.qk_report.specs.Token.{TokenData};
ghost use Rattle.qk_report.specs.TokenReader.{attempt_in, digits_back, digits_front, dotted_in, dotted_number_in, field_in, fields_in, is_shortest, number_in, past, path_in, token_in, unmarked};
ghost use Rattle.qk_report.specs.TokenWords.{IsTokenOf};

use crate::numerals::number_of;
use crate::tokens::Token;
use qk_base::{Memory, Seq};
use std::alloc::Global;

/// Why a word gives no token.
#[derive(Clone, Copy, Debug, PartialEq, Eq)]
pub enum TokenFault {
    Memory,
    /// It is the text of no token.
    BadToken,
}

impl From<Memory> for TokenFault {
    ghost use Rattle.qk_report.specs.declared.token_parsing.TokenFault.TheVariants as faults;

    ghost from_gives = { λ _ fault. fault ≡ faults.Memory };

    fn from(_memory: Memory) -> TokenFault {
        TokenFault::Memory
    }
}

/// The most steps of a path.
const MOST_STEPS: usize = 1024;

/// The fields of a token before its path.
#[derive(Clone, Copy)]
struct Fields {
    property: u32,
    seed: u64,
    attempt: u64,
    size: u32,
    fuel: u32,
}

impl Token {
    /// The token whose text the word is.
    pub fn parse(alloc: Global, word: &str) -> Result<Token, TokenFault>
        ensures ok { IfOk result (λ t. IsTokenOf word.now t) }
        ensures bad { result ≡ Err TokenFault.BadToken → (t : TokenData) → IsTokenOf word.now t → ⊥ }
    {
        read_token(alloc, word.as_bytes())
    }
}

fn read_token(alloc: Global, word: &[u8]) -> Result<Token, TokenFault>
    ensures ok { IfOk result (λ t. token_in word.now ≡ Some t) }
    ensures bad { result ≡ Err TokenFault.BadToken → token_in word.now ≡ None }
{
    let (fields, path) = match read_marked(word) {
        None => return Err(TokenFault::BadToken),
        Some(found) => found,
    };
    let path = read_path(alloc, path)?;
    Ok(Token {
        property: fields.property,
        seed: fields.seed,
        attempt: fields.attempt,
        size: fields.size,
        fuel: fields.fuel,
        path,
    })
}

/// The fields before the path, and the text of the path.
fn read_marked(word: &[u8]) -> Option<(Fields, &[u8])>
    ensures { option_map (λ p. (p.0, p.1.now)) result ≡ option_and_then fields_in (unmarked word.now) }
{
    match word.strip_prefix(b"q1:".as_slice()) {
        None => None,
        Some(fields) => read_fields(fields),
    }
}

fn read_fields(bytes: &[u8]) -> Option<(Fields, &[u8])>
    ensures { option_map (λ p. (p.0, p.1.now)) result ≡ fields_in bytes.now }
{
    let (property, after) = read_field(bytes, 999)?;
    let (seed, after) = read_field(after, u64::MAX)?;
    read_attempt(property as u32, seed, after)
}

/// The fields from the attempt on, behind the others.
fn read_attempt(property: u32, seed: u64, bytes: &[u8]) -> Option<(Fields, &[u8])>
    ensures { option_map (λ p. (p.0, p.1.now)) result ≡ attempt_in property seed bytes.now }
{
    let (attempt, after) = read_field(bytes, 100_999_999)?;
    let (size, after) = read_field(after, 1_000)?;
    let (fuel, after) = read_field(after, 1_000_000)?;
    if fuel == 0 {
        return None;
    }
    let fields = Fields {
        property,
        seed,
        attempt,
        size: size as u32,
        fuel: fuel as u32,
    };
    Some((fields, after))
}

/// A number of at most so much and a colon, and what follows them.
fn read_field(bytes: &[u8], most: u64) -> Option<(u64, &[u8])>
    ensures field { option_map (λ p. (p.0, p.1.now)) result ≡ field_in most bytes.now }
    ensures most { IfSome result (λ p. p.0 ≤ most) }
{
    let (number, after) = read_number(bytes)?;
    if number > most {
        return None;
    }
    Some((number, read_past(b':', after)?))
}

fn read_path(alloc: Global, bytes: &[u8]) -> Result<Seq<u64>, TokenFault>
    ensures ok { IfOk result (λ path. path_in bytes.now ≡ Some path.items) }
    ensures bad { result ≡ Err TokenFault.BadToken → path_in bytes.now ≡ None }
{
    if bytes == b"-".as_slice() {
        return Ok(Seq::make(alloc));
    }
    match read_number(bytes) {
        None => Err(TokenFault::BadToken),
        Some((first, rest)) => read_numbers(alloc, first, rest),
    }
}

/// The numbers of a path after its first.
fn read_numbers(alloc: Global, first: u64, bytes: &[u8]) -> Result<Seq<u64>, TokenFault>
    ensures ok { IfOk result (λ path. option_map (λ ns. first ∷ ns) (dotted_in 1023 bytes.now) ≡ Some path.items) }
    ensures bad { result ≡ Err TokenFault.BadToken → dotted_in 1023 bytes.now ≡ None }
{
    let mut path = Seq::make(alloc);
    path.add(first)?;
    let mut rest = bytes;
    while path.len() < MOST_STEPS {
        if rest.is_empty() {
            return Ok(path);
        }
        match read_dotted_number(rest) {
            None => return Err(TokenFault::BadToken),
            Some((number, after)) => {
                path.add(number)?;
                rest = after;
            }
        }
    }
    if rest.is_empty() {
        Ok(path)
    } else {
        Err(TokenFault::BadToken)
    }
}

/// A dot and a number, and what follows them.
fn read_dotted_number(bytes: &[u8]) -> Option<(u64, &[u8])>
    ensures { option_map (λ p. (p.0, p.1.now)) result ≡ dotted_number_in bytes.now }
{
    match read_past(b'.', bytes) {
        None => None,
        Some(after) => read_number(after),
    }
}

/// What follows a byte in front.
fn read_past(byte: u8, bytes: &[u8]) -> Option<&[u8]>
    ensures { option_map (λ rest. rest.now) result ≡ past byte bytes.now }
{
    match bytes {
        [first, rest @ ..] if *first == byte => Some(rest),
        _ => None,
    }
}

/// The number in front, in its shortest decimal, and what follows it.
fn read_number(bytes: &[u8]) -> Option<(u64, &[u8])>
    ensures { option_map (λ p. (p.0, p.1.now)) result ≡ number_in bytes.now }
{
    let (digits, rest) = bytes.split_at(digits_in_front(bytes));
    if !is_shortest(digits) {
        return None;
    }
    match number_of(digits) {
        None => None,
        Some(number) => Some((number, rest)),
    }
}

fn digits_in_front(bytes: &[u8]) -> usize
    ensures front { take result bytes.now ≡ digits_front bytes.now }
    ensures back { drop result bytes.now ≡ digits_back bytes.now }
    ensures within { result ≤ length bytes.now }
{
    for (index, byte) in bytes.iter().enumerate() {
        if !byte.is_ascii_digit() {
            return index;
        }
    }
    bytes.len()
}

/// Whether there are digits, with no leading zero.
fn is_shortest(digits: &[u8]) -> bool
    ensures { result ≡ is_shortest digits.now }
{
    match digits {
        [] => false,
        [_] => true,
        [first, ..] => *first != b'0',
    }
}
