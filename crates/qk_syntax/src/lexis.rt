//! Kinds of bytes, and the longest run that is a word.
ghost use Rattle.std.specs.Prelude.{◌≡◌, ◌+◌, ◌≤◌, length, drop};
ghost use Rattle.qk_syntax.specs.Words.{is_blank, is_word_byte, is_digit, word_of};

/// Tab, line feed, carriage return and space.
pub fn is_blank(byte: u8) -> bool
    ensures { result ≡ is_blank byte }
{
    byte == 9 || byte == 10 || byte == 13 || byte == 32
}

/// The printable bytes but for the quotation mark, the parentheses and the semicolon.
pub fn is_word_byte(byte: u8) -> bool
    ensures { result ≡ is_word_byte byte }
{
    33 <= byte && byte <= 126 && !(byte == 34 || byte == 40 || byte == 41 || byte == 59)
}

pub fn is_digit(byte: u8) -> bool
    ensures { result ≡ is_digit byte }
{
    48 <= byte && byte <= 57
}

/// Where the run of word bytes ends that begins at a byte.
fn word_end(bytes: &[u8], from: usize) -> usize
    requires { from ≤ length bytes.now }
    ensures within { result ≤ length bytes.now }
    ensures length { result ≡ from + length (word_of (drop from bytes.now)) }
{
    let mut end = from;
    while end < bytes.len() && is_word_byte(bytes[end]) {
        end += 1;
    }
    end
}

/// The longest run of word bytes that begins at a byte.
pub fn word_at(bytes: &[u8], from: usize) -> &[u8]
    requires { from ≤ length bytes.now }
    ensures word { result.now ≡ word_of (drop from bytes.now) }
    ensures within { from + length result.now ≤ length bytes.now }
{
    let end = word_end(bytes, from);
    &bytes[from..end]
}
