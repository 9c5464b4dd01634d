//! Where the reader stands in a text.
ghost use Rattle.std.specs.Prelude.{◌≡◌, ◌+◌, ◌<◌, ◌≤◌, ◌≢◌, length, drop, false, slice_index, IsTrue, IsFalse};
ghost use Rattle.qk_syntax.specs.Cursors.{IsWithin, IsTokenByte, IsSkipped, moved, skipping};
ghost use Rattle.qk_syntax.specs.Reader.{free, next_mode, next_place, scan};
ghost use Rattle.qk_syntax.specs.Words.{is_blank};

use crate::lexis::is_blank;
use qk_base::Place;

/// The place of the first byte.
pub const START: Place = Place { line: 1, column: 1 };

/// The number of bytes before a byte, and its place.
#[derive(Clone, Copy)]
pub struct Cursor {
    pub at: usize,
    pub place: Place,
}

impl Cursor {
    /// The cursor after the byte on which this one stands.
    pub fn after(self, byte: u8) -> Cursor
        requires at { self.at < 1048576 }
        requires line { self.place.line ≤ self.at + 1 }
        requires column { self.place.column ≤ self.at + 1 }
        ensures at { result.at ≡ self.at + 1 }
        ensures place { result.place ≡ next_place self.place byte }
        ensures line { result.place.line ≤ self.at + 2 }
        ensures column { result.place.column ≤ self.at + 2 }
    {
        let at = self.at + 1;
        if byte == 10 {
            return Cursor {
                at,
                place: Place {
                    line: self.place.line + 1,
                    column: 1,
                },
            };
        }
        Cursor {
            at,
            place: Place {
                line: self.place.line,
                column: self.place.column + 1,
            },
        }
    }

    /// The cursor so many bytes on in the same line.
    pub fn past(self, length: usize) -> Cursor
        requires at { self.at + length ≤ 1048576 }
        requires column { self.place.column ≤ self.at + 1 }
        ensures at { result.at ≡ self.at + length }
        ensures place { result.place ≡ moved self.place length }
    {
        Cursor {
            at: self.at + length,
            place: Place {
                line: self.place.line,
                column: self.place.column + length as u32,
            },
        }
    }
}

/// Whether a comment goes on after a byte of it, or begins with the byte.
fn comment_after(comment: bool, byte: u8) -> bool
    requires { IsSkipped comment byte }
    ensures { skipping result ≡ next_mode (skipping comment) byte }
{
    if comment { byte != 10 } else { byte == 59 }
}

/// The next byte that is neither blank nor in a comment, or the end.
pub fn skip(bytes: &[u8], from: Cursor) -> Cursor
    requires { IsWithin bytes.now from }
    ensures within { IsWithin bytes.now result }
    ensures onward { from.at ≤ result.at }
    ensures same { scan (drop from.at bytes.now) free from.place ≡ scan (drop result.at bytes.now) free result.place }
    ensures token { result.at < length bytes.now → IsTokenByte (slice_index bytes.now result.at) }
{
    let mut cursor = from;
    let mut comment = false;
    while cursor.at < bytes.len() {
        let byte = bytes[cursor.at];
        if begins_token(comment, byte) {
            return cursor;
        }
        comment = comment_after(comment, byte);
        cursor = cursor.after(byte);
    }
    cursor
}

/// Whether a token begins with a byte, in a comment or outside of one.
fn begins_token(comment: bool, byte: u8) -> bool
    ensures begins { IsTrue result → (comment ≡ false) × IsTokenByte byte }
    ensures skipped { IsFalse result → IsSkipped comment byte }
{
    !(comment || is_blank(byte) || byte == 59)
}
