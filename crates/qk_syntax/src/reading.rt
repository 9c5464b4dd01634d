//! From a text to its trees.
ghost use Rattle.std.specs.Prelude.{◌≡◌, ◌≤◌, length, Ok, Err, IfOk, IfErr, OnOk, Some, None};
ghost use Rattle.qk_syntax.specs.Places.{start};
ghost use Rattle.qk_syntax.specs.Reader.{free, scan, reading};
ghost use Rattle.qk_syntax.specs.Refusals.{IfRefusal};
ghost use Rattle.qk_syntax.specs.Spelling.{Spells};
ghost use Rattle.qk_syntax.specs.Stacks.{bottom};
ghost use Rattle.qk_syntax.specs.TextFault.{text_fault};
ghost use Rattle.qk_syntax.specs.View.{views};

use crate::cursor::{Cursor, START, skip};
use crate::open_lists::OpenLists;
use crate::tree::Tree;
use qk_base::{Fault, Refusal, Seq};
use std::alloc::Global;

const TOO_LONG: u16 = 1;

/// The most bytes of a text.
const MOST_BYTES: usize = 1048576;

/// The trees of a text, or its fault: the one at the least place. One pass, in time linear in the text.
pub fn read(alloc: Global, bytes: &[u8]) -> Result<Seq<Tree>, Fault>
    ensures trees { IfOk result (λ trees. Spells bytes.now (views trees.items)) }
    ensures whole { OnOk result (text_fault bytes.now ≡ None) }
    ensures refused { IfErr result (λ e. IfRefusal e (λ r. text_fault bytes.now ≡ Some r)) }
{
    if bytes.len() > MOST_BYTES {
        return Err(Fault::Refused(Refusal {
            code: TOO_LONG,
            place: START,
        }));
    }
    read_short(alloc, bytes)
}

fn read_short(alloc: Global, bytes: &[u8]) -> Result<Seq<Tree>, Fault>
    requires { length bytes.now ≤ 1048576 }
    ensures ok { IfOk result (λ trees. reading (scan bytes.now free start) bottom ≡ Ok (views trees.items)) }
    ensures refused { IfErr result (λ e. IfRefusal e (λ r. reading (scan bytes.now free start) bottom ≡ Err r)) }
{
    let mut lists = OpenLists::make(alloc);
    let start = Cursor {
        at: 0,
        place: START,
    };
    let mut cursor = skip(bytes, start);
    while cursor.at < bytes.len() {
        let next = lists.take(alloc, bytes, cursor)?;
        cursor = skip(bytes, next);
    }
    lists.finish()
}
