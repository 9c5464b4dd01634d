//! The lists that are open where the reader stands.
ghost use Rattle.std.specs.Prelude.{◌≡◌, ◌<◌, length, drop, [], Ok, Err, IfOk, IfErr, OnOk, slice_index, true, Some, None};
ghost use Rattle.qk_syntax.specs.Cursors.{IsWithin, IsTokenByte};
ghost use Rattle.qk_syntax.specs.Reader.{free, scan, reading, step, finish, is_full, is_deep};
ghost use Rattle.qk_syntax.specs.Refusals.{IfRefusal};
ghost use Rattle.qk_syntax.specs.Stacks.{stack_of, bottom};
ghost use Rattle.qk_syntax.specs.Tokens.{opening, closing, word};
ghost use Rattle.qk_syntax.specs.View.{views};
ghost use Rattle.qk_syntax.specs.Words.{is_word_byte};
ghost use Rattle.qk_syntax.specs.TextFault.{fault};
ghost use Rattle.qk_base.specs.declared.fault.Fault.TheVariants as faults;

use crate::cursor::Cursor;
use crate::lexis::{is_word_byte, word_at};
use crate::tree::{Node, Tree};
use crate::word::read_word;
use qk_base::{Fault, Place, Refusal, Seq};
use std::alloc::Global;
use std::mem;

const BAD_BYTE: u16 = 2;

const STRAY_CLOSE: u16 = 3;

const OPEN_AT_END: u16 = 4;

const TOO_DEEP: u16 = 8;

const TOO_MANY_ITEMS: u16 = 9;

/// The most levels of lists in lists.
const MOST_LEVELS: usize = 200;

/// The most trees outside of all lists.
const MOST_ITEMS: usize = 1000;

/// A list that has begun: the place of its `(`, and the trees before it in the list around it.
#[derive(Drop)]
pub struct OpenList {
    place: Place,
    before: Seq<Tree>,
}

/// The trees so far of the innermost list, and the open lists, the innermost last.
#[derive(Drop)]
pub struct OpenLists {
    items: Seq<Tree>,
    outer: Seq<OpenList>,
}

impl OpenLists {
    pub fn make(alloc: Global) -> OpenLists
        ensures { stack_of result ≡ bottom }
    {
        OpenLists {
            items: Seq::make(alloc),
            outer: Seq::make(alloc),
        }
    }

    /// Whether one more list here would be one level too many.
    #[tactic(auto, using(crate::proofs::StackLaws::deep_is))]
    fn is_deep(&self) -> bool
        ensures { result ≡ is_deep (stack_of self.now) }
    {
        self.outer.len() >= MOST_LEVELS
    }

    /// Whether one more tree here would be one too many.
    #[tactic(auto, using(crate::proofs::StackLaws::full_is))]
    fn is_full(&self) -> bool
        ensures { result ≡ is_full (stack_of self.now) }
    {
        self.outer.len() == 0 && self.items.len() >= MOST_ITEMS
    }

    /// Begins a list.
    fn open(&mut self, alloc: Global, place: Place) -> Result<(), Fault>
        ensures ok { OnOk result (step (stack_of self.old) (opening place) ≡ Ok (stack_of self.new)) }
        ensures refused { IfErr result (λ e. IfRefusal e (λ r. step (stack_of self.old) (opening place) ≡ Err r)) }
    {
        if self.is_deep() {
            return Err(refused(TOO_DEEP, place));
        }
        if self.is_full() {
            return Err(refused(TOO_MANY_ITEMS, place));
        }
        let before = mem::replace(&mut self.items, Seq::make(alloc));
        self.outer.add(OpenList { place, before })?;
        Ok(())
    }

    /// Ends the innermost list.
    fn close(&mut self, place: Place) -> Result<(), Fault>
        ensures ok { OnOk result (step (stack_of self.old) (closing place) ≡ Ok (stack_of self.new)) }
        ensures refused { IfErr result (λ e. IfRefusal e (λ r. step (stack_of self.old) (closing place) ≡ Err r)) }
    {
        match self.outer.pop() {
            None => Err(refused(STRAY_CLOSE, place)),
            Some(list) => {
                let inner = mem::replace(&mut self.items, list.before);
                self.items.add(Tree {
                    place: list.place,
                    node: Node::List(inner),
                })?;
                Ok(())
            }
        }
    }

    /// Puts a word at the end of the innermost list.
    fn put_word(&mut self, alloc: Global, bytes: &[u8], place: Place) -> Result<(), Fault>
        ensures ok { OnOk result (step (stack_of self.old) (word place bytes.now) ≡ Ok (stack_of self.new)) }
        ensures refused { IfErr result (λ e. IfRefusal e (λ r. step (stack_of self.old) (word place bytes.now) ≡ Err r)) }
    {
        let tree = read_word(alloc, bytes, place)?;
        if self.is_full() {
            return Err(refused(TOO_MANY_ITEMS, place));
        }
        self.items.add(tree)?;
        Ok(())
    }

    /// Takes the token on which the cursor stands, and answers the cursor after it.
    pub fn take(&mut self, alloc: Global, bytes: &[u8], from: Cursor) -> Result<Cursor, Fault>
        requires within { IsWithin bytes.now from }
        requires inside { from.at < length bytes.now }
        requires token { IsTokenByte (slice_index bytes.now from.at) }
        ensures within { IfOk result (λ next. IsWithin bytes.now next × (from.at < next.at)) }
        ensures ok { IfOk result (λ next. reading (scan (drop from.at bytes.now) free from.place) (stack_of self.old) ≡ reading (scan (drop next.at bytes.now) free next.place) (stack_of self.new)) }
        ensures refused { IfErr result (λ e. IfRefusal e (λ r. reading (scan (drop from.at bytes.now) free from.place) (stack_of self.old) ≡ Err r)) }
    {
        let byte = bytes[from.at];
        if byte == 40 {
            self.open(alloc, from.place)?;
            return Ok(from.after(byte));
        }
        if byte == 41 {
            self.close(from.place)?;
            return Ok(from.after(byte));
        }
        if !is_word_byte(byte) {
            return Err(refused(BAD_BYTE, from.place));
        }
        self.take_word(alloc, bytes, from)
    }

    /// Takes the word on whose first byte the cursor stands.
    fn take_word(&mut self, alloc: Global, bytes: &[u8], from: Cursor) -> Result<Cursor, Fault>
        requires within { IsWithin bytes.now from }
        requires inside { from.at < length bytes.now }
        requires word { is_word_byte (slice_index bytes.now from.at) ≡ true }
        ensures within { IfOk result (λ next. IsWithin bytes.now next × (from.at < next.at)) }
        ensures ok { IfOk result (λ next. reading (scan (drop from.at bytes.now) free from.place) (stack_of self.old) ≡ reading (scan (drop next.at bytes.now) free next.place) (stack_of self.new)) }
        ensures refused { IfErr result (λ e. IfRefusal e (λ r. reading (scan (drop from.at bytes.now) free from.place) (stack_of self.old) ≡ Err r)) }
    {
        let word = word_at(bytes, from.at);
        match self.put_word(alloc, word, from.place) {
            Ok(()) => Ok(from.past(word.len())),
            Err(fault) => Err(fault),
        }
    }

    /// The trees of a text that ends here.
    pub fn finish(self) -> Result<Seq<Tree>, Fault>
        ensures ok { IfOk result (λ trees. finish (stack_of self).outer (stack_of self).items ≡ Ok (views trees.items)) }
        ensures refused { IfErr result (λ e. IfRefusal e (λ r. finish (stack_of self).outer (stack_of self).items ≡ Err r)) }
    {
        let OpenLists { items, mut outer } = self;
        match outer.pop() {
            None => Ok(items),
            Some(list) => Err(refused(OPEN_AT_END, list.place)),
        }
    }
}

fn refused(code: u16, place: Place) -> Fault
    ensures { result ≡ faults.Refused (fault code place) }
{
    Fault::Refused(Refusal { code, place })
}
