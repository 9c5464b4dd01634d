//! What an attempt comes to.

use crate::bytes::Bytes;
use crate::seq::Seq;
use std::marker::Model;

/// Why an attempt failed.
#[derive(Clone, Copy, Debug, PartialEq, Eq)]
pub enum Cause {
    /// The check was false.
    False,
    /// A result outside the 64-bit numbers.
    Overflow,
    /// A division by zero.
    DivZero,
    /// No unit of fuel was left for a call.
    Fuel,
    /// A value of more than 65,536 parts.
    Weight,
    /// A value nested more than 200 deep.
    Depth,
    /// The postcondition of a command was false.
    Post,
}

/// Whether an attempt passed.
#[derive(Clone, Copy, Debug, PartialEq, Eq)]
pub enum Verdict {
    Pass,
    /// A precondition was false, so that the attempt counts for nothing.
    Discard,
    Fail(Cause),
}

/// What the marks of a property say of one attempt that passed, in clause order: the joined texts of its labels, the truth
/// value of each class, the text of each table entry and the truth value of each cover. All are empty for any other attempt.
#[derive(Drop)]
pub struct Marks {
    pub label: Bytes,
    pub classes: Seq<bool>,
    pub entries: Seq<Bytes>,
    pub covers: Seq<bool>,
}

impl Model for Marks {
    ghost use Rattle.std.specs.Prelude.{map};
    ghost use Rattle.qk_base.specs.Judged.{Marked};

    ghost Value = { Marked };

    ghost view = { λ m. record { label = m.label.items; classes = m.classes.items; entries = map (λ entry. entry.items) m.entries.items; covers = m.covers.items } };
}

/// The verdict of an attempt and its marks. A contract sees it as its plain data, without the spare room of its lists.
#[derive(Drop)]
pub struct Outcome {
    pub verdict: Verdict,
    pub marks: Marks,
}

impl Model for Outcome {
    ghost use Rattle.qk_base.specs.Judged.{Judged};

    ghost Value = { Judged };

    ghost view = { λ o. record { verdict = o.verdict; marks = o.marks } };
}
