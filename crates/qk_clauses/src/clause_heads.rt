//! The heads of clauses, and their order: givens, then one check, then marks.
ghost use Rattle.std.specs.Prelude.{◌≡◌, ◌∷◌, ◌++◌, [], Ok, Err, OnOk, IfErr, IfOk, map, option_map};
ghost use Rattle.qk_syntax.specs.Refusals.{IfRefusal};
ghost use Rattle.qk_names.specs.Checks.{check};
ghost use Rattle.qk_clauses.specs.Clauses.{no_clauses, head_of as head_of_word, may_follow as may_follow_clauses};
ghost use Rattle.qk_clauses.specs.ClausesView.{head_in, clauses_in, mark_of as mark_of_word};

use qk_base::{Fault, Place, Seq};
use qk_core::{Check, Expr, Mark};
use qk_names::{UNKNOWN_FORM, refusal};
use std::alloc::Global;

/// The clauses so far.
#[derive(Drop)]
pub struct Clauses {
    pub givens: Seq<Expr>,
    pub check: Option<Check>,
    pub marks: Seq<Mark>,
}

impl Clauses {
    /// No clause.
    pub fn none(alloc: Global) -> Clauses
        ensures { clauses_in result ≡ no_clauses }
    {
        Clauses {
            givens: Seq::make(alloc),
            check: None,
            marks: Seq::make(alloc),
        }
    }
}

/// A sort of clauses.
#[derive(Clone, Copy, Debug, PartialEq, Eq)]
pub enum Head {
    Given,
    Check,
    CheckRuns,
    Label,
    Collect,
    Classify,
    Tabulate,
    Cover,
}

/// The sort of a clause by its head.
pub fn head_of(word: &[u8]) -> Option<Head>
    ensures { option_map head_in result ≡ head_of_word word.now }
{
    if word == b"given".as_slice() {
        Some(Head::Given)
    } else if word == b"check".as_slice() {
        Some(Head::Check)
    } else if word == b"check-runs".as_slice() {
        Some(Head::CheckRuns)
    } else {
        mark_of(word)
    }
}

fn mark_of(word: &[u8]) -> Option<Head>
    ensures { option_map head_in result ≡ mark_of_word word.now }
{
    if word == b"label".as_slice() {
        Some(Head::Label)
    } else if word == b"collect".as_slice() {
        Some(Head::Collect)
    } else if word == b"classify".as_slice() {
        Some(Head::Classify)
    } else if word == b"tabulate".as_slice() {
        Some(Head::Tabulate)
    } else if word == b"cover".as_slice() {
        Some(Head::Cover)
    } else {
        None
    }
}

/// Whether such a clause may come after these.
fn may_follow(before: &Clauses, head: Head) -> bool
    ensures { result ≡ may_follow_clauses (clauses_in before.now) (head_in head) }
{
    match head {
        Head::Given | Head::Check | Head::CheckRuns => before.check.is_none(),
        _ => before.check.is_some(),
    }
}

/// That such a clause may come after these.
pub fn in_order(before: &Clauses, head: Head, place: Place) -> Result<(), Fault>
    ensures ok { OnOk result (check (may_follow_clauses (clauses_in before.now) (head_in head)) 20 place ≡ Ok tt) }
    ensures refused { IfErr result (λ e. IfRefusal e (λ r. check (may_follow_clauses (clauses_in before.now) (head_in head)) 20 place ≡ Err r)) }
{
    if may_follow(before, head) {
        Ok(())
    } else {
        Err(refusal(UNKNOWN_FORM, place))
    }
}
