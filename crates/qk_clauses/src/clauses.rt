//! The clauses of a property, one after another.
ghost use Rattle.std.specs.Prelude.{◌≡◌, Ok, Err, OnOk, IfOk, IfErr, Some};
ghost use Rattle.qk_syntax.specs.PlainTrees.{list};
ghost use Rattle.qk_syntax.specs.Refusals.{IfRefusal};
ghost use Rattle.qk_syntax.specs.View.{view, views};
ghost use Rattle.qk_clauses.specs.BoundView.{Sees, KeepsBound};
ghost use Rattle.qk_clauses.specs.Clauses.{no_clauses, clause_parts as clause_of_parts, clause_at as clause_of, clauses_at as clauses_of, headed_clause as headed_clause_of, head_of as head_of_word, given, checks, checks_runs};
ghost use Rattle.qk_clauses.specs.ClausesView.{head_in, clauses_in};
ghost use Rattle.qk_typing.specs.Operators.{Tables as TablesData};
ghost use Rattle.qk_typing.specs.TablesView.{tables_in};

use crate::binders::Bound;
use crate::clause_heads::{Clauses, Head, head_of, in_order};
use crate::clause_values::{runs_at, truth_at};
use crate::mark_clauses::{
    classify_clause, collect_clause, cover_clause, label_clause, tabulate_clause,
};
use qk_base::{Fault, Place};
use qk_core::Check;
use qk_headers::Tables;
use qk_names::{UNKNOWN_FORM, WRONG_COUNT, refusal};
use qk_syntax::{Node, Tree};
use std::alloc::Global;

/// The clauses that trees are, one after another.
pub fn clauses_at(
    alloc: Global,
    tables: &Tables,
    bound: &mut Bound,
    trees: &[Tree],
) -> Result<Clauses, Fault>
    requires { Sees bound.old }
    ensures clauses { IfOk result (λ c. clauses_of (tables_in tables.now) bound.old.binders.items no_clauses (views trees.now) ≡ Ok (clauses_in c)) }
    ensures bound { OnOk result (KeepsBound bound.old bound.new) }
    ensures refused { IfErr result (λ e. IfRefusal e (λ r. clauses_of (tables_in tables.now) bound.old.binders.items no_clauses (views trees.now) ≡ Err r)) }
{
    let mut clauses = Clauses::none(alloc);
    for tree in trees {
        clause_at(alloc, tables, bound, &mut clauses, tree)?;
    }
    Ok(clauses)
}

fn clause_at(
    alloc: Global,
    tables: &Tables,
    bound: &mut Bound,
    before: &mut Clauses,
    tree: &Tree,
) -> Result<(), Fault>
    requires { Sees bound.old }
    ensures ok { OnOk result (clause_of (tables_in tables.now) bound.old.binders.items (clauses_in before.old) (view tree.now) ≡ Ok (clauses_in before.new)) }
    ensures bound { OnOk result (KeepsBound bound.old bound.new) }
    ensures refused { IfErr result (λ e. IfRefusal e (λ r. clause_of (tables_in tables.now) bound.old.binders.items (clauses_in before.old) (view tree.now) ≡ Err r)) }
{
    match &tree.node {
        Node::List(parts) => {
            headed_clause(alloc, tables, bound, before, tree.place, parts.as_slice())
        }
        _ => Err(refusal(UNKNOWN_FORM, tree.place)),
    }
}

fn headed_clause(
    alloc: Global,
    tables: &Tables,
    bound: &mut Bound,
    before: &mut Clauses,
    place: Place,
    parts: &[Tree],
) -> Result<(), Fault>
    requires { Sees bound.old }
    ensures ok { OnOk result (clause_of (tables_in tables.now) bound.old.binders.items (clauses_in before.old) (list place (views parts.now)) ≡ Ok (clauses_in before.new)) }
    ensures bound { OnOk result (KeepsBound bound.old bound.new) }
    ensures refused { IfErr result (λ e. IfRefusal e (λ r. clause_of (tables_in tables.now) bound.old.binders.items (clauses_in before.old) (list place (views parts.now)) ≡ Err r)) }
{
    let [head, parts @ ..] = parts else {
        return Err(refusal(UNKNOWN_FORM, place));
    };
    match &head.node {
        Node::Name(word) => {
            named_clause(alloc, tables, bound, before, place, word.as_slice(), parts)
        }
        _ => Err(refusal(UNKNOWN_FORM, place)),
    }
}

/// A clause that this word heads.
fn named_clause(
    alloc: Global,
    tables: &Tables,
    bound: &mut Bound,
    before: &mut Clauses,
    place: Place,
    word: &[u8],
    parts: &[Tree],
) -> Result<(), Fault>
    requires { Sees bound.old }
    ensures ok { OnOk result (headed_clause_of (tables_in tables.now) bound.old.binders.items (clauses_in before.old) place (head_of_word word.now) (views parts.now) ≡ Ok (clauses_in before.new)) }
    ensures bound { OnOk result (KeepsBound bound.old bound.new) }
    ensures refused { IfErr result (λ e. IfRefusal e (λ r. headed_clause_of (tables_in tables.now) bound.old.binders.items (clauses_in before.old) place (head_of_word word.now) (views parts.now) ≡ Err r)) }
{
    match head_of(word) {
        Some(head) => ordered_clause(alloc, tables, bound, before, place, head, parts),
        None => Err(refusal(UNKNOWN_FORM, place)),
    }
}

fn ordered_clause(
    alloc: Global,
    tables: &Tables,
    bound: &mut Bound,
    before: &mut Clauses,
    place: Place,
    head: Head,
    parts: &[Tree],
) -> Result<(), Fault>
    requires { Sees bound.old }
    ensures ok { OnOk result (headed_clause_of (tables_in tables.now) bound.old.binders.items (clauses_in before.old) place (Some (head_in head)) (views parts.now) ≡ Ok (clauses_in before.new)) }
    ensures bound { OnOk result (KeepsBound bound.old bound.new) }
    ensures refused { IfErr result (λ e. IfRefusal e (λ r. headed_clause_of (tables_in tables.now) bound.old.binders.items (clauses_in before.old) place (Some (head_in head)) (views parts.now) ≡ Err r)) }
{
    in_order(before, head, place)?;
    clause_parts(alloc, tables, bound, before, place, head, parts)
}

fn clause_parts(
    alloc: Global,
    tables: &Tables,
    bound: &mut Bound,
    before: &mut Clauses,
    place: Place,
    head: Head,
    parts: &[Tree],
) -> Result<(), Fault>
    requires { Sees bound.old }
    ensures ok { OnOk result (clause_of_parts (tables_in tables.now) bound.old.binders.items (clauses_in before.old) place (head_in head) (views parts.now) ≡ Ok (clauses_in before.new)) }
    ensures bound { OnOk result (KeepsBound bound.old bound.new) }
    ensures refused { IfErr result (λ e. IfRefusal e (λ r. clause_of_parts (tables_in tables.now) bound.old.binders.items (clauses_in before.old) place (head_in head) (views parts.now) ≡ Err r)) }
{
    match head {
        Head::Given => given_clause(alloc, tables, bound, before, place, parts),
        Head::Check => check_clause(alloc, tables, bound, before, place, parts),
        Head::CheckRuns => runs_clause(bound, before, place, parts),
        Head::Label => label_clause(alloc, before, place, parts),
        Head::Collect => collect_clause(alloc, tables, bound, before, place, parts),
        Head::Classify => classify_clause(alloc, tables, bound, before, place, parts),
        Head::Tabulate => tabulate_clause(alloc, tables, bound, before, place, parts),
        Head::Cover => cover_clause(alloc, tables, bound, before, place, parts),
    }
}

fn given_clause(
    alloc: Global,
    tables: &Tables,
    bound: &mut Bound,
    before: &mut Clauses,
    place: Place,
    parts: &[Tree],
) -> Result<(), Fault>
    requires { Sees bound.old }
    ensures ok { OnOk result (clause_of_parts (tables_in tables.now) bound.old.binders.items (clauses_in before.old) place given (views parts.now) ≡ Ok (clauses_in before.new)) }
    ensures bound { OnOk result (KeepsBound bound.old bound.new) }
    ensures refused { IfErr result (λ e. IfRefusal e (λ r. clause_of_parts (tables_in tables.now) bound.old.binders.items (clauses_in before.old) place given (views parts.now) ≡ Err r)) }
{
    let [e] = parts else {
        return Err(refusal(WRONG_COUNT, place));
    };
    let e = truth_at(alloc, tables, bound, e)?;
    before.givens.add(e)?;
    Ok(())
}

fn check_clause(
    alloc: Global,
    tables: &Tables,
    bound: &mut Bound,
    before: &mut Clauses,
    place: Place,
    parts: &[Tree],
) -> Result<(), Fault>
    requires { Sees bound.old }
    ensures ok { OnOk result (clause_of_parts (tables_in tables.now) bound.old.binders.items (clauses_in before.old) place checks (views parts.now) ≡ Ok (clauses_in before.new)) }
    ensures bound { OnOk result (KeepsBound bound.old bound.new) }
    ensures refused { IfErr result (λ e. IfRefusal e (λ r. clause_of_parts (tables_in tables.now) bound.old.binders.items (clauses_in before.old) place checks (views parts.now) ≡ Err r)) }
{
    let [e] = parts else {
        return Err(refusal(WRONG_COUNT, place));
    };
    let e = truth_at(alloc, tables, bound, e)?;
    before.check = Some(Check::Expression(e));
    Ok(())
}

fn runs_clause(
    bound: &Bound,
    before: &mut Clauses,
    place: Place,
    parts: &[Tree],
) -> Result<(), Fault>
    ensures ok { OnOk result ((d : TablesData) → clause_of_parts d bound.now.binders.items (clauses_in before.old) place checks_runs (views parts.now) ≡ Ok (clauses_in before.new)) }
    ensures refused { IfErr result (λ e. IfRefusal e (λ r. (d : TablesData) → clause_of_parts d bound.now.binders.items (clauses_in before.old) place checks_runs (views parts.now) ≡ Err r)) }
{
    let [x] = parts else {
        return Err(refusal(WRONG_COUNT, place));
    };
    let what = runs_at(bound.binders.as_slice(), x)?;
    before.check = Some(what);
    Ok(())
}
