//! The bodies of properties: their binders, then their clauses.
ghost use Rattle.std.specs.Prelude.{◌≡◌, Ok, Err, IfOk, IfErr};
ghost use Rattle.qk_syntax.specs.PlainTrees.{list, more, end};
ghost use Rattle.qk_syntax.specs.Refusals.{IfRefusal};
ghost use Rattle.qk_syntax.specs.View.{view, views};
ghost use Rattle.qk_types.specs.Bodies.{property_body as property_of, forall_body as forall_of};
ghost use Rattle.qk_types.specs.DraftView.{closed_property as closed_property_of};
ghost use Rattle.qk_clauses.specs.ClausesView.{clauses_in};
ghost use Rattle.qk_typing.specs.TablesView.{tables_in};

use qk_base::{Bytes, Fault, Place, Seq};
use qk_clauses::{Clauses, binders_at, clauses_at};
use qk_core::{Binder, Property};
use qk_headers::{Tables, bytes_of};
use qk_names::{MOST_PARTS, WRONG_COUNT, refusal};
use qk_syntax::{Node, Tree};
use std::alloc::Global;

/// The property of that name, from what stands after it.
pub fn property_body(
    alloc: Global,
    tables: &Tables,
    place: Place,
    word: &[u8],
    parts: &[Tree],
) -> Result<Property, Fault>
    ensures property { IfOk result (λ p. property_of (tables_in tables.now) place word.now (views parts.now) ≡ Ok p) }
    ensures refused { IfErr result (λ e. IfRefusal e (λ r. property_of (tables_in tables.now) place word.now (views parts.now) ≡ Err r)) }
{
    match parts {
        [tree] => forall_at(alloc, tables, place, word, tree),
        _ => Err(refusal(WRONG_COUNT, place)),
    }
}

fn forall_at(
    alloc: Global,
    tables: &Tables,
    place: Place,
    word: &[u8],
    tree: &Tree,
) -> Result<Property, Fault>
    ensures property { IfOk result (λ p. property_of (tables_in tables.now) place word.now (more (view tree.now) end) ≡ Ok p) }
    ensures refused { IfErr result (λ e. IfRefusal e (λ r. property_of (tables_in tables.now) place word.now (more (view tree.now) end) ≡ Err r)) }
{
    let Node::List(parts) = &tree.node else {
        return Err(refusal(WRONG_COUNT, place));
    };
    let [_head, parts @ ..] = parts.as_slice() else {
        return Err(refusal(WRONG_COUNT, place));
    };
    forall_body(alloc, tables, tree.place, word, parts)
}

fn forall_body(
    alloc: Global,
    tables: &Tables,
    place: Place,
    word: &[u8],
    parts: &[Tree],
) -> Result<Property, Fault>
    ensures property { IfOk result (λ p. forall_of (tables_in tables.now) place word.now (views parts.now) ≡ Ok p) }
    ensures refused { IfErr result (λ e. IfRefusal e (λ r. forall_of (tables_in tables.now) place word.now (views parts.now) ≡ Err r)) }
{
    let [first, clauses @ ..] = parts else {
        return Err(refusal(WRONG_COUNT, place));
    };
    match &first.node {
        Node::List(binders) => {
            bound_property(
                alloc,
                tables,
                place,
                first.place,
                word,
                binders.as_slice(),
                clauses,
            )
        }
        _ => Err(refusal(WRONG_COUNT, place)),
    }
}

fn bound_property(
    alloc: Global,
    tables: &Tables,
    place: Place,
    at: Place,
    word: &[u8],
    binders: &[Tree],
    clauses: &[Tree],
) -> Result<Property, Fault>
    ensures property { IfOk result (λ p. forall_of (tables_in tables.now) place word.now (more (list at (views binders.now)) (views clauses.now)) ≡ Ok p) }
    ensures refused { IfErr result (λ e. IfRefusal e (λ r. forall_of (tables_in tables.now) place word.now (more (list at (views binders.now)) (views clauses.now)) ≡ Err r)) }
{
    let mut bound = binders_at(alloc, tables, binders)?;
    let clauses = clauses_at(alloc, tables, &mut bound, clauses)?;
    let name = bytes_of(alloc, word)?;
    closed_property(place, name, bound.binders, clauses)
}

/// The property, once no clause is left.
fn closed_property(
    place: Place,
    name: Bytes,
    binders: Seq<Binder>,
    clauses: Clauses,
) -> Result<Property, Fault>
    ensures property { IfOk result (λ p. closed_property_of place name.items binders.items (clauses_in clauses) ≡ Ok p) }
    ensures refused { IfErr result (λ e. IfRefusal e (λ r. closed_property_of place name.items binders.items (clauses_in clauses) ≡ Err r)) }
{
    let Clauses {
        givens,
        check,
        marks,
    } = clauses;
    let Some(check) = check else {
        return Err(refusal(WRONG_COUNT, place));
    };
    if givens.len() > MOST_PARTS || marks.len() > MOST_PARTS {
        return Err(refusal(WRONG_COUNT, place));
    }
    Ok(Property {
        name,
        binders,
        givens,
        check,
        marks,
    })
}
