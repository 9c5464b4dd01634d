//! The headers of types and models, and the shape of a property.
ghost use Rattle.std.specs.Prelude.{◌≡◌, [], Ok, Err, OnOk, IfOk, IfErr};
ghost use Rattle.qk_syntax.specs.PlainTrees.{list, name, more};
ghost use Rattle.qk_syntax.specs.Refusals.{IfRefusal};
ghost use Rattle.qk_syntax.specs.View.{view, views};
ghost use Rattle.qk_headers.specs.Headers.{named_maker as named_maker_of, maker_at as maker_of_tree, makers_after, model_part as model_part_of, model_types as model_types_of, forall_parts as forall_parts_of, forall_at as forall_of, property_shape as property_shape_of};
ghost use Rattle.qk_names.specs.NameTable.{names_in};
ghost use Rattle.qk_value.specs.View.{view_type};

use crate::checking::{bytes_of, exactly, reads, some_at_most};
use crate::tables::ModelTypes;
use crate::types_of::{type_at, types_at};
use qk_base::{Fault, Place, Seq};
use qk_names::{MOST_PARTS, Names, UNKNOWN_FORM, WRONG_COUNT, refusal};
use qk_syntax::{Node, Tree};
use qk_value::{Maker, Ty};
use std::alloc::Global;

/// The makers of a type.
pub fn makers_at(alloc: Global, names: &Names, trees: &[Tree]) -> Result<Seq<Maker>, Fault>
    ensures makers { IfOk result (λ ms. makers_after (names_in names.now) [] (views trees.now) ≡ Ok ms.items) }
    ensures refused { IfErr result (λ e. IfRefusal e (λ r. makers_after (names_in names.now) [] (views trees.now) ≡ Err r)) }
{
    let mut makers = Seq::make(alloc);
    for tree in trees {
        makers.add(maker_at(alloc, names, tree)?)?;
    }
    Ok(makers)
}

fn maker_at(alloc: Global, names: &Names, tree: &Tree) -> Result<Maker, Fault>
    ensures maker { IfOk result (λ m. maker_of_tree (names_in names.now) (view tree.now) ≡ Ok m) }
    ensures refused { IfErr result (λ e. IfRefusal e (λ r. maker_of_tree (names_in names.now) (view tree.now) ≡ Err r)) }
{
    match &tree.node {
        Node::List(parts) => headed_maker(alloc, names, tree.place, parts.as_slice()),
        _ => Err(refusal(UNKNOWN_FORM, tree.place)),
    }
}

fn headed_maker(alloc: Global, names: &Names, place: Place, parts: &[Tree]) -> Result<Maker, Fault>
    ensures maker { IfOk result (λ m. maker_of_tree (names_in names.now) (list place (views parts.now)) ≡ Ok m) }
    ensures refused { IfErr result (λ e. IfRefusal e (λ r. maker_of_tree (names_in names.now) (list place (views parts.now)) ≡ Err r)) }
{
    let [head, fields @ ..] = parts else {
        return Err(refusal(UNKNOWN_FORM, place));
    };
    match &head.node {
        Node::Name(word) => named_maker(alloc, names, word.as_slice(), fields),
        _ => Err(refusal(UNKNOWN_FORM, place)),
    }
}

fn named_maker(alloc: Global, names: &Names, word: &[u8], fields: &[Tree]) -> Result<Maker, Fault>
    ensures maker { IfOk result (λ m. named_maker_of (names_in names.now) word.now (views fields.now) ≡ Ok m) }
    ensures refused { IfErr result (λ e. IfRefusal e (λ r. named_maker_of (names_in names.now) word.now (views fields.now) ≡ Err r)) }
{
    let fields = types_at(alloc, names, fields)?;
    let name = bytes_of(alloc, word)?;
    Ok(Maker { name, fields })
}

/// The types of a model, from what stands after its name.
pub fn model_types(
    alloc: Global,
    names: &Names,
    place: Place,
    parts: &[Tree],
) -> Result<ModelTypes, Fault>
    ensures types { IfOk result (λ m. model_types_of (names_in names.now) place (views parts.now) ≡ Ok m) }
    ensures refused { IfErr result (λ e. IfRefusal e (λ r. model_types_of (names_in names.now) place (views parts.now) ≡ Err r)) }
{
    let [command, abstract_part, system] = parts else {
        return Err(refusal(WRONG_COUNT, place));
    };
    let command = model_part(alloc, names, b"command".as_slice(), 1, command)?;
    let abstract_ty = model_part(alloc, names, b"abstract".as_slice(), 3, abstract_part)?;
    let system_ty = model_part(alloc, names, b"system".as_slice(), 3, system)?;
    Ok(ModelTypes {
        command,
        abstract_ty,
        system_ty,
    })
}

/// The type of a part of a model that has this head and so many parts after the type.
fn model_part(
    alloc: Global,
    names: &Names,
    head: &[u8],
    rest: usize,
    tree: &Tree,
) -> Result<Ty, Fault>
    ensures ty { IfOk result (λ t. model_part_of (names_in names.now) head.now rest (view tree.now) ≡ Ok (view_type t)) }
    ensures refused { IfErr result (λ e. IfRefusal e (λ r. model_part_of (names_in names.now) head.now rest (view tree.now) ≡ Err r)) }
{
    match &tree.node {
        Node::List(parts) => headed_part(alloc, names, head, rest, tree.place, parts.as_slice()),
        _ => Err(refusal(UNKNOWN_FORM, tree.place)),
    }
}

fn headed_part(
    alloc: Global,
    names: &Names,
    head: &[u8],
    rest: usize,
    place: Place,
    parts: &[Tree],
) -> Result<Ty, Fault>
    ensures ty { IfOk result (λ t. model_part_of (names_in names.now) head.now rest (list place (views parts.now)) ≡ Ok (view_type t)) }
    ensures refused { IfErr result (λ e. IfRefusal e (λ r. model_part_of (names_in names.now) head.now rest (list place (views parts.now)) ≡ Err r)) }
{
    let [first, parts @ ..] = parts else {
        return Err(refusal(UNKNOWN_FORM, place));
    };
    match &first.node {
        Node::Name(word) => typed_part(
            alloc,
            names,
            head,
            rest,
            place,
            first.place,
            word.as_slice(),
            parts,
        ),
        _ => Err(refusal(UNKNOWN_FORM, place)),
    }
}

fn typed_part(
    alloc: Global,
    names: &Names,
    head: &[u8],
    rest: usize,
    place: Place,
    at: Place,
    word: &[u8],
    parts: &[Tree],
) -> Result<Ty, Fault>
    ensures ty { IfOk result (λ t. model_part_of (names_in names.now) head.now rest (list place (more (name at word.now) (views parts.now))) ≡ Ok (view_type t)) }
    ensures refused { IfErr result (λ e. IfRefusal e (λ r. model_part_of (names_in names.now) head.now rest (list place (more (name at word.now) (views parts.now))) ≡ Err r)) }
{
    let [ty, parts @ ..] = parts else {
        reads(word, head, place)?;
        return Err(refusal(WRONG_COUNT, place));
    };
    reads(word, head, place)?;
    exactly(parts, rest, place)?;
    type_at(alloc, names, ty)
}

/// That what stands after the name of a property is a `forall` with a list of binders.
pub fn property_shape(place: Place, parts: &[Tree]) -> Result<(), Fault>
    ensures ok { OnOk result (property_shape_of place (views parts.now) ≡ Ok tt) }
    ensures refused { IfErr result (λ e. IfRefusal e (λ r. property_shape_of place (views parts.now) ≡ Err r)) }
{
    match parts {
        [tree] => forall_at(tree),
        _ => Err(refusal(WRONG_COUNT, place)),
    }
}

fn forall_at(tree: &Tree) -> Result<(), Fault>
    ensures ok { OnOk result (forall_of (view tree.now) ≡ Ok tt) }
    ensures refused { IfErr result (λ e. IfRefusal e (λ r. forall_of (view tree.now) ≡ Err r)) }
{
    match &tree.node {
        Node::List(parts) => headed_forall(tree.place, parts.as_slice()),
        _ => Err(refusal(UNKNOWN_FORM, tree.place)),
    }
}

fn headed_forall(place: Place, parts: &[Tree]) -> Result<(), Fault>
    ensures ok { OnOk result (forall_of (list place (views parts.now)) ≡ Ok tt) }
    ensures refused { IfErr result (λ e. IfRefusal e (λ r. forall_of (list place (views parts.now)) ≡ Err r)) }
{
    let [head, parts @ ..] = parts else {
        return Err(refusal(UNKNOWN_FORM, place));
    };
    let Node::Name(word) = &head.node else {
        return Err(refusal(UNKNOWN_FORM, place));
    };
    reads(word.as_slice(), b"forall".as_slice(), place)?;
    forall_parts(place, parts)
}

fn forall_parts(place: Place, parts: &[Tree]) -> Result<(), Fault>
    ensures ok { OnOk result (forall_parts_of place (views parts.now) ≡ Ok tt) }
    ensures refused { IfErr result (λ e. IfRefusal e (λ r. forall_parts_of place (views parts.now) ≡ Err r)) }
{
    let [binders, ..] = parts else {
        return Err(refusal(WRONG_COUNT, place));
    };
    let Node::List(binders) = &binders.node else {
        return Err(refusal(UNKNOWN_FORM, binders.place));
    };
    some_at_most(binders.as_slice(), MOST_PARTS, place)
}
