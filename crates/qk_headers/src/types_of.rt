//! What trees are as types.
ghost use Rattle.std.specs.Prelude.{◌≡◌, Ok, Err, IfOk, IfErr, Some, [], map};
ghost use Rattle.qk_syntax.specs.PlainTrees.{list};
ghost use Rattle.qk_syntax.specs.Refusals.{IfRefusal};
ghost use Rattle.qk_syntax.specs.View.{view, views};
ghost use Rattle.qk_names.specs.NameTable.{names_in};
ghost use Rattle.qk_headers.specs.TypesOf.{type_at as type_of_tree, formed_type, named_type as type_of_word, types_after, former as former_of_word, head_former, parts_after};
ghost use Rattle.qk_headers.specs.declared.types_of.Former.TheVariants as formers;
ghost use Rattle.qk_value.specs.Types.{list_type, pair_type};
ghost use Rattle.qk_value.specs.View.{view_type};

use qk_base::{Fault, Memory, Place, Seq};
use qk_names::{Named, Names, UNKNOWN_FORM, UNKNOWN_NAME, WRONG_COUNT, refusal};
use qk_syntax::{Node, Tree};
use qk_value::Ty;
use std::alloc::Global;

/// A head of types that have parts.
#[derive(Clone, Copy, Debug, PartialEq, Eq)]
pub enum Former {
    List,
    Pair,
}

/// The type that a tree is.
#[cycle(types)]
pub fn type_at(alloc: Global, names: &Names, tree: &Tree) -> Result<Ty, Fault>
    ensures ty { IfOk result (λ t. type_of_tree (names_in names.now) (view tree.now) ≡ Ok (view_type t)) }
    ensures refused { IfErr result (λ e. IfRefusal e (λ r. type_of_tree (names_in names.now) (view tree.now) ≡ Err r)) }
{
    match &tree.node {
        Node::Number(_) => Err(refusal(UNKNOWN_FORM, tree.place)),
        Node::Name(word) => named_type(names, tree.place, word.as_slice()),
        Node::List(parts) => headed_type(alloc, names, tree.place, parts.as_slice()),
    }
}

#[cycle(types)]
fn headed_type(alloc: Global, names: &Names, place: Place, parts: &[Tree]) -> Result<Ty, Fault>
    ensures ty { IfOk result (λ t. type_of_tree (names_in names.now) (list place (views parts.now)) ≡ Ok (view_type t)) }
    ensures refused { IfErr result (λ e. IfRefusal e (λ r. type_of_tree (names_in names.now) (list place (views parts.now)) ≡ Err r)) }
{
    match former_of(parts) {
        None => Err(refusal(UNKNOWN_FORM, place)),
        Some(Former::List) => list_of(alloc, names, place, parts),
        Some(Former::Pair) => pair_of(alloc, names, place, parts),
    }
}

/// The type of lists of these items.
pub fn listed(alloc: Global, item: Ty) -> Result<Ty, Memory>
    ensures { IfOk result (λ t. view_type t ≡ list_type (view_type item)) }
{
    Ok(Ty::List(Box::new(alloc, item)?))
}

/// The type of pairs of these parts.
pub fn paired(alloc: Global, first: Ty, second: Ty) -> Result<Ty, Memory>
    ensures { IfOk result (λ t. view_type t ≡ pair_type (view_type first) (view_type second)) }
{
    let first = Box::new(alloc, first)?;
    Ok(Ty::Pair(first, Box::new(alloc, second)?))
}

fn named_type(names: &Names, place: Place, word: &[u8]) -> Result<Ty, Fault>
    ensures ty { IfOk result (λ t. type_of_word (names_in names.now) place word.now ≡ Ok (view_type t)) }
    ensures refused { IfErr result (λ e. IfRefusal e (λ r. type_of_word (names_in names.now) place word.now ≡ Err r)) }
{
    if word == b"Int".as_slice() {
        Ok(Ty::Int)
    } else if word == b"Bool".as_slice() {
        Ok(Ty::Bool)
    } else {
        match names.get(word) {
            Some(Named::Kind(kind)) => Ok(Ty::Made(kind)),
            _ => Err(refusal(UNKNOWN_NAME, place)),
        }
    }
}

/// The former that heads the parts of a list.
fn former_of(parts: &[Tree]) -> Option<Former>
    ensures { result ≡ head_former (views parts.now) }
{
    let [head, ..] = parts else {
        return None;
    };
    match &head.node {
        Node::Name(word) => former_by(word.as_slice()),
        _ => None,
    }
}

fn former_by(word: &[u8]) -> Option<Former>
    ensures { result ≡ former_of_word word.now }
{
    if word == b"List".as_slice() {
        Some(Former::List)
    } else if word == b"Pair".as_slice() {
        Some(Former::Pair)
    } else {
        None
    }
}

#[cycle(types)]
fn list_of(alloc: Global, names: &Names, place: Place, parts: &[Tree]) -> Result<Ty, Fault>
    ensures ty { IfOk result (λ t. formed_type (names_in names.now) place (Some formers.List) (parts_after (views parts.now)) ≡ Ok (view_type t)) }
    ensures refused { IfErr result (λ e. IfRefusal e (λ r. formed_type (names_in names.now) place (Some formers.List) (parts_after (views parts.now)) ≡ Err r)) }
{
    let [_, item] = parts else {
        return Err(refusal(WRONG_COUNT, place));
    };
    let item = type_at(alloc, names, item)?;
    Ok(listed(alloc, item)?)
}

#[cycle(types)]
fn pair_of(alloc: Global, names: &Names, place: Place, parts: &[Tree]) -> Result<Ty, Fault>
    ensures ty { IfOk result (λ t. formed_type (names_in names.now) place (Some formers.Pair) (parts_after (views parts.now)) ≡ Ok (view_type t)) }
    ensures refused { IfErr result (λ e. IfRefusal e (λ r. formed_type (names_in names.now) place (Some formers.Pair) (parts_after (views parts.now)) ≡ Err r)) }
{
    let [_, first, second] = parts else {
        return Err(refusal(WRONG_COUNT, place));
    };
    let first = type_at(alloc, names, first)?;
    let second = type_at(alloc, names, second)?;
    Ok(paired(alloc, first, second)?)
}

/// The types that trees are, one after another.
pub fn types_at(alloc: Global, names: &Names, trees: &[Tree]) -> Result<Seq<Ty>, Fault>
    ensures types { IfOk result (λ ts. types_after (names_in names.now) [] (views trees.now) ≡ Ok (map view_type ts.items)) }
    ensures refused { IfErr result (λ e. IfRefusal e (λ r. types_after (names_in names.now) [] (views trees.now) ≡ Err r)) }
{
    let mut types = Seq::make(alloc);
    for tree in trees {
        types.add(type_at(alloc, names, tree)?)?;
    }
    Ok(types)
}
