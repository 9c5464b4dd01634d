//! The second pass: what the headers of the items say, by number.
ghost use Rattle.std.specs.Prelude.{◌≡◌, Ok, Err, OnOk, IfOk, IfErr, Some};
ghost use Rattle.qk_syntax.specs.PlainTrees.{list, name, more};
ghost use Rattle.qk_syntax.specs.Refusals.{IfRefusal};
ghost use Rattle.qk_syntax.specs.View.{view, views};
ghost use Rattle.qk_headers.specs.Headers.{no_headers as no_headers_data, item_header as header_of, header_at as header_of_item, headers_of as headers_of_trees};
ghost use Rattle.qk_names.specs.NameTable.{names_in};
ghost use Rattle.qk_names.specs.Reserved.{Word};
ghost use Rattle.qk_names.specs.declared.names.Item.TheVariants as items;

use crate::checking::bytes_of;
use crate::header_parts::{makers_at, model_types, property_shape};
use crate::signatures::signature_at;
use crate::tables::Headers;
use qk_base::{Fault, Place, Seq};
use qk_names::{Item, Names, UNKNOWN_FORM, item_of, refusal};
use qk_syntax::{Node, Tree};
use qk_value::{Kind, Kinds};
use std::alloc::Global;

/// What the headers of all items say, or the first fault among them.
pub fn headers_of(alloc: Global, names: &Names, trees: &[Tree]) -> Result<Headers, Fault>
    ensures headers { IfOk result (λ h. headers_of_trees (names_in names.now) (views trees.now) ≡ Ok h) }
    ensures refused { IfErr result (λ e. IfRefusal e (λ r. headers_of_trees (names_in names.now) (views trees.now) ≡ Err r)) }
{
    let mut headers = no_headers(alloc);
    for tree in trees {
        header_at(alloc, names, &mut headers, tree)?;
    }
    Ok(headers)
}

fn no_headers(alloc: Global) -> Headers
    ensures { result ≡ no_headers_data }
{
    Headers {
        kinds: Kinds {
            kinds: Seq::make(alloc),
        },
        functions: Seq::make(alloc),
        generators: Seq::make(alloc),
        models: Seq::make(alloc),
    }
}

fn header_at(alloc: Global, names: &Names, headers: &mut Headers, item: &Tree) -> Result<(), Fault>
    ensures ok { OnOk result (header_of_item (names_in names.now) headers.old (view item.now) ≡ Ok headers.new) }
    ensures refused { IfErr result (λ e. IfRefusal e (λ r. header_of_item (names_in names.now) headers.old (view item.now) ≡ Err r)) }
{
    match &item.node {
        Node::List(parts) => headed_header(alloc, names, headers, item.place, parts.as_slice()),
        _ => Err(refusal(UNKNOWN_FORM, item.place)),
    }
}

fn headed_header(
    alloc: Global,
    names: &Names,
    headers: &mut Headers,
    place: Place,
    parts: &[Tree],
) -> Result<(), Fault>
    ensures ok { OnOk result (header_of_item (names_in names.now) headers.old (list place (views parts.now)) ≡ Ok headers.new) }
    ensures refused { IfErr result (λ e. IfRefusal e (λ r. header_of_item (names_in names.now) headers.old (list place (views parts.now)) ≡ Err r)) }
{
    let [head, parts @ ..] = parts else {
        return Err(refusal(UNKNOWN_FORM, place));
    };
    match &head.node {
        Node::Name(word) => {
            named_header(
                alloc,
                names,
                headers,
                place,
                head.place,
                word.as_slice(),
                parts,
            )
        }
        _ => Err(refusal(UNKNOWN_FORM, place)),
    }
}

/// The header of an item that this word heads.
fn named_header(
    alloc: Global,
    names: &Names,
    headers: &mut Headers,
    place: Place,
    at: Place,
    head: &[u8],
    parts: &[Tree],
) -> Result<(), Fault>
    ensures ok { OnOk result (header_of_item (names_in names.now) headers.old (list place (more (name at head.now) (views parts.now))) ≡ Ok headers.new) }
    ensures refused { IfErr result (λ e. IfRefusal e (λ r. header_of_item (names_in names.now) headers.old (list place (more (name at head.now) (views parts.now))) ≡ Err r)) }
{
    let [first, parts @ ..] = parts else {
        return Err(refusal(UNKNOWN_FORM, place));
    };
    let Node::Name(word) = &first.node else {
        return Err(refusal(UNKNOWN_FORM, place));
    };
    match item_of(head) {
        Some(item) => item_header(alloc, names, headers, place, word.as_slice(), item, parts),
        None => Err(refusal(UNKNOWN_FORM, place)),
    }
}

fn item_header(
    alloc: Global,
    names: &Names,
    headers: &mut Headers,
    place: Place,
    word: &[u8],
    item: Item,
    parts: &[Tree],
) -> Result<(), Fault>
    ensures ok { OnOk result (header_of (names_in names.now) headers.old place word.now (Some item) (views parts.now) ≡ Ok headers.new) }
    ensures refused { IfErr result (λ e. IfRefusal e (λ r. header_of (names_in names.now) headers.old place word.now (Some item) (views parts.now) ≡ Err r)) }
{
    match item {
        Item::Kind => kind_header(alloc, names, headers, place, word, parts),
        Item::Function => function_header(alloc, names, headers, place, parts),
        Item::Generator => generator_header(alloc, names, headers, place, parts),
        Item::Model => model_header(alloc, names, headers, place, parts),
        Item::Property => property_shape(place, parts),
    }
}

fn kind_header(
    alloc: Global,
    names: &Names,
    headers: &mut Headers,
    place: Place,
    word: &[u8],
    parts: &[Tree],
) -> Result<(), Fault>
    ensures ok { OnOk result (header_of (names_in names.now) headers.old place word.now (Some items.Kind) (views parts.now) ≡ Ok headers.new) }
    ensures refused { IfErr result (λ e. IfRefusal e (λ r. header_of (names_in names.now) headers.old place word.now (Some items.Kind) (views parts.now) ≡ Err r)) }
{
    let makers = makers_at(alloc, names, parts)?;
    let name = bytes_of(alloc, word)?;
    headers.kinds.kinds.add(Kind { name, makers })?;
    Ok(())
}

fn function_header(
    alloc: Global,
    names: &Names,
    headers: &mut Headers,
    place: Place,
    parts: &[Tree],
) -> Result<(), Fault>
    ensures ok { OnOk result ((word : Word) → header_of (names_in names.now) headers.old place word (Some items.Function) (views parts.now) ≡ Ok headers.new) }
    ensures refused { IfErr result (λ e. IfRefusal e (λ r. (word : Word) → header_of (names_in names.now) headers.old place word (Some items.Function) (views parts.now) ≡ Err r)) }
{
    let signature = signature_at(alloc, names, place, parts)?;
    headers.functions.add(signature)?;
    Ok(())
}

fn generator_header(
    alloc: Global,
    names: &Names,
    headers: &mut Headers,
    place: Place,
    parts: &[Tree],
) -> Result<(), Fault>
    ensures ok { OnOk result ((word : Word) → header_of (names_in names.now) headers.old place word (Some items.Generator) (views parts.now) ≡ Ok headers.new) }
    ensures refused { IfErr result (λ e. IfRefusal e (λ r. (word : Word) → header_of (names_in names.now) headers.old place word (Some items.Generator) (views parts.now) ≡ Err r)) }
{
    let signature = signature_at(alloc, names, place, parts)?;
    headers.generators.add(signature)?;
    Ok(())
}

fn model_header(
    alloc: Global,
    names: &Names,
    headers: &mut Headers,
    place: Place,
    parts: &[Tree],
) -> Result<(), Fault>
    ensures ok { OnOk result ((word : Word) → header_of (names_in names.now) headers.old place word (Some items.Model) (views parts.now) ≡ Ok headers.new) }
    ensures refused { IfErr result (λ e. IfRefusal e (λ r. (word : Word) → header_of (names_in names.now) headers.old place word (Some items.Model) (views parts.now) ≡ Err r)) }
{
    let types = model_types(alloc, names, place, parts)?;
    headers.models.add(types)?;
    Ok(())
}
