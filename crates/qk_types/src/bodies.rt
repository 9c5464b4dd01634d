//! The third pass: the bodies of the items.
ghost use Rattle.std.specs.Prelude.{◌≡◌, ◌≤◌, ◌+◌, [], Ok, Err, OnOk, IfOk, IfErr, Some, length, unwrap_or};
ghost use Rattle.std.specs.Option.{option_copied};
ghost use Rattle.qk_syntax.specs.PlainTrees.{list, name, more};
ghost use Rattle.qk_syntax.specs.Refusals.{IfRefusal};
ghost use Rattle.qk_syntax.specs.View.{view, views};
ghost use Rattle.qk_types.specs.Bodies.{item_body as body_of_item, body_at as body_of, bodies_of as bodies_of_trees, no_model};
ghost use Rattle.qk_types.specs.DraftView.{draft_in, size_of};
ghost use Rattle.qk_names.specs.Reserved.{Word};
ghost use Rattle.qk_typing.specs.TablesView.{tables_in};
ghost use Rattle.qk_names.specs.declared.names.Item.TheVariants as items;

use crate::definitions::{function_body, generator_body, own_signature};
use crate::models::model_at;
use crate::properties::property_body;
use qk_base::{Fault, Memory, Place, Seq};
use qk_core::{Function, ModelDef, Property, UserGen};
use qk_headers::{ModelTypes, Tables};
use qk_names::{Item, UNKNOWN_FORM, item_of, refusal};
use qk_syntax::{Node, Tree};
use qk_value::Ty;
use std::alloc::Global;

/// What the bodies have come to, by number.
#[derive(Drop)]
pub struct Draft {
    pub functions: Seq<Function>,
    pub generators: Seq<UserGen>,
    pub models: Seq<ModelDef>,
    pub properties: Seq<Property>,
}

/// What the bodies of all items come to, or the first fault among them.
pub fn bodies_of(alloc: Global, tables: &Tables, trees: &[Tree]) -> Result<Draft, Fault>
    ensures draft { IfOk result (λ d. bodies_of_trees (tables_in tables.now) (views trees.now) ≡ Ok (draft_in tables.now.headers.kinds d)) }
    ensures few { IfOk result (λ d. size_of d ≤ length trees.now) }
    ensures refused { IfErr result (λ e. IfRefusal e (λ r. bodies_of_trees (tables_in tables.now) (views trees.now) ≡ Err r)) }
{
    let mut draft = no_draft(alloc);
    for tree in trees {
        body_at(alloc, tables, &mut draft, tree)?;
    }
    Ok(draft)
}

fn no_draft(alloc: Global) -> Draft
    ensures functions { result.functions.items ≡ [] }
    ensures generators { result.generators.items ≡ [] }
    ensures models { result.models.items ≡ [] }
    ensures properties { result.properties.items ≡ [] }
{
    Draft {
        functions: Seq::make(alloc),
        generators: Seq::make(alloc),
        models: Seq::make(alloc),
        properties: Seq::make(alloc),
    }
}

fn body_at(alloc: Global, tables: &Tables, draft: &mut Draft, item: &Tree) -> Result<(), Fault>
    ensures ok { OnOk result (body_of (tables_in tables.now) (draft_in tables.now.headers.kinds draft.old) (view item.now) ≡ Ok (draft_in tables.now.headers.kinds draft.new)) }
    ensures few { OnOk result (size_of draft.new ≤ size_of draft.old + 1) }
    ensures refused { IfErr result (λ e. IfRefusal e (λ r. body_of (tables_in tables.now) (draft_in tables.now.headers.kinds draft.old) (view item.now) ≡ Err r)) }
{
    match &item.node {
        Node::List(parts) => headed_body(alloc, tables, draft, item.place, parts.as_slice()),
        _ => Err(refusal(UNKNOWN_FORM, item.place)),
    }
}

fn headed_body(
    alloc: Global,
    tables: &Tables,
    draft: &mut Draft,
    place: Place,
    parts: &[Tree],
) -> Result<(), Fault>
    ensures ok { OnOk result (body_of (tables_in tables.now) (draft_in tables.now.headers.kinds draft.old) (list place (views parts.now)) ≡ Ok (draft_in tables.now.headers.kinds draft.new)) }
    ensures few { OnOk result (size_of draft.new ≤ size_of draft.old + 1) }
    ensures refused { IfErr result (λ e. IfRefusal e (λ r. body_of (tables_in tables.now) (draft_in tables.now.headers.kinds draft.old) (list place (views parts.now)) ≡ Err r)) }
{
    let [head, parts @ ..] = parts else {
        return Err(refusal(UNKNOWN_FORM, place));
    };
    match &head.node {
        Node::Name(word) => {
            named_body(
                alloc,
                tables,
                draft,
                place,
                head.place,
                word.as_slice(),
                parts,
            )
        }
        _ => Err(refusal(UNKNOWN_FORM, place)),
    }
}

/// The body of an item that this word heads.
fn named_body(
    alloc: Global,
    tables: &Tables,
    draft: &mut Draft,
    place: Place,
    at: Place,
    head: &[u8],
    parts: &[Tree],
) -> Result<(), Fault>
    ensures ok { OnOk result (body_of (tables_in tables.now) (draft_in tables.now.headers.kinds draft.old) (list place (more (name at head.now) (views parts.now))) ≡ Ok (draft_in tables.now.headers.kinds draft.new)) }
    ensures few { OnOk result (size_of draft.new ≤ size_of draft.old + 1) }
    ensures refused { IfErr result (λ e. IfRefusal e (λ r. body_of (tables_in tables.now) (draft_in tables.now.headers.kinds draft.old) (list place (more (name at head.now) (views parts.now))) ≡ Err r)) }
{
    let [first, parts @ ..] = parts else {
        return Err(refusal(UNKNOWN_FORM, place));
    };
    let Node::Name(word) = &first.node else {
        return Err(refusal(UNKNOWN_FORM, place));
    };
    match item_of(head) {
        Some(item) => item_body(alloc, tables, draft, place, word.as_slice(), item, parts),
        None => Err(refusal(UNKNOWN_FORM, place)),
    }
}

fn item_body(
    alloc: Global,
    tables: &Tables,
    draft: &mut Draft,
    place: Place,
    word: &[u8],
    item: Item,
    parts: &[Tree],
) -> Result<(), Fault>
    ensures ok { OnOk result (body_of_item (tables_in tables.now) (draft_in tables.now.headers.kinds draft.old) place word.now (Some item) (views parts.now) ≡ Ok (draft_in tables.now.headers.kinds draft.new)) }
    ensures few { OnOk result (size_of draft.new ≤ size_of draft.old + 1) }
    ensures refused { IfErr result (λ e. IfRefusal e (λ r. body_of_item (tables_in tables.now) (draft_in tables.now.headers.kinds draft.old) place word.now (Some item) (views parts.now) ≡ Err r)) }
{
    match item {
        Item::Kind => Ok(()),
        Item::Function => add_function(alloc, tables, draft, place, parts),
        Item::Generator => add_generator(alloc, tables, draft, place, parts),
        Item::Model => add_model(alloc, tables, draft, place, parts),
        Item::Property => add_property(alloc, tables, draft, place, word, parts),
    }
}

fn add_property(
    alloc: Global,
    tables: &Tables,
    draft: &mut Draft,
    place: Place,
    word: &[u8],
    parts: &[Tree],
) -> Result<(), Fault>
    ensures ok { OnOk result (body_of_item (tables_in tables.now) (draft_in tables.now.headers.kinds draft.old) place word.now (Some items.Property) (views parts.now) ≡ Ok (draft_in tables.now.headers.kinds draft.new)) }
    ensures few { OnOk result (size_of draft.new ≤ size_of draft.old + 1) }
    ensures refused { IfErr result (λ e. IfRefusal e (λ r. body_of_item (tables_in tables.now) (draft_in tables.now.headers.kinds draft.old) place word.now (Some items.Property) (views parts.now) ≡ Err r)) }
{
    let property = property_body(alloc, tables, place, word, parts)?;
    draft.properties.add(property)?;
    Ok(())
}

fn add_function(
    alloc: Global,
    tables: &Tables,
    draft: &mut Draft,
    place: Place,
    parts: &[Tree],
) -> Result<(), Fault>
    ensures ok { OnOk result ((word : Word) → body_of_item (tables_in tables.now) (draft_in tables.now.headers.kinds draft.old) place word (Some items.Function) (views parts.now) ≡ Ok (draft_in tables.now.headers.kinds draft.new)) }
    ensures few { OnOk result (size_of draft.new ≤ size_of draft.old + 1) }
    ensures refused { IfErr result (λ e. IfRefusal e (λ r. (word : Word) → body_of_item (tables_in tables.now) (draft_in tables.now.headers.kinds draft.old) place word (Some items.Function) (views parts.now) ≡ Err r)) }
{
    let signature = own_signature(alloc, tables.headers.functions.get(draft.functions.len()))?;
    let function = function_body(alloc, tables, place, signature, parts)?;
    draft.functions.add(function)?;
    Ok(())
}

fn add_generator(
    alloc: Global,
    tables: &Tables,
    draft: &mut Draft,
    place: Place,
    parts: &[Tree],
) -> Result<(), Fault>
    ensures ok { OnOk result ((word : Word) → body_of_item (tables_in tables.now) (draft_in tables.now.headers.kinds draft.old) place word (Some items.Generator) (views parts.now) ≡ Ok (draft_in tables.now.headers.kinds draft.new)) }
    ensures few { OnOk result (size_of draft.new ≤ size_of draft.old + 1) }
    ensures refused { IfErr result (λ e. IfRefusal e (λ r. (word : Word) → body_of_item (tables_in tables.now) (draft_in tables.now.headers.kinds draft.old) place word (Some items.Generator) (views parts.now) ≡ Err r)) }
{
    let signature = own_signature(alloc, tables.headers.generators.get(draft.generators.len()))?;
    let generator = generator_body(alloc, tables, place, signature, parts)?;
    draft.generators.add(generator)?;
    Ok(())
}

fn add_model(
    alloc: Global,
    tables: &Tables,
    draft: &mut Draft,
    place: Place,
    parts: &[Tree],
) -> Result<(), Fault>
    ensures ok { OnOk result ((word : Word) → body_of_item (tables_in tables.now) (draft_in tables.now.headers.kinds draft.old) place word (Some items.Model) (views parts.now) ≡ Ok (draft_in tables.now.headers.kinds draft.new)) }
    ensures few { OnOk result (size_of draft.new ≤ size_of draft.old + 1) }
    ensures refused { IfErr result (λ e. IfRefusal e (λ r. (word : Word) → body_of_item (tables_in tables.now) (draft_in tables.now.headers.kinds draft.old) place word (Some items.Model) (views parts.now) ≡ Err r)) }
{
    let types = own_types(alloc, tables.headers.models.get(draft.models.len()))?;
    let model = model_at(alloc, tables, place, &types, parts)?;
    draft.models.add(model)?;
    Ok(())
}

/// The types of a model, as its header says.
fn own_types(alloc: Global, found: Option<&ModelTypes>) -> Result<ModelTypes, Memory>
    ensures { IfOk result (λ m. m ≡ unwrap_or (option_copied found.entry) no_model) }
{
    match found {
        Some(types) => copied_types(alloc, types),
        None => {
            Ok(ModelTypes {
                command: Ty::Int,
                abstract_ty: Ty::Int,
                system_ty: Ty::Int,
            })
        }
    }
}

fn copied_types(alloc: Global, types: &ModelTypes) -> Result<ModelTypes, Memory>
    ensures { IfOk result (λ m. m ≡ types.now) }
{
    let command = types.command.copy(alloc)?;
    let abstract_ty = types.abstract_ty.copy(alloc)?;
    let system_ty = types.system_ty.copy(alloc)?;
    Ok(ModelTypes {
        command,
        abstract_ty,
        system_ty,
    })
}
