//! The first pass: the names of all items and of all makers.
ghost use Rattle.std.specs.Prelude.{◌≡◌, ◌+◌, ◌<◌, ◌≤◌, ◌^◌, ℕ, Ok, Err, OnOk, IfOk, IfErr, length, Some};
ghost use Rattle.qk_syntax.specs.PlainTrees.{list};
ghost use Rattle.qk_syntax.specs.Refusals.{IfRefusal};
ghost use Rattle.qk_syntax.specs.View.{view, views};
ghost use Rattle.qk_names.specs.NameTable.{names_in, count_in, all_in, Counted, KeepsCounts};
ghost use Rattle.qk_names.specs.Names.{names_of as names_of_trees, item_names as names_of_item, named_item as names_of_named, declared_item as names_of_declared, inner_names as names_inside, maker_names as names_of_makers, maker_name as name_of_maker, named_maker as name_of_named_maker};

use crate::names::{Counts, Item, Named, Names, item_of};
use crate::refusing::{EMPTY_DATA, MOST_PARTS, NO_PROPERTY, UNKNOWN_FORM, WRONG_COUNT, refusal};
use qk_base::{Fault, Place};
use qk_syntax::{Node, Tree};
use std::alloc::Global;

/// The place of a file's first byte.
const START: Place = Place { line: 1, column: 1 };

/// The declared names of a program, or the first fault among its names.
pub fn names_of(alloc: Global, trees: &[Tree]) -> Result<Names, Fault>
    requires { length trees.now ≤ 1000 }
    ensures names { IfOk result (λ names. names_of_trees (views trees.now) ≡ Ok (names_in names)) }
    ensures refused { IfErr result (λ e. IfRefusal e (λ r. names_of_trees (views trees.now) ≡ Err r)) }
{
    let mut names = Names::make(alloc);
    let mut counts = Counts::none();
    for tree in trees {
        counts = item_names(alloc, &mut names, counts, tree)?;
    }
    if counts.properties == 0 {
        return Err(refusal(NO_PROPERTY, START));
    }
    Ok(names)
}

fn item_names(
    alloc: Global,
    names: &mut Names,
    counts: Counts,
    item: &Tree,
) -> Result<Counts, Fault>
    requires counted { Counted counts (names_in names.old) }
    requires few { all_in counts + 1 < 2 ^ 32 }
    ensures ok { OnOk result (names_of_item (names_in names.old) (view item.now) ≡ Ok (names_in names.new)) }
    ensures counted { IfOk result (λ after. Counted after (names_in names.new)) }
    ensures few { IfOk result (λ after. all_in after ≡ all_in counts + 1) }
    ensures refused { IfErr result (λ e. IfRefusal e (λ r. names_of_item (names_in names.old) (view item.now) ≡ Err r)) }
{
    match &item.node {
        Node::List(parts) => headed_item(alloc, names, counts, item.place, parts.as_slice()),
        _ => Err(refusal(UNKNOWN_FORM, item.place)),
    }
}

fn headed_item(
    alloc: Global,
    names: &mut Names,
    counts: Counts,
    place: Place,
    parts: &[Tree],
) -> Result<Counts, Fault>
    requires counted { Counted counts (names_in names.old) }
    requires few { all_in counts + 1 < 2 ^ 32 }
    ensures ok { OnOk result (names_of_item (names_in names.old) (list place (views parts.now)) ≡ Ok (names_in names.new)) }
    ensures counted { IfOk result (λ after. Counted after (names_in names.new)) }
    ensures few { IfOk result (λ after. all_in after ≡ all_in counts + 1) }
    ensures refused { IfErr result (λ e. IfRefusal e (λ r. names_of_item (names_in names.old) (list place (views parts.now)) ≡ Err r)) }
{
    let [head, parts @ ..] = parts else {
        return Err(refusal(UNKNOWN_FORM, place));
    };
    let Node::Name(word) = &head.node else {
        return Err(refusal(UNKNOWN_FORM, place));
    };
    match item_of(word.as_slice()) {
        Some(item) => named_item(alloc, names, counts, place, item, parts),
        None => Err(refusal(UNKNOWN_FORM, place)),
    }
}

fn named_item(
    alloc: Global,
    names: &mut Names,
    counts: Counts,
    place: Place,
    item: Item,
    parts: &[Tree],
) -> Result<Counts, Fault>
    requires counted { Counted counts (names_in names.old) }
    requires few { all_in counts + 1 < 2 ^ 32 }
    ensures ok { OnOk result (names_of_named (names_in names.old) place (Some item) (views parts.now) ≡ Ok (names_in names.new)) }
    ensures counted { IfOk result (λ after. Counted after (names_in names.new)) }
    ensures few { IfOk result (λ after. all_in after ≡ all_in counts + 1) }
    ensures refused { IfErr result (λ e. IfRefusal e (λ r. names_of_named (names_in names.old) place (Some item) (views parts.now) ≡ Err r)) }
{
    let [name, parts @ ..] = parts else {
        return Err(refusal(WRONG_COUNT, place));
    };
    match &name.node {
        Node::Name(word) => {
            declared_item(
                alloc,
                names,
                counts,
                place,
                item,
                name.place,
                word.as_slice(),
                parts,
            )
        }
        _ => Err(refusal(UNKNOWN_FORM, name.place)),
    }
}

fn declared_item(
    alloc: Global,
    names: &mut Names,
    counts: Counts,
    place: Place,
    item: Item,
    at: Place,
    word: &[u8],
    parts: &[Tree],
) -> Result<Counts, Fault>
    requires counted { Counted counts (names_in names.old) }
    requires few { all_in counts + 1 < 2 ^ 32 }
    ensures ok { OnOk result (names_of_declared (names_in names.old) place item at word.now (views parts.now) ≡ Ok (names_in names.new)) }
    ensures counted { IfOk result (λ after. Counted after (names_in names.new)) }
    ensures few { IfOk result (λ after. all_in after ≡ all_in counts + 1) }
    ensures refused { IfErr result (λ e. IfRefusal e (λ r. names_of_declared (names_in names.old) place item at word.now (views parts.now) ≡ Err r)) }
{
    names.declare(alloc, at, word, counts.next(item))?;
    inner_names(alloc, names, place, counts.kinds, item, parts)?;
    Ok(counts.with(item))
}

/// What stands after the name of an item.
fn inner_names(
    alloc: Global,
    names: &mut Names,
    place: Place,
    kind: u32,
    item: Item,
    parts: &[Tree],
) -> Result<(), Fault>
    ensures ok { OnOk result (names_inside (names_in names.old) place kind item (views parts.now) ≡ Ok (names_in names.new)) }
    ensures counts { OnOk result (KeepsCounts (names_in names.old) (names_in names.new)) }
    ensures refused { IfErr result (λ e. IfRefusal e (λ r. names_inside (names_in names.old) place kind item (views parts.now) ≡ Err r)) }
{
    match item {
        Item::Kind => {
            if parts.is_empty() {
                return Err(refusal(EMPTY_DATA, place));
            }
            maker_names(alloc, names, kind, parts)
        }
        _ => Ok(()),
    }
}

fn maker_names(alloc: Global, names: &mut Names, kind: u32, makers: &[Tree]) -> Result<(), Fault>
    ensures ok { OnOk result (names_of_makers (names_in names.old) kind 0 (views makers.now) ≡ Ok (names_in names.new)) }
    ensures counts { OnOk result (KeepsCounts (names_in names.old) (names_in names.new)) }
    ensures refused { IfErr result (λ e. IfRefusal e (λ r. names_of_makers (names_in names.old) kind 0 (views makers.now) ≡ Err r)) }
{
    // So many makers have no room in memory.
    if makers.len() > u32::MAX as usize {
        return Err(Fault::Memory);
    }
    for (number, maker) in makers.iter().enumerate() {
        maker_name(alloc, names, kind, number as u32, maker)?;
    }
    Ok(())
}

fn maker_name(
    alloc: Global,
    names: &mut Names,
    kind: u32,
    number: u32,
    maker: &Tree,
) -> Result<(), Fault>
    ensures ok { OnOk result (name_of_maker (names_in names.old) kind number (view maker.now) ≡ Ok (names_in names.new)) }
    ensures counts { OnOk result (KeepsCounts (names_in names.old) (names_in names.new)) }
    ensures refused { IfErr result (λ e. IfRefusal e (λ r. name_of_maker (names_in names.old) kind number (view maker.now) ≡ Err r)) }
{
    match &maker.node {
        Node::List(parts) => {
            headed_maker(alloc, names, kind, number, maker.place, parts.as_slice())
        }
        _ => Err(refusal(UNKNOWN_FORM, maker.place)),
    }
}

fn headed_maker(
    alloc: Global,
    names: &mut Names,
    kind: u32,
    number: u32,
    place: Place,
    parts: &[Tree],
) -> Result<(), Fault>
    ensures ok { OnOk result (name_of_maker (names_in names.old) kind number (list place (views parts.now)) ≡ Ok (names_in names.new)) }
    ensures counts { OnOk result (KeepsCounts (names_in names.old) (names_in names.new)) }
    ensures refused { IfErr result (λ e. IfRefusal e (λ r. name_of_maker (names_in names.old) kind number (list place (views parts.now)) ≡ Err r)) }
{
    let [head, fields @ ..] = parts else {
        return Err(refusal(UNKNOWN_FORM, place));
    };
    let Node::Name(word) = &head.node else {
        return Err(refusal(UNKNOWN_FORM, place));
    };
    named_maker(
        alloc,
        names,
        kind,
        number,
        place,
        head.place,
        word.as_slice(),
        fields,
    )
}

fn named_maker(
    alloc: Global,
    names: &mut Names,
    kind: u32,
    number: u32,
    place: Place,
    at: Place,
    word: &[u8],
    fields: &[Tree],
) -> Result<(), Fault>
    ensures ok { OnOk result (name_of_named_maker (names_in names.old) kind number place at word.now (views fields.now) ≡ Ok (names_in names.new)) }
    ensures counts { OnOk result (KeepsCounts (names_in names.old) (names_in names.new)) }
    ensures refused { IfErr result (λ e. IfRefusal e (λ r. name_of_named_maker (names_in names.old) kind number place at word.now (views fields.now) ≡ Err r)) }
{
    let named = Named::Maker {
        kind,
        maker: number,
    };
    names.declare(alloc, at, word, named)?;
    if fields.len() > MOST_PARTS {
        return Err(refusal(WRONG_COUNT, place));
    }
    Ok(())
}
