//! What the marks of one attempt give to the tables.
ghost use Rattle.std.specs.Prelude.{◌≡◌, [], ◌∷◌, ◌++◌, IfOk, OnOk, map};
ghost use Rattle.std.specs.List.{list_any};
ghost use Rattle.std.specs.Str.{bytes_eq};
ghost use Rattle.qk_report.specs.Counted.{class, key_in, label as label_key};
ghost use Rattle.qk_report.specs.Given.{cover_keys, entry_keys, keys_given as keys_of_marks};
ghost use Rattle.qk_report.specs.Tables.{distinct as distinct_texts, label_of, table_names as names_of_tables, class_names as names_of_classes, true_names as names_of_true};

use crate::counted::Counted;
use crate::names::{class_names, table_names};
use qk_base::{Bytes, Marks, Memory};
use qk_core::Property;
use std::alloc::Global;

/// What the marks of an attempt give to the tables of its property.
pub(crate) fn keys_given<'p>(
    alloc: Global,
    property: &'p Property,
    marks: &Marks,
) -> Result<Vec<Counted<'p>>, Memory>
    ensures { IfOk result (λ keys. map key_in keys.items ≡ keys_of_marks property.entry.now marks.now) }
{
    let mut keys = Vec::new(alloc);
    give_label(alloc, &mut keys, marks.label.as_slice())?;
    give_classes(alloc, &mut keys, property, marks.classes.as_slice())?;
    give_entries(alloc, &mut keys, property, marks.entries.as_slice())?;
    give_covers(&mut keys, marks.covers.as_slice())?;
    Ok(keys)
}

fn give_label<'p>(alloc: Global, keys: &mut Vec<Counted<'p>>, label: &[u8]) -> Result<(), Memory>
    ensures { OnOk result (map key_in keys.new.items ≡ map key_in keys.old.items ++ map label_key (label_of label.now)) }
{
    if label.is_empty() {
        return Ok(());
    }
    let text = Vec::from_slice(alloc, label)?;
    keys.push(Counted::Label(text))?;
    Ok(())
}

fn give_classes<'p>(
    alloc: Global,
    keys: &mut Vec<Counted<'p>>,
    property: &'p Property,
    truths: &[bool],
) -> Result<(), Memory>
    ensures { OnOk result (map key_in keys.new.items ≡ map key_in keys.old.items ++ map class (distinct_texts (names_of_true (names_of_classes property.entry.now.marks) truths.now))) }
{
    let names = class_names(alloc, property)?;
    let chosen = true_names(alloc, &names, truths)?;
    let kept = distinct(alloc, &chosen)?;
    give_names(keys, &kept)
}

fn give_names<'p>(keys: &mut Vec<Counted<'p>>, names: &[&'p [u8]]) -> Result<(), Memory>
    ensures { OnOk result (map key_in keys.new.items ≡ map key_in keys.old.items ++ map class (map (λ name. name.now) names.entry.now)) }
{
    for name in names {
        keys.push(Counted::Class(*name))?;
    }
    Ok(())
}

// The names of the clauses that are true.
fn true_names<'p>(
    alloc: Global,
    names: &[&'p [u8]],
    truths: &[bool],
) -> Result<Vec<&'p [u8]>, Memory>
    ensures { IfOk result (λ chosen. map (λ name. name.now) chosen.items ≡ names_of_true (map (λ name. name.now) names.entry.now) truths.now) }
{
    let mut chosen = Vec::new(alloc);
    for (index, truth) in truths.iter().enumerate() {
        let Some(name) = names.get(index) else {
            return Ok(chosen);
        };
        if *truth {
            chosen.push(*name)?;
        }
    }
    Ok(chosen)
}

/// Each name once, in the order of the first places.
pub(crate) fn distinct<'p>(alloc: Global, names: &[&'p [u8]]) -> Result<Vec<&'p [u8]>, Memory>
    ensures { IfOk result (λ kept. map (λ name. name.now) kept.items ≡ distinct_texts (map (λ name. name.now) names.entry.now)) }
{
    let mut kept = Vec::new(alloc);
    for name in names {
        if !is_among(&kept, name) {
            kept.push(*name)?;
        }
    }
    Ok(kept)
}

fn is_among(names: &[&[u8]], name: &[u8]) -> bool
    ensures { result ≡ list_any (bytes_eq name.now) (map (λ name. name.now) names.entry.now) }
{
    for other in names {
        if name == *other {
            return true;
        }
    }
    false
}

fn give_entries<'p>(
    alloc: Global,
    keys: &mut Vec<Counted<'p>>,
    property: &'p Property,
    texts: &[Bytes],
) -> Result<(), Memory>
    ensures { OnOk result (map key_in keys.new.items ≡ map key_in keys.old.items ++ entry_keys (names_of_tables property.entry.now.marks) (map (λ text. text.items) texts.now)) }
{
    let names = table_names(alloc, property)?;
    for (index, text) in texts.iter().enumerate() {
        let Some(name) = names.get(index) else {
            return Ok(());
        };
        give_entry(alloc, keys, *name, text.as_slice())?;
    }
    Ok(())
}

fn give_entry<'p>(
    alloc: Global,
    keys: &mut Vec<Counted<'p>>,
    name: &'p [u8],
    text: &[u8],
) -> Result<(), Memory>
    ensures { OnOk result (map key_in keys.new.items ≡ map key_in keys.old.items ++ entry_keys (name.entry.now ∷ []) (text.now ∷ [])) }
{
    let own = Vec::from_slice(alloc, text)?;
    keys.push(Counted::Entry(name, own))?;
    keys.push(Counted::Entries(name))?;
    Ok(())
}

fn give_covers<'p>(keys: &mut Vec<Counted<'p>>, covers: &[bool]) -> Result<(), Memory>
    ensures { OnOk result (map key_in keys.new.items ≡ map key_in keys.old.items ++ cover_keys 0 covers.now) }
{
    for (index, covered) in covers.iter().enumerate() {
        if *covered {
            keys.push(Counted::Cover(index))?;
        }
    }
    Ok(())
}
