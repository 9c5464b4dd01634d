//! The names of a property's marks.
ghost use Rattle.std.specs.Prelude.{◌≡◌, IfOk, map, option_map};
ghost use Rattle.qk_core.specs.PropertyView.{view_mark};
ghost use Rattle.qk_report.specs.Tables.{class_name as name_of_class, class_names as names_of_classes, table_name as name_of_table, table_names as names_of_tables, wanted as wanted_by, wanted_of as wanted_in};
ghost use Rattle.qk_report.specs.WantedView.{wanted_behind};

use qk_base::Memory;
use qk_core::{Mark, Property};
use std::alloc::Global;

/// What a cover clause wants.
#[derive(Clone, Copy)]
pub(crate) struct WantedRef<'p> {
    pub percent: u32,
    pub name: &'p [u8],
}

/// The names of the classes, one for each clause.
pub(crate) fn class_names<'p>(
    alloc: Global,
    property: &'p Property,
) -> Result<Vec<&'p [u8]>, Memory>
    ensures { IfOk result (λ names. map (λ name. name.now) names.items ≡ names_of_classes property.entry.now.marks) }
{
    let mut names = Vec::new(alloc);
    for mark in property.marks.as_slice() {
        if let Some(name) = class_name(mark) {
            names.push(name)?;
        }
    }
    Ok(names)
}

fn class_name<'p>(mark: &'p Mark) -> Option<&'p [u8]>
    ensures { option_map (λ name. name.now) result ≡ name_of_class (view_mark mark.entry.now) }
{
    match mark {
        Mark::Classify(_, name) => Some(name.as_slice()),
        Mark::Label(_) => None,
        Mark::Collect(_) => None,
        Mark::Tabulate(_, _) => None,
        Mark::Cover(_, _, _) => None,
    }
}

/// The names of the tables, one for each clause.
pub(crate) fn table_names<'p>(
    alloc: Global,
    property: &'p Property,
) -> Result<Vec<&'p [u8]>, Memory>
    ensures { IfOk result (λ names. map (λ name. name.now) names.items ≡ names_of_tables property.entry.now.marks) }
{
    let mut names = Vec::new(alloc);
    for mark in property.marks.as_slice() {
        if let Some(name) = table_name(mark) {
            names.push(name)?;
        }
    }
    Ok(names)
}

fn table_name<'p>(mark: &'p Mark) -> Option<&'p [u8]>
    ensures { option_map (λ name. name.now) result ≡ name_of_table (view_mark mark.entry.now) }
{
    match mark {
        Mark::Tabulate(name, _) => Some(name.as_slice()),
        Mark::Label(_) => None,
        Mark::Collect(_) => None,
        Mark::Classify(_, _) => None,
        Mark::Cover(_, _, _) => None,
    }
}

/// What the cover clauses want.
pub(crate) fn wanted_of<'p>(
    alloc: Global,
    property: &'p Property,
) -> Result<Vec<WantedRef<'p>>, Memory>
    ensures { IfOk result (λ all. map wanted_behind all.items ≡ wanted_in property.entry.now.marks) }
{
    let mut all = Vec::new(alloc);
    for mark in property.marks.as_slice() {
        if let Some(wanted) = wanted(mark) {
            all.push(wanted)?;
        }
    }
    Ok(all)
}

fn wanted<'p>(mark: &'p Mark) -> Option<WantedRef<'p>>
    ensures { option_map wanted_behind result ≡ wanted_by (view_mark mark.entry.now) }
{
    match mark {
        Mark::Cover(percent, _, name) => Some(WantedRef {
            percent: *percent,
            name: name.as_slice(),
        }),
        Mark::Label(_) => None,
        Mark::Collect(_) => None,
        Mark::Classify(_, _) => None,
        Mark::Tabulate(_, _) => None,
    }
}
