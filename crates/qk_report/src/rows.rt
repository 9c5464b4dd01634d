//! The rows of a table, in their order.
ghost use Rattle.std.specs.Prelude.{◌≡◌, IfOk, IsTrue, List, map, option_map};
ghost use Rattle.qk_base.specs.Judged.{Judged};
ghost use Rattle.qk_report.specs.Counted.{StandsFor, count_of, key_in};
ghost use Rattle.qk_report.specs.RowsView.{NoneStandsStill, row_behind, row_under, section_in, text_under};
ghost use Rattle.qk_report.specs.TableLines.{classes, labels, table, texts_in};
ghost use Rattle.qk_report.specs.Tables.{rows_of};

use crate::counted::Counted;
use crate::tables::Tables;
use qk_base::Memory;
use std::alloc::Global;
use std::cmp::Reverse;

/// A row of a table. Rows go by count, greatest first, then by text.
#[derive(Clone, Copy, Debug, PartialEq, Eq, PartialOrd, Ord)]
pub(crate) struct RowRef<'t> {
    pub count: Reverse<u64>,
    pub text: &'t [u8],
}

/// A table of a property: that of labels, that of classes, or one by its name.
#[derive(Clone, Copy)]
pub(crate) enum Section<'s> {
    Labels,
    Classes,
    Table(&'s [u8]),
}

impl<'p> Tables<'p> {
    /// How often the key was counted.
    pub(crate) fn count_of(&self, key: &Counted<'p>) -> u64
        ensures { result ≡ count_of self.now (key_in key.now) }
    {
        match self.counts.get(key) {
            None => 0,
            Some(count) => *count,
        }
    }

    /// Whether no count has come to where counts stand still.
    pub(crate) fn none_stands_still(&self) -> bool
        ensures { IsTrue result → NoneStandsStill self.now }
    {
        for (_, count) in self.counts.iter() {
            if *count == u64::MAX {
                return false;
            }
        }
        true
    }

    /// The rows of a table, in their order.
    pub(crate) fn rows<'t>(
        &'t self,
        alloc: Global,
        section: Section<'t>,
    ) -> Result<Vec<RowRef<'t>>, Memory>
        requires { NoneStandsStill self.now }
        ensures { IfOk result (λ rows. (outcomes : List Judged) → StandsFor self.entry.now outcomes
            → map row_behind rows.items ≡ rows_of (texts_in self.entry.now.property.now outcomes (section_in section.entry))) }
    {
        let mut rows = Vec::new(alloc);
        for (key, count) in self.counts.iter() {
            if let Some(row) = row_of(key, *count, section) {
                rows.push(row)?;
            }
        }
        rows.sort()?;
        Ok(rows)
    }
}

fn row_of<'t>(key: &'t Counted<'_>, count: u64, section: Section<'_>) -> Option<RowRef<'t>>
    ensures { option_map row_behind result ≡ row_under (section_in section.entry) (key_in key.entry.now) count }
{
    if count == 0 {
        return None;
    }
    match text_of(key, section) {
        None => None,
        Some(text) => Some(RowRef {
            count: Reverse(count),
            text,
        }),
    }
}

// The text of the table that the key counts.
fn text_of<'t>(key: &'t Counted<'_>, section: Section<'_>) -> Option<&'t [u8]>
    ensures { option_map (λ text. text.now) result ≡ text_under (section_in section.entry) (key_in key.entry.now) }
{
    match section {
        Section::Labels => label_of(key),
        Section::Classes => class_of(key),
        Section::Table(name) => entry_of(key, name),
    }
}

fn label_of<'t>(key: &'t Counted<'_>) -> Option<&'t [u8]>
    ensures { option_map (λ text. text.now) result ≡ text_under labels (key_in key.entry.now) }
{
    match key {
        Counted::Label(text) => Some(text.as_slice()),
        Counted::Class(_) => None,
        Counted::Entry(_, _) => None,
        Counted::Entries(_) => None,
        Counted::Cover(_) => None,
    }
}

fn class_of<'t>(key: &'t Counted<'_>) -> Option<&'t [u8]>
    ensures { option_map (λ text. text.now) result ≡ text_under classes (key_in key.entry.now) }
{
    match key {
        Counted::Label(_) => None,
        Counted::Class(name) => Some(*name),
        Counted::Entry(_, _) => None,
        Counted::Entries(_) => None,
        Counted::Cover(_) => None,
    }
}

fn entry_of<'t>(key: &'t Counted<'_>, name: &[u8]) -> Option<&'t [u8]>
    ensures { option_map (λ text. text.now) result ≡ text_under (table name.now) (key_in key.entry.now) }
{
    match key {
        Counted::Label(_) => None,
        Counted::Class(_) => None,
        Counted::Entry(other, text) => {
            if name == *other {
                Some(text.as_slice())
            } else {
                None
            }
        }
        Counted::Entries(_) => None,
        Counted::Cover(_) => None,
    }
}
