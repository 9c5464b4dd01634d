//! The lines of tables.
ghost use Rattle.std.specs.Prelude.{◌≡◌, [], ◌∷◌, ◌++◌, IfOk, List, OnOk, map, replicate, take};
ghost use Rattle.std.specs.List.{flat_map};
ghost use Rattle.qk_base.specs.Judged.{Judged};
ghost use Rattle.qk_report.specs.Counted.{StandsFor};
ghost use Rattle.qk_report.specs.RowsView.{NoneStandsStill, row_behind, section_in};
ghost use Rattle.qk_report.specs.TableLines.{cover_line, cover_lines, heading, is_missed as is_missed_by, missed_text as missed_said, more_line, percentage as percentage_of, right, row_line, section_lines, table, table_lines, tables_text, total_of};
ghost use Rattle.qk_report.specs.Tables.{covered as times_covered, distinct as distinct_texts, table_names as names_of_tables, wanted_of as wanted_in};
ghost use Rattle.qk_report.specs.ToldView.{IsFitting};
ghost use Rattle.qk_report.specs.WantedView.{wanted_behind};

use crate::counted::Counted;
use crate::given::distinct;
use crate::names::{WantedRef, table_names, wanted_of};
use crate::rows::{RowRef, Section};
use crate::tables::Tables;
use crate::texts::{put, put_named};
use qk_base::{Bytes, Memory};
use std::alloc::Global;

/// Adds the tables and the cover lines, where so many attempts passed. Where a count has come to 2^64 - 1 it answers want of
/// memory, since the count may be greater.
pub(crate) fn put_tables(
    alloc: Global,
    text: &mut Bytes,
    tables: &Tables<'_>,
    successes: u64,
) -> Result<(), Memory>
    ensures { OnOk result ((outcomes : List Judged) → IsFitting tables.now successes outcomes → text.new.items ≡ text.old.items ++ tables_text tables.now.property.now outcomes) }
{
    if !tables.none_stands_still() {
        return Err(Memory);
    }
    put_section(alloc, text, tables, Section::Labels, successes)?;
    put_section(alloc, text, tables, Section::Classes, successes)?;
    put_named_tables(alloc, text, tables, successes)?;
    put_cover_lines(alloc, text, tables, successes)
}

// Adds a line for each table that a clause names, in the order of the first clauses.
fn put_named_tables(
    alloc: Global,
    text: &mut Bytes,
    tables: &Tables<'_>,
    successes: u64,
) -> Result<(), Memory>
    requires { NoneStandsStill tables.now }
    ensures { OnOk result ((outcomes : List Judged) → IsFitting tables.now successes outcomes
        → text.new.items ≡ text.old.items ++ flat_map (section_lines tables.now.property.now outcomes) (map table (distinct_texts (names_of_tables tables.now.property.now.marks)))) }
{
    let names = table_names(alloc, tables.property())?;
    let kept = distinct(alloc, &names)?;
    for name in &kept {
        put_section(alloc, text, tables, Section::Table(*name), successes)?;
    }
    Ok(())
}

fn put_section(
    alloc: Global,
    text: &mut Bytes,
    tables: &Tables<'_>,
    section: Section<'_>,
    successes: u64,
) -> Result<(), Memory>
    requires { NoneStandsStill tables.now }
    ensures { OnOk result ((outcomes : List Judged) → IsFitting tables.now successes outcomes
        → text.new.items ≡ text.old.items ++ section_lines tables.now.property.now outcomes (section_in section.entry)) }
{
    let rows = tables.rows(alloc, section)?;
    let total = total(tables, section, successes);
    put_table(alloc, text, section, total, &rows)
}

// What the percentages of a table are of: the attempts, or the texts.
fn total(tables: &Tables<'_>, section: Section<'_>, successes: u64) -> u64
    requires { NoneStandsStill tables.now }
    ensures { (outcomes : List Judged) → IsFitting tables.now successes outcomes → result ≡ total_of tables.now.property.now outcomes (section_in section.entry) }
{
    match section {
        Section::Labels => successes,
        Section::Classes => successes,
        Section::Table(name) => tables.count_of(&Counted::Entries(name)),
    }
}

fn put_table(
    alloc: Global,
    text: &mut Bytes,
    section: Section<'_>,
    total: u64,
    rows: &[RowRef<'_>],
) -> Result<(), Memory>
    ensures { OnOk result (text.new.items ≡ text.old.items ++ table_lines (heading (section_in section.entry)) total (map row_behind rows.entry.now)) }
{
    if rows.is_empty() {
        return Ok(());
    }
    put_heading(text, section)?;
    put_row_lines(alloc, text, total, first_rows(rows))?;
    put_more_line(alloc, text, rows.len())
}

fn put_heading(text: &mut Bytes, section: Section<'_>) -> Result<(), Memory>
    ensures { OnOk result (text.new.items ≡ text.old.items ++ (heading (section_in section.entry) ++ 10 ∷ [])) }
{
    match section {
        Section::Labels => put(text, "labels:\n"),
        Section::Classes => put(text, "classes:\n"),
        Section::Table(name) => {
            put(text, "table ")?;
            text.append(name)?;
            put(text, ":\n")
        }
    }
}

// The first 200 rows.
fn first_rows<'r, 't>(rows: &'r [RowRef<'t>]) -> &'r [RowRef<'t>]
    ensures { result.now ≡ take 200 rows.entry.now }
{
    if rows.len() <= 200 {
        return rows;
    }
    &rows[..200]
}

fn put_row_lines(
    alloc: Global,
    text: &mut Bytes,
    total: u64,
    rows: &[RowRef<'_>],
) -> Result<(), Memory>
    ensures { OnOk result (text.new.items ≡ text.old.items ++ flat_map (row_line total) (map row_behind rows.entry.now)) }
{
    for row in rows {
        put_row_line(alloc, text, total, row)?;
    }
    Ok(())
}

fn put_row_line(alloc: Global, text: &mut Bytes, total: u64, row: &RowRef<'_>) -> Result<(), Memory>
    ensures { OnOk result (text.new.items ≡ text.old.items ++ row_line total (row_behind row.entry.now)) }
{
    let count = row.count.0;
    put(text, "  ")?;
    put_right(alloc, text, 7, count)?;
    put(text, " ")?;
    put_right(alloc, text, 3, percentage(count, total)?)?;
    put(text, "% ")?;
    text.append(row.text)?;
    put(text, "\n")
}

// A number right in so many places.
fn put_right(alloc: Global, text: &mut Bytes, places: usize, number: u64) -> Result<(), Memory>
    ensures { OnOk result (text.new.items ≡ text.old.items ++ right places number) }
{
    let digits = format!(in alloc; "{number}")?;
    put_spaces(text, places.saturating_sub(digits.len()))?;
    put(text, digits.as_str())
}

fn put_spaces(text: &mut Bytes, count: usize) -> Result<(), Memory>
    ensures { OnOk result (text.new.items ≡ text.old.items ++ replicate count 32) }
{
    for _ in 0..count {
        text.add(b' ')?;
    }
    Ok(())
}

// The whole percentage. Where a hundredfold count has no 64 bits it answers want of memory.
fn percentage(count: u64, total: u64) -> Result<u64, Memory>
    ensures { IfOk result (λ percent. percent ≡ percentage_of count total) }
{
    let Some(hundredfold) = count.checked_mul(100) else {
        return Err(Memory);
    };
    if total == 0 {
        return Ok(0);
    }
    Ok(hundredfold / total)
}

fn put_more_line(alloc: Global, text: &mut Bytes, rows: usize) -> Result<(), Memory>
    ensures { OnOk result (text.new.items ≡ text.old.items ++ more_line rows) }
{
    if rows <= 200 {
        return Ok(());
    }
    put_named(alloc, text, "  and ", (rows - 200) as u64)?;
    put(text, " more\n")
}

fn put_cover_lines(
    alloc: Global,
    text: &mut Bytes,
    tables: &Tables<'_>,
    successes: u64,
) -> Result<(), Memory>
    requires { NoneStandsStill tables.now }
    ensures { OnOk result ((outcomes : List Judged) → IsFitting tables.now successes outcomes
        → text.new.items ≡ text.old.items ++ cover_lines 0 (wanted_in tables.now.property.now.marks) outcomes) }
{
    let all = wanted_of(alloc, tables.property())?;
    for (index, wanted) in all.iter().enumerate() {
        let count = covered(tables, index);
        put_cover_line(alloc, text, count, successes, wanted)?;
    }
    Ok(())
}

// How often the cover clause of that index was true.
fn covered(tables: &Tables<'_>, index: usize) -> u64
    requires { NoneStandsStill tables.now }
    ensures { (outcomes : List Judged) → StandsFor tables.now outcomes → result ≡ times_covered index outcomes }
{
    tables.count_of(&Counted::Cover(index))
}

fn put_cover_line(
    alloc: Global,
    text: &mut Bytes,
    count: u64,
    total: u64,
    wanted: &WantedRef<'_>,
) -> Result<(), Memory>
    ensures { OnOk result (text.new.items ≡ text.old.items ++ cover_line count total (wanted_behind wanted.entry.now)) }
{
    put(text, "cover ")?;
    text.append(wanted.name)?;
    put_named(alloc, text, ": ", count)?;
    put_named(alloc, text, " of ", total)?;
    put_named(alloc, text, ", wanted ", wanted.percent as u64)?;
    put(text, "%")?;
    put(text, missed_text(is_missed(count, total, wanted.percent)))?;
    put(text, "\n")
}

fn is_missed(count: u64, total: u64, percent: u32) -> bool
    ensures { result ≡ is_missed_by count total percent }
{
    u128::from(count) * 100 < u128::from(percent) * u128::from(total)
}

fn missed_text(is_missed: bool) -> &'static str
    ensures { result.now ≡ missed_said is_missed }
{
    if is_missed { ", not met" } else { "" }
}
