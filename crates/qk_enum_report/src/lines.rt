//! The lines of the report of an exhaustive run.
ghost use Rattle.std.specs.Prelude.{◌≡◌, ◌++◌, OnOk};
ghost use Rattle.qk_enum_report.specs.Lines.{discards_text, failed_line, held_line, totals_line};

use qk_base::{Bytes, Memory};
use qk_report::{put, put_named};
use std::alloc::Global;

fn put_discards(alloc: Global, text: &mut Bytes, discards: u64) -> Result<(), Memory>
    ensures { OnOk result (text.new.items ≡ text.old.items ++ discards_text discards) }
{
    put_named(alloc, text, ", ", discards)?;
    put(text, " discarded")
}

/// Adds the line of a property of which no case failed.
pub(crate) fn put_held_line(
    alloc: Global,
    text: &mut Bytes,
    name: &[u8],
    all: bool,
    looked: u64,
    discards: u64,
) -> Result<(), Memory>
    ensures { OnOk result (text.new.items ≡ text.old.items ++ held_line name.now all looked discards) }
{
    text.append(name)?;
    put(text, ": held in ")?;
    put_named(alloc, text, if all { "all " } else { "the first " }, looked)?;
    put(text, " cases")?;
    put_discards(alloc, text, discards)?;
    put(text, "\n")
}

/// Adds the first line of a property of which that case failed.
pub(crate) fn put_failed_line(
    alloc: Global,
    text: &mut Bytes,
    name: &[u8],
    number: u64,
    discards: u64,
) -> Result<(), Memory>
    ensures { OnOk result (text.new.items ≡ text.old.items ++ failed_line name.now number discards) }
{
    text.append(name)?;
    put_named(alloc, text, ": failed at case ", number)?;
    put_discards(alloc, text, discards)?;
    put(text, "\n")
}

/// Adds the last line: how many properties there were, and how many passed and failed.
pub(crate) fn put_totals_line(
    alloc: Global,
    text: &mut Bytes,
    properties: u64,
    passed: u64,
    failed: u64,
) -> Result<(), Memory>
    ensures { OnOk result (text.new.items ≡ text.old.items ++ totals_line properties passed failed) }
{
    put_named(alloc, text, "properties: ", properties)?;
    put_named(alloc, text, ", passed ", passed)?;
    put_named(alloc, text, ", failed ", failed)?;
    put(text, "\n")
}
