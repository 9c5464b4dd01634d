//! Texts and numbers at the end of what is there.
ghost use Rattle.std.specs.Prelude.{◌≡◌, ◌++◌, OnOk, decimal};
ghost use Rattle.qk_report.specs.Lines.{named};

use qk_base::{Bytes, Memory};
use std::alloc::Global;

/// Adds a text.
pub fn put(text: &mut Bytes, more: &str) -> Result<(), Memory>
    ensures { OnOk result (text.new.items ≡ text.old.items ++ more.now) }
{
    text.append(more.as_bytes())
}

/// Adds a number in decimal.
pub(crate) fn put_number(alloc: Global, text: &mut Bytes, number: u64) -> Result<(), Memory>
    ensures { OnOk result (text.new.items ≡ text.old.items ++ decimal number) }
{
    let digits = format!(in alloc; "{number}")?;
    put(text, digits.as_str())
}

/// Adds a number behind its name.
pub fn put_named(alloc: Global, text: &mut Bytes, name: &str, number: u64) -> Result<(), Memory>
    ensures { OnOk result (text.new.items ≡ text.old.items ++ named name.now number) }
{
    put(text, name)?;
    put_number(alloc, text, number)
}
