//! The lines of values.
ghost use Rattle.std.specs.Prelude.{◌≡◌, ◌≤◌, ◌++◌, OnOk, map, length, take};
ghost use Rattle.qk_report.specs.Lines.{shortened, value_line, value_lines};
ghost use Rattle.qk_value.specs.View.{view_value};

use crate::texts::put;
use qk_base::{Bytes, Memory};
use qk_core::Binder;
use qk_value::{Kinds, Value};
use std::alloc::Global;

/// Adds a line for each value, with the name of its binder.
pub fn put_value_lines(
    alloc: Global,
    text: &mut Bytes,
    kinds: &Kinds,
    binders: &[Binder],
    values: &[Value],
) -> Result<(), Memory>
    ensures { OnOk result (text.new.items ≡ text.old.items ++ value_lines kinds.now binders.now (map view_value values.now)) }
{
    for (index, value) in values.iter().enumerate() {
        let Some(binder) = binders.get(index) else {
            return Ok(());
        };
        put_value_line(alloc, text, kinds, binder.name.as_slice(), value)?;
    }
    Ok(())
}

fn put_value_line(
    alloc: Global,
    text: &mut Bytes,
    kinds: &Kinds,
    name: &[u8],
    value: &Value,
) -> Result<(), Memory>
    ensures { OnOk result (text.new.items ≡ text.old.items ++ value_line kinds.now name.now (view_value value.now)) }
{
    let printed = value.print(alloc, kinds)?;
    put(text, "  ")?;
    text.append(name)?;
    put(text, " = ")?;
    put_shortened(text, printed.as_slice())?;
    put(text, "\n")
}

fn put_shortened(text: &mut Bytes, more: &[u8]) -> Result<(), Memory>
    ensures { OnOk result (text.new.items ≡ text.old.items ++ shortened more.now) }
{
    if more.len() > 4096 {
        text.append(front(more))?;
        return put(text, "...");
    }
    text.append(more)
}

// The first 4,093 bytes.
fn front(text: &[u8]) -> &[u8]
    requires { 4093 ≤ length text.now }
    ensures { result.now ≡ take 4093 text.now }
{
    &text[..4093]
}
