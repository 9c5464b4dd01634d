//! The text of a value.
ghost use Rattle.std.specs.Prelude.{◌≡◌, ◌++◌, ◌∷◌, [], IfOk, OnOk};
ghost use Rattle.qk_value.specs.Kinds.{maker_name};
ghost use Rattle.qk_value.specs.Printed.{printed, printed_made, listed, spaced};
ghost use Rattle.qk_value.specs.View.{view_value, view_values};

use crate::kinds::Kinds;
use crate::value::Value;
use qk_base::{Bytes, Memory};
use std::alloc::Global;

impl Value {
    /// The text of the value: numbers in decimal, `true` and `false`, `[1, 2]`, `(1, 2)`, a maker without parts by its name, one with
    /// parts as `(Node v1 v2)`. A maker that is not in the table has no name.
    pub fn print(&self, alloc: Global, kinds: &Kinds) -> Result<Bytes, Memory>
        ensures { IfOk result (λ text. text.items ≡ printed (maker_name kinds.now) (view_value self.now)) }
    {
        let mut text = Bytes::make(alloc);
        put(alloc, self, kinds, &mut text)?;
        Ok(text)
    }
}

#[cycle(print)]
fn put(alloc: Global, value: &Value, kinds: &Kinds, out: &mut Bytes) -> Result<(), Memory>
    ensures { OnOk result (out.new.items ≡ out.old.items ++ printed (maker_name kinds.now) (view_value value.now)) }
{
    match value {
        Value::Int(n) => {
            let digits = format!(in alloc; "{n}")?;
            out.append(digits.as_bytes())
        }
        Value::Bool(true) => out.append(b"true"),
        Value::Bool(false) => out.append(b"false"),
        Value::List(items) => {
            out.append(b"[")?;
            put_listed(alloc, items.as_slice(), kinds, out)?;
            out.append(b"]")
        }
        Value::Pair(a, b) => {
            out.append(b"(")?;
            put(alloc, a, kinds, out)?;
            out.append(b", ")?;
            put(alloc, b, kinds, out)?;
            out.append(b")")
        }
        Value::Made { kind, maker, parts } => {
            let name = kinds.maker_name(*kind, *maker);
            put_made(alloc, name, parts.as_slice(), kinds, out)
        }
    }
}

#[cycle(print)]
fn put_made(
    alloc: Global,
    name: &[u8],
    parts: &[Value],
    kinds: &Kinds,
    out: &mut Bytes,
) -> Result<(), Memory>
    ensures { OnOk result (out.new.items ≡ out.old.items ++ printed_made name.now (spaced (maker_name kinds.now) (view_values parts.now))) }
{
    if parts.is_empty() {
        return out.append(name);
    }
    out.append(b"(")?;
    out.append(name)?;
    put_spaced(alloc, parts, kinds, out)?;
    out.append(b")")
}

#[cycle(print)]
fn put_listed(alloc: Global, values: &[Value], kinds: &Kinds, out: &mut Bytes) -> Result<(), Memory>
    ensures { OnOk result (out.new.items ≡ out.old.items ++ listed (maker_name kinds.now) (view_values values.now)) }
{
    for (index, value) in values.iter().enumerate() {
        if index != 0 {
            out.append(b", ")?;
        }
        put(alloc, value, kinds, out)?;
    }
    Ok(())
}

#[cycle(print)]
fn put_spaced(alloc: Global, values: &[Value], kinds: &Kinds, out: &mut Bytes) -> Result<(), Memory>
    ensures { OnOk result (out.new.items ≡ out.old.items ++ spaced (maker_name kinds.now) (view_values values.now)) }
{
    for value in values {
        out.append(b" ")?;
        put(alloc, value, kinds, out)?;
    }
    Ok(())
}
