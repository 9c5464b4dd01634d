//! Which values have which types.
ghost use Rattle.std.specs.Prelude.{◌≡◌, map, Some};
ghost use Rattle.qk_value.specs.Kinds.{maker_of};
ghost use Rattle.qk_value.specs.Typing.{has_type as has_type_of, all_have_type as all_have_type_of, are_parts as are_parts_of, field_types};
ghost use Rattle.qk_value.specs.View.{view_value, view_values, view_type};

use crate::kinds::Kinds;
use crate::ty::Ty;
use crate::value::Value;

impl Value {
    /// Whether the value has the type. A made value has it where its maker stands in the table, with as many parts as the maker has
    /// fields, each of its field's type.
    #[cycle(typing)]
    pub fn has_type(&self, kinds: &Kinds, ty: &Ty) -> bool
        ensures { result ≡ has_type_of kinds.now (view_type ty.now) (view_value self.now) }
    {
        match (ty, self) {
            (Ty::Int, Value::Int(_)) => true,
            (Ty::Bool, Value::Bool(_)) => true,
            (Ty::List(item), Value::List(items)) => all_have_type(items.as_slice(), kinds, item),
            (Ty::Pair(first, second), Value::Pair(a, b)) => {
                a.has_type(kinds, first) && b.has_type(kinds, second)
            }
            (Ty::Made(wanted), Value::Made { kind, maker, parts }) => wanted == kind
                && are_made(parts.as_slice(), kinds, *kind, *maker),
            _ => false,
        }
    }
}

#[cycle(typing)]
fn all_have_type(items: &[Value], kinds: &Kinds, ty: &Ty) -> bool
    ensures { result ≡ all_have_type_of kinds.now (view_type ty.now) (view_values items.now) }
{
    for item in items {
        if !item.has_type(kinds, ty) {
            return false;
        }
    }
    true
}

#[cycle(typing)]
fn are_made(parts: &[Value], kinds: &Kinds, kind: u32, maker: u32) -> bool
    ensures { result ≡ are_parts_of kinds.now (field_types (maker_of kinds.now kind maker)) (view_values parts.now) }
{
    match kinds.maker(kind, maker) {
        None => false,
        Some(maker) => are_parts(parts, kinds, maker.fields.as_slice()),
    }
}

#[cycle(typing)]
fn are_parts(parts: &[Value], kinds: &Kinds, types: &[Ty]) -> bool
    ensures { result ≡ are_parts_of kinds.now (Some (map view_type types.now)) (view_values parts.now) }
{
    if parts.len() != types.len() {
        return false;
    }
    for i in 0..parts.len() {
        if !parts[i].has_type(kinds, &types[i]) {
            return false;
        }
    }
    true
}
