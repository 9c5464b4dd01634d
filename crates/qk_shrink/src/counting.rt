//! How many candidates a value has.
ghost use Rattle.std.specs.Prelude.{◌≡◌, ◌+◌, ◌*◌, ◌≤◌, ◌++◌, length, map};
ghost use Rattle.qk_value.specs.Data.{list, made, datas_of, listed_data};
ghost use Rattle.qk_value.specs.Kinds.{maker_of};
ghost use Rattle.qk_value.specs.Measures.{weight, weights, IsSmall};
ghost use Rattle.qk_value.specs.View.{view_type, view_value, view_values};
ghost use Rattle.qk_shrink.specs.Blocks.{removals};
ghost use Rattle.qk_shrink.specs.Candidates.{fields_of, own_parts, value_candidates, items_in_place, parts_in_place};

use crate::blocks::count_blocks;
use crate::fields::{count_own, fields};
use crate::numbers::{count_number, count_truth};
use qk_value::{Kinds, Ty, Value};

/// The number of a value's candidates by its type, repeated ones counted. A value of another type has none. It costs a step for
/// each part and takes no memory.
pub fn value_count(kinds: &Kinds, ty: &Ty, value: &Value) -> u64
    requires { IsSmall (view_value value.now) }
    ensures count { result ≡ length (value_candidates kinds.now (view_type ty.now) (view_value value.now)) }
    ensures bounded { result ≤ 100 * weight (view_value value.now) }
{
    count(value, kinds, ty)
}

#[cycle(count)]
fn count(value: &Value, kinds: &Kinds, ty: &Ty) -> u64
    requires { weight (view_value value.now) ≤ 65536 }
    ensures count { result ≡ length (value_candidates kinds.now (view_type ty.now) (view_value value.now)) }
    ensures bounded { result + 20 ≤ 100 * weight (view_value value.now) }
{
    match (ty, value) {
        (Ty::Int, Value::Int(n)) => count_number(*n),
        (Ty::Bool, Value::Bool(b)) => count_truth(*b),
        (Ty::List(item), Value::List(items)) => { count_list(items.as_slice(), kinds, item) }
        (Ty::Pair(first, second), Value::Pair(a, b)) => {
            count(a, kinds, first) + count(b, kinds, second)
        }
        (Ty::Made(_), Value::Made { kind, maker, parts }) => {
            count_made(parts.as_slice(), kinds, *kind, *maker)
        }
        _ => 0,
    }
}

// The list without one of its blocks, and with one item replaced.
#[cycle(count)]
fn count_list(items: &[Value], kinds: &Kinds, ty: &Ty) -> u64
    requires { weights (view_values items.now) ≤ 65535 }
    ensures count { result ≡ length (map list (map datas_of (removals (listed_data (view_values items.now))) ++ items_in_place kinds.now (view_type ty.now) (view_values items.now))) }
    ensures bounded { result ≤ 100 * weights (view_values items.now) }
{
    count_blocks(items.len()) + count_items(items, kinds, ty)
}

// The candidates of each item in its place.
#[cycle(count)]
fn count_items(items: &[Value], kinds: &Kinds, ty: &Ty) -> u64
    requires { weights (view_values items.now) ≤ 65536 }
    ensures count { result ≡ length (items_in_place kinds.now (view_type ty.now) (view_values items.now)) }
    ensures bounded { result + 20 * length items.now ≤ 100 * weights (view_values items.now) }
{
    let mut sum = 0u64;
    for item in items {
        sum += count(item, kinds, ty);
    }
    sum
}

// The parts that have the value's own type, and the values with one part replaced.
#[cycle(count)]
fn count_made(parts: &[Value], kinds: &Kinds, kind: u32, maker: u32) -> u64
    requires { weights (view_values parts.now) ≤ 65535 }
    ensures count { result ≡ length (own_parts kind (fields_of (maker_of kinds.now kind maker)) (view_values parts.now) ++ map (made kind maker) (parts_in_place kinds.now (fields_of (maker_of kinds.now kind maker)) (view_values parts.now))) }
    ensures bounded { result ≤ 100 * weights (view_values parts.now) }
{
    let types = fields(kinds, kind, maker);
    count_own(kind, types, parts) + count_parts(parts, kinds, types)
}

// The candidates of each part in its place.
#[cycle(count)]
fn count_parts(parts: &[Value], kinds: &Kinds, types: &[Ty]) -> u64
    requires { weights (view_values parts.now) ≤ 65536 }
    ensures count { result ≡ length (parts_in_place kinds.now (map view_type types.now) (view_values parts.now)) }
    ensures bounded { result + 20 * length parts.now ≤ 100 * weights (view_values parts.now) }
{
    let shared = types.len().min(parts.len());
    let mut sum = 0u64;
    for i in 0..shared {
        sum += count(&parts[i], kinds, &types[i]);
    }
    sum
}
