//! The fields of makers, and the parts that have a value's own type.
ghost use Rattle.std.specs.Prelude.{◌≡◌, ◌≤◌, length, map};
ghost use Rattle.qk_value.specs.Data.{datas_of};
ghost use Rattle.qk_value.specs.Kinds.{maker_of};
ghost use Rattle.qk_value.specs.View.{view_type, view_value, view_values};
ghost use Rattle.qk_shrink.specs.Candidates.{fields_of, is_made as is_made_of, own_part, own_parts};
ghost use Rattle.qk_shrink.specs.Sought.{map_sought, sought};

use crate::sought::Sought;
use qk_eval::Shared;
use qk_value::{Kinds, Ty, Value};

/// The types of a maker's fields, none where there is no such maker.
pub(crate) fn fields(kinds: &Kinds, kind: u32, maker: u32) -> &[Ty]
    ensures { map view_type result.now ≡ fields_of (maker_of kinds.now kind maker) }
{
    match kinds.maker(kind, maker) {
        None => &[],
        Some(maker) => maker.fields.as_slice(),
    }
}

fn is_made(ty: &Ty, kind: u32) -> bool
    ensures { result ≡ is_made_of kind (view_type ty.now) }
{
    match ty {
        Ty::Int => false,
        Ty::Bool => false,
        Ty::List(_) => false,
        Ty::Pair(_, _) => false,
        Ty::Made(other) => *other == kind,
    }
}

/// How many parts have the user type of that number.
pub(crate) fn count_own(kind: u32, types: &[Ty], parts: &[Value]) -> u64
    ensures count { result ≡ length (own_parts kind (map view_type types.now) (view_values parts.now)) }
    ensures bounded { result ≤ length parts.now }
{
    let shared = types.len().min(parts.len());
    let mut count = 0u64;
    for i in 0..shared {
        count += count_one(kind, &types[i], &parts[i]);
    }
    count
}

fn count_one(kind: u32, ty: &Ty, part: &Value) -> u64
    ensures count { result ≡ length (own_part kind (view_type ty.now) (view_value part.now)) }
    ensures bounded { result ≤ 1 }
{
    if is_made(ty, kind) { 1 } else { 0 }
}

/// Part `k` among those that have the user type of that number.
pub(crate) fn seek_own<'v>(
    kind: u32,
    types: &[Ty],
    parts: &'v [Shared],
    k: u64,
) -> Sought<&'v Shared>
    ensures { map_sought (λ part. part.now) result ≡ sought (own_parts kind (map view_type types.now) (datas_of parts.now)) k }
{
    let shared = types.len().min(parts.len());
    let mut left = k;
    for i in 0..shared {
        match seek_one(kind, &types[i], &parts[i], left) {
            Sought::Here(part) => return Sought::Here(part),
            Sought::Past(rest) => left = rest,
        }
    }
    Sought::Past(left)
}

fn seek_one<'v>(kind: u32, ty: &Ty, part: &'v Shared, k: u64) -> Sought<&'v Shared>
    ensures { map_sought (λ part. part.now) result ≡ sought (own_part kind (view_type ty.now) part.now) k }
{
    if !is_made(ty, kind) {
        return Sought::Past(k);
    }
    if k == 0 {
        return Sought::Here(part);
    }
    Sought::Past(k - 1)
}
