//! The candidate of a value that has a number.
ghost use Rattle.std.specs.Prelude.{◌≡◌, ◌<◌, ◌++◌, length, map, slice_get, Some, IfOk, IsTrue};
ghost use Rattle.qk_value.specs.Data.{int, bool, list, pair, made, datas_of, listed_data};
ghost use Rattle.qk_value.specs.Kinds.{maker_of};
ghost use Rattle.qk_value.specs.Measures.{IsSmall};
ghost use Rattle.qk_value.specs.View.{view_type, view_value};
ghost use Rattle.qk_eval.specs.Parts.{is_list, items_of};
ghost use Rattle.qk_shrink.specs.Blocks.{removals};
ghost use Rattle.qk_shrink.specs.Candidates.{fields_of, own_parts, value_candidates, items_in_place, parts_in_place};
ghost use Rattle.qk_shrink.specs.Numbers.{number_candidates, truth_candidates};
ghost use Rattle.qk_shrink.specs.Sought.{map_sought, sought};

use crate::blocks::seek_block;
use crate::copies::put_in_place;
use crate::fields::{fields, seek_own};
use crate::lists::{length_of, with_item, without_block};
use crate::numbers::{seek_number, seek_truth};
use crate::sought::Sought;
use qk_base::Memory;
use qk_eval::{Form, Items, Shared};
use qk_value::{Kinds, Ty, Value};
use std::alloc::Global;

/// A value's candidate `k`, counted from 0. It costs a step or two for each part of the value, and makes no other candidate.
pub fn value_candidate(
    alloc: Global,
    kinds: &Kinds,
    ty: &Ty,
    value: &Value,
    k: u64,
) -> Result<Value, Memory>
    requires number { k < length (value_candidates kinds.now (view_type ty.now) (view_value value.now)) }
    requires small { IsSmall (view_value value.now) }
    ensures candidate { IfOk result (λ candidate. slice_get (value_candidates kinds.now (view_type ty.now) (view_value value.now)) k ≡ Some (view_value candidate)) }
    ensures small { IfOk result (λ candidate. IsSmall (view_value candidate)) }
{
    let shared = Shared::of_value(alloc, value)?;
    match seek(alloc, &shared, kinds, ty, k)? {
        Sought::Here(candidate) => {
            candidate.is_small();
            let plain = candidate.to_value(alloc)?;
            Ok(plain)
        }
        Sought::Past(_) => unreachable!(),
    }
}

/// The candidate `k` of a value, or how far `k` lies past their end: one walk over the value, which counts on its way. The candidate
/// shares what it leaves alone; of a list the items behind what it changes.
#[cycle(seek)]
pub(crate) fn seek(
    alloc: Global,
    value: &Shared,
    kinds: &Kinds,
    ty: &Ty,
    k: u64,
) -> Result<Sought<Shared>, Memory>
    ensures { IfOk result (λ s. s ≡ sought (value_candidates kinds.now (view_type ty.now) value.now) k) }
{
    value.is_small();
    match (ty, value.form()) {
        (Ty::Int, Form::Int(n)) => Ok(number(n, k)),
        (Ty::Bool, Form::Bool(b)) => Ok(truth(b, k)),
        (Ty::List(item), Form::List(_)) => seek_list(alloc, value, kinds, item, k),
        (Ty::Pair(first, second), Form::Pair(a, b)) => {
            let pair = seek_pair(alloc, a, b, kinds, first, second, k)?;
            Ok(pair)
        }
        (Ty::Made(_), Form::Made { kind, maker, parts }) => {
            seek_made(alloc, parts, kinds, kind, maker, k)
        }
        _ => Ok(Sought::Past(k)),
    }
}

// A list without one of its blocks, or with one item replaced.
#[cycle(seek)]
fn seek_list(
    alloc: Global,
    value: &Shared,
    kinds: &Kinds,
    ty: &Ty,
    k: u64,
) -> Result<Sought<Shared>, Memory>
    requires { IsTrue (is_list value.now) }
    ensures { IfOk result (λ s. s ≡ sought (map list (map datas_of (removals (listed_data (items_of value.now))) ++ items_in_place kinds.now (view_type ty.now) (items_of value.now))) k) }
{
    match seek_block(length_of(value), k) {
        Sought::Here(block) => {
            let others = without_block(alloc, value, block)?;
            Ok(Sought::Here(others))
        }
        Sought::Past(left) => {
            let replaced = seek_items(alloc, value, kinds, ty, left)?;
            Ok(replaced)
        }
    }
}

// A list with one item replaced.
#[cycle(seek)]
fn seek_items(
    alloc: Global,
    value: &Shared,
    kinds: &Kinds,
    ty: &Ty,
    k: u64,
) -> Result<Sought<Shared>, Memory>
    requires { IsTrue (is_list value.now) }
    ensures { IfOk result (λ s. s ≡ map_sought list (sought (items_in_place kinds.now (view_type ty.now) (items_of value.now)) k)) }
{
    value.is_small();
    let mut rest = Items::Of(value);
    let mut at = 0usize;
    let mut left = k;
    'items: loop {
        match rest.next() {
            Some((first, others)) => match seek(alloc, first, kinds, ty, left)? {
                Sought::Here(item) => {
                    let replaced = with_item(alloc, value, at, item)?;
                    return Ok(Sought::Here(replaced));
                }
                Sought::Past(past) => {
                    rest = others;
                    at += 1;
                    left = past;
                }
            },
            None => return Ok(Sought::Past(left)),
        }
    }
}

// A pair with one part replaced.
#[cycle(seek)]
fn seek_pair(
    alloc: Global,
    a: &Shared,
    b: &Shared,
    kinds: &Kinds,
    first: &Ty,
    second: &Ty,
    k: u64,
) -> Result<Sought<Shared>, Memory>
    requires { IsSmall (pair a.now b.now) }
    ensures { IfOk result (λ s. s ≡ sought (map (λ c. pair c b.now) (value_candidates kinds.now (view_type first.now) a.now) ++ map (pair a.now) (value_candidates kinds.now (view_type second.now) b.now)) k) }
{
    match seek(alloc, a, kinds, first, k)? {
        Sought::Here(c) => {
            let pair = small_pair(alloc, c, b.share()?)?;
            Ok(Sought::Here(pair))
        }
        Sought::Past(left) => match seek(alloc, b, kinds, second, left)? {
            Sought::Here(c) => {
                let pair = small_pair(alloc, a.share()?, c)?;
                Ok(Sought::Here(pair))
            }
            Sought::Past(left) => Ok(Sought::Past(left)),
        },
    }
}

// One of the parts that have the value's own type, or the value with one part replaced.
#[cycle(seek)]
fn seek_made(
    alloc: Global,
    parts: &[Shared],
    kinds: &Kinds,
    kind: u32,
    maker: u32,
    k: u64,
) -> Result<Sought<Shared>, Memory>
    requires { IsSmall (made kind maker (datas_of parts.now)) }
    ensures { IfOk result (λ s. s ≡ sought (own_parts kind (fields_of (maker_of kinds.now kind maker)) (datas_of parts.now) ++ map (made kind maker) (parts_in_place kinds.now (fields_of (maker_of kinds.now kind maker)) (datas_of parts.now))) k) }
{
    let types = fields(kinds, kind, maker);
    match seek_own(kind, types, parts, k) {
        Sought::Here(part) => Ok(Sought::Here(part.share()?)),
        Sought::Past(left) => match seek_parts(alloc, parts, kinds, types, left)? {
            Sought::Here(parts) => {
                let made = small_made(alloc, kind, maker, parts)?;
                Ok(Sought::Here(made))
            }
            Sought::Past(left) => Ok(Sought::Past(left)),
        },
    }
}

// The parts with one replaced.
#[cycle(seek)]
fn seek_parts(
    alloc: Global,
    parts: &[Shared],
    kinds: &Kinds,
    types: &[Ty],
    k: u64,
) -> Result<Sought<Vec<Shared>>, Memory>
    ensures { IfOk result (λ s. map_sought (λ all. datas_of all.items) s ≡ sought (parts_in_place kinds.now (map view_type types.now) (datas_of parts.now)) k) }
{
    let shared = types.len().min(parts.len());
    let mut left = k;
    for i in 0..shared {
        match seek(alloc, &parts[i], kinds, &types[i], left)? {
            Sought::Here(part) => {
                let parts = put_in_place(alloc, parts, i, part)?;
                return Ok(Sought::Here(parts));
            }
            Sought::Past(rest) => left = rest,
        }
    }
    Ok(Sought::Past(left))
}

// A number's candidate.
fn number(n: i64, k: u64) -> Sought<Shared>
    ensures { result ≡ sought (map int (number_candidates n)) k }
{
    match seek_number(n, k) {
        Sought::Here(n) => Sought::Here(Shared::int(n)),
        Sought::Past(left) => Sought::Past(left),
    }
}

// A truth value's candidate.
fn truth(b: bool, k: u64) -> Sought<Shared>
    ensures { result ≡ sought (map bool (truth_candidates b)) k }
{
    match seek_truth(b, k) {
        Sought::Here(b) => Sought::Here(Shared::truth(b)),
        Sought::Past(left) => Sought::Past(left),
    }
}

// The pair of these parts, which is small.
#[tactic(auto, using(qk_eval::proofs::ListLaws::small_ok))]
fn small_pair(alloc: Global, first: Shared, second: Shared) -> Result<Shared, Memory>
    requires { IsSmall (pair first second) }
    ensures { IfOk result (λ v. v ≡ pair first second) }
{
    let given = Shared::pair(alloc, first, second)?;
    Ok(given.unwrap())
}

// The value of these parts, which is small.
#[tactic(auto, using(qk_eval::proofs::ListLaws::small_ok))]
fn small_made(alloc: Global, kind: u32, maker: u32, parts: Vec<Shared>) -> Result<Shared, Memory>
    requires { IsSmall (made kind maker (datas_of parts.items)) }
    ensures { IfOk result (λ v. v ≡ made kind maker (datas_of parts.items)) }
{
    let given = Shared::made(alloc, kind, maker, parts)?;
    Ok(given.unwrap())
}
