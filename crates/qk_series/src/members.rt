//! The values of a type by their numbers.
ghost use Rattle.std.specs.Prelude.{◌≡◌, ◌+◌, ◌*◌, ◌≤◌, ◌<◌, ◌^◌, pos, neg_ℤ, [], length, map, get_or, IfOk, IfSome};
ghost use Rattle.qk_series.specs.Small.{items_of, small};
ghost use Rattle.qk_value.specs.Data.{datas_of, list, made, pair};
ghost use Rattle.qk_value.specs.Measures.{weight};
ghost use Rattle.qk_value.specs.Types.{list_type, pair_type, made_type};
ghost use Rattle.qk_value.specs.View.{view_type, view_value, view_values};
ghost use Rattle.qk_series.specs.Members.{all_within, enumerated_in, member, parts_in, saturated, weighed_in, within};
ghost use Rattle.qk_series.specs.Series.{below, numbers, series, tuples};

use crate::counts::Counts;
use crate::weighed::{Weighed, WeighedParts};
use qk_base::{Cause, Memory, Seq};
use qk_value::{Ty, Value};
use std::alloc::Global;

/// The greatest weight of a value.
const WEIGHT: u32 = 65_536;

/// The greatest depth of a value.
const DEPTH: u64 = 200;

/// A member of a series: a value, or why it is none that a run works with.
#[derive(Drop)]
pub enum Enumerated {
    Value(Value),
    Crash(Cause),
}

impl<'c> Counts<'c> {
    /// Member `k` of the values of a type at a depth. It costs no more than a value of the greatest weight, however heavy the member is.
    pub fn value_at(&self, alloc: Global, ty: &Ty, depth: u32, k: u64) -> Result<Enumerated, Memory>
        requires depth { depth < length self.now.rows.items }
        requires number { k < saturated (length (series self.now.kinds.now depth (view_type ty.now))) }
        ensures { IfOk result (λ e. enumerated_in e ≡ small (member self.now.kinds.now depth (view_type ty.now) k)) }
    {
        match self.build(alloc, ty, depth as usize, k, WEIGHT)? {
            None => Ok(Enumerated::Crash(Cause::Weight)),
            Some(built) => Ok(not_too_deep(built.value)),
        }
    }

    // Member `k`, unless it is heavier than that.
    #[cycle(build)]
    fn build(
        &self,
        alloc: Global,
        ty: &Ty,
        depth: usize,
        k: u64,
        left: u32,
    ) -> Result<Option<Weighed>, Memory>
        requires depth { depth < length self.now.rows.items }
        requires number { k < saturated (length (series self.now.kinds.now depth (view_type ty.now))) }
        ensures member { IfOk result (λ built. weighed_in built ≡ within left (member self.now.kinds.now depth (view_type ty.now) k)) }
        ensures less { IfOk result (λ built. IfSome built (λ w. w.left ≤ left)) }
    {
        if left == 0 {
            return Ok(None);
        }
        match ty {
            Ty::Int => Ok(alone(Value::Int(number_at(depth, k)), left)),
            Ty::Bool => Ok(alone(Value::Bool(k == 1), left)),
            Ty::List(item) => self.build_list(alloc, item, depth, k, left - 1),
            Ty::Pair(first, second) => self.build_pair(alloc, first, second, depth, k, left - 1),
            Ty::Made(kind) => self.build_made(alloc, *kind, depth, k, left - 1),
        }
    }

    // Member `k` of the pairs, unless its parts are heavier than that.
    #[cycle(build)]
    fn build_pair(
        &self,
        alloc: Global,
        first: &Ty,
        second: &Ty,
        depth: usize,
        k: u64,
        left: u32,
    ) -> Result<Option<Weighed>, Memory>
        requires depth { depth < length self.now.rows.items }
        requires number { k < saturated (length (series self.now.kinds.now depth (pair_type (view_type first.now) (view_type second.now)))) }
        ensures member { IfOk result (λ built. weighed_in built ≡ within (left + 1) (member self.now.kinds.now depth (pair_type (view_type first.now) (view_type second.now)) k)) }
        ensures less { IfOk result (λ built. IfSome built (λ w. w.left ≤ left)) }
    {
        let seconds = self.count_at(second, depth);
        match self.build(alloc, first, depth, k / seconds, left)? {
            None => Ok(None),
            Some(a) => match self.build(alloc, second, depth, k % seconds, a.left)? {
                None => Ok(None),
                Some(b) => {
                    let pair = paired(alloc, a, b)?;
                    Ok(Some(pair))
                }
            },
        }
    }

    // Member `k` of the lists, unless its items are heavier than that.
    #[cycle(build)]
    fn build_list(
        &self,
        alloc: Global,
        item: &Ty,
        depth: usize,
        k: u64,
        left: u32,
    ) -> Result<Option<Weighed>, Memory>
        requires depth { depth < length self.now.rows.items }
        requires number { k < saturated (length (series self.now.kinds.now depth (list_type (view_type item.now)))) }
        ensures member { IfOk result (λ built. weighed_in built ≡ within (left + 1) (member self.now.kinds.now depth (list_type (view_type item.now)) k)) }
        ensures less { IfOk result (λ built. IfSome built (λ w. w.left ≤ left)) }
    {
        match self.build_items(alloc, item, depth, k, left)? {
            None => Ok(None),
            Some(items) => Ok(Some(listed(items))),
        }
    }

    // The items of member `k` of the lists, unless they are heavier than that.
    #[cycle(build)]
    fn build_items(
        &self,
        alloc: Global,
        item: &Ty,
        depth: usize,
        k: u64,
        left: u32,
    ) -> Result<Option<WeighedParts>, Memory>
        requires depth { depth < length self.now.rows.items }
        requires number { k < saturated (length (series self.now.kinds.now depth (list_type (view_type item.now)))) }
        ensures items { IfOk result (λ built. parts_in built ≡ all_within left (items_of (member self.now.kinds.now depth (list_type (view_type item.now)) k))) }
        ensures less { IfOk result (λ built. IfSome built (λ w. w.left ≤ left)) }
    {
        let mut values = Seq::make(alloc);
        let mut lower = depth;
        let mut rest = k;
        let mut left = left;
        while rest > 0 {
            lower -= 1;
            let lists = self.count_list(item, lower);
            match self.build(alloc, item, lower, (rest - 1) / lists, left)? {
                None => return Ok(None),
                Some(next) => {
                    values.add(next.value)?;
                    left = next.left;
                }
            }
            rest = (rest - 1) % lists;
        }
        Ok(Some(WeighedParts { values, left }))
    }

    // Member `k` of the values of a user type, unless its parts are heavier than that.
    #[cycle(build)]
    fn build_made(
        &self,
        alloc: Global,
        kind: u32,
        depth: usize,
        k: u64,
        left: u32,
    ) -> Result<Option<Weighed>, Memory>
        requires depth { depth < length self.now.rows.items }
        requires number { k < saturated (length (series self.now.kinds.now depth (made_type kind))) }
        ensures member { IfOk result (λ built. weighed_in built ≡ within (left + 1) (member self.now.kinds.now depth (made_type kind) k)) }
        ensures less { IfOk result (λ built. IfSome built (λ w. w.left ≤ left)) }
    {
        let chosen = self.choose(kind, depth, k)?;
        match self.build_parts(alloc, chosen.fields, depth, chosen.k, left)? {
            None => Ok(None),
            Some(parts) => Ok(Some(made(kind, chosen.maker, parts))),
        }
    }

    // Member `k` of the lists of parts of fields, unless they are heavier than that.
    #[cycle(build)]
    fn build_parts(
        &self,
        alloc: Global,
        fields: &[Ty],
        depth: usize,
        k: u64,
        left: u32,
    ) -> Result<Option<WeighedParts>, Memory>
        requires depth { depth < length self.now.rows.items }
        requires number { k < saturated (length (tuples (map (below self.now.kinds.now depth) (map view_type fields.now)))) }
        ensures parts { IfOk result (λ built. parts_in built ≡ all_within left (datas_of (get_or (tuples (map (below self.now.kinds.now depth) (map view_type fields.now))) k []))) }
        ensures less { IfOk result (λ built. IfSome built (λ w. w.left ≤ left)) }
    {
        let mut values = Seq::make(alloc);
        let mut rest = k;
        let mut left = left;
        for i in 0..fields.len() {
            let (_, behind) = fields.split_at(i + 1);
            let others = self.count_tuples(behind, depth);
            match self.build(alloc, &fields[i], depth - 1, rest / others, left)? {
                None => return Ok(None),
                Some(next) => {
                    values.add(next.value)?;
                    left = next.left;
                }
            }
            rest %= others;
        }
        Ok(Some(WeighedParts { values, left }))
    }
}

// The value, unless it is too deep.
fn not_too_deep(value: Value) -> Enumerated
    requires { weight (view_value value) ≤ 65536 }
    ensures { enumerated_in result ≡ small (view_value value) }
{
    if value.depth() > DEPTH {
        Enumerated::Crash(Cause::Depth)
    } else {
        Enumerated::Value(value)
    }
}

// A value without parts.
fn alone(value: Value, left: u32) -> Option<Weighed>
    requires left { 0 < left }
    requires alone { weight (view_value value) ≡ 1 }
    ensures within { weighed_in result ≡ within left (view_value value) }
    ensures less { IfSome result (λ w. w.left ≤ left) }
{
    Some(Weighed {
        value,
        left: left - 1,
    })
}

// The pair of two values, the second of which was built within what the first left.
fn paired(alloc: Global, a: Weighed, b: Weighed) -> Result<Weighed, Memory>
    ensures { IfOk result (λ w. (view_value w.value ≡ pair (view_value a.value) (view_value b.value)) × (w.left ≡ b.left)) }
{
    let first = Box::new(alloc, a.value)?;
    let second = Box::new(alloc, b.value)?;
    Ok(Weighed {
        value: Value::Pair(first, second),
        left: b.left,
    })
}

// The list of items.
fn listed(items: WeighedParts) -> Weighed
    ensures value { view_value result.value ≡ list (view_values items.values.items) }
    ensures left { result.left ≡ items.left }
{
    Weighed {
        value: Value::List(items.values),
        left: items.left,
    }
}

// The value of parts by a maker.
fn made(kind: u32, maker: u32, parts: WeighedParts) -> Weighed
    ensures value { view_value result.value ≡ made kind maker (view_values parts.values.items) }
    ensures left { result.left ≡ parts.left }
{
    Weighed {
        value: Value::Made {
            kind,
            maker,
            parts: parts.values,
        },
        left: parts.left,
    }
}

// Number `k` of 0, 1, -1, 2, -2 and so on.
fn number_at(_depth: usize, k: u64) -> i64
    requires depth { _depth ≤ 8 }
    requires number { k < 2 * _depth + 1 }
    ensures { result ≡ get_or (numbers _depth) k (pos 0) }
{
    let far = k / 2;
    if k % 2 == 1 {
        positive(far + 1)
    } else {
        negative(far)
    }
}

fn positive(far: u64) -> i64
    requires { far < 2 ^ 63 }
    ensures { result ≡ pos far }
{
    far as i64
}

fn negative(far: u64) -> i64
    requires { far < 2 ^ 63 }
    ensures { result ≡ neg_ℤ (pos far) }
{
    -(far as i64)
}
