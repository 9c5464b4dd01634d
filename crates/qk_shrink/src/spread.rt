//! The candidates of the values of a property's binders, by number.
ghost use Rattle.std.specs.Prelude.{◌≡◌, ◌≤◌, ◌<◌, ◌^◌, List, [], ◌∷◌, length, map, slice_get, Some, IfOk};
ghost use Rattle.qk_eval.specs.Meaning.{called};
ghost use Rattle.qk_value.specs.View.{view_value};
ghost use Rattle.qk_eval.specs.Answers.{AreSmall, ended};
ghost use Rattle.qk_shrink.specs.Spreads.{listed as listed_way, spread_over, in_turn, way_candidates, way_of, ways_of};
ghost use Rattle.qk_shrink.specs.SpreadsView.{view_way};
ghost use Rattle.qk_shrink.specs.Tuples.{answered, candidates};
ghost use Rattle.qk_shrink.specs.Sought.{map_sought, sought};

use crate::copies::put_in_place;
use crate::counting::value_count;
use crate::seeking::seek;
use crate::sought::Sought;
use qk_base::{Memory, Seq};
use qk_core::{Binder, Core, ShrinkBy};
use qk_eval::{Ending, Shared, call_shared, plain_all, shared_all};
use qk_value::{Kinds, Ty, Value};
use std::alloc::Global;
use std::marker::Model;

/// The most candidates of a spread. What the language allows has fewer.
const MOST: u64 = 1 << 40;

/// Where the candidates of a binder's value come from.
#[derive(Drop)]
pub(crate) enum Way<'a> {
    ByType(&'a Ty),
    /// The candidates themselves.
    Listed(Vec<Shared>),
}

/// What is prepared of the values of a property's binders, so that their candidates are found by number. A contract sees how each
/// binder's candidates come, and how many there are in all.
#[derive(Drop)]
pub struct Spread<'a> {
    kinds: &'a Kinds,
    ways: Seq<Way<'a>>,
    count: u64,
}

impl<'a> Model for Spread<'a> {
    ghost use Rattle.std.specs.Prelude.{◌≤◌, ◌^◌, map};
    ghost use Rattle.qk_shrink.specs.SpreadCode.{spread_code};
    ghost use Rattle.qk_shrink.specs.Spreads.{SpreadData};
    ghost use Rattle.qk_shrink.specs.SpreadsView.{view_way};

    ghost Value = { SpreadData };

    ghost coded = { spread_code };

    ghost view = { λ s. record { kinds = s.kinds.now; ways = map view_way s.ways.items; count = s.count } };

    ghost invariant = { λ s. s.count ≤ 2 ^ 40 };
}

impl<'a> Spread<'a> {
    /// Prepares the candidates of values, one for each binder. Each function that shrinks a binder is called once with so many units
    /// of fuel, and what it lists is kept; where it crashes, its binder has no candidates.
    pub fn make(
        alloc: Global,
        core: &'a Core,
        binders: &'a Seq<Binder>,
        values: &Seq<Value>,
        fuel: u32,
    ) -> Result<Spread<'a>, Memory>
        requires { AreSmall (map view_value values.now.items) }
        ensures listed { IfOk result (λ spread. spread_over spread (map view_value values.now.items) ≡ candidates core.now binders.now.items (map view_value values.now.items) fuel) }
        ensures count { IfOk result (λ spread. spread.count ≡ length (candidates core.now binders.now.items (map view_value values.now.items) fuel)) }
    {
        let shared = shared_all(alloc, values.as_slice())?;
        let spread = prepare(alloc, core, binders, &shared, values.as_slice(), fuel)?;
        Ok(spread)
    }

    /// `make` of shared values.
    pub fn make_shared(
        alloc: Global,
        core: &'a Core,
        binders: &'a Seq<Binder>,
        values: &[Shared],
        fuel: u32,
    ) -> Result<Spread<'a>, Memory>
        ensures listed { IfOk result (λ spread. spread_over spread values.now ≡ candidates core.now binders.now.items values.now fuel) }
        ensures count { IfOk result (λ spread. spread.count ≡ length (candidates core.now binders.now.items values.now fuel)) }
    {
        let plain = plain_all(alloc, values)?;
        let spread = prepare(alloc, core, binders, values, plain.as_slice(), fuel)?;
        Ok(spread)
    }

    /// How many candidates there are.
    pub fn count(&self) -> u64
        ensures count { result ≡ self.now.count }
        ensures bounded { result ≤ 2 ^ 40 }
    {
        self.count
    }

    /// Candidate `k` of the values that the spread was made for, counted from 0. It costs a step or two for each part of the values.
    pub fn candidate(
        &self,
        alloc: Global,
        values: &Seq<Value>,
        k: u64,
    ) -> Result<Seq<Value>, Memory>
        requires number { k < length (spread_over self.now (map view_value values.now.items)) }
        requires small { AreSmall (map view_value values.now.items) }
        ensures candidate { IfOk result (λ candidate. slice_get (spread_over self.now (map view_value values.now.items)) k ≡ Some (map view_value candidate.items)) }
        ensures small { IfOk result (λ candidate. AreSmall (map view_value candidate.items)) }
    {
        let shared = shared_all(alloc, values.as_slice())?;
        let candidate = self.candidate_shared(alloc, &shared, k)?;
        let plain = plain_all(alloc, &candidate)?;
        Ok(plain)
    }

    /// `candidate` of shared values. Of a list it costs a step or two for each item up to the end of what the candidate changes, and
    /// one more for each item to count them.
    pub fn candidate_shared(
        &self,
        alloc: Global,
        values: &[Shared],
        k: u64,
    ) -> Result<Vec<Shared>, Memory>
        requires { k < length (spread_over self.now values.now) }
        ensures { IfOk result (λ candidate. slice_get (spread_over self.now values.now) k ≡ Some candidate.items) }
    {
        match seek_all(alloc, self.kinds, self.ways.as_slice(), values, k)? {
            Sought::Here(candidate) => Ok(candidate),
            Sought::Past(_) => unreachable!(),
        }
    }
}

// The spread of values that are there as shared and as plain ones, of which the plain ones are counted.
fn prepare<'a>(
    alloc: Global,
    core: &'a Core,
    binders: &'a Seq<Binder>,
    values: &[Shared],
    plain: &[Value],
    fuel: u32,
) -> Result<Spread<'a>, Memory>
    requires same { map view_value plain.now ≡ values.now }
    requires small { AreSmall (map view_value plain.now) }
    ensures listed { IfOk result (λ spread. spread_over spread values.now ≡ candidates core.now binders.now.items values.now fuel) }
    ensures count { IfOk result (λ spread. spread.count ≡ length (candidates core.now binders.now.items values.now fuel)) }
{
    let ways = all_ways(alloc, core, binders.as_slice(), values, fuel)?;
    let count = count_all(core.kinds(), ways.as_slice(), plain)?;
    Ok(Spread {
        kinds: core.kinds(),
        ways,
        count,
    })
}

// How the candidates of each value come, binder by binder.
fn all_ways<'a>(
    alloc: Global,
    core: &Core,
    binders: &'a [Binder],
    values: &[Shared],
    fuel: u32,
) -> Result<Seq<Way<'a>>, Memory>
    ensures { IfOk result (λ ways. map view_way ways.items ≡ ways_of core.now binders.now values.now fuel) }
{
    let shared = binders.len().min(values.len());
    let mut ways = Seq::make(alloc);
    for i in 0..shared {
        ways.add(way_for(alloc, core, &binders[i], &values[i], fuel)?)?;
    }
    Ok(ways)
}

// How the candidates of one binder's value come.
fn way_for<'a>(
    alloc: Global,
    core: &Core,
    binder: &'a Binder,
    value: &Shared,
    fuel: u32,
) -> Result<Way<'a>, Memory>
    ensures { IfOk result (λ way. view_way way ≡ way_of core.now fuel binder.now.ty binder.now.shrink value.now) }
{
    match binder.shrink {
        ShrinkBy::Builtin => Ok(Way::ByType(&binder.ty)),
        ShrinkBy::Function(function) => listed(alloc, core, function, value, fuel),
        ShrinkBy::Nothing => Ok(Way::Listed(Vec::new(alloc))),
    }
}

// What a function lists for a value.
fn listed<'a>(
    alloc: Global,
    core: &Core,
    function: u32,
    value: &Shared,
    fuel: u32,
) -> Result<Way<'a>, Memory>
    ensures { IfOk result (λ way. view_way way ≡ listed_way (answered (called core.now.functions function (value.now ∷ []) fuel))) }
{
    let mut args = Vec::new(alloc);
    args.push(value.share()?)?;
    let ending = call_shared(alloc, core, function, args, fuel)?;
    let items = items_in(alloc, &ending)?;
    Ok(Way::Listed(items))
}

// The items of a list that was answered.
fn items_in(alloc: Global, ending: &Ending) -> Result<Vec<Shared>, Memory>
    ensures { IfOk result (λ all. all.items ≡ answered (ended ending.now)) }
{
    match ending {
        Ending::Value { value, left: _ } => {
            let items = value.items(alloc)?;
            Ok(items)
        }
        Ending::Crash(_) => Ok(Vec::new(alloc)),
    }
}

// How many candidates there are in all. More than the most are answered as want of memory.
fn count_all(kinds: &Kinds, ways: &[Way], values: &[Value]) -> Result<u64, Memory>
    requires { AreSmall (map view_value values.now) }
    ensures count { IfOk result (λ count. count ≡ length (in_turn kinds.now (map view_way ways.now) (map view_value values.now))) }
    ensures bounded { IfOk result (λ count. count ≤ 2 ^ 40) }
{
    let shared = ways.len().min(values.len());
    let mut count = 0u64;
    for i in 0..shared {
        let more = count_way(kinds, &ways[i], &values[i]);
        if more > MOST - count {
            return Err(Memory);
        }
        count += more;
    }
    Ok(count)
}

fn count_way(kinds: &Kinds, way: &Way, value: &Value) -> u64
    requires { AreSmall (view_value value.now ∷ []) }
    ensures { result ≡ length (way_candidates kinds.now (view_way way.now) (view_value value.now)) }
{
    match way {
        Way::ByType(ty) => value_count(kinds, ty, value),
        Way::Listed(items) => items.len() as u64,
    }
}

// The values with one replaced.
fn seek_all(
    alloc: Global,
    kinds: &Kinds,
    ways: &[Way],
    values: &[Shared],
    k: u64,
) -> Result<Sought<Vec<Shared>>, Memory>
    ensures { IfOk result (λ s. map_sought (λ all. all.items) s ≡ sought (in_turn kinds.now (map view_way ways.now) values.now) k) }
{
    let shared = ways.len().min(values.len());
    let mut left = k;
    for i in 0..shared {
        match seek_way(alloc, kinds, &ways[i], &values[i], left)? {
            Sought::Here(value) => {
                let values = put_in_place(alloc, values, i, value)?;
                return Ok(Sought::Here(values));
            }
            Sought::Past(rest) => left = rest,
        }
    }
    Ok(Sought::Past(left))
}

fn seek_way(
    alloc: Global,
    kinds: &Kinds,
    way: &Way,
    value: &Shared,
    k: u64,
) -> Result<Sought<Shared>, Memory>
    ensures { IfOk result (λ s. s ≡ sought (way_candidates kinds.now (view_way way.now) value.now) k) }
{
    match way {
        Way::ByType(ty) => seek(alloc, value, kinds, ty, k),
        Way::Listed(items) => seek_listed(items, k),
    }
}

fn seek_listed(items: &[Shared], k: u64) -> Result<Sought<Shared>, Memory>
    ensures { IfOk result (λ s. s ≡ sought items.now k) }
{
    let length = items.len() as u64;
    if k < length {
        return Ok(Sought::Here(items[k as usize].share()?));
    }
    Ok(Sought::Past(k - length))
}
