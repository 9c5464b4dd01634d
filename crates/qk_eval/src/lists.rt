//! Walks along shared lists.
ghost use Rattle.std.specs.Prelude.{◌≡◌, ◌≤◌, ◌<◌, IfOk, pos, IsTrue};
ghost use Rattle.qk_value.specs.Data.{Data, list, datas_of};
ghost use Rattle.qk_value.specs.Measures.{depth, depths, IsSmall};
ghost use Rattle.qk_eval.specs.Parts.{items_of, count, joined, is_list, small};

use crate::items::Items;
use crate::rows::{in_row, level_of};
use crate::shared::{Node, Shared, depth_all, weight_all};
use qk_base::{Cause, Memory};
use std::alloc::Global;

impl Shared {
    /// That every such value is small.
    pub fn is_small(&self)
        ensures { IsSmall self.now }
    {
        let _ = &self.weight;
    }

    /// The depth, which was kept with the value.
    pub fn depth(&self) -> u64
        ensures { result ≡ depth self.now }
    {
        self.depth
    }

    /// The number of items, 0 for what is no list. It costs a step for each that stands alone, and one for each row.
    pub fn length(&self) -> i64
        ensures { result ≡ pos (count (items_of self.now)) }
    {
        self.is_small();
        let mut rest = self;
        let mut passed = 0u32;
        'items: loop {
            match &rest.node {
                Node::Cons(cell) => {
                    passed += 1;
                    rest = &cell.second;
                }
                Node::Row(row, at) => {
                    passed += (row.items.len() - *at) as u32;
                    rest = &row.rest;
                }
                _ => return passed as i64,
            }
        }
    }

    /// The items of a list, in order, and none of what is no list. It costs a step for each.
    pub fn items(&self, alloc: Global) -> Result<Vec<Shared>, Memory>
        ensures { IfOk result (λ all. datas_of all.items ≡ items_of self.now) }
    {
        items_of(alloc, self)
    }

    /// The value, or the empty list in place of what is no list.
    pub fn as_list(self) -> Shared
        ensures same { items_of result ≡ items_of self }
        ensures list { IsTrue (is_list result) }
    {
        if self.is_list() { self } else { Shared::nil() }
    }

    /// The list of these items, unless it is too heavy or else too deep. It costs a step for each item.
    #[tactic(auto, using(crate::proofs::ListLaws::joined_end))]
    pub fn list(alloc: Global, items: Vec<Shared>) -> Result<Result<Shared, Cause>, Memory>
        ensures { IfOk result (λ r. r ≡ small (list (datas_of items.items))) }
    {
        if weight_all(&items) > 65_536 {
            return Ok(Err(Cause::Weight));
        }
        if depth_all(&items) > 200 {
            return Ok(Err(Cause::Depth));
        }
        let all = prepend(alloc, items, Shared::nil())?;
        Ok(all)
    }

    /// The items of one list and then of another, unless the list is too heavy or else too deep. It costs a step for each item of
    /// the first list.
    pub fn append(
        alloc: Global,
        first: &Shared,
        second: Shared,
    ) -> Result<Result<Shared, Cause>, Memory>
        ensures { IfOk result (λ r. r ≡ small (list (joined (items_of first.now) (items_of second)))) }
    {
        first.is_small();
        let items = first.items(alloc)?;
        let longer = prepend(alloc, items, second.as_list())?;
        Ok(longer)
    }
}

#[tactic(auto, using(crate::proofs::ListLaws::joined_push, crate::proofs::ListLaws::joined_end))]
fn items_of(alloc: Global, list: &Shared) -> Result<Vec<Shared>, Memory>
    ensures { IfOk result (λ all. datas_of all.items ≡ items_of list.now) }
{
    let mut all = Vec::new(alloc);
    let mut rest = Items::Of(list);
    'items: loop {
        match rest.next() {
            Some((item, others)) => {
                all.push(item.share()?)?;
                rest = others;
            }
            None => return Ok(all),
        }
    }
}

/// These items and then a list's, unless the list is too heavy. No item is too deep. Items of one depth stand side by side.
pub fn prepend(
    alloc: Global,
    items: Vec<Shared>,
    rest: Shared,
) -> Result<Result<Shared, Cause>, Memory>
    requires list { IsTrue (is_list rest) }
    requires depth { depths (datas_of items.items) < 200 }
    ensures { IfOk result (λ r. r ≡ small (list (joined (datas_of items.items) (items_of rest)))) }
{
    match level_of(&items) {
        Some(level) => in_row(alloc, items, level, rest),
        None => one_by_one(alloc, items, rest),
    }
}

// These items, each before the list behind it.
fn one_by_one(
    alloc: Global,
    items: Vec<Shared>,
    rest: Shared,
) -> Result<Result<Shared, Cause>, Memory>
    requires list { IsTrue (is_list rest) }
    requires depth { depths (datas_of items.items) < 200 }
    ensures { IfOk result (λ r. r ≡ small (list (joined (datas_of items.items) (items_of rest)))) }
{
    let mut before = items;
    let mut all = rest;
    'items: loop {
        all.is_small();
        match before.pop() {
            None => return Ok(Ok(all)),
            Some(item) => match Shared::cons(alloc, item, all)? {
                Ok(longer) => all = longer,
                Err(cause) => return Ok(Err(cause)),
            },
        }
    }
}
