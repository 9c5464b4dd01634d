//! Lists of which the items stand side by side.
ghost use Rattle.std.specs.Prelude.{◌≡◌, ◌+◌, ◌≤◌, ◌<◌, ◌++◌, length, drop, IfOk, IfSome, OnOk, IsTrue};
ghost use Rattle.qk_value.specs.Data.{list, datas_of, listed_data};
ghost use Rattle.qk_value.specs.Measures.{IsSmall, weight as weight_of};
ghost use Rattle.qk_eval.specs.Parts.{items_of, is_list, joined, parts_of, small};
ghost use Rattle.qk_eval.specs.Rows.{Level, row_from};

use crate::shared::{Node, Row, Shared, weight_all};
use qk_base::{Cause, Memory};
use std::alloc::Global;
use std::sync::Arc;

/// As many items make a row; fewer are no larger one by one.
const ROW: usize = 4;

/// The depth of each item, where it is the same and they are enough for a row.
pub(crate) fn level_of(items: &[Shared]) -> Option<u64>
    ensures { IfSome result (λ level. Level level items.now × (0 < length items.now)) }
{
    if items.len() < ROW {
        return None;
    }
    let level = items[0].depth();
    for item in items {
        if item.depth() != level {
            return None;
        }
    }
    Some(level)
}

/// These items, all of one depth, and then a list's, unless the list is too heavy.
pub(crate) fn in_row(
    alloc: Global,
    items: Vec<Shared>,
    level: u64,
    rest: Shared,
) -> Result<Result<Shared, Cause>, Memory>
    requires list { IsTrue (is_list rest) }
    requires some { 0 < length items.items }
    requires level { Level level items.items }
    requires depth { level < 200 }
    ensures { IfOk result (λ r. r ≡ small (list (joined (datas_of items.items) (items_of rest)))) }
{
    rest.is_small();
    let weight = weight_all(&items) - 1 + rest.weight();
    if weight > 65_536 {
        return Ok(Err(Cause::Weight));
    }
    let depth = (level + 1).max(rest.depth());
    let row = Arc::new(alloc, Row { items, level, rest })?;
    Ok(Ok(Shared {
        node: Node::Row(row, 0),
        weight,
        depth,
    }))
}

// The list of a row's items from that place on, which has that weight.
fn list_from(row: &Arc<Row>, at: usize, weight: u64) -> Result<Shared, Memory>
    requires place { at ≤ length row.now.value.items.items }
    requires list { IsTrue (is_list row.now.value.rest) }
    requires level { Level row.now.value.level row.now.value.items.items }
    requires weight { weight ≡ weight_of (row_from at row.now.value.items.items row.now.value.rest) }
    requires small { IsSmall (row_from at row.now.value.items.items row.now.value.rest) }
    ensures { IfOk result (λ v. v ≡ row_from at row.now.value.items.items row.now.value.rest) }
{
    if at == row.items.len() {
        let rest = row.rest.share()?;
        return Ok(rest);
    }
    let depth = (row.level + 1).max(row.rest.depth());
    Ok(Shared {
        node: Node::Row(row.clone()?, at),
        weight,
        depth,
    })
}

/// The first item from that place on and the list of the others, after what is in an environment.
pub(crate) fn bind_first(
    row: &Arc<Row>,
    at: usize,
    weight: u64,
    env: &mut Vec<Shared>,
) -> Result<usize, Memory>
    requires place { at < length row.now.value.items.items }
    requires list { IsTrue (is_list row.now.value.rest) }
    requires level { Level row.now.value.level row.now.value.items.items }
    requires weight { weight ≡ weight_of (row_from at row.now.value.items.items row.now.value.rest) }
    requires small { IsSmall (row_from at row.now.value.items.items row.now.value.rest) }
    ensures count { IfOk result (λ n. n ≡ length (parts_of (row_from at row.now.value.items.items row.now.value.rest))) }
    ensures parts { OnOk result (env.new.items ≡ env.old.items ++ parts_of (row_from at row.now.value.items.items row.now.value.rest)) }
{
    let first = &row.items[at];
    env.push(first.share()?)?;
    env.push(list_from(row, at + 1, weight - first.weight())?)?;
    Ok(2)
}

// The list behind so many of a row's items from that place on.
fn behind_items(row: &Arc<Row>, at: usize, many: usize, weight: u64) -> Result<Shared, Memory>
    requires place { at + many ≤ length row.now.value.items.items }
    requires list { IsTrue (is_list row.now.value.rest) }
    requires level { Level row.now.value.level row.now.value.items.items }
    requires weight { weight ≡ weight_of (row_from at row.now.value.items.items row.now.value.rest) }
    requires small { IsSmall (row_from at row.now.value.items.items row.now.value.rest) }
    ensures { IfOk result (λ v. v ≡ row_from (at + many) row.now.value.items.items row.now.value.rest) }
{
    let mut left = weight;
    for i in at..at + many {
        left -= row.items[i].weight();
    }
    let list = list_from(row, at + many, left)?;
    Ok(list)
}

impl Shared {
    /// The list behind so many items, the empty one where there are fewer. It costs a step for each.
    pub fn behind(&self, many: usize) -> Result<Shared, Memory>
        requires { IsTrue (is_list self.now) }
        ensures list { IfOk result (λ v. IsTrue (is_list v)) }
        ensures rest { IfOk result (λ v. listed_data (items_of v) ≡ drop many (listed_data (items_of self.now))) }
    {
        let mut rest = self;
        let mut left = many;
        while left > 0 {
            match &rest.node {
                Node::Cons(cell) => {
                    rest = &cell.second;
                    left -= 1;
                }
                Node::Row(row, at) => {
                    let here = row.items.len() - *at;
                    if left < here {
                        let list = behind_items(row, *at, left, rest.weight())?;
                        return Ok(list);
                    }
                    rest = &row.rest;
                    left -= here;
                }
                _ => break,
            }
        }
        rest.share()
    }
}
