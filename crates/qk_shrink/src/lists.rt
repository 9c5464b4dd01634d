//! Lists that share the items behind what is changed in them.
ghost use Rattle.std.specs.Prelude.{◌≡◌, ◌+◌, ◌≤◌, ◌<◌, ◌++◌, IsTrue, length, take, drop, IfOk};
ghost use Rattle.qk_value.specs.Data.{list, more, datas_of, listed_data};
ghost use Rattle.qk_value.specs.Measures.{IsSmall};
ghost use Rattle.qk_eval.specs.Parts.{is_list, items_of, joined};
ghost use Rattle.qk_shrink.specs.Blocks.{without};

use crate::blocks::Block;
use qk_base::Memory;
use qk_eval::{Items, Shared, prepend};
use std::alloc::Global;

/// How many items a list has.
pub(crate) fn length_of(value: &Shared) -> usize
    ensures { result ≡ length (listed_data (items_of value.now)) }
{
    value.is_small();
    value.length() as usize
}

// The first items of a list, with room for one more.
fn front(alloc: Global, value: &Shared, many: usize) -> Result<Vec<Shared>, Memory>
    ensures { IfOk result (λ all. all.items ≡ take many (listed_data (items_of value.now))) }
{
    let mut all = Vec::with_capacity(alloc, many.saturating_add(1))?;
    let mut rest = Items::Of(value);
    let mut left = many;
    while left > 0 {
        match rest.next() {
            Some((first, others)) => {
                all.push(first.share()?)?;
                rest = others;
                left -= 1;
            }
            None => return Ok(all),
        }
    }
    Ok(all)
}

// The list of these items and then another's, with a step for each of these.
fn joined_list(alloc: Global, items: Vec<Shared>, rest: Shared) -> Result<Shared, Memory>
    requires list { IsTrue (is_list rest) }
    requires small { IsSmall (list (joined (datas_of items.items) (items_of rest))) }
    ensures { IfOk result (λ v. v ≡ list (joined (datas_of items.items) (items_of rest))) }
{
    let given = prepend(alloc, items, rest)?;
    Ok(given.unwrap())
}

/// The list without a block. It costs a step or two for each item up to the block's end.
pub(crate) fn without_block(alloc: Global, value: &Shared, block: Block) -> Result<Shared, Memory>
    requires list { IsTrue (is_list value.now) }
    requires inside { block.at + block.size ≤ length (listed_data (items_of value.now)) }
    ensures { IfOk result (λ v. v ≡ list (datas_of (without (listed_data (items_of value.now)) block))) }
{
    value.is_small();
    let items = front(alloc, value, block.at)?;
    let rest = value.behind(block.at + block.size)?;
    let others = joined_list(alloc, items, rest)?;
    Ok(others)
}

/// The list with another item in the place of one. It costs a step or two for each item up to it.
pub(crate) fn with_item(
    alloc: Global,
    value: &Shared,
    at: usize,
    item: Shared,
) -> Result<Shared, Memory>
    requires list { IsTrue (is_list value.now) }
    requires place { at < length (listed_data (items_of value.now)) }
    requires small { IsSmall (list (joined (datas_of (take at (listed_data (items_of value.now)))) (more item (datas_of (drop (at + 1) (listed_data (items_of value.now))))))) }
    ensures { IfOk result (λ v. v ≡ list (joined (datas_of (take at (listed_data (items_of value.now)))) (more item (datas_of (drop (at + 1) (listed_data (items_of value.now))))))) }
{
    value.is_small();
    let mut items = front(alloc, value, at)?;
    items.push(item)?;
    let rest = value.behind(at + 1)?;
    let all = joined_list(alloc, items, rest)?;
    Ok(all)
}
