//! From values to shared values and back.
ghost use Rattle.std.specs.Prelude.{◌≡◌, ◌≤◌, ◌<◌, IfOk, map};
ghost use Rattle.qk_value.specs.Data.{Data, list, datas_of};
ghost use Rattle.qk_value.specs.Measures.{weights, depths, IsSmall};
ghost use Rattle.qk_value.specs.View.{view_value, view_values};
ghost use Rattle.qk_eval.specs.Forms.{to_come};

use crate::items::Items;
use crate::lists::prepend;
use crate::shared::{Node, Shared};
use qk_base::{Memory, Seq};
use qk_value::Value;
use std::alloc::Global;

impl Shared {
    /// The shared value of a small value. It costs a step for each part.
    #[cycle(of_value)]
    pub fn of_value(alloc: Global, value: &Value) -> Result<Shared, Memory>
        requires { IsSmall (view_value value.now) }
        ensures { IfOk result (λ v. v ≡ view_value value.now) }
    {
        match value {
            Value::Int(n) => Ok(Shared::int(*n)),
            Value::Bool(b) => Ok(Shared::truth(*b)),
            Value::List(items) => {
                let items = of_values(alloc, items.as_slice())?;
                let list = small_list(alloc, items)?;
                Ok(list)
            }
            Value::Pair(a, b) => {
                let first = Shared::of_value(alloc, a)?;
                let second = Shared::of_value(alloc, b)?;
                let given = Shared::pair(alloc, first, second)?;
                Ok(given.unwrap())
            }
            Value::Made { kind, maker, parts } => {
                let parts = of_values(alloc, parts.as_slice())?;
                let given = Shared::made(alloc, *kind, *maker, parts)?;
                Ok(given.unwrap())
            }
        }
    }

    /// The value. It costs a step for each part, and of a list no machine stack.
    #[cycle(to_value)]
    pub fn to_value(&self, alloc: Global) -> Result<Value, Memory>
        ensures { IfOk result (λ v. view_value v ≡ self.now) }
    {
        match &self.node {
            Node::Int(n) => Ok(Value::Int(*n)),
            Node::Bool(b) => Ok(Value::Bool(*b)),
            Node::Nil | Node::Cons(_) | Node::Row(..) => {
                let items = items_to_values(Items::Of(self), alloc)?;
                Ok(Value::List(items))
            }
            Node::Pair(cell) => {
                let first = cell.first.to_value(alloc)?;
                let second = cell.second.to_value(alloc)?;
                Ok(Value::Pair(Box::new(alloc, first)?, Box::new(alloc, second)?))
            }
            Node::Made { kind, maker, parts } => {
                let parts = to_values(parts, alloc)?;
                Ok(Value::Made {
                    kind: *kind,
                    maker: *maker,
                    parts,
                })
            }
        }
    }
}

// The list of these items.
#[tactic(auto, using(crate::proofs::ListLaws::joined_end, crate::proofs::ListLaws::small_ok))]
fn small_list(alloc: Global, items: Vec<Shared>) -> Result<Shared, Memory>
    requires { IsSmall (list (datas_of items.items)) }
    ensures { IfOk result (λ v. v ≡ list (datas_of items.items)) }
{
    let given = prepend(alloc, items, Shared::nil())?;
    Ok(given.unwrap())
}

/// The shared values of small values, in order.
#[cycle(of_value)]
pub(crate) fn of_values(alloc: Global, values: &[Value]) -> Result<Vec<Shared>, Memory>
    requires weights { weights (view_values values.now) ≤ 65536 }
    requires depths { depths (view_values values.now) ≤ 200 }
    ensures { IfOk result (λ all. all.items ≡ map view_value values.now) }
{
    let mut all = Vec::new(alloc);
    for value in values {
        all.push(Shared::of_value(alloc, value)?)?;
    }
    Ok(all)
}

// The items as values.
#[cycle(to_value)]
#[tactic(auto, using(crate::proofs::ListLaws::view_push, crate::proofs::ListLaws::joined_end))]
fn items_to_values(items: Items, alloc: Global) -> Result<Seq<Value>, Memory>
    ensures { IfOk result (λ all. view_values all.items ≡ to_come items.entry) }
{
    let mut all = Seq::make(alloc);
    let mut rest = items;
    'items: loop {
        match rest.next() {
            Some((item, others)) => {
                all.add(item.to_value(alloc)?)?;
                rest = others;
            }
            None => return Ok(all),
        }
    }
}

#[cycle(to_value)]
fn to_values(parts: &[Shared], alloc: Global) -> Result<Seq<Value>, Memory>
    ensures { IfOk result (λ all. view_values all.items ≡ datas_of parts.now) }
{
    let mut all = Seq::make(alloc);
    for part in parts {
        all.add(part.to_value(alloc)?)?;
    }
    Ok(all)
}
