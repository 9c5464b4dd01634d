//! Values, their copies and how large they are.
ghost use Rattle.std.specs.Prelude.{IfOk, ◌↔◌, IsTrue, ◌≡◌, ◌≤◌, ◌<◌, ◌+◌, ◌-◌, ◌^◌, [], ◌∷◌, ◌++◌, ℕ, suc, length, map, min};
ghost use Rattle.qk_value.specs.Measures.{weight as weight_of, weights as weights_of, depth as depth_of, depths as depths_of};
ghost use Rattle.qk_value.specs.Order.{compare as compare_of, compare_all as compare_all_of, rank as rank_of};
ghost use Rattle.qk_value.specs.View.{view_value, view_values};

use qk_base::{Memory, Seq};
use std::alloc::Global;
use std::cmp::Ordering;

/// A value that a property draws, computes with, shrinks and prints.
#[derive(Drop)]
pub enum Value {
    Int(i64),
    Bool(bool),
    List(Seq<Value>),
    Pair(Box<Value>, Box<Value>),
    /// A value of a user type: the numbers of its type and of its maker there, and the maker's parts.
    Made {
        kind: u32,
        maker: u32,
        parts: Seq<Value>,
    },
}

impl Value {
    /// An equal value. It costs a step for each part.
    #[cycle(copy)]
    pub fn copy(&self, alloc: Global) -> Result<Value, Memory>
        ensures { IfOk result (λ copy. view_value copy ≡ view_value self.now) }
    {
        match self {
            Value::Int(n) => Ok(Value::Int(*n)),
            Value::Bool(b) => Ok(Value::Bool(*b)),
            Value::List(items) => Ok(Value::List(copy_all(alloc, items.as_slice())?)),
            Value::Pair(a, b) => {
                let first = a.copy(alloc)?;
                let second = b.copy(alloc)?;
                Ok(Value::Pair(Box::new(alloc, first)?, Box::new(alloc, second)?))
            }
            Value::Made { kind, maker, parts } => Ok(Value::Made {
                kind: *kind,
                maker: *maker,
                parts: copy_all(alloc, parts.as_slice())?,
            }),
        }
    }

    /// How deep parts nest: 1 for a value without parts, else 1 and the greatest depth of a part; at most 2^64 - 1.
    #[cycle(depth)]
    pub fn depth(&self) -> u64
        ensures { result ≡ min (depth_of (view_value self.now)) u64.MAX }
    {
        match self {
            Value::Int(_) => 1,
            Value::Bool(_) => 1,
            Value::List(items) => depth_all(items.as_slice()).saturating_add(1),
            Value::Pair(a, b) => a.depth().max(b.depth()).saturating_add(1),
            Value::Made { parts, .. } => depth_all(parts.as_slice()).saturating_add(1),
        }
    }

    /// Numbers by size, false before true, lists and pairs by their first difference with a proper front first, made values by maker
    /// and then by parts. Values of two types come in the order of the enum's variants, and made values by their types' numbers.
    #[cycle(compare)]
    pub fn compare(&self, other: &Value) -> Ordering
        ensures { result ≡ compare_of (view_value self.now) (view_value other.now) }
    {
        match (self, other) {
            (Value::Int(m), Value::Int(n)) => m.cmp(n),
            (Value::Bool(b), Value::Bool(c)) => b.cmp(c),
            (Value::List(xs), Value::List(ys)) => compare_all(xs.as_slice(), ys.as_slice()),
            (Value::Pair(a, b), Value::Pair(c, d)) => a.compare(c).then(b.compare(d)),
            (
                Value::Made { kind, maker, parts },
                Value::Made {
                    kind: other_kind,
                    maker: other_maker,
                    parts: other_parts,
                },
            ) => kind
                .cmp(other_kind)
                .then(maker.cmp(other_maker))
                .then(compare_all(parts.as_slice(), other_parts.as_slice())),
            _ => self.rank().cmp(&other.rank()),
        }
    }

    fn rank(&self) -> u8
        ensures { result ≡ rank_of (view_value self.now) }
    {
        match self {
            Value::Int(_) => 0,
            Value::Bool(_) => 1,
            Value::List(_) => 2,
            Value::Pair(_, _) => 3,
            Value::Made { .. } => 4,
        }
    }

    /// The number of parts, the value itself counted: 1, and the weights of its parts; 2^64 - 1 where that sum is greater.
    #[cycle(weight)]
    pub fn weight(&self) -> u64
        ensures { result ≡ min (weight_of (view_value self.now)) u64.MAX }
    {
        match self {
            Value::Int(_) => 1,
            Value::Bool(_) => 1,
            Value::List(items) => weight_all(items.as_slice()).saturating_add(1),
            Value::Pair(a, b) => a.weight().saturating_add(b.weight()).saturating_add(1),
            Value::Made { parts, .. } => weight_all(parts.as_slice()).saturating_add(1),
        }
    }
}

#[cycle(weight)]
fn weight_all(items: &[Value]) -> u64
    ensures { result ≡ min (weights_of (view_values items.now)) u64.MAX }
{
    let mut sum = 0u64;
    for item in items {
        sum = sum.saturating_add(item.weight());
    }
    sum
}

#[cycle(compare)]
fn compare_all(xs: &[Value], ys: &[Value]) -> Ordering
    ensures { result ≡ compare_all_of (view_values xs.now) (view_values ys.now) }
{
    let shared = xs.len().min(ys.len());
    for i in 0..shared {
        let order = xs[i].compare(&ys[i]);
        if order != Ordering::Equal {
            return order;
        }
    }
    xs.len().cmp(&ys.len())
}

/// Equal values, in the same order.
#[cycle(copy)]
pub fn copy_all(alloc: Global, items: &[Value]) -> Result<Seq<Value>, Memory>
    ensures { IfOk result (λ copies. map view_value copies.items ≡ map view_value items.now) }
{
    let mut copies = Seq::make(alloc);
    for item in items {
        copies.add(item.copy(alloc)?)?;
    }
    Ok(copies)
}

#[cycle(depth)]
fn depth_all(items: &[Value]) -> u64
    ensures { result ≡ min (depths_of (view_values items.now)) u64.MAX }
{
    let mut most = 0u64;
    for item in items {
        most = most.max(item.depth());
    }
    most
}
