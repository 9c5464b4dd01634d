//! The candidates of one value.
ghost use Rattle.std.specs.Prelude.{IsTrue};
ghost use Rattle.qk_value.specs.Measures.{IsSmall};
ghost use Rattle.qk_value.specs.View.{view_value};

use qk_base::{Bytes, Memory, Seq};
use qk_shrink::{value_candidate, value_count};
use qk_value::{Kind, Kinds, Maker, Ty, Value};
use std::alloc::Global;
use std::test::Fail;

fn maker(alloc: Global, name: &str) -> Result<Maker, Memory> {
    let mut letters = Bytes::make(alloc);
    letters.append(name.as_bytes())?;
    Ok(Maker {
        name: letters,
        fields: Seq::make(alloc),
    })
}

// (data Tree (Leaf) (Node Int Tree Tree (List Tree)))
pub(crate) fn trees(alloc: Global) -> Result<Kinds, Memory> {
    let mut makers = Seq::make(alloc);
    makers.add(maker(alloc, "Leaf")?)?;
    let mut node = maker(alloc, "Node")?;
    node.fields.add(Ty::Int)?;
    node.fields.add(Ty::Made(0))?;
    node.fields.add(Ty::Made(0))?;
    node.fields.add(Ty::List(Box::new(alloc, Ty::Made(0))?))?;
    makers.add(node)?;
    let mut name = Bytes::make(alloc);
    name.append(b"Tree")?;
    let mut kinds = Seq::make(alloc);
    kinds.add(Kind { name, makers })?;
    Ok(Kinds { kinds })
}

fn list(alloc: Global, numbers: &[i64]) -> Result<Value, Memory> {
    let mut items = Seq::make(alloc);
    for number in numbers {
        items.add(Value::Int(*number))?;
    }
    Ok(Value::List(items))
}

fn zeros(alloc: Global, many: usize) -> Result<Value, Memory> {
    let mut items = Seq::make(alloc);
    for _ in 0..many {
        items.add(Value::Int(0))?;
    }
    Ok(Value::List(items))
}

fn leaf(alloc: Global) -> Value {
    Value::Made {
        kind: 0,
        maker: 0,
        parts: Seq::make(alloc),
    }
}

fn node(
    alloc: Global,
    number: i64,
    left: Value,
    right: Value,
    others: Seq<Value>,
) -> Result<Value, Memory> {
    let mut parts = Seq::make(alloc);
    parts.add(Value::Int(number))?;
    parts.add(left)?;
    parts.add(right)?;
    parts.add(Value::List(others))?;
    Ok(Value::Made {
        kind: 0,
        maker: 1,
        parts,
    })
}

fn small_tree(alloc: Global) -> Result<Value, Memory> {
    let low = node(alloc, 0, leaf(alloc), leaf(alloc), Seq::make(alloc))?;
    let mut others = Seq::make(alloc);
    others.add(leaf(alloc))?;
    node(alloc, 1, leaf(alloc), low, others)
}

fn pair(alloc: Global, first: Value, second: Value) -> Result<Value, Memory> {
    let first = Box::new(alloc, first)?;
    Ok(Value::Pair(first, Box::new(alloc, second)?))
}

fn lists(alloc: Global) -> Result<Ty, Memory> {
    Ok(Ty::List(Box::new(alloc, Ty::Int)?))
}

fn pairs(alloc: Global) -> Result<Ty, Memory> {
    let first = Box::new(alloc, Ty::Int)?;
    Ok(Ty::Pair(first, Box::new(alloc, Ty::Bool)?))
}

// a type and a value, by number
fn example(alloc: Global, number: u8) -> Result<(Ty, Value), Memory> {
    match number {
        0 => Ok((Ty::Int, Value::Int(0))),
        1 => Ok((Ty::Int, Value::Int(8))),
        2 => Ok((Ty::Int, Value::Int(-8))),
        3 => Ok((Ty::Int, Value::Int(-1))),
        4 => Ok((Ty::Bool, Value::Bool(true))),
        5 => Ok((Ty::Bool, Value::Bool(false))),
        6 => Ok((lists(alloc)?, list(alloc, &[])?)),
        7 => Ok((lists(alloc)?, list(alloc, &[3, 3, 3])?)),
        8 => Ok((lists(alloc)?, list(alloc, &[0, 3])?)),
        9 => Ok((lists(alloc)?, list(alloc, &[1, 2, 3, 4, 5])?)),
        10 => Ok((
            pairs(alloc)?,
            pair(alloc, Value::Int(3), Value::Bool(true))?,
        )),
        11 => Ok((Ty::Made(0), leaf(alloc))),
        12 => Ok((Ty::Made(0), small_tree(alloc)?)),
        _ => Ok((Ty::Bool, Value::Int(8))),
    }
}

// an example and its candidates
const WANTED: [(u8, &str); 14] = [
    (0, ""),
    (1, "0 4 6 7 "),
    (2, "8 0 -4 -6 -7 "),
    (3, "1 0 "),
    (4, "false "),
    (5, ""),
    (6, ""),
    (
        7,
        "[] [3, 3] [3, 3] [3, 3] [0, 3, 3] [2, 3, 3] [3, 0, 3] [3, 2, 3] [3, 3, 0] [3, 3, 2] ",
    ),
    (8, "[] [3] [0] [0, 0] [0, 2] "),
    (
        9,
        "[] [3, 4, 5] [1, 2, 5] [2, 3, 4, 5] [1, 3, 4, 5] [1, 2, 4, 5] [1, 2, 3, 5] [1, 2, 3, 4] [0, 2, 3, 4, 5] [1, 0, 3, 4, 5] [1, 1, 3, 4, 5] [1, 2, 0, 4, 5] [1, 2, 2, 4, 5] [1, 2, 3, 0, 5] [1, 2, 3, 2, 5] [1, 2, 3, 3, 5] [1, 2, 3, 4, 0] [1, 2, 3, 4, 3] [1, 2, 3, 4, 4] ",
    ),
    (10, "(0, true) (2, true) (3, false) "),
    (11, ""),
    (
        12,
        "Leaf (Node 0 Leaf Leaf []) (Node 0 Leaf (Node 0 Leaf Leaf []) [Leaf]) (Node 1 Leaf Leaf [Leaf]) (Node 1 Leaf Leaf [Leaf]) (Node 1 Leaf (Node 0 Leaf Leaf []) []) ",
    ),
    (13, ""),
];

fn is_small(value: &Value) -> bool
    ensures { IsTrue result → IsSmall (view_value value.now) }
{
    value.weight() <= 65_536 && value.depth() <= 200
}

// the texts of all candidates
fn all(alloc: Global, kinds: &Kinds, ty: &Ty, value: &Value) -> Result<Bytes, Memory> {
    let mut text = Bytes::make(alloc);
    if !is_small(value) {
        return Ok(text);
    }
    for k in 0..value_count(kinds, ty, value) {
        let candidate = value_candidate(alloc, kinds, ty, value, k)?;
        text.append(candidate.print(alloc, kinds)?.as_slice())?;
        text.append(b" ")?;
    }
    Ok(text)
}

#[test]
fn shrinks_each_form(rt: HostRuntime) -> Result<(), Fail> {
    let kinds = trees(rt.alloc())?;
    for (number, wanted) in WANTED {
        let (ty, value) = example(rt.alloc(), number)?;
        let text = all(rt.alloc(), &kinds, &ty, &value)?;
        assert_eq!(rt; text.as_slice(), wanted.as_bytes());
    }
    Ok(())
}

fn count(kinds: &Kinds, ty: &Ty, value: &Value) -> u64 {
    if is_small(value) {
        value_count(kinds, ty, value)
    } else {
        0
    }
}

// a number, how many candidates it has, and the first
const ENDS: [(i64, u64, i64); 4] = [
    (i64::MIN, 64, 0),
    (i64::MIN + 1, 64, i64::MAX),
    (i64::MAX, 63, 0),
    (1, 1, 0),
];

#[test]
fn shrinks_the_ends(rt: HostRuntime) -> Result<(), Fail> {
    let kinds = trees(rt.alloc())?;
    for (number, wanted, first) in ENDS {
        let value = Value::Int(number);
        let many = count(&kinds, &Ty::Int, &value);
        assert_eq!(rt; many, wanted);
        let candidate = first_of(rt.alloc(), &kinds, &value)?;
        assert!(rt; candidate.equal(&Value::Int(first)));
    }
    Ok(())
}

fn first_of(alloc: Global, kinds: &Kinds, value: &Value) -> Result<Value, Memory> {
    if is_small(value) && value_count(kinds, &Ty::Int, value) > 0 {
        return value_candidate(alloc, kinds, &Ty::Int, value, 0);
    }
    value.copy(alloc)
}

#[test]
fn counts_a_long_list(rt: HostRuntime) -> Result<(), Fail> {
    let kinds = trees(rt.alloc())?;
    let value = zeros(rt.alloc(), 10_000)?;
    let many = count(&kinds, &lists(rt.alloc())?, &value);
    assert_eq!(rt; many, 19_648);
    Ok(())
}

// the number of a candidate of 10,000 zeros, and how many items the candidate has
const LONG: [(u64, i64); 5] = [
    (0, 0),
    (1, 5_000),
    (3, 7_500),
    (19_647, 9_999),
    (9_649, 9_999),
];

// how many items the candidate with that number has, -1 where there is none
fn length_of(alloc: Global, kinds: &Kinds, ty: &Ty, value: &Value, k: u64) -> Result<i64, Memory> {
    if !is_small(value) || k >= value_count(kinds, ty, value) {
        return Ok(-1);
    }
    match value_candidate(alloc, kinds, ty, value, k)? {
        Value::List(items) => Ok(items.len() as i64),
        _ => Ok(-1),
    }
}

#[test]
fn finds_candidates_of_a_long_list(rt: HostRuntime) -> Result<(), Fail> {
    let kinds = trees(rt.alloc())?;
    let ty = lists(rt.alloc())?;
    let value = zeros(rt.alloc(), 10_000)?;
    for (k, wanted) in LONG {
        let many = length_of(rt.alloc(), &kinds, &ty, &value, k)?;
        assert_eq!(rt; many, wanted);
    }
    assert_eq!(rt; length_of(rt.alloc(), &kinds, &ty, &value, 19_648)?, -1);
    Ok(())
}
