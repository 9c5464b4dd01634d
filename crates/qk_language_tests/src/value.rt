//! Worked examples, and each call that allocates with ample memory.

use qk_base::{Bytes, Memory, Seq};
use qk_value::{Kind, Kinds, Maker, Ty, Value};
use std::alloc::Global;
use std::cmp::Ordering;
use std::process::Abort;
use std::test::Fail;

fn name(alloc: Global, text: &str) -> Result<Bytes, Memory> {
    let mut name = Bytes::make(alloc);
    name.append(text.as_bytes())?;
    Ok(name)
}

fn maker(alloc: Global, text: &str, fields: Seq<Ty>) -> Result<Maker, Memory> {
    Ok(Maker {
        name: name(alloc, text)?,
        fields,
    })
}

// (type Tree (Leaf) (Node Int Tree))
fn trees(alloc: Global) -> Result<Kinds, Memory> {
    let mut fields = Seq::make(alloc);
    fields.add(Ty::Int)?;
    fields.add(Ty::Made(0))?;
    let mut makers = Seq::make(alloc);
    makers.add(maker(alloc, "Leaf", Seq::make(alloc))?)?;
    makers.add(maker(alloc, "Node", fields)?)?;
    let mut kinds = Seq::make(alloc);
    kinds.add(Kind {
        name: name(alloc, "Tree")?,
        makers,
    })?;
    Ok(Kinds { kinds })
}

fn two(alloc: Global, first: Value, second: Value) -> Result<Seq<Value>, Memory> {
    let mut parts = Seq::make(alloc);
    parts.add(first)?;
    parts.add(second)?;
    Ok(parts)
}

fn list(alloc: Global, first: Value, second: Value) -> Result<Value, Memory> {
    Ok(Value::List(two(alloc, first, second)?))
}

fn pair(alloc: Global, first: Value, second: Value) -> Result<Value, Memory> {
    Ok(Value::Pair(Box::new(alloc, first)?, Box::new(alloc, second)?))
}

fn node(alloc: Global, first: Value, second: Value) -> Result<Value, Memory> {
    Ok(Value::Made {
        kind: 0,
        maker: 1,
        parts: two(alloc, first, second)?,
    })
}

fn leaf(alloc: Global) -> Value {
    Value::Made {
        kind: 0,
        maker: 0,
        parts: Seq::make(alloc),
    }
}

fn tall(alloc: Global) -> Result<Value, Memory> {
    let low = node(alloc, Value::Int(-7), leaf(alloc))?;
    node(alloc, Value::Int(1), low)
}

fn nested(alloc: Global) -> Result<Value, Memory> {
    let full = list(alloc, Value::Int(1), Value::Int(2))?;
    list(alloc, Value::List(Seq::make(alloc)), full)
}

// the values that the tables name by number
fn example(alloc: Global, number: u8) -> Result<Value, Memory> {
    match number {
        0 => Ok(Value::Int(i64::MIN)),
        1 => Ok(Value::Int(1)),
        2 => Ok(Value::Int(2)),
        3 => Ok(Value::Bool(false)),
        4 => Ok(Value::Bool(true)),
        5 => Ok(Value::List(Seq::make(alloc))),
        6 => list(alloc, Value::Int(1), Value::Int(2)),
        7 => list(alloc, Value::Int(2), Value::Int(-5)),
        8 => list(alloc, Value::Int(1), Value::Bool(true)),
        9 => pair(alloc, Value::Int(1), Value::Int(2)),
        10 => pair(alloc, Value::Int(1), Value::Bool(true)),
        11 => Ok(leaf(alloc)),
        12 => node(alloc, Value::Int(-7), leaf(alloc)),
        13 => node(alloc, Value::Int(-7), Value::Int(2)),
        14 => tall(alloc),
        _ => nested(alloc),
    }
}

// a value, its text, weight and depth
const TEXTS: [(u8, &str, u64, u64); 8] = [
    (0, "-9223372036854775808", 1, 1),
    (4, "true", 1, 1),
    (5, "[]", 1, 1),
    (6, "[1, 2]", 3, 2),
    (9, "(1, 2)", 3, 2),
    (11, "Leaf", 1, 1),
    (14, "(Node 1 (Node -7 Leaf))", 5, 3),
    (15, "[[], [1, 2]]", 5, 3),
];

#[test]
fn prints(rt: HostRuntime) -> Result<(), Fail> {
    let kinds = trees(rt.alloc())?;
    for (number, text, weight, depth) in TEXTS {
        let value = example(rt.alloc(), number)?.copy(rt.alloc())?;
        assert_eq!(rt; value.weight(), weight);
        assert_eq!(rt; value.depth(), depth);
        let printed = value.print(rt.alloc(), &kinds)?;
        assert_eq!(rt; printed.as_slice(), text.as_bytes());
    }
    Ok(())
}

// the first value comes before the second
const ORDER: [(u8, u8); 8] = [
    (0, 1),
    (1, 2),
    (3, 4),
    (5, 6),
    (6, 7),
    (11, 12),
    (12, 14),
    (5, 15),
];

fn rise<R: Abort>(rt: &R, less: &Value, more: &Value) {
    assert_eq!(rt; less.compare(more), Ordering::Less);
    assert_eq!(rt; more.compare(less), Ordering::Greater);
    assert!(rt; less.equal(less));
    assert!(rt; !less.equal(more));
}

#[test]
fn orders(rt: HostRuntime) -> Result<(), Fail> {
    for (less, more) in ORDER {
        rise(
            &rt,
            &example(rt.alloc(), less)?,
            &example(rt.alloc(), more)?,
        );
    }
    Ok(())
}

// the types that the table names by number
fn ty(alloc: Global, number: u8) -> Result<Ty, Memory> {
    match number {
        0 => Ok(Ty::Int),
        1 => Ok(Ty::Bool),
        2 => Ok(Ty::List(Box::new(alloc, Ty::Int)?)),
        3 => {
            let second = Box::new(alloc, Ty::Bool)?;
            Ok(Ty::Pair(Box::new(alloc, Ty::Int)?, second))
        }
        4 => Ok(Ty::Made(0)),
        _ => Ok(Ty::Made(1)),
    }
}

// a value, and the type that it has, if one of these types
const TYPES: [(u8, u8); 12] = [
    (1, 0),
    (3, 1),
    (5, 2),
    (6, 2),
    (8, 6),
    (9, 6),
    (10, 3),
    (11, 4),
    (12, 4),
    (13, 6),
    (14, 4),
    (15, 6),
];

#[test]
fn has_types(rt: HostRuntime) -> Result<(), Fail> {
    let kinds = trees(rt.alloc())?;
    for (number, wanted) in TYPES {
        let value = example(rt.alloc(), number)?;
        for other in 0..6u8 {
            let ty = ty(rt.alloc(), other)?.copy(rt.alloc())?;
            assert_eq!(rt; value.has_type(&kinds, &ty), other == wanted);
        }
    }
    Ok(())
}

#[test]
fn types_are_equal(rt: HostRuntime) -> Result<(), Fail> {
    for one in 0..6u8 {
        for other in 0..6u8 {
            let (first, second) = (ty(rt.alloc(), one)?, ty(rt.alloc(), other)?);
            assert_eq!(rt; first.equal(&second), one == other);
        }
    }
    Ok(())
}

fn shared<T: Send + Sync>(_: &T) {}

#[test]
fn crosses_threads(rt: HostRuntime) -> Result<(), Fail> {
    shared(&trees(rt.alloc())?);
    shared(&Value::Int(0));
    Ok(())
}
