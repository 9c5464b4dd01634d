//! What shared values are told to be made of.

use qk_base::{Cause, Memory};
use qk_eval::{Form, Items, Shared};
use std::alloc::Global;
use std::test::Fail;

// A number for each form, and what is told of the parts of a list, a pair and a made value.
fn told(value: &Shared) -> (i64, i64, i64) {
    match value.form() {
        Form::Int(_) => (1, 0, 0),
        Form::Bool(_) => (2, 0, 0),
        Form::List(items) => told_list(items),
        Form::Pair(first, second) => (5, part(first), part(second)),
        Form::Made {
            kind: 2,
            maker: 3,
            parts: [first, second],
        } => (6, part(first), part(second)),
        Form::Made { .. } => (7, 0, 0),
    }
}

fn part(value: &Shared) -> i64 {
    match value.form() {
        Form::Int(_) => 1,
        Form::Bool(_) => 2,
        Form::List(items) => if items.next().is_none() { 3 } else { 4 },
        _ => 5,
    }
}

fn told_list(items: Items) -> (i64, i64, i64) {
    match items.next() {
        None => (3, 0, 0),
        Some((first, others)) => {
            let more = if others.next().is_none() { 3 } else { 4 };
            (4, part(first), more)
        }
    }
}

fn told_of(value: &Result<Shared, Cause>) -> Option<(i64, i64, i64)> {
    match value {
        Ok(value) => Some(told(value)),
        Err(_) => None,
    }
}

fn made(alloc: Global) -> Result<Result<Shared, Cause>, Memory> {
    let mut parts = Vec::new(alloc);
    parts.push(Shared::nil())?;
    parts.push(Shared::int(7))?;
    Shared::made(alloc, 2, 3, parts)
}

#[test]
fn forms_of_shared_values(rt: HostRuntime) -> Result<(), Fail> {
    let alloc = rt.alloc();
    assert_eq!(rt; told(&Shared::int(7)), (1, 0, 0));
    assert_eq!(rt; told(&Shared::truth(true)), (2, 0, 0));
    assert_eq!(rt; told(&Shared::nil()), (3, 0, 0));
    let list = Shared::cons(alloc, Shared::int(7), Shared::nil())?;
    assert_eq!(rt; told_of(&list), Some((4, 1, 3)));
    let pair = Shared::pair(alloc, Shared::truth(true), Shared::nil())?;
    assert_eq!(rt; told_of(&pair), Some((5, 2, 3)));
    assert_eq!(rt; told_of(&made(alloc)?), Some((6, 3, 1)));
    Ok(())
}
