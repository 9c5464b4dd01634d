//! Lists whose items stand side by side or one by one.

use qk_base::Memory;
use qk_eval::{Items, Shared};
use std::alloc::Global;
use std::cmp::Ordering;
use std::test::Fail;

fn numbers(alloc: Global, all: &[i64]) -> Result<Vec<Shared>, Memory> {
    let mut items = Vec::new(alloc);
    for n in all {
        items.push(Shared::int(*n))?;
    }
    Ok(items)
}

fn side_by_side(alloc: Global, all: &[i64]) -> Result<Shared, Memory> {
    let list = Shared::list(alloc, numbers(alloc, all)?)?;
    Ok(list.unwrap_or(Shared::nil()))
}

fn one_by_one(alloc: Global, all: &[i64]) -> Result<Shared, Memory> {
    let mut list = Shared::nil();
    for i in 0..all.len() {
        let n = all[all.len() - 1 - i];
        list = Shared::cons(alloc, Shared::int(n), list)?.unwrap_or(Shared::nil());
    }
    Ok(list)
}

// 1 to 4 side by side, and 5 and 6 one by one.
fn mixed(alloc: Global) -> Result<Shared, Memory> {
    let rest = one_by_one(alloc, &[5, 6])?;
    let first = side_by_side(alloc, &[1, 2, 3, 4])?;
    let list = Shared::append(alloc, &first, rest)?;
    Ok(list.unwrap_or(Shared::nil()))
}

// An empty list, one of a number, and so on in turn.
fn unlike(alloc: Global) -> Result<Vec<Shared>, Memory> {
    let mut items = Vec::new(alloc);
    for i in 0..5 {
        if i % 2 == 0 {
            items.push(Shared::nil())?;
        } else {
            items.push(one_by_one(alloc, &[7])?)?;
        }
    }
    Ok(items)
}

fn are(items: Items, wanted: &[i64]) -> bool {
    let mut rest = items;
    for n in wanted {
        match rest.next() {
            Some((item, others)) => {
                if item.number() != *n {
                    return false;
                }
                rest = others;
            }
            None => return false,
        }
    }
    rest.next().is_none()
}

// Whether the list behind so many items has these.
fn behind(list: &Shared, many: usize, wanted: &[i64]) -> Result<bool, Memory> {
    if !list.is_list() {
        return Ok(false);
    }
    let rest = list.behind(many)?;
    Ok(are(Items::Of(&rest), wanted) && rest.length() == wanted.len() as i64)
}

fn behind_each(list: &Shared) -> Result<bool, Memory> {
    let all = [1, 2, 3, 4, 5, 6];
    for many in 0..7 {
        if !behind(list, many, &all[many..])? {
            return Ok(false);
        }
    }
    behind(list, 9, &[])
}

// Whether a pattern adds that number and the list of those.
fn binds(alloc: Global, list: &Shared, number: i64, wanted: &[i64]) -> Result<bool, Memory> {
    let mut env = Vec::new(alloc);
    list.bind(&mut env)?;
    match env.as_slice() {
        [first, rest] => Ok(first.number() == number && are(Items::Of(rest), wanted)),
        _ => Ok(false),
    }
}

#[test]
fn items_behind_others(rt: HostRuntime) -> Result<(), Fail> {
    let alloc = rt.alloc();
    assert!(rt; behind_each(&side_by_side(alloc, &[1, 2, 3, 4, 5, 6])?)?);
    assert!(rt; behind_each(&one_by_one(alloc, &[1, 2, 3, 4, 5, 6])?)?);
    assert!(rt; behind_each(&mixed(alloc)?)?);
    Ok(())
}

#[test]
fn items_that_a_pattern_adds(rt: HostRuntime) -> Result<(), Fail> {
    let alloc = rt.alloc();
    let row = side_by_side(alloc, &[1, 2, 3, 4])?;
    assert!(rt; binds(alloc, &row, 1, &[2, 3, 4])?);
    let list = mixed(alloc)?;
    assert!(rt; binds(alloc, &list, 1, &[2, 3, 4, 5, 6])?);
    if list.is_list() {
        assert!(rt; binds(alloc, &list.behind(3)?, 4, &[5, 6])?);
        assert!(rt; binds(alloc, &list.behind(5)?, 6, &[])?);
    }
    Ok(())
}

#[test]
fn lists_that_are_equal(rt: HostRuntime) -> Result<(), Fail> {
    let alloc = rt.alloc();
    let cells = one_by_one(alloc, &[1, 2, 3, 4, 5, 6])?;
    assert!(rt; mixed(alloc)?.compare(&cells) == Ordering::Equal);
    assert!(rt; side_by_side(alloc, &[1, 2, 3, 4, 5, 6])?.compare(&cells) == Ordering::Equal);
    assert!(rt; side_by_side(alloc, &[1, 2, 3, 4, 5])?.compare(&cells) == Ordering::Less);
    assert!(rt; side_by_side(alloc, &[1, 2, 4, 4, 5])?.compare(&cells) == Ordering::Greater);
    let first = Shared::list(alloc, unlike(alloc)?)?.unwrap_or(Shared::nil());
    let second = Shared::list(alloc, unlike(alloc)?)?.unwrap_or(Shared::nil());
    assert!(rt; first.length() == 5 && first.compare(&second) == Ordering::Equal);
    Ok(())
}
