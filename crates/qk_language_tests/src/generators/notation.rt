//! Generators written as words, each before its parts, so that a table of constants can hold them.

use qk_base::{Memory, Seq};
use qk_core::{Core, Expr, GenExpr, Op2, UserGen, Weighted};
use qk_value::{Kinds, Ty};
use std::alloc::Global;

/// The head of a generator. The words of its parts follow it, in order. Its expressions are numbers and variables.
#[derive(Clone, Copy)]
pub(crate) enum Word {
    Int,
    Bool,
    Size,
    Choose(i64, i64),
    List,
    Vector(i64),
    /// A vector of one item, so deep.
    Nested(u8),
    Pair,
    Elements(&'static [i64]),
    OneOf(u8),
    /// With a generator for each of these weights.
    Frequency(&'static [u32]),
    Resize(i64),
    Bind,
    Pure(i64),
    Var(u32),
    /// A value by that maker of the first user type, with so many parts.
    Make(u32, u8),
    Call(u32, &'static [i64]),
    /// `(div 1 0)`, which crashes: as a pure value, an end, a length, a size and an argument.
    Bad,
    BadChoice,
    BadVector,
    BadSize,
    BadCall(u32),
}

/// The generator that these words spell.
pub(crate) fn generator(alloc: Global, words: &[Word]) -> Result<GenExpr, Memory> {
    let mut parts = Vec::new(alloc);
    for word in words.iter().rev() {
        let made = headed(alloc, *word, &mut parts)?;
        parts.push(made)?;
    }
    next(&mut parts)
}

// The generator of a head, whose parts are the last of these, the first part last. A line of a table that lacks a part makes no
// generator.
fn headed(alloc: Global, word: Word, parts: &mut Vec<GenExpr>) -> Result<GenExpr, Memory> {
    match word {
        Word::Int => Ok(GenExpr::Int),
        Word::Bool => Ok(GenExpr::Bool),
        Word::Size => Ok(GenExpr::Size),
        Word::Choose(lo, hi) => Ok(GenExpr::Choose(Expr::Int(lo), Expr::Int(hi))),
        Word::List => list(alloc, parts),
        Word::Vector(length) => vector(alloc, Expr::Int(length), parts),
        Word::Nested(depth) => nested(alloc, depth, parts),
        Word::Pair => pair(alloc, parts),
        Word::Elements(numbers) => Ok(GenExpr::Elements(exprs(alloc, numbers)?)),
        Word::OneOf(count) => Ok(GenExpr::OneOf(several(alloc, count, parts)?)),
        Word::Frequency(weights) => frequency(alloc, weights, parts),
        Word::Resize(size) => resize(alloc, Expr::Int(size), parts),
        Word::Bind => bind(alloc, parts),
        Word::Pure(number) => Ok(GenExpr::Pure(Expr::Int(number))),
        Word::Var(variable) => Ok(GenExpr::Pure(Expr::Var(variable))),
        Word::Make(maker, count) => making(alloc, maker, count, parts),
        Word::Call(generator, numbers) => calling(alloc, generator, numbers),
        Word::Bad => Ok(GenExpr::Pure(bad(alloc)?)),
        Word::BadChoice => Ok(GenExpr::Choose(Expr::Int(0), bad(alloc)?)),
        Word::BadVector => vector(alloc, bad(alloc)?, parts),
        Word::BadSize => resize(alloc, bad(alloc)?, parts),
        Word::BadCall(generator) => bad_call(alloc, generator),
    }
}

fn next(parts: &mut Vec<GenExpr>) -> Result<GenExpr, Memory> {
    parts.pop().ok_or(Memory)
}

fn boxed(alloc: Global, parts: &mut Vec<GenExpr>) -> Result<Box<GenExpr>, Memory> {
    let part = next(parts)?;
    Ok(Box::new(alloc, part)?)
}

fn several(alloc: Global, count: u8, parts: &mut Vec<GenExpr>) -> Result<Seq<GenExpr>, Memory> {
    let mut all = Seq::make(alloc);
    for _ in 0..count {
        all.add(next(parts)?)?;
    }
    Ok(all)
}

fn list(alloc: Global, parts: &mut Vec<GenExpr>) -> Result<GenExpr, Memory> {
    let item = boxed(alloc, parts)?;
    Ok(GenExpr::List(item))
}

fn vector(alloc: Global, length: Expr, parts: &mut Vec<GenExpr>) -> Result<GenExpr, Memory> {
    let item = boxed(alloc, parts)?;
    Ok(GenExpr::Vector(length, item))
}

fn nested(alloc: Global, depth: u8, parts: &mut Vec<GenExpr>) -> Result<GenExpr, Memory> {
    let mut all = next(parts)?;
    for _ in 0..depth {
        all = GenExpr::Vector(Expr::Int(1), Box::new(alloc, all)?);
    }
    Ok(all)
}

fn pair(alloc: Global, parts: &mut Vec<GenExpr>) -> Result<GenExpr, Memory> {
    let first = boxed(alloc, parts)?;
    let second = boxed(alloc, parts)?;
    Ok(GenExpr::Pair(first, second))
}

fn bind(alloc: Global, parts: &mut Vec<GenExpr>) -> Result<GenExpr, Memory> {
    let first = boxed(alloc, parts)?;
    let body = boxed(alloc, parts)?;
    Ok(GenExpr::Bind(first, body))
}

fn resize(alloc: Global, size: Expr, parts: &mut Vec<GenExpr>) -> Result<GenExpr, Memory> {
    let part = boxed(alloc, parts)?;
    Ok(GenExpr::Resize(size, part))
}

fn frequency(alloc: Global, weights: &[u32], parts: &mut Vec<GenExpr>) -> Result<GenExpr, Memory> {
    let mut all = Seq::make(alloc);
    for weight in weights {
        let body = next(parts)?;
        all.add(Weighted {
            weight: *weight,
            body,
        })?;
    }
    Ok(GenExpr::Frequency(all))
}

fn making(
    alloc: Global,
    maker: u32,
    count: u8,
    parts: &mut Vec<GenExpr>,
) -> Result<GenExpr, Memory> {
    let parts = several(alloc, count, parts)?;
    Ok(GenExpr::Make {
        kind: 0,
        maker,
        parts,
    })
}

fn exprs(alloc: Global, numbers: &[i64]) -> Result<Seq<Expr>, Memory> {
    let mut all = Seq::make(alloc);
    for number in numbers {
        all.add(Expr::Int(*number))?;
    }
    Ok(all)
}

fn calling(alloc: Global, generator: u32, numbers: &[i64]) -> Result<GenExpr, Memory> {
    let args = exprs(alloc, numbers)?;
    Ok(GenExpr::Call { generator, args })
}

fn bad(alloc: Global) -> Result<Expr, Memory> {
    let first = Box::new(alloc, Expr::Int(1))?;
    let second = Box::new(alloc, Expr::Int(0))?;
    Ok(Expr::Binary(Op2::Div, first, second))
}

fn bad_call(alloc: Global, generator: u32) -> Result<GenExpr, Memory> {
    let mut args = Seq::make(alloc);
    args.add(bad(alloc)?)?;
    Ok(GenExpr::Call { generator, args })
}

/// The program whose generators have these bodies. Nothing in drawing looks at its types, which are left out.
pub(crate) fn program(alloc: Global, bodies: &[&[Word]]) -> Result<Core, Memory> {
    let mut generators = Seq::make(alloc);
    for words in bodies {
        generators.add(user(alloc, words)?)?;
    }
    of_generators(alloc, generators)
}

fn user(alloc: Global, words: &[Word]) -> Result<UserGen, Memory> {
    let body = generator(alloc, words)?;
    Ok(UserGen {
        params: Seq::make(alloc),
        result: Ty::Int,
        body,
    })
}

fn of_generators(alloc: Global, generators: Seq<UserGen>) -> Result<Core, Memory> {
    if generators.len() > 100 {
        return Err(Memory);
    }
    let kinds = Kinds {
        kinds: Seq::make(alloc),
    };
    Ok(Core::of_tables(
        kinds,
        Seq::make(alloc),
        generators,
        Seq::make(alloc),
        Seq::make(alloc),
    ))
}
