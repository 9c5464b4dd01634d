//! Expressions written as words, each before its parts, so that a table of constants can hold them.

use qk_base::{Memory, Seq};
use qk_core::{Case, Core, Expr, Function, Op1, Op2, Pattern};
use qk_value::{Kinds, Ty};
use std::alloc::Global;

/// The head of an expression. The words of its parts follow it, in order.
#[derive(Clone, Copy)]
pub(crate) enum Word {
    Int(i64),
    Bool(bool),
    Var(u32),
    Nil,
    /// A list of these numbers.
    List(&'static [i64]),
    /// `(div 1 0)`, which crashes.
    Bad,
    If,
    Let,
    One(Op1),
    Two(Op2),
    /// A match with a case for each of these patterns: the value, and the body of each case.
    Match(Pattern, Pattern),
    /// A value by that maker of the first user type, with so many parts.
    Make(u32, u8),
    /// A call of that function, with so many arguments.
    Call(u32, u8),
}

/// The expression that these words spell.
pub(crate) fn expression(alloc: Global, words: &[Word]) -> Result<Expr, Memory> {
    let mut parts = Vec::new(alloc);
    for word in words.iter().rev() {
        let expr = headed(alloc, *word, &mut parts)?;
        parts.push(expr)?;
    }
    next(&mut parts)
}

// The expression of a head, whose parts are the last of these, the first part last. A line of a table that lacks a part makes
// no expression.
fn headed(alloc: Global, word: Word, parts: &mut Vec<Expr>) -> Result<Expr, Memory> {
    match word {
        Word::Int(n) => Ok(Expr::Int(n)),
        Word::Bool(b) => Ok(Expr::Bool(b)),
        Word::Var(x) => Ok(Expr::Var(x)),
        Word::Nil => Ok(Expr::Nil(Ty::Int)),
        Word::List(numbers) => list(alloc, numbers),
        Word::Bad => binary(alloc, Op2::Div, &mut zero_divisor(alloc)?),
        Word::If => choice(alloc, parts),
        Word::Let => binding(alloc, parts),
        Word::One(op) => unary(alloc, op, parts),
        Word::Two(op) => binary(alloc, op, parts),
        Word::Match(first, second) => matching(alloc, first, second, parts),
        Word::Make(maker, count) => making(alloc, maker, count, parts),
        Word::Call(function, count) => calling(alloc, function, count, parts),
    }
}

fn next(parts: &mut Vec<Expr>) -> Result<Expr, Memory> {
    parts.pop().ok_or(Memory)
}

fn boxed(alloc: Global, parts: &mut Vec<Expr>) -> Result<Box<Expr>, Memory> {
    let part = next(parts)?;
    Ok(Box::new(alloc, part)?)
}

fn several(alloc: Global, count: u8, parts: &mut Vec<Expr>) -> Result<Seq<Expr>, Memory> {
    let mut all = Seq::make(alloc);
    for _ in 0..count {
        all.add(next(parts)?)?;
    }
    Ok(all)
}

fn list(alloc: Global, numbers: &[i64]) -> Result<Expr, Memory> {
    let mut all = Expr::Nil(Ty::Int);
    for number in numbers.iter().rev() {
        let first = Box::new(alloc, Expr::Int(*number))?;
        all = Expr::Binary(Op2::Cons, first, Box::new(alloc, all)?);
    }
    Ok(all)
}

fn zero_divisor(alloc: Global) -> Result<Vec<Expr>, Memory> {
    let mut parts = Vec::new(alloc);
    parts.push(Expr::Int(0))?;
    parts.push(Expr::Int(1))?;
    Ok(parts)
}

fn choice(alloc: Global, parts: &mut Vec<Expr>) -> Result<Expr, Memory> {
    let test = boxed(alloc, parts)?;
    let first = boxed(alloc, parts)?;
    let second = boxed(alloc, parts)?;
    Ok(Expr::If(test, first, second))
}

fn binding(alloc: Global, parts: &mut Vec<Expr>) -> Result<Expr, Memory> {
    let bound = boxed(alloc, parts)?;
    let body = boxed(alloc, parts)?;
    Ok(Expr::Let(bound, body))
}

fn unary(alloc: Global, op: Op1, parts: &mut Vec<Expr>) -> Result<Expr, Memory> {
    let part = boxed(alloc, parts)?;
    Ok(Expr::Unary(op, part))
}

fn binary(alloc: Global, op: Op2, parts: &mut Vec<Expr>) -> Result<Expr, Memory> {
    let first = boxed(alloc, parts)?;
    let second = boxed(alloc, parts)?;
    Ok(Expr::Binary(op, first, second))
}

fn matching(
    alloc: Global,
    first: Pattern,
    second: Pattern,
    parts: &mut Vec<Expr>,
) -> Result<Expr, Memory> {
    let matched = boxed(alloc, parts)?;
    let mut cases = Seq::make(alloc);
    add_case(&mut cases, first, parts)?;
    add_case(&mut cases, second, parts)?;
    Ok(Expr::Match(matched, cases))
}

fn add_case(cases: &mut Seq<Case>, pattern: Pattern, parts: &mut Vec<Expr>) -> Result<(), Memory> {
    let body = next(parts)?;
    cases.add(Case { pattern, body })
}

fn making(alloc: Global, maker: u32, count: u8, parts: &mut Vec<Expr>) -> Result<Expr, Memory> {
    let parts = several(alloc, count, parts)?;
    Ok(Expr::Make {
        kind: 0,
        maker,
        parts,
    })
}

fn calling(alloc: Global, function: u32, count: u8, parts: &mut Vec<Expr>) -> Result<Expr, Memory> {
    let args = several(alloc, count, parts)?;
    Ok(Expr::Call { function, args })
}

/// The program whose functions have these bodies. Nothing in evaluation looks at its types, which are left out.
pub(crate) fn program(alloc: Global, bodies: &[&[Word]]) -> Result<Core, Memory> {
    let mut functions = Seq::make(alloc);
    for words in bodies {
        functions.add(function(alloc, words)?)?;
    }
    of_functions(alloc, functions)
}

fn function(alloc: Global, words: &[Word]) -> Result<Function, Memory> {
    let body = expression(alloc, words)?;
    Ok(Function {
        params: Seq::make(alloc),
        result: Ty::Int,
        body,
    })
}

fn of_functions(alloc: Global, functions: Seq<Function>) -> Result<Core, Memory> {
    if functions.len() > 100 {
        return Err(Memory);
    }
    let kinds = Kinds {
        kinds: Seq::make(alloc),
    };
    Ok(Core::of_tables(
        kinds,
        functions,
        Seq::make(alloc),
        Seq::make(alloc),
        Seq::make(alloc),
    ))
}
