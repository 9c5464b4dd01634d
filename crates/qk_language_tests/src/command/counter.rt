//! A program with counters: how many commands came, and a system that stays at 2.
ghost use Rattle.qk_eval.specs.Answers.{AreSmall};
ghost use Rattle.qk_value.specs.Measures.{IsSmall};
ghost use Rattle.qk_value.specs.View.{view_value};
ghost use Rattle.std.specs.Prelude.{IfOk, map};

use qk_base::{Bytes, Memory, Seq};
use qk_core::{Core, Expr, Function, GenExpr, ModelDef, Op1, Op2, UserGen};
use qk_eval::Shared;
use qk_value::{Kind, Kinds, Maker, Ty, Value};
use std::alloc::Global;

/// `(OP a b)`.
pub(crate) fn binary(alloc: Global, op: Op2, a: Expr, b: Expr) -> Result<Expr, Memory> {
    Ok(Expr::Binary(op, Box::new(alloc, a)?, Box::new(alloc, b)?))
}

// (+ x 1)
fn one_more(alloc: Global) -> Result<Expr, Memory> {
    binary(alloc, Op2::Add, Expr::Var(0), Expr::Int(1))
}

// (if (= x 2) 2 (+ x 1))
fn up_to_two(alloc: Global) -> Result<Expr, Memory> {
    let at_two = binary(alloc, Op2::Equal, Expr::Var(0), Expr::Int(2))?;
    let more = one_more(alloc)?;
    let two = Box::new(alloc, Expr::Int(2))?;
    Ok(Expr::If(Box::new(alloc, at_two)?, two, Box::new(alloc, more)?))
}

// A precondition, the next state, the system's step, a postcondition, and a precondition that is false from 2 on.
fn body(alloc: Global, function: u32) -> Result<Expr, Memory> {
    match function {
        0 => Ok(Expr::Bool(true)),
        1 => one_more(alloc),
        2 => up_to_two(alloc),
        3 => binary(alloc, Op2::Equal, Expr::Var(0), Expr::Var(2)),
        _ => binary(alloc, Op2::Less, Expr::Var(0), Expr::Int(2)),
    }
}

fn functions(alloc: Global) -> Result<Seq<Function>, Memory> {
    let mut all = Seq::make(alloc);
    for function in 0..5 {
        let body = body(alloc, function)?;
        all.add(Function {
            params: Seq::make(alloc),
            result: Ty::Int,
            body,
        })?;
    }
    Ok(all)
}

fn model(init: Expr, pre: u32, start: Expr) -> ModelDef {
    ModelDef {
        command: Ty::Int,
        maker: 0,
        abstract_ty: Ty::Int,
        init,
        pre,
        next: 1,
        system_ty: Ty::Int,
        start,
        step: 2,
        post: 3,
    }
}

// A counter, one that takes two commands, one whose first state is no number, and one whose system has none.
fn models(alloc: Global) -> Result<Seq<ModelDef>, Memory> {
    let mut all = Seq::make(alloc);
    all.add(model(Expr::Int(0), 0, Expr::Int(0)))?;
    all.add(model(Expr::Int(0), 4, Expr::Int(0)))?;
    let too_great = Expr::Unary(Op1::Neg, Box::new(alloc, Expr::Int(i64::MIN))?);
    all.add(model(too_great, 0, Expr::Int(0)))?;
    let divided = binary(alloc, Op2::Div, Expr::Int(1), Expr::Int(0))?;
    all.add(model(Expr::Int(0), 0, divided))?;
    Ok(all)
}

// (Inc)
fn generators(alloc: Global) -> Result<Seq<UserGen>, Memory> {
    let mut all = Seq::make(alloc);
    all.add(UserGen {
        params: Seq::make(alloc),
        result: Ty::Int,
        body: GenExpr::Make {
            kind: 0,
            maker: 0,
            parts: Seq::make(alloc),
        },
    })?;
    Ok(all)
}

/// These bytes.
pub(crate) fn text(alloc: Global, bytes: &[u8]) -> Result<Bytes, Memory> {
    let mut text = Bytes::make(alloc);
    text.append(bytes)?;
    Ok(text)
}

// (type Command (Inc))
fn kinds(alloc: Global) -> Result<Kinds, Memory> {
    let mut makers = Seq::make(alloc);
    makers.add(Maker {
        name: text(alloc, b"Inc")?,
        fields: Seq::make(alloc),
    })?;
    let mut kinds = Seq::make(alloc);
    kinds.add(Kind {
        name: text(alloc, b"Command")?,
        makers,
    })?;
    Ok(Kinds { kinds })
}

/// The program.
pub(crate) fn program(alloc: Global) -> Result<Core, Memory> {
    let kinds = kinds(alloc)?;
    let functions = functions(alloc)?;
    let generators = generators(alloc)?;
    let models = models(alloc)?;
    if functions.len() > 9 || generators.len() > 9 || models.len() > 9 {
        return Err(Memory);
    }
    Ok(Core::of_tables(kinds, functions, generators, models, Seq::make(alloc)))
}

/// So many commands.
pub(crate) fn commands(alloc: Global, count: u32) -> Result<Value, Memory>
    ensures { IfOk result (λ value. IsSmall (view_value value)) }
{
    let mut all = Vec::new(alloc);
    for _ in 0..count {
        let command = Shared::made(alloc, 0, 0, Vec::new(alloc))?;
        all.push(command.map_err(|_| Memory)?)?;
    }
    let list = Shared::list(alloc, all)?;
    let list = list.map_err(|_| Memory)?;
    list.is_small();
    list.to_value(alloc)
}

/// A list of so many commands alone.
pub(crate) fn only_commands(alloc: Global, count: u32) -> Result<Seq<Value>, Memory>
    ensures { IfOk result (λ values. AreSmall (map view_value values.items)) }
{
    let commands = commands(alloc, count)?;
    let mut values = Seq::make(alloc);
    values.add(commands)?;
    Ok(values)
}
