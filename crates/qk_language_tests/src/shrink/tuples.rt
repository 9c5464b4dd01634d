//! The candidates of several values.
ghost use Rattle.std.specs.Prelude.{◌≡◌, ◌∷◌, [], IfOk, map};
ghost use Rattle.qk_value.specs.View.{view_value};
ghost use Rattle.qk_eval.specs.Answers.{AreSmall};

use crate::shrink::values::trees;
use qk_base::{Bytes, Memory, Seq};
use qk_core::{Binder, Core, Draw, Expr, Function, GenExpr, Op2, ShrinkBy};
use qk_eval::{plain_all, shared_all};
use qk_shrink::Spread;
use qk_value::{Ty, Value};
use std::alloc::Global;
use std::test::Fail;

fn numbers(alloc: Global) -> Result<Ty, Memory> {
    Ok(Ty::List(Box::new(alloc, Ty::Int)?))
}

fn one_number(alloc: Global, body: Expr) -> Result<Function, Memory> {
    let mut params = Seq::make(alloc);
    params.add(Ty::Int)?;
    Ok(Function {
        params,
        result: numbers(alloc)?,
        body,
    })
}

// (cons (- x 1) (nil Int))
fn less(alloc: Global) -> Result<Expr, Memory> {
    let number = Box::new(alloc, Expr::Var(0))?;
    let next = Expr::Binary(Op2::Sub, number, Box::new(alloc, Expr::Int(1))?);
    let first = Box::new(alloc, next)?;
    Ok(Expr::Binary(Op2::Cons, first, Box::new(alloc, Expr::Nil(Ty::Int))?))
}

// function 0 lists the number less 1, function 1 calls itself
fn core(alloc: Global) -> Result<Core, Memory> {
    let mut functions = Seq::make(alloc);
    functions.add(one_number(alloc, less(alloc)?)?)?;
    let mut args = Seq::make(alloc);
    args.add(Expr::Var(0))?;
    let again = Expr::Call { function: 1, args };
    functions.add(one_number(alloc, again)?)?;
    Ok(Core::of_tables(
        trees(alloc)?,
        functions,
        Seq::make(alloc),
        Seq::make(alloc),
        Seq::make(alloc),
    ))
}

fn binder(alloc: Global, ty: Ty, shrink: ShrinkBy) -> Binder {
    Binder {
        name: Bytes::make(alloc),
        ty,
        draw: Draw::Plain(GenExpr::Int),
        shrink,
    }
}

fn binders(alloc: Global, first: ShrinkBy, second: ShrinkBy) -> Result<Seq<Binder>, Memory> {
    let mut all = Seq::make(alloc);
    all.add(binder(alloc, Ty::Int, first))?;
    all.add(binder(alloc, Ty::Bool, second))?;
    Ok(all)
}

fn pair_of_values(alloc: Global, number: i64) -> Result<Seq<Value>, Memory>
    ensures { IfOk result (λ values. AreSmall (map view_value values.items)) }
{
    let mut all = Seq::make(alloc);
    all.add(Value::Int(number))?;
    all.add(Value::Bool(true))?;
    Ok(all)
}

fn put(alloc: Global, core: &Core, values: &Seq<Value>, text: &mut Bytes) -> Result<(), Memory> {
    for value in values.as_slice() {
        text.append(value.print(alloc, core.kinds())?.as_slice())?;
        text.append(b" ")?;
    }
    text.append(b"/ ")
}

// the texts of all candidates
fn all(
    alloc: Global,
    core: &Core,
    binders: &Seq<Binder>,
    values: &Seq<Value>,
) -> Result<Bytes, Memory>
    requires { AreSmall (map view_value values.now.items) }
{
    let mut text = Bytes::make(alloc);
    let spread = Spread::make(alloc, core, binders, values, 1000)?;
    for k in 0..spread.count() {
        let others = spread.candidate(alloc, values, k)?;
        put(alloc, core, &others, &mut text)?;
    }
    Ok(text)
}

// the same of shared values
fn all_shared(
    alloc: Global,
    core: &Core,
    binders: &Seq<Binder>,
    values: &Seq<Value>,
) -> Result<Bytes, Memory>
    requires { AreSmall (map view_value values.now.items) }
{
    let mut text = Bytes::make(alloc);
    let shared = shared_all(alloc, values.as_slice())?;
    let spread = Spread::make_shared(alloc, core, binders, &shared, 1000)?;
    for k in 0..spread.count() {
        let others = spread.candidate_shared(alloc, &shared, k)?;
        put(alloc, core, &plain_all(alloc, &others)?, &mut text)?;
    }
    Ok(text)
}

// how a number and a truth value are shrunk, the number, and the candidates
const WANTED: [(ShrinkBy, ShrinkBy, i64, &str); 6] = [
    (
        ShrinkBy::Builtin,
        ShrinkBy::Builtin,
        3,
        "0 true / 2 true / 3 false / ",
    ),
    (ShrinkBy::Nothing, ShrinkBy::Builtin, 3, "3 false / "),
    (
        ShrinkBy::Builtin,
        ShrinkBy::Nothing,
        3,
        "0 true / 2 true / ",
    ),
    (ShrinkBy::Function(0), ShrinkBy::Nothing, 8, "7 true / "),
    (
        ShrinkBy::Function(0),
        ShrinkBy::Builtin,
        -8,
        "-9 true / -8 false / ",
    ),
    (ShrinkBy::Function(1), ShrinkBy::Builtin, 3, "3 false / "),
];

#[test]
fn shrinks_binder_after_binder(rt: HostRuntime) -> Result<(), Fail> {
    let core = core(rt.alloc())?;
    for (first, second, number, wanted) in WANTED {
        let binders = binders(rt.alloc(), first, second)?;
        let values = pair_of_values(rt.alloc(), number)?;
        let text = all(rt.alloc(), &core, &binders, &values)?;
        assert_eq!(rt; text.as_slice(), wanted.as_bytes());
        let shared = all_shared(rt.alloc(), &core, &binders, &values)?;
        assert_eq!(rt; shared.as_slice(), wanted.as_bytes());
    }
    Ok(())
}

fn shared<T: Send + Sync>(_: &T) {}

fn crosses(spread: &Spread) {
    shared(spread)
}

#[test]
fn crosses_threads(rt: HostRuntime) -> Result<(), Fail> {
    let core = core(rt.alloc())?;
    let binders = binders(rt.alloc(), ShrinkBy::Builtin, ShrinkBy::Builtin)?;
    let values = pair_of_values(rt.alloc(), 3)?;
    crosses(&Spread::make(rt.alloc(), &core, &binders, &values, 0)?);
    Ok(())
}
