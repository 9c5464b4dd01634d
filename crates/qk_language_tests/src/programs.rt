//! A program by hand, and each call that reads it.

use qk_base::{Memory, Seq};
use qk_core::{Core, Expr, Function, Op1};
use qk_value::{Kinds, Ty};
use std::alloc::Global;
use std::test::Fail;

// (fun opposite ((x Int)) Int (neg x))
fn opposite(alloc: Global) -> Result<Function, Memory> {
    let mut params = Seq::make(alloc);
    params.add(Ty::Int)?;
    let body = Expr::Unary(Op1::Neg, Box::new(alloc, Expr::Var(0))?);
    Ok(Function {
        params,
        result: Ty::Int,
        body,
    })
}

fn with_function(alloc: Global) -> Result<Core, Memory> {
    let mut functions = Seq::make(alloc);
    functions.add(opposite(alloc)?)?;
    let kinds = Kinds {
        kinds: Seq::make(alloc),
    };
    Ok(Core::of_tables(
        kinds,
        functions,
        Seq::make(alloc),
        Seq::make(alloc),
        Seq::make(alloc),
    ))
}

#[test]
fn reads_tables(rt: HostRuntime) -> Result<(), Fail> {
    let core = with_function(rt.alloc())?;
    assert_eq!(rt; core.functions(), 1);
    assert_eq!(rt; core.generators(), 0);
    assert_eq!(rt; core.models(), 0);
    assert_eq!(rt; core.properties(), 0);
    assert_eq!(rt; core.kinds().kinds.len(), 0);
    assert_eq!(rt; core.function(0).params.len(), 1);
    Ok(())
}

fn shared<T: Send + Sync>(_: &T) {}

fn crosses(core: &Core) {
    shared(core)
}

#[test]
fn crosses_threads(rt: HostRuntime) -> Result<(), Fail> {
    crosses(&with_function(rt.alloc())?);
    Ok(())
}
