//! Expressions that see no variable, and the arguments of calls.
ghost use Rattle.std.specs.Prelude.{◌≡◌, ◌∷◌, [], IfOk};
ghost use Rattle.qk_core.specs.ExprView.{view_expr};
ghost use Rattle.qk_eval.specs.Answers.{ended};
ghost use Rattle.qk_eval.specs.Meaning.{meaning};

use qk_base::Memory;
use qk_core::{Core, Expr};
use qk_eval::{Ending, Shared, eval_shared};
use std::alloc::Global;

/// One argument, shared.
pub(crate) fn one(alloc: Global, a: &Shared) -> Result<Vec<Shared>, Memory>
    ensures { IfOk result (λ all. all.items ≡ a.now ∷ []) }
{
    let mut all = Vec::with_capacity(alloc, 1)?;
    all.push(a.share()?)?;
    Ok(all)
}

/// Two arguments, shared.
pub(crate) fn two(alloc: Global, a: &Shared, b: &Shared) -> Result<Vec<Shared>, Memory>
    ensures { IfOk result (λ all. all.items ≡ a.now ∷ b.now ∷ []) }
{
    let mut all = Vec::with_capacity(alloc, 2)?;
    all.push(a.share()?)?;
    all.push(b.share()?)?;
    Ok(all)
}

/// Three arguments, shared.
pub(crate) fn three(
    alloc: Global,
    a: &Shared,
    b: &Shared,
    c: &Shared,
) -> Result<Vec<Shared>, Memory>
    ensures { IfOk result (λ all. all.items ≡ a.now ∷ b.now ∷ c.now ∷ []) }
{
    let mut all = Vec::with_capacity(alloc, 3)?;
    all.push(a.share()?)?;
    all.push(b.share()?)?;
    all.push(c.share()?)?;
    Ok(all)
}

/// The value of an expression that sees no variable.
pub(crate) fn eval_closed(
    alloc: Global,
    core: &Core,
    expr: &Expr,
    fuel: u32,
) -> Result<Ending, Memory>
    ensures { IfOk result (λ ending. ended ending ≡ meaning core.now.functions (view_expr expr.now) [] fuel) }
{
    let none = Vec::new(alloc);
    eval_shared(alloc, core, expr, &none, fuel)
}
