//! Expressions of their parts.
ghost use Rattle.std.specs.Prelude.{◌≡◌, IfOk};
ghost use Rattle.qk_core.specs.ExprData.{choice, binding, unary, binary};
ghost use Rattle.qk_core.specs.ExprView.{view_expr};
ghost use Rattle.qk_typing.specs.Operators.{typed};
ghost use Rattle.qk_typing.specs.TablesView.{typed_in};

use qk_base::{Memory, Place};
use qk_core::{Expr, Op1, Op2};
use qk_headers::Typed;
use std::alloc::Global;

/// A choice between two expressions.
pub fn chosen(alloc: Global, condition: Expr, first: Expr, second: Expr) -> Result<Expr, Memory>
    ensures { IfOk result (λ e. view_expr e ≡ choice (view_expr condition) (view_expr first) (view_expr second)) }
{
    let condition = Box::new(alloc, condition)?;
    let first = Box::new(alloc, first)?;
    Ok(Expr::If(condition, first, Box::new(alloc, second)?))
}

/// What a variable is bound to, and the body that sees it.
pub fn bound(alloc: Global, place: Place, value: Expr, body: Typed) -> Result<Typed, Memory>
    ensures { IfOk result (λ e. typed_in e ≡ typed place (typed_in body).ty (binding (view_expr value) (typed_in body).expr)) }
{
    let value = Box::new(alloc, value)?;
    let inner = Box::new(alloc, body.expr)?;
    Ok(Typed {
        place,
        ty: body.ty,
        expr: Expr::Let(value, inner),
    })
}

/// An operator at its one part.
pub fn of_one(alloc: Global, op: Op1, part: Expr) -> Result<Expr, Memory>
    ensures { IfOk result (λ e. view_expr e ≡ unary op (view_expr part)) }
{
    Ok(Expr::Unary(op, Box::new(alloc, part)?))
}

/// An operator at its two parts.
pub fn of_two(alloc: Global, op: Op2, first: Expr, second: Expr) -> Result<Expr, Memory>
    ensures { IfOk result (λ e. view_expr e ≡ binary op (view_expr first) (view_expr second)) }
{
    let first = Box::new(alloc, first)?;
    Ok(Expr::Binary(op, first, Box::new(alloc, second)?))
}
