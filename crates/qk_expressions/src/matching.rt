//! The parts of a match.
ghost use Rattle.std.specs.Prelude.{◌≡◌, Ok, Err, IfOk, IfErr, map};
ghost use Rattle.qk_core.specs.ExprData.{ExprData, cases_of};
ghost use Rattle.qk_core.specs.ExprView.{view_expr};
ghost use Rattle.qk_syntax.specs.Refusals.{IfRefusal};
ghost use Rattle.qk_expressions.specs.ExpressionSteps.{shapes_at as shapes_at_value, matched as matched_by};
ghost use Rattle.qk_typing.specs.Operators.{typed};
ghost use Rattle.qk_expressions.specs.CasesView.{shape_in, cases_in};
ghost use Rattle.qk_expressions.specs.Patterns.{result_of};
ghost use Rattle.qk_typing.specs.TablesView.{typed_in};
ghost use Rattle.qk_value.specs.View.{view_type};

use crate::patterns::{Cases, Shape, shapes_of};
use qk_base::{Fault, Memory, Place, Seq};
use qk_core::Expr;
use qk_headers::{Headers, Typed};
use qk_names::{MISSING_CASE, WRONG_TYPE, refusal};
use qk_value::Ty;
use std::alloc::Global;

/// The patterns of a type that has some.
pub fn shapes_at(
    alloc: Global,
    headers: &Headers,
    place: Place,
    ty: &Ty,
) -> Result<Seq<Shape>, Fault>
    ensures ok { IfOk result (λ ss. shapes_at_value headers.now place (view_type ty.now) ≡ Ok (map shape_in ss.items)) }
    ensures refused { IfErr result (λ e. IfRefusal e (λ r. shapes_at_value headers.now place (view_type ty.now) ≡ Err r)) }
{
    let shapes = shapes_of(alloc, headers, ty)?;
    if shapes.len() == 0 {
        return Err(refusal(WRONG_TYPE, place));
    }
    Ok(shapes)
}

/// The match of a value by cases, if each pattern has one.
pub fn matched(
    alloc: Global,
    place: Place,
    shapes: &[Shape],
    value: Typed,
    cases: Cases,
) -> Result<Typed, Fault>
    ensures ok { IfOk result (λ e. matched_by place (map shape_in shapes.now) (typed_in value) (cases_in cases) ≡ Ok (typed_in e)) }
    ensures refused { IfErr result (λ e. IfRefusal e (λ r. matched_by place (map shape_in shapes.now) (typed_in value) (cases_in cases) ≡ Err r)) }
{
    if !cases.are_complete(shapes) {
        return Err(refusal(MISSING_CASE, place));
    }
    Ok(match_of(alloc, place, value.expr, cases)?)
}

fn match_of(alloc: Global, place: Place, value: Expr, cases: Cases) -> Result<Typed, Memory>
    ensures { IfOk result (λ e. typed_in e ≡ typed place (result_of (cases_in cases)) (ExprData.matching (view_expr value) (cases_of (cases_in cases).cases))) }
{
    let Cases { ty, cases, .. } = cases;
    let ty = ty.unwrap_or(Ty::Int);
    let value = Box::new(alloc, value)?;
    Ok(Typed {
        place,
        ty,
        expr: Expr::Match(value, cases),
    })
}
