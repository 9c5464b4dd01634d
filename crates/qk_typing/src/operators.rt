//! Operators at their parts, and the types of these.
ghost use Rattle.std.specs.Prelude.{◌≡◌, Ok, Err, OnOk, IfOk, IfErr, map, length};
ghost use Rattle.qk_core.specs.ExprView.{view_expr};
ghost use Rattle.qk_syntax.specs.PlainTrees.{count};
ghost use Rattle.qk_syntax.specs.Refusals.{IfRefusal};
ghost use Rattle.qk_syntax.specs.View.{views};
ghost use Rattle.qk_typing.specs.Operators.{check_count as check_count_of, arity as arity_of, fields_of as fields_of_maker, function_of, applied as applied_of, choice, unary as unary_form, binary as binary_form, maker as maker_form, function as function_form, plain as plain_of};
ghost use Rattle.qk_headers.specs.Headers.{HeadersData};
ghost use Rattle.qk_typing.specs.PartsView.{operator_in};
ghost use Rattle.qk_typing.specs.TablesView.{typed_in};
ghost use Rattle.qk_headers.specs.TypesOf.{parts_after};
ghost use Rattle.qk_value.specs.View.{view_type};

use crate::heads::Operator;
use crate::nodes::{chosen, of_one, of_two};
use crate::typing::{binary_type, fit_params, has_type, have_types, unary_type};
use qk_base::{Fault, Memory, Place, Seq};
use qk_core::{Expr, Op1, Op2};
use qk_headers::{Headers, Typed, Variable};
use qk_names::{WRONG_COUNT, one, refusal, reversed, three, two};
use qk_syntax::Tree;
use qk_value::Ty;
use std::alloc::Global;

/// The types of a maker's fields.
pub fn fields_of(headers: &Headers, kind: u32, maker: u32) -> &[Ty]
    ensures { map view_type result.now ≡ fields_of_maker headers.now kind maker }
{
    match headers.kinds.maker(kind, maker) {
        None => &[],
        Some(maker) => maker.fields.as_slice(),
    }
}

/// The parameters of a function.
pub fn params_of(headers: &Headers, function: u32) -> &[Variable]
    ensures { result.now ≡ (function_of headers.now function).params }
{
    match headers.functions.get(function as usize) {
        None => &[],
        Some(signature) => signature.params.as_slice(),
    }
}

fn result_of(alloc: Global, headers: &Headers, function: u32) -> Result<Ty, Memory>
    ensures { IfOk result (λ t. view_type t ≡ (function_of headers.now function).result) }
{
    match headers.functions.get(function as usize) {
        None => Ok(Ty::Int),
        Some(signature) => signature.result.copy(alloc),
    }
}

/// How many parts an operator takes.
pub fn arity(headers: &Headers, operator: Operator) -> usize
    ensures { result ≡ arity_of headers.now (operator_in operator) }
{
    match operator {
        Operator::Choice => 3,
        Operator::Unary(_) => 1,
        Operator::Binary(_) => 2,
        Operator::Maker { kind, maker } => fields_of(headers, kind, maker).len(),
        Operator::Function(function) => params_of(headers, function).len(),
    }
}

/// As many parts stand after the head of a list as its operator takes.
pub fn check_count(
    headers: &Headers,
    place: Place,
    operator: Operator,
    parts: &[Tree],
) -> Result<(), Fault>
    ensures ok { OnOk result (check_count_of headers.now place (operator_in operator) (parts_after (views parts.now)) ≡ Ok tt) }
    ensures refused { IfErr result (λ e. IfRefusal e (λ r. check_count_of headers.now place (operator_in operator) (parts_after (views parts.now)) ≡ Err r)) }
{
    let wanted = arity(headers, operator);
    if count_after_head(parts) != wanted {
        return Err(refusal(WRONG_COUNT, place));
    }
    Ok(())
}

/// How many parts stand after the head of a list.
pub fn count_after_head(parts: &[Tree]) -> usize
    ensures { result ≡ count (parts_after (views parts.now)) }
{
    parts.len().saturating_sub(1)
}

/// The operator at these parts.
pub fn applied(
    alloc: Global,
    headers: &Headers,
    place: Place,
    operator: Operator,
    parts: Seq<Typed>,
) -> Result<Typed, Fault>
    ensures ok { IfOk result (λ e. applied_of headers.now place (operator_in operator) (map typed_in parts.items) ≡ Ok (typed_in e)) }
    ensures refused { IfErr result (λ e. IfRefusal e (λ r. applied_of headers.now place (operator_in operator) (map typed_in parts.items) ≡ Err r)) }
{
    match operator {
        Operator::Choice => choice_of(alloc, place, parts),
        Operator::Unary(op) => unary(alloc, place, op, parts),
        Operator::Binary(op) => binary(alloc, place, op, parts),
        Operator::Maker { kind, maker } => made(alloc, headers, place, kind, maker, parts),
        Operator::Function(function) => called(alloc, headers, place, function, parts),
    }
}

fn choice_of(alloc: Global, place: Place, parts: Seq<Typed>) -> Result<Typed, Fault>
    ensures ok { IfOk result (λ e. (h : HeadersData) → applied_of h place choice (map typed_in parts.items) ≡ Ok (typed_in e)) }
    ensures refused { IfErr result (λ e. IfRefusal e (λ r. (h : HeadersData) → applied_of h place choice (map typed_in parts.items) ≡ Err r)) }
{
    let Some((condition, first, second)) = three(parts) else {
        return Err(refusal(WRONG_COUNT, place));
    };
    has_type(&Ty::Bool, &condition)?;
    has_type(&first.ty, &second)?;
    let expr = chosen(alloc, condition.expr, first.expr, second.expr)?;
    Ok(Typed {
        place,
        ty: first.ty,
        expr,
    })
}

fn unary(alloc: Global, place: Place, op: Op1, parts: Seq<Typed>) -> Result<Typed, Fault>
    ensures ok { IfOk result (λ e. (h : HeadersData) → applied_of h place (unary_form op) (map typed_in parts.items) ≡ Ok (typed_in e)) }
    ensures refused { IfErr result (λ e. IfRefusal e (λ r. (h : HeadersData) → applied_of h place (unary_form op) (map typed_in parts.items) ≡ Err r)) }
{
    let Some(part) = one(parts) else {
        return Err(refusal(WRONG_COUNT, place));
    };
    let ty = unary_type(op, &part)?;
    let expr = of_one(alloc, op, part.expr)?;
    Ok(Typed { place, ty, expr })
}

fn binary(alloc: Global, place: Place, op: Op2, parts: Seq<Typed>) -> Result<Typed, Fault>
    ensures ok { IfOk result (λ e. (h : HeadersData) → applied_of h place (binary_form op) (map typed_in parts.items) ≡ Ok (typed_in e)) }
    ensures refused { IfErr result (λ e. IfRefusal e (λ r. (h : HeadersData) → applied_of h place (binary_form op) (map typed_in parts.items) ≡ Err r)) }
{
    let Some((first, second)) = two(parts) else {
        return Err(refusal(WRONG_COUNT, place));
    };
    let ty = binary_type(alloc, op, &first, &second)?;
    let expr = of_two(alloc, op, first.expr, second.expr)?;
    Ok(Typed { place, ty, expr })
}

fn made(
    alloc: Global,
    headers: &Headers,
    place: Place,
    kind: u32,
    maker: u32,
    parts: Seq<Typed>,
) -> Result<Typed, Fault>
    ensures ok { IfOk result (λ e. applied_of headers.now place (maker_form kind maker) (map typed_in parts.items) ≡ Ok (typed_in e)) }
    ensures refused { IfErr result (λ e. IfRefusal e (λ r. applied_of headers.now place (maker_form kind maker) (map typed_in parts.items) ≡ Err r)) }
{
    have_types(fields_of(headers, kind, maker), parts.as_slice())?;
    let parts = plain(alloc, parts)?;
    Ok(Typed {
        place,
        ty: Ty::Made(kind),
        expr: Expr::Make { kind, maker, parts },
    })
}

fn called(
    alloc: Global,
    headers: &Headers,
    place: Place,
    function: u32,
    parts: Seq<Typed>,
) -> Result<Typed, Fault>
    ensures ok { IfOk result (λ e. applied_of headers.now place (function_form function) (map typed_in parts.items) ≡ Ok (typed_in e)) }
    ensures refused { IfErr result (λ e. IfRefusal e (λ r. applied_of headers.now place (function_form function) (map typed_in parts.items) ≡ Err r)) }
{
    fit_params(params_of(headers, function), parts.as_slice())?;
    let ty = result_of(alloc, headers, function)?;
    let args = plain(alloc, parts)?;
    Ok(Typed {
        place,
        ty,
        expr: Expr::Call { function, args },
    })
}

/// The expressions alone.
pub fn plain(alloc: Global, parts: Seq<Typed>) -> Result<Seq<Expr>, Memory>
    ensures { IfOk result (λ es. map view_expr es.items ≡ plain_of (map typed_in parts.items)) }
{
    let mut parts = parts;
    let mut backward = Seq::make(alloc);
    while let Some(part) = parts.pop() {
        backward.add(part.expr)?;
    }
    reversed(alloc, backward)
}
