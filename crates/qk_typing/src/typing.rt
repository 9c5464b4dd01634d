//! The types that parts must have.
ghost use Rattle.std.specs.Prelude.{◌≡◌, Ok, Err, OnOk, IfOk, IfErr, map};
ghost use Rattle.qk_syntax.specs.Refusals.{IfRefusal};
ghost use Rattle.qk_typing.specs.Operators.{has_type as has_type_of, have_types as have_types_of, agree as agree_of, is_list as is_list_of, unary_type as unary_type_of, binary_type as binary_type_of, of_numbers as of_numbers_of, of_truths as of_truths_of, of_same as of_same_of};
ghost use Rattle.qk_headers.specs.Scopes.{types_of};
ghost use Rattle.qk_typing.specs.TablesView.{typed_in};
ghost use Rattle.qk_core.specs.declared.expr.Op2.TheVariants as twos;
ghost use Rattle.qk_value.specs.Types.{same_type, int_type, list_type, pair_type};
ghost use Rattle.qk_value.specs.View.{view_type};

use qk_base::{Fault, Memory};
use qk_core::{Op1, Op2};
use qk_headers::{Typed, Variable, listed, paired};
use qk_names::{WRONG_TYPE, refusal};
use qk_value::Ty;
use std::alloc::Global;

/// Whether the types are the same.
pub fn is_same(ty: &Ty, other: &Ty) -> bool
    ensures { result ≡ same_type (view_type ty.now) (view_type other.now) }
{
    ty.equal(other)
}

/// A part of another type is at fault.
pub fn has_type(ty: &Ty, part: &Typed) -> Result<(), Fault>
    ensures ok { OnOk result (has_type_of (view_type ty.now) (typed_in part.now) ≡ Ok tt) }
    ensures refused { IfErr result (λ e. IfRefusal e (λ r. has_type_of (view_type ty.now) (typed_in part.now) ≡ Err r)) }
{
    if !is_same(ty, &part.ty) {
        return Err(refusal(WRONG_TYPE, part.place));
    }
    Ok(())
}

/// A part that is no number is at fault.
pub fn is_number(part: &Typed) -> Result<(), Fault>
    ensures ok { OnOk result (has_type_of int_type (typed_in part.now) ≡ Ok tt) }
    ensures refused { IfErr result (λ e. IfRefusal e (λ r. has_type_of int_type (typed_in part.now) ≡ Err r)) }
{
    has_type(&Ty::Int, part)
}

/// The parts have these types, as far as there are both.
pub fn have_types(types: &[Ty], parts: &[Typed]) -> Result<(), Fault>
    ensures ok { OnOk result (have_types_of (map view_type types.now) (map typed_in parts.now) ≡ Ok tt) }
    ensures refused { IfErr result (λ e. IfRefusal e (λ r. have_types_of (map view_type types.now) (map typed_in parts.now) ≡ Err r)) }
{
    for i in 0..types.len().min(parts.len()) {
        has_type(&types[i], &parts[i])?;
    }
    Ok(())
}

/// The parts have the types of these variables, as far as there are both.
pub fn fit_params(params: &[Variable], parts: &[Typed]) -> Result<(), Fault>
    ensures ok { OnOk result (have_types_of (types_of params.now) (map typed_in parts.now) ≡ Ok tt) }
    ensures refused { IfErr result (λ e. IfRefusal e (λ r. have_types_of (types_of params.now) (map typed_in parts.now) ≡ Err r)) }
{
    for i in 0..params.len().min(parts.len()) {
        let param = &params[i];
        has_type(&param.ty, &parts[i])?;
    }
    Ok(())
}

/// Each part has the type.
pub fn agree(ty: &Ty, parts: &[Typed]) -> Result<(), Fault>
    ensures ok { OnOk result (agree_of (view_type ty.now) (map typed_in parts.now) ≡ Ok tt) }
    ensures refused { IfErr result (λ e. IfRefusal e (λ r. agree_of (view_type ty.now) (map typed_in parts.now) ≡ Err r)) }
{
    for part in parts {
        has_type(ty, part)?;
    }
    Ok(())
}

fn is_list(part: &Typed) -> Result<(), Fault>
    ensures ok { OnOk result (is_list_of (typed_in part.now) ≡ Ok tt) }
    ensures refused { IfErr result (λ e. IfRefusal e (λ r. is_list_of (typed_in part.now) ≡ Err r)) }
{
    match &part.ty {
        Ty::List(_) => Ok(()),
        Ty::Int | Ty::Bool | Ty::Pair(_, _) | Ty::Made(_) => {
            Err(refusal(WRONG_TYPE, part.place))
        }
    }
}

/// The type of a value of the operator whose one part this is.
pub fn unary_type(op: Op1, part: &Typed) -> Result<Ty, Fault>
    ensures ok { IfOk result (λ t. unary_type_of op (typed_in part.now) ≡ Ok (view_type t)) }
    ensures refused { IfErr result (λ e. IfRefusal e (λ r. unary_type_of op (typed_in part.now) ≡ Err r)) }
{
    match op {
        Op1::Neg => {
            has_type(&Ty::Int, part)?;
            Ok(Ty::Int)
        }
        Op1::Not => {
            has_type(&Ty::Bool, part)?;
            Ok(Ty::Bool)
        }
        Op1::Length => {
            is_list(part)?;
            Ok(Ty::Int)
        }
    }
}

/// The type of a value of the operator whose two parts these are.
pub fn binary_type(alloc: Global, op: Op2, first: &Typed, second: &Typed) -> Result<Ty, Fault>
    ensures ok { IfOk result (λ t. binary_type_of op (typed_in first.now) (typed_in second.now) ≡ Ok (view_type t)) }
    ensures refused { IfErr result (λ e. IfRefusal e (λ r. binary_type_of op (typed_in first.now) (typed_in second.now) ≡ Err r)) }
{
    match op {
        Op2::Add | Op2::Sub | Op2::Mul | Op2::Div | Op2::Mod => of_numbers(first, second),
        Op2::Equal | Op2::Less | Op2::AtMost => of_same(first, second),
        Op2::And | Op2::Or => of_truths(first, second),
        Op2::Cons => longer_list(alloc, first, second),
        Op2::Append => joined_list(alloc, first, second),
        Op2::Pair => Ok(pair_of(alloc, &first.ty, &second.ty)?),
    }
}

fn of_numbers(first: &Typed, second: &Typed) -> Result<Ty, Fault>
    ensures ok { IfOk result (λ t. of_numbers_of int_type (typed_in first.now) (typed_in second.now) ≡ Ok (view_type t)) }
    ensures refused { IfErr result (λ e. IfRefusal e (λ r. of_numbers_of int_type (typed_in first.now) (typed_in second.now) ≡ Err r)) }
{
    has_type(&Ty::Int, first)?;
    has_type(&Ty::Int, second)?;
    Ok(Ty::Int)
}

fn of_truths(first: &Typed, second: &Typed) -> Result<Ty, Fault>
    ensures ok { IfOk result (λ t. of_truths_of (typed_in first.now) (typed_in second.now) ≡ Ok (view_type t)) }
    ensures refused { IfErr result (λ e. IfRefusal e (λ r. of_truths_of (typed_in first.now) (typed_in second.now) ≡ Err r)) }
{
    has_type(&Ty::Bool, first)?;
    has_type(&Ty::Bool, second)?;
    Ok(Ty::Bool)
}

fn of_same(first: &Typed, second: &Typed) -> Result<Ty, Fault>
    ensures ok { IfOk result (λ t. of_same_of (typed_in first.now) (typed_in second.now) ≡ Ok (view_type t)) }
    ensures refused { IfErr result (λ e. IfRefusal e (λ r. of_same_of (typed_in first.now) (typed_in second.now) ≡ Err r)) }
{
    has_type(&first.ty, second)?;
    Ok(Ty::Bool)
}

/// The type of a list with one more item at its front.
fn longer_list(alloc: Global, item: &Typed, items: &Typed) -> Result<Ty, Fault>
    ensures ok { IfOk result (λ t. binary_type_of twos.Cons (typed_in item.now) (typed_in items.now) ≡ Ok (view_type t)) }
    ensures refused { IfErr result (λ e. IfRefusal e (λ r. binary_type_of twos.Cons (typed_in item.now) (typed_in items.now) ≡ Err r)) }
{
    let ty = list_of(alloc, &item.ty)?;
    has_type(&ty, items)?;
    Ok(ty)
}

fn joined_list(alloc: Global, first: &Typed, second: &Typed) -> Result<Ty, Fault>
    ensures ok { IfOk result (λ t. binary_type_of twos.Append (typed_in first.now) (typed_in second.now) ≡ Ok (view_type t)) }
    ensures refused { IfErr result (λ e. IfRefusal e (λ r. binary_type_of twos.Append (typed_in first.now) (typed_in second.now) ≡ Err r)) }
{
    is_list(first)?;
    has_type(&first.ty, second)?;
    Ok(first.ty.copy(alloc)?)
}

/// The type of lists of such items.
pub fn list_of(alloc: Global, item: &Ty) -> Result<Ty, Memory>
    ensures { IfOk result (λ t. view_type t ≡ list_type (view_type item.now)) }
{
    let item = item.copy(alloc)?;
    listed(alloc, item)
}

/// The type of pairs of such parts.
pub fn pair_of(alloc: Global, first: &Ty, second: &Ty) -> Result<Ty, Memory>
    ensures { IfOk result (λ t. view_type t ≡ pair_type (view_type first.now) (view_type second.now)) }
{
    let first = first.copy(alloc)?;
    let second = second.copy(alloc)?;
    paired(alloc, first, second)
}
