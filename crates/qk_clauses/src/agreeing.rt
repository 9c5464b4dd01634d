//! Checks of types: that an expression, a generator or a signature has the wanted ones.
ghost use Rattle.std.specs.Prelude.{◌≡◌, ◌∷◌, [], Ok, Err, OnOk, IfErr, IfOk, unwrap_or};
ghost use Rattle.std.specs.Option.{option_copied};
ghost use Rattle.qk_core.specs.ExprView.{view_expr};
ghost use Rattle.qk_syntax.specs.Refusals.{IfRefusal};
ghost use Rattle.qk_syntax.specs.View.{view};
ghost use Rattle.qk_names.specs.Checks.{check, place_of};
ghost use Rattle.qk_generators.specs.Drawing.{draws_type as draws_type_of};
ghost use Rattle.qk_clauses.specs.Models.{is_from_to, same_types};
ghost use Rattle.qk_typing.specs.Operators.{has_type as has_type_of, no_signature};
ghost use Rattle.qk_expressions.specs.Expressions.{expression_of_type};
ghost use Rattle.qk_headers.specs.Scopes.{types_of};
ghost use Rattle.qk_typing.specs.TablesView.{tables_in, typed_in};
ghost use Rattle.qk_generators.specs.DrawingView.{drawn_in};
ghost use Rattle.qk_value.specs.Types.{bool_type};
ghost use Rattle.qk_value.specs.View.{view_type};

use qk_base::{Fault, Seq};
use qk_core::Expr;
use qk_expressions::expression;
use qk_generators::Drawn;
use qk_headers::{Signature, Tables, Typed, Variable, is_same};
use qk_names::{WRONG_TYPE, refusal};
use qk_syntax::Tree;
use qk_value::Ty;
use std::alloc::Global;

/// The type of truth values.
pub fn truth_type() -> Ty
    ensures { view_type result ≡ bool_type }
{
    Ty::Bool
}

/// That the expression has the type.
pub fn has_type(ty: &Ty, e: &Typed) -> Result<(), Fault>
    ensures ok { OnOk result (has_type_of (view_type ty.now) (typed_in e.now) ≡ Ok tt) }
    ensures refused { IfErr result (λ f. IfRefusal f (λ r. has_type_of (view_type ty.now) (typed_in e.now) ≡ Err r)) }
{
    if is_same(ty, &e.ty) {
        Ok(())
    } else {
        Err(refusal(WRONG_TYPE, e.place))
    }
}

/// That the generator draws values of the type.
pub fn draws_type(ty: &Ty, g: &Drawn) -> Result<(), Fault>
    ensures ok { OnOk result (draws_type_of (view_type ty.now) (drawn_in g.now) ≡ Ok tt) }
    ensures refused { IfErr result (λ f. IfRefusal f (λ r. draws_type_of (view_type ty.now) (drawn_in g.now) ≡ Err r)) }
{
    if is_same(ty, &g.ty) {
        Ok(())
    } else {
        Err(refusal(WRONG_TYPE, g.place))
    }
}

/// The expression of that type that a tree is, where these variables are seen.
pub fn typed_expression(
    alloc: Global,
    tables: &Tables,
    scope: &mut Seq<Variable>,
    ty: &Ty,
    tree: &Tree,
) -> Result<Expr, Fault>
    ensures ok { IfOk result (λ e. expression_of_type (tables_in tables.now) scope.old.items (view_type ty.now) (view tree.now) ≡ Ok (view_expr e)) }
    ensures scope { OnOk result (scope.new.items ≡ scope.old.items) }
    ensures refused { IfErr result (λ f. IfRefusal f (λ r. expression_of_type (tables_in tables.now) scope.old.items (view_type ty.now) (view tree.now) ≡ Err r)) }
{
    let e = expression(alloc, tables, scope, tree)?;
    has_type(ty, &e)?;
    Ok(e.expr)
}

/// That a signature that the tree names fits.
pub fn fits(holds: bool, tree: &Tree) -> Result<(), Fault>
    ensures ok { OnOk result (check holds 24 (place_of (view tree.now)) ≡ Ok tt) }
    ensures refused { IfErr result (λ f. IfRefusal f (λ r. check holds 24 (place_of (view tree.now)) ≡ Err r)) }
{
    if holds {
        Ok(())
    } else {
        Err(refusal(WRONG_TYPE, tree.place))
    }
}

/// Whether it takes a value of that type and gives one of the other.
pub fn is_from_one(found: Option<&Signature>, first: &Ty, to: &Ty) -> bool
    ensures { result ≡ is_from_to (unwrap_or (option_copied found.entry) no_signature) (view_type first.now ∷ []) (view_type to.now) }
{
    match found {
        Some(signature) => {
            takes_one(signature.params.as_slice(), first) && is_same(&signature.result, to)
        }
        None => false,
    }
}

/// Whether it takes values of these two types and gives one of the last.
pub fn is_from_two(found: Option<&Signature>, first: &Ty, second: &Ty, to: &Ty) -> bool
    ensures { result ≡ is_from_to (unwrap_or (option_copied found.entry) no_signature) (view_type first.now ∷ view_type second.now ∷ []) (view_type to.now) }
{
    match found {
        Some(signature) => {
            takes_two(signature.params.as_slice(), first, second) && is_same(&signature.result, to)
        }
        None => false,
    }
}

/// Whether it takes values of these three types and gives one of the last.
pub fn is_from_three(
    found: Option<&Signature>,
    first: &Ty,
    second: &Ty,
    third: &Ty,
    to: &Ty,
) -> bool
    ensures { result ≡ is_from_to (unwrap_or (option_copied found.entry) no_signature) (view_type first.now ∷ view_type second.now ∷ view_type third.now ∷ []) (view_type to.now) }
{
    match found {
        Some(signature) => {
            takes_three(signature.params.as_slice(), first, second, third)
                && is_same(&signature.result, to)
        }
        None => false,
    }
}

fn takes_none(params: &[Variable]) -> bool
    ensures { result ≡ same_types (types_of params.now) [] }
{
    match params {
        [] => true,
        [_first, ..] => false,
    }
}

fn takes_one(params: &[Variable], first: &Ty) -> bool
    ensures { result ≡ same_types (types_of params.now) (view_type first.now ∷ []) }
{
    match params {
        [param, rest @ ..] => is_same(&param.ty, first) && takes_none(rest),
        [] => false,
    }
}

fn takes_two(params: &[Variable], first: &Ty, second: &Ty) -> bool
    ensures { result ≡ same_types (types_of params.now) (view_type first.now ∷ view_type second.now ∷ []) }
{
    match params {
        [param, rest @ ..] => is_same(&param.ty, first) && takes_one(rest, second),
        [] => false,
    }
}

fn takes_three(params: &[Variable], first: &Ty, second: &Ty, third: &Ty) -> bool
    ensures { result ≡ same_types (types_of params.now) (view_type first.now ∷ view_type second.now ∷ view_type third.now ∷ []) }
{
    match params {
        [param, rest @ ..] => is_same(&param.ty, first) && takes_two(rest, second, third),
        [] => false,
    }
}
