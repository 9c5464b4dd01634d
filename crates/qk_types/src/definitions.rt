//! The bodies of functions and generators, with the parameters and the type that their headers say.
ghost use Rattle.std.specs.Prelude.{◌≡◌, Ok, Err, IfOk, IfErr, unwrap_or};
ghost use Rattle.std.specs.Option.{option_copied};
ghost use Rattle.qk_syntax.specs.Refusals.{IfRefusal};
ghost use Rattle.qk_syntax.specs.View.{views};
ghost use Rattle.qk_types.specs.Bodies.{function_body as function_body_of, generator_body as generator_body_of};
ghost use Rattle.qk_typing.specs.Operators.{no_signature};
ghost use Rattle.qk_typing.specs.TablesView.{tables_in};

use qk_base::{Fault, Memory, Place, Seq};
use qk_clauses::{draws_type, has_type};
use qk_core::{Expr, Function, GenExpr, UserGen};
use qk_expressions::expression;
use qk_generators::generator;
use qk_headers::{Signature, Tables, param_types, scope_of};
use qk_names::{WRONG_COUNT, refusal};
use qk_syntax::Tree;
use qk_value::Ty;
use std::alloc::Global;

/// A signature of its own, as that of a header.
pub fn own_signature(alloc: Global, found: Option<&Signature>) -> Result<Signature, Memory>
    ensures { IfOk result (λ s. s ≡ unwrap_or (option_copied found.entry) no_signature) }
{
    match found {
        Some(signature) => copied_signature(alloc, signature),
        None => {
            Ok(Signature {
                params: Seq::make(alloc),
                result: Ty::Int,
            })
        }
    }
}

fn copied_signature(alloc: Global, signature: &Signature) -> Result<Signature, Memory>
    ensures { IfOk result (λ s. s ≡ signature.now) }
{
    let params = scope_of(alloc, signature.params.as_slice())?;
    let ty = signature.result.copy(alloc)?;
    Ok(Signature { params, result: ty })
}

/// A function with this signature, from what stands after its name.
pub fn function_body(
    alloc: Global,
    tables: &Tables,
    place: Place,
    signature: Signature,
    parts: &[Tree],
) -> Result<Function, Fault>
    ensures function { IfOk result (λ f. function_body_of (tables_in tables.now) place signature (views parts.now) ≡ Ok f) }
    ensures refused { IfErr result (λ e. IfRefusal e (λ r. function_body_of (tables_in tables.now) place signature (views parts.now) ≡ Err r)) }
{
    let Signature { params, result: ty } = signature;
    let [_params, _result, body] = parts else {
        return Err(refusal(WRONG_COUNT, place));
    };
    let mut scope = params;
    let body = expression(alloc, tables, &mut scope, body)?;
    has_type(&ty, &body)?;
    let params = param_types(alloc, scope.as_slice())?;
    Ok(Function {
        params,
        result: ty,
        body: body.expr,
    })
}

/// A generator with this signature, from what stands after its name.
pub fn generator_body(
    alloc: Global,
    tables: &Tables,
    place: Place,
    signature: Signature,
    parts: &[Tree],
) -> Result<UserGen, Fault>
    ensures generator { IfOk result (λ g. generator_body_of (tables_in tables.now) place signature (views parts.now) ≡ Ok g) }
    ensures refused { IfErr result (λ e. IfRefusal e (λ r. generator_body_of (tables_in tables.now) place signature (views parts.now) ≡ Err r)) }
{
    let Signature { params, result: ty } = signature;
    let [_params, _result, body] = parts else {
        return Err(refusal(WRONG_COUNT, place));
    };
    let mut scope = params;
    let body = generator(alloc, tables, &mut scope, body)?;
    draws_type(&ty, &body)?;
    let params = param_types(alloc, scope.as_slice())?;
    Ok(UserGen {
        params,
        result: ty,
        body: body.gen_expr,
    })
}
