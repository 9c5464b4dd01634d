//! Functions, generators and models by their names, and of the wanted signature.
ghost use Rattle.std.specs.Prelude.{◌≡◌, ◌∷◌, [], Ok, Err, IfOk, IfErr};
ghost use Rattle.qk_syntax.specs.Refusals.{IfRefusal};
ghost use Rattle.qk_syntax.specs.View.{view};
ghost use Rattle.qk_clauses.specs.Models.{declared_at, function_number, generator_number, model_number, function_at, generator_at};
ghost use Rattle.qk_typing.specs.TablesView.{tables_in};
ghost use Rattle.qk_value.specs.View.{view_type};

use crate::agreeing::{fits, is_from_one, is_from_three, is_from_two};
use qk_base::Fault;
use qk_headers::Tables;
use qk_names::{Named, UNKNOWN_FORM, UNKNOWN_NAME, refusal};
use qk_syntax::{Node, Tree};
use qk_value::Ty;

/// The number of the function that a tree names.
fn function_named(tables: &Tables, tree: &Tree) -> Result<u32, Fault>
    ensures ok { IfOk result (λ n. declared_at (tables_in tables.now) function_number (view tree.now) ≡ Ok n) }
    ensures refused { IfErr result (λ e. IfRefusal e (λ r. declared_at (tables_in tables.now) function_number (view tree.now) ≡ Err r)) }
{
    let Node::Name(word) = &tree.node else {
        return Err(refusal(UNKNOWN_FORM, tree.place));
    };
    match tables.names.get(word.as_slice()) {
        Some(Named::Function(function)) => Ok(function),
        Some(_) => Err(refusal(UNKNOWN_FORM, tree.place)),
        None => Err(refusal(UNKNOWN_NAME, tree.place)),
    }
}

/// The number of the generator that a tree names.
fn generator_named(tables: &Tables, tree: &Tree) -> Result<u32, Fault>
    ensures ok { IfOk result (λ n. declared_at (tables_in tables.now) generator_number (view tree.now) ≡ Ok n) }
    ensures refused { IfErr result (λ e. IfRefusal e (λ r. declared_at (tables_in tables.now) generator_number (view tree.now) ≡ Err r)) }
{
    let Node::Name(word) = &tree.node else {
        return Err(refusal(UNKNOWN_FORM, tree.place));
    };
    match tables.names.get(word.as_slice()) {
        Some(Named::Generator(generator)) => Ok(generator),
        Some(_) => Err(refusal(UNKNOWN_FORM, tree.place)),
        None => Err(refusal(UNKNOWN_NAME, tree.place)),
    }
}

/// The number of the model that a tree names.
pub fn model_named(tables: &Tables, tree: &Tree) -> Result<u32, Fault>
    ensures ok { IfOk result (λ n. declared_at (tables_in tables.now) model_number (view tree.now) ≡ Ok n) }
    ensures refused { IfErr result (λ e. IfRefusal e (λ r. declared_at (tables_in tables.now) model_number (view tree.now) ≡ Err r)) }
{
    let Node::Name(word) = &tree.node else {
        return Err(refusal(UNKNOWN_FORM, tree.place));
    };
    match tables.names.get(word.as_slice()) {
        Some(Named::Model(model)) => Ok(model),
        Some(_) => Err(refusal(UNKNOWN_FORM, tree.place)),
        None => Err(refusal(UNKNOWN_NAME, tree.place)),
    }
}

/// The function from a value of the first type to one of the other that a tree names.
pub fn function_from_one(tables: &Tables, first: &Ty, to: &Ty, tree: &Tree) -> Result<u32, Fault>
    ensures ok { IfOk result (λ n. function_at (tables_in tables.now) (view_type first.now ∷ []) (view_type to.now) (view tree.now) ≡ Ok n) }
    ensures refused { IfErr result (λ e. IfRefusal e (λ r. function_at (tables_in tables.now) (view_type first.now ∷ []) (view_type to.now) (view tree.now) ≡ Err r)) }
{
    let function = function_named(tables, tree)?;
    let found = tables.headers.functions.get(function as usize);
    fits(is_from_one(found, first, to), tree)?;
    Ok(function)
}

/// The function from values of two types to one of the last that a tree names.
pub fn function_from_two(
    tables: &Tables,
    first: &Ty,
    second: &Ty,
    to: &Ty,
    tree: &Tree,
) -> Result<u32, Fault>
    ensures ok { IfOk result (λ n. function_at (tables_in tables.now) (view_type first.now ∷ view_type second.now ∷ []) (view_type to.now) (view tree.now) ≡ Ok n) }
    ensures refused { IfErr result (λ e. IfRefusal e (λ r. function_at (tables_in tables.now) (view_type first.now ∷ view_type second.now ∷ []) (view_type to.now) (view tree.now) ≡ Err r)) }
{
    let function = function_named(tables, tree)?;
    let found = tables.headers.functions.get(function as usize);
    fits(is_from_two(found, first, second, to), tree)?;
    Ok(function)
}

/// The function from values of three types to one of the last that a tree names.
pub fn function_from_three(
    tables: &Tables,
    first: &Ty,
    second: &Ty,
    third: &Ty,
    to: &Ty,
    tree: &Tree,
) -> Result<u32, Fault>
    ensures ok { IfOk result (λ n. function_at (tables_in tables.now) (view_type first.now ∷ view_type second.now ∷ view_type third.now ∷ []) (view_type to.now) (view tree.now) ≡ Ok n) }
    ensures refused { IfErr result (λ e. IfRefusal e (λ r. function_at (tables_in tables.now) (view_type first.now ∷ view_type second.now ∷ view_type third.now ∷ []) (view_type to.now) (view tree.now) ≡ Err r)) }
{
    let function = function_named(tables, tree)?;
    let found = tables.headers.functions.get(function as usize);
    fits(is_from_three(found, first, second, third, to), tree)?;
    Ok(function)
}

/// The generator with one parameter of the first type and a result of the other that a tree names.
pub fn generator_from_one(tables: &Tables, first: &Ty, to: &Ty, tree: &Tree) -> Result<u32, Fault>
    ensures ok { IfOk result (λ n. generator_at (tables_in tables.now) (view_type first.now ∷ []) (view_type to.now) (view tree.now) ≡ Ok n) }
    ensures refused { IfErr result (λ e. IfRefusal e (λ r. generator_at (tables_in tables.now) (view_type first.now ∷ []) (view_type to.now) (view tree.now) ≡ Err r)) }
{
    let generator = generator_named(tables, tree)?;
    let found = tables.headers.generators.get(generator as usize);
    fits(is_from_one(found, first, to), tree)?;
    Ok(generator)
}
