//! Expressions with no expressions in them.
ghost use Rattle.std.specs.Prelude.{◌≡◌, Ok, Err, IfOk, IfErr, option_map};
ghost use Rattle.qk_core.specs.ExprData.{ExprData};
ghost use Rattle.qk_syntax.specs.Refusals.{IfRefusal};
ghost use Rattle.qk_syntax.specs.View.{views};
ghost use Rattle.qk_expressions.specs.Expressions.{lone_name as lone_name_of, nil_at as nil_of_trees, atom as atom_of};
ghost use Rattle.qk_names.specs.NameTable.{names_in};
ghost use Rattle.qk_typing.specs.Operators.{typed, usable};
ghost use Rattle.qk_typing.specs.TablesView.{tables_in, typed_in};
ghost use Rattle.qk_headers.specs.TypesOf.{parts_after};
ghost use Rattle.qk_value.specs.Types.{int_type, bool_type, list_type};
ghost use Rattle.qk_value.specs.View.{view_type};

use qk_base::{Fault, Memory, Place};
use qk_core::Expr;
use qk_headers::{Tables, Typed, Variable, type_at};
use qk_names::{Names, WRONG_COUNT, refusal};
use qk_syntax::Tree;
use qk_typing::{innermost, list_of, unusable};
use qk_value::Ty;
use std::alloc::Global;

/// A number as it is written.
pub fn number(place: Place, n: i64) -> Typed
    ensures { typed_in result ≡ typed place int_type (ExprData.number n) }
{
    Typed {
        place,
        ty: Ty::Int,
        expr: Expr::Int(n),
    }
}

/// An expression that is one word. A variable hides a declared name.
pub fn lone_name(
    alloc: Global,
    tables: &Tables,
    scope: &[Variable],
    place: Place,
    word: &[u8],
) -> Result<Typed, Fault>
    ensures ok { IfOk result (λ e. lone_name_of (tables_in tables.now) scope.now place word.now ≡ Ok (typed_in e)) }
    ensures refused { IfErr result (λ e. IfRefusal e (λ r. lone_name_of (tables_in tables.now) scope.now place word.now ≡ Err r)) }
{
    match innermost(scope, word) {
        Some(index) => Ok(variable(alloc, place, &scope[index], index)?),
        None => known_word(&tables.names, place, word),
    }
}

fn variable(alloc: Global, place: Place, variable: &Variable, index: usize) -> Result<Typed, Memory>
    ensures { IfOk result (λ e. typed_in e ≡ typed place variable.now.ty (ExprData.variable index)) }
{
    // So many variables have no room in memory.
    if index > u32::MAX as usize {
        return Err(Memory);
    }
    let ty = variable.ty.copy(alloc)?;
    Ok(Typed {
        place,
        ty,
        expr: Expr::Var(index as u32),
    })
}

fn known_word(names: &Names, place: Place, word: &[u8]) -> Result<Typed, Fault>
    ensures ok { IfOk result (λ e. usable (names_in names.now) place place word.now (atom_of place word.now) ≡ Ok (typed_in e)) }
    ensures refused { IfErr result (λ e. IfRefusal e (λ r. usable (names_in names.now) place place word.now (atom_of place word.now) ≡ Err r)) }
{
    match atom(place, word) {
        Some(known) => Ok(known),
        None => Err(unusable(names, place, place, word)),
    }
}

fn atom(place: Place, word: &[u8]) -> Option<Typed>
    ensures { option_map typed_in result ≡ atom_of place word.now }
{
    if word == b"true".as_slice() {
        Some(truth(place, true))
    } else if word == b"false".as_slice() {
        Some(truth(place, false))
    } else {
        None
    }
}

fn truth(place: Place, value: bool) -> Typed
    ensures { typed_in result ≡ typed place bool_type (ExprData.truth value) }
{
    Typed {
        place,
        ty: Ty::Bool,
        expr: Expr::Bool(value),
    }
}

/// The empty list of items of the type after the head of a list.
pub fn nil_at(alloc: Global, tables: &Tables, place: Place, parts: &[Tree]) -> Result<Typed, Fault>
    ensures ok { IfOk result (λ e. nil_of_trees (tables_in tables.now) place (parts_after (views parts.now)) ≡ Ok (typed_in e)) }
    ensures refused { IfErr result (λ e. IfRefusal e (λ r. nil_of_trees (tables_in tables.now) place (parts_after (views parts.now)) ≡ Err r)) }
{
    let [_, item] = parts else {
        return Err(refusal(WRONG_COUNT, place));
    };
    let item = type_at(alloc, &tables.names, item)?;
    Ok(empty_list(alloc, place, item)?)
}

fn empty_list(alloc: Global, place: Place, item: Ty) -> Result<Typed, Memory>
    ensures { IfOk result (λ e. typed_in e ≡ typed place (list_type (view_type item)) (ExprData.empty (view_type item))) }
{
    let ty = list_of(alloc, &item)?;
    Ok(Typed {
        place,
        ty,
        expr: Expr::Nil(item),
    })
}
