//! The parts of clauses: names, percentages, expressions, and binders that draw commands.
ghost use Rattle.std.specs.Prelude.{◌≡◌, Ok, Err, OnOk, IfOk, IfErr};
ghost use Rattle.qk_core.specs.ExprView.{view_expr};
ghost use Rattle.qk_core.specs.PropertyView.{view_draw, view_check};
ghost use Rattle.qk_syntax.specs.PlainTrees.{number};
ghost use Rattle.qk_syntax.specs.Refusals.{IfRefusal};
ghost use Rattle.qk_syntax.specs.View.{view};
ghost use Rattle.qk_clauses.specs.BoundView.{Sees, KeepsBound};
ghost use Rattle.qk_clauses.specs.Clauses.{any_name as any_name_of, value_at as value_of, truth_at as truth_of, percent_at as percent_of, runs_after as runs_after_of, runs_at as runs_of};
ghost use Rattle.qk_clauses.specs.ClausesView.{class_in, class_at as class_of, runs_drawn as runs_of_draw};
ghost use Rattle.qk_typing.specs.TablesView.{tables_in, typed_in};

use crate::agreeing::{has_type, truth_type, typed_expression};
use crate::binders::Bound;
use qk_base::{Bytes, Fault, Place};
use qk_core::{Binder, Check, Draw, Expr};
use qk_expressions::expression;
use qk_headers::{Tables, Typed, bytes_of};
use qk_names::{NO_PERCENTAGE, UNKNOWN_FORM, UNKNOWN_NAME, WRONG_TYPE, refusal};
use qk_syntax::{Node, Tree};
use std::alloc::Global;

/// An expression that is true or not, and the name of the attempts where it is true.
#[derive(Drop)]
pub struct Class {
    pub truth: Expr,
    pub name: Bytes,
}

/// A name, whatever it is.
pub fn any_name(alloc: Global, tree: &Tree) -> Result<Bytes, Fault>
    ensures name { IfOk result (λ w. any_name_of (view tree.now) ≡ Ok w.items) }
    ensures refused { IfErr result (λ e. IfRefusal e (λ r. any_name_of (view tree.now) ≡ Err r)) }
{
    match &tree.node {
        Node::Name(word) => Ok(bytes_of(alloc, word.as_slice())?),
        _ => Err(refusal(UNKNOWN_FORM, tree.place)),
    }
}

/// An expression that sees the binders.
pub fn value_at(
    alloc: Global,
    tables: &Tables,
    bound: &mut Bound,
    tree: &Tree,
) -> Result<Typed, Fault>
    requires { Sees bound.old }
    ensures ok { IfOk result (λ e. value_of (tables_in tables.now) bound.old.binders.items (view tree.now) ≡ Ok (typed_in e)) }
    ensures bound { OnOk result (KeepsBound bound.old bound.new) }
    ensures refused { IfErr result (λ e. IfRefusal e (λ r. value_of (tables_in tables.now) bound.old.binders.items (view tree.now) ≡ Err r)) }
{
    expression(alloc, tables, &mut bound.scope, tree)
}

/// A truth value that sees the binders.
pub fn truth_at(
    alloc: Global,
    tables: &Tables,
    bound: &mut Bound,
    tree: &Tree,
) -> Result<Expr, Fault>
    requires { Sees bound.old }
    ensures ok { IfOk result (λ e. truth_of (tables_in tables.now) bound.old.binders.items (view tree.now) ≡ Ok (view_expr e)) }
    ensures bound { OnOk result (KeepsBound bound.old bound.new) }
    ensures refused { IfErr result (λ e. IfRefusal e (λ r. truth_of (tables_in tables.now) bound.old.binders.items (view tree.now) ≡ Err r)) }
{
    let truth = truth_type();
    typed_expression(alloc, tables, &mut bound.scope, &truth, tree)
}

/// A truth value and then a name.
pub fn class_at(
    alloc: Global,
    tables: &Tables,
    bound: &mut Bound,
    tree: &Tree,
    name: &Tree,
) -> Result<Class, Fault>
    requires { Sees bound.old }
    ensures ok { IfOk result (λ c. class_of (tables_in tables.now) bound.old.binders.items (view tree.now) (view name.now) ≡ Ok (class_in c)) }
    ensures bound { OnOk result (KeepsBound bound.old bound.new) }
    ensures refused { IfErr result (λ e. IfRefusal e (λ r. class_of (tables_in tables.now) bound.old.binders.items (view tree.now) (view name.now) ≡ Err r)) }
{
    let e = value_at(alloc, tables, bound, tree)?;
    let name = any_name(alloc, name)?;
    let truth = truth_type();
    has_type(&truth, &e)?;
    Ok(Class {
        truth: e.expr,
        name,
    })
}

/// A percentage: a number from 0 to 100.
pub fn percent_at(tree: &Tree) -> Result<u32, Fault>
    ensures percent { IfOk result (λ n. percent_of (view tree.now) ≡ Ok n) }
    ensures refused { IfErr result (λ e. IfRefusal e (λ r. percent_of (view tree.now) ≡ Err r)) }
{
    match &tree.node {
        Node::Number(n) => percentage(*n, tree.place),
        _ => Err(refusal(UNKNOWN_FORM, tree.place)),
    }
}

fn percentage(n: i64, place: Place) -> Result<u32, Fault>
    ensures percent { IfOk result (λ k. percent_of (number place n) ≡ Ok k) }
    ensures refused { IfErr result (λ e. IfRefusal e (λ r. percent_of (number place n) ≡ Err r)) }
{
    if n < 0 || n > 100 {
        return Err(refusal(NO_PERCENTAGE, place));
    }
    Ok(n as u32)
}

/// That the commands of the binder run that the tree names.
pub fn runs_at(binders: &[Binder], tree: &Tree) -> Result<Check, Fault>
    ensures check { IfOk result (λ c. runs_of binders.now (view tree.now) ≡ Ok (view_check c)) }
    ensures refused { IfErr result (λ e. IfRefusal e (λ r. runs_of binders.now (view tree.now) ≡ Err r)) }
{
    match &tree.node {
        Node::Name(word) => runs_named(binders, tree.place, word.as_slice()),
        _ => Err(refusal(UNKNOWN_FORM, tree.place)),
    }
}

fn runs_named(binders: &[Binder], place: Place, word: &[u8]) -> Result<Check, Fault>
    ensures check { IfOk result (λ c. runs_after_of 0 place binders.now word.now ≡ Ok (view_check c)) }
    ensures refused { IfErr result (λ e. IfRefusal e (λ r. runs_after_of 0 place binders.now word.now ≡ Err r)) }
{
    // So many binders have no room in memory.
    if binders.len() > u32::MAX as usize {
        return Err(Fault::Memory);
    }
    for (index, binder) in binders.iter().enumerate() {
        if binder.name.as_slice() == word {
            return runs_drawn(index as u32, place, &binder.draw);
        }
    }
    Err(refusal(UNKNOWN_NAME, place))
}

fn runs_drawn(index: u32, place: Place, draw: &Draw) -> Result<Check, Fault>
    ensures check { IfOk result (λ c. runs_of_draw index place (view_draw draw.now) ≡ Ok (view_check c)) }
    ensures refused { IfErr result (λ e. IfRefusal e (λ r. runs_of_draw index place (view_draw draw.now) ≡ Err r)) }
{
    match draw {
        Draw::Commands(_) => Ok(Check::Runs(index)),
        Draw::Plain(_) => Err(refusal(WRONG_TYPE, place)),
    }
}
