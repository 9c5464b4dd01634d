//! What trees are as expressions.
ghost use Rattle.std.specs.Prelude.{◌≡◌, Ok, Err, OnOk, IfOk, IfErr, [], map, drop};
ghost use Rattle.qk_syntax.specs.PlainTrees.{list};
ghost use Rattle.qk_syntax.specs.Refusals.{IfRefusal};
ghost use Rattle.qk_syntax.specs.View.{view, views};
ghost use Rattle.qk_expressions.specs.CaseSteps.{case_at as case_of_tree};
ghost use Rattle.qk_expressions.specs.ExpressionSteps.{operator_at as operator_of_trees, let_body as let_body_of};
ghost use Rattle.qk_expressions.specs.Expressions.{expression as expression_of, expressions as expressions_of, let_at as let_of_trees, match_at as match_of_trees, cases_at as cases_of_trees};
ghost use Rattle.qk_expressions.specs.Patterns.{no_cases};
ghost use Rattle.qk_typing.specs.PartsView.{operator_in, words_in};
ghost use Rattle.qk_expressions.specs.CasesView.{shape_in, cases_in};
ghost use Rattle.qk_headers.specs.Scopes.{bind_all as all_bound};
ghost use Rattle.qk_typing.specs.TablesView.{tables_in, typed_in};
ghost use Rattle.qk_headers.specs.TypesOf.{parts_after};
ghost use Rattle.qk_value.specs.View.{view_type};

use crate::atoms::{lone_name, nil_at, number};
use crate::matching::{matched, shapes_at};
use crate::patterns::{Cases, Shape, pattern_shape, variables_in};
use qk_base::{Bytes, Fault, Place, Seq};
use qk_headers::{Tables, Typed, Variable};
use qk_names::{UNKNOWN_FORM, WRONG_COUNT, refusal};
use qk_syntax::{Node, Tree};
use qk_typing::{
    Form, Operator, applied, bind, bind_all, bound, check_count, head_form, unbind, variable_at,
};
use qk_value::Ty;
use std::alloc::Global;

/// The expression that a tree is, where these variables are seen.
#[cycle(expressions)]
pub fn expression(
    alloc: Global,
    tables: &Tables,
    scope: &mut Seq<Variable>,
    tree: &Tree,
) -> Result<Typed, Fault>
    ensures ok { IfOk result (λ e. expression_of (tables_in tables.now) scope.old.items (view tree.now) ≡ Ok (typed_in e)) }
    ensures scope { OnOk result (scope.new.items ≡ scope.old.items) }
    ensures refused { IfErr result (λ e. IfRefusal e (λ r. expression_of (tables_in tables.now) scope.old.items (view tree.now) ≡ Err r)) }
{
    match &tree.node {
        Node::Number(n) => Ok(number(tree.place, *n)),
        Node::Name(word) => {
            lone_name(alloc, tables, scope.as_slice(), tree.place, word.as_slice())
        }
        Node::List(parts) => headed(alloc, tables, scope, tree.place, parts.as_slice()),
    }
}

#[cycle(expressions)]
fn headed(
    alloc: Global,
    tables: &Tables,
    scope: &mut Seq<Variable>,
    place: Place,
    parts: &[Tree],
) -> Result<Typed, Fault>
    ensures ok { IfOk result (λ e. expression_of (tables_in tables.now) scope.old.items (list place (views parts.now)) ≡ Ok (typed_in e)) }
    ensures scope { OnOk result (scope.new.items ≡ scope.old.items) }
    ensures refused { IfErr result (λ e. IfRefusal e (λ r. expression_of (tables_in tables.now) scope.old.items (list place (views parts.now)) ≡ Err r)) }
{
    let [head, ..] = parts else {
        return Err(refusal(UNKNOWN_FORM, place));
    };
    match head_form(&tables.names, place, head)? {
        Form::EmptyList => nil_at(alloc, tables, place, parts),
        Form::Binding => let_at(alloc, tables, scope, place, parts),
        Form::Matching => match_at(alloc, tables, scope, place, parts),
        Form::Operator(op) => operator_at(alloc, tables, scope, place, parts, op),
    }
}

#[cycle(expressions)]
fn operator_at(
    alloc: Global,
    tables: &Tables,
    scope: &mut Seq<Variable>,
    place: Place,
    parts: &[Tree],
    op: Operator,
) -> Result<Typed, Fault>
    ensures ok { IfOk result (λ e. operator_of_trees (tables_in tables.now) scope.old.items place (parts_after (views parts.now)) (operator_in op) ≡ Ok (typed_in e)) }
    ensures scope { OnOk result (scope.new.items ≡ scope.old.items) }
    ensures refused { IfErr result (λ e. IfRefusal e (λ r. operator_of_trees (tables_in tables.now) scope.old.items place (parts_after (views parts.now)) (operator_in op) ≡ Err r)) }
{
    check_count(&tables.headers, place, op, parts)?;
    let parts = arguments(alloc, tables, scope, parts)?;
    applied(alloc, &tables.headers, place, op, parts)
}

/// The expressions after the head of a list.
#[cycle(expressions)]
pub fn arguments(
    alloc: Global,
    tables: &Tables,
    scope: &mut Seq<Variable>,
    parts: &[Tree],
) -> Result<Seq<Typed>, Fault>
    ensures ok { IfOk result (λ es. expressions_of (tables_in tables.now) scope.old.items [] (parts_after (views parts.now)) ≡ Ok (map typed_in es.items)) }
    ensures scope { OnOk result (scope.new.items ≡ scope.old.items) }
    ensures refused { IfErr result (λ e. IfRefusal e (λ r. expressions_of (tables_in tables.now) scope.old.items [] (parts_after (views parts.now)) ≡ Err r)) }
{
    let mut seen = Seq::make(alloc);
    for i in 1..parts.len() {
        seen.add(expression(alloc, tables, scope, &parts[i])?)?;
    }
    Ok(seen)
}

#[cycle(expressions)]
fn let_at(
    alloc: Global,
    tables: &Tables,
    scope: &mut Seq<Variable>,
    place: Place,
    parts: &[Tree],
) -> Result<Typed, Fault>
    ensures ok { IfOk result (λ e. let_of_trees (tables_in tables.now) scope.old.items place (parts_after (views parts.now)) ≡ Ok (typed_in e)) }
    ensures scope { OnOk result (scope.new.items ≡ scope.old.items) }
    ensures refused { IfErr result (λ e. IfRefusal e (λ r. let_of_trees (tables_in tables.now) scope.old.items place (parts_after (views parts.now)) ≡ Err r)) }
{
    let [_, variable, value, body] = parts else {
        return Err(refusal(WRONG_COUNT, place));
    };
    let name = variable_at(alloc, &[], variable)?;
    let value = expression(alloc, tables, scope, value)?;
    let_body(alloc, tables, scope, body, place, name, value)
}

/// What a variable is bound to, and the body that sees it.
#[cycle(expressions)]
fn let_body(
    alloc: Global,
    tables: &Tables,
    scope: &mut Seq<Variable>,
    tree: &Tree,
    place: Place,
    name: Bytes,
    value: Typed,
) -> Result<Typed, Fault>
    ensures ok { IfOk result (λ e. let_body_of (tables_in tables.now) scope.old.items place name.items (typed_in value) (view tree.now) ≡ Ok (typed_in e)) }
    ensures scope { OnOk result (scope.new.items ≡ scope.old.items) }
    ensures refused { IfErr result (λ e. IfRefusal e (λ r. let_body_of (tables_in tables.now) scope.old.items place name.items (typed_in value) (view tree.now) ≡ Err r)) }
{
    let seen = scope.len();
    bind(alloc, scope, name.as_slice(), &value.ty)?;
    let body = expression(alloc, tables, scope, tree)?;
    unbind(scope, seen);
    Ok(bound(alloc, place, value.expr, body)?)
}

#[cycle(expressions)]
fn match_at(
    alloc: Global,
    tables: &Tables,
    scope: &mut Seq<Variable>,
    place: Place,
    parts: &[Tree],
) -> Result<Typed, Fault>
    ensures ok { IfOk result (λ e. match_of_trees (tables_in tables.now) scope.old.items place (parts_after (views parts.now)) ≡ Ok (typed_in e)) }
    ensures scope { OnOk result (scope.new.items ≡ scope.old.items) }
    ensures refused { IfErr result (λ e. IfRefusal e (λ r. match_of_trees (tables_in tables.now) scope.old.items place (parts_after (views parts.now)) ≡ Err r)) }
{
    let [_, value, ..] = parts else {
        return Err(refusal(WRONG_COUNT, place));
    };
    let value = expression(alloc, tables, scope, value)?;
    let shapes = shapes_at(alloc, &tables.headers, place, &value.ty)?;
    let known = shapes.as_slice();
    let cases = cases_at(alloc, tables, scope, parts, known)?;
    matched(alloc, place, known, value, cases)
}

/// The cases after the head of a match and its value.
#[cycle(expressions)]
fn cases_at(
    alloc: Global,
    tables: &Tables,
    scope: &mut Seq<Variable>,
    parts: &[Tree],
    shapes: &[Shape],
) -> Result<Cases, Fault>
    ensures ok { IfOk result (λ cs. cases_of_trees (tables_in tables.now) scope.old.items (map shape_in shapes.now) no_cases (views (drop 2 parts.now)) ≡ Ok (cases_in cs)) }
    ensures scope { OnOk result (scope.new.items ≡ scope.old.items) }
    ensures refused { IfErr result (λ e. IfRefusal e (λ r. cases_of_trees (tables_in tables.now) scope.old.items (map shape_in shapes.now) no_cases (views (drop 2 parts.now)) ≡ Err r)) }
{
    let mut cases = Cases::none(alloc);
    for i in 2..parts.len() {
        case_at(alloc, tables, scope, &parts[i], shapes, &mut cases)?;
    }
    Ok(cases)
}

/// Adds a case to those before it.
#[cycle(expressions)]
fn case_at(
    alloc: Global,
    tables: &Tables,
    scope: &mut Seq<Variable>,
    tree: &Tree,
    shapes: &[Shape],
    cases: &mut Cases,
) -> Result<(), Fault>
    ensures ok { OnOk result (case_of_tree (tables_in tables.now) scope.old.items (map shape_in shapes.now) (cases_in cases.old) (view tree.now) ≡ Ok (cases_in cases.new)) }
    ensures scope { OnOk result (scope.new.items ≡ scope.old.items) }
    ensures refused { IfErr result (λ e. IfRefusal e (λ r. case_of_tree (tables_in tables.now) scope.old.items (map shape_in shapes.now) (cases_in cases.old) (view tree.now) ≡ Err r)) }
{
    match &tree.node {
        Node::List(parts) => {
            case_of(
                alloc,
                tables,
                scope,
                tree.place,
                parts.as_slice(),
                shapes,
                cases,
            )
        }
        _ => Err(refusal(UNKNOWN_FORM, tree.place)),
    }
}

#[cycle(expressions)]
fn case_of(
    alloc: Global,
    tables: &Tables,
    scope: &mut Seq<Variable>,
    place: Place,
    parts: &[Tree],
    shapes: &[Shape],
    cases: &mut Cases,
) -> Result<(), Fault>
    ensures ok { OnOk result (case_of_tree (tables_in tables.now) scope.old.items (map shape_in shapes.now) (cases_in cases.old) (list place (views parts.now)) ≡ Ok (cases_in cases.new)) }
    ensures scope { OnOk result (scope.new.items ≡ scope.old.items) }
    ensures refused { IfErr result (λ e. IfRefusal e (λ r. case_of_tree (tables_in tables.now) scope.old.items (map shape_in shapes.now) (cases_in cases.old) (list place (views parts.now)) ≡ Err r)) }
{
    let [pattern, body] = parts else {
        return Err(refusal(UNKNOWN_FORM, place));
    };
    let shape = pattern_shape(&tables.names, shapes, cases, place, pattern)?;
    let names = variables_in(alloc, pattern)?;
    let words = names.as_slice();
    let types = shape.fields.as_slice();
    let body = body_under(alloc, tables, scope, body, words, types)?;
    cases.add(alloc, shape, body)
}

/// The expression that a tree is, where these variables are seen too.
#[cycle(expressions)]
fn body_under(
    alloc: Global,
    tables: &Tables,
    scope: &mut Seq<Variable>,
    tree: &Tree,
    names: &[Bytes],
    types: &[Ty],
) -> Result<Typed, Fault>
    ensures ok { IfOk result (λ e. expression_of (tables_in tables.now) (all_bound scope.old.items (words_in names.now) (map view_type types.now)) (view tree.now) ≡ Ok (typed_in e)) }
    ensures scope { OnOk result (scope.new.items ≡ scope.old.items) }
    ensures refused { IfErr result (λ e. IfRefusal e (λ r. expression_of (tables_in tables.now) (all_bound scope.old.items (words_in names.now) (map view_type types.now)) (view tree.now) ≡ Err r)) }
{
    let seen = scope.len();
    bind_all(alloc, scope, names, types)?;
    let body = expression(alloc, tables, scope, tree)?;
    unbind(scope, seen);
    Ok(body)
}
