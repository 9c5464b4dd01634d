//! What trees are as generators.
ghost use Rattle.std.specs.Prelude.{◌≡◌, Ok, Err, OnOk, IfOk, IfErr, [], map};
ghost use Rattle.qk_syntax.specs.PlainTrees.{list};
ghost use Rattle.qk_syntax.specs.Refusals.{IfRefusal};
ghost use Rattle.qk_syntax.specs.View.{view, views};
ghost use Rattle.qk_generators.specs.DrawingView.{draws_in, sized_in, values_in, part_in, drawn_in};
ghost use Rattle.qk_generators.specs.GenSteps.{values_at as values_of_trees, draws_at as draws_of_trees, frequency_at as frequency_of_trees, bind_body as bind_body_of, part_at as part_of_tree};
ghost use Rattle.qk_generators.specs.Generators.{generator as generator_of, generators as generators_of, sized_at as sized_of_trees, bind_at as bind_of_trees, parts_at as parts_of_trees};
ghost use Rattle.qk_typing.specs.TablesView.{tables_in};
ghost use Rattle.qk_headers.specs.TypesOf.{parts_after};

use crate::drawing::{check_draws, check_values, of_draws, of_values};
use crate::drawn_types::Drawn;
use crate::gen_heads::{GenForm, OfDraws, OfValues, Sized, gen_head_form, lone_gen};
use crate::gen_nodes::{gen_bound, of_sized};
use crate::weights::{Part, check_some, of_parts, weight_of};
use qk_base::{Bytes, Fault, Place, Seq};
use qk_expressions::{arguments, expression};
use qk_headers::{Tables, Variable};
use qk_names::{UNKNOWN_FORM, WRONG_COUNT, refusal};
use qk_syntax::{Node, Tree};
use qk_typing::{bind, unbind, variable_at};
use std::alloc::Global;

/// The generator that a tree is, where these variables are seen.
#[cycle(generators)]
pub fn generator(
    alloc: Global,
    tables: &Tables,
    scope: &mut Seq<Variable>,
    tree: &Tree,
) -> Result<Drawn, Fault>
    ensures ok { IfOk result (λ g. generator_of (tables_in tables.now) scope.old.items (view tree.now) ≡ Ok (drawn_in g)) }
    ensures scope { OnOk result (scope.new.items ≡ scope.old.items) }
    ensures refused { IfErr result (λ e. IfRefusal e (λ r. generator_of (tables_in tables.now) scope.old.items (view tree.now) ≡ Err r)) }
{
    match &tree.node {
        Node::Number(_) => Err(refusal(UNKNOWN_FORM, tree.place)),
        Node::Name(word) => lone_gen(&tables.names, tree.place, word.as_slice()),
        Node::List(parts) => headed_gen(alloc, tables, scope, tree.place, parts.as_slice()),
    }
}

#[cycle(generators)]
fn headed_gen(
    alloc: Global,
    tables: &Tables,
    scope: &mut Seq<Variable>,
    place: Place,
    parts: &[Tree],
) -> Result<Drawn, Fault>
    ensures ok { IfOk result (λ g. generator_of (tables_in tables.now) scope.old.items (list place (views parts.now)) ≡ Ok (drawn_in g)) }
    ensures scope { OnOk result (scope.new.items ≡ scope.old.items) }
    ensures refused { IfErr result (λ e. IfRefusal e (λ r. generator_of (tables_in tables.now) scope.old.items (list place (views parts.now)) ≡ Err r)) }
{
    let [head, ..] = parts else {
        return Err(refusal(UNKNOWN_FORM, place));
    };
    match gen_head_form(&tables.names, place, head)? {
        GenForm::Values(form) => values_at(alloc, tables, scope, place, parts, form),
        GenForm::Draws(form) => draws_at(alloc, tables, scope, place, parts, form),
        GenForm::Sized(form) => sized_at(alloc, tables, scope, place, parts, form),
        GenForm::Bind => bind_at(alloc, tables, scope, place, parts),
        GenForm::Frequency => frequency_at(alloc, tables, scope, place, parts),
    }
}

fn values_at(
    alloc: Global,
    tables: &Tables,
    scope: &mut Seq<Variable>,
    place: Place,
    parts: &[Tree],
    form: OfValues,
) -> Result<Drawn, Fault>
    ensures ok { IfOk result (λ g. values_of_trees (tables_in tables.now) scope.old.items place (parts_after (views parts.now)) (values_in form) ≡ Ok (drawn_in g)) }
    ensures scope { OnOk result (scope.new.items ≡ scope.old.items) }
    ensures refused { IfErr result (λ e. IfRefusal e (λ r. values_of_trees (tables_in tables.now) scope.old.items place (parts_after (views parts.now)) (values_in form) ≡ Err r)) }
{
    check_values(&tables.headers, place, form, parts)?;
    let parts = arguments(alloc, tables, scope, parts)?;
    of_values(alloc, &tables.headers, place, form, parts)
}

#[cycle(generators)]
fn draws_at(
    alloc: Global,
    tables: &Tables,
    scope: &mut Seq<Variable>,
    place: Place,
    parts: &[Tree],
    form: OfDraws,
) -> Result<Drawn, Fault>
    ensures ok { IfOk result (λ g. draws_of_trees (tables_in tables.now) scope.old.items place (parts_after (views parts.now)) (draws_in form) ≡ Ok (drawn_in g)) }
    ensures scope { OnOk result (scope.new.items ≡ scope.old.items) }
    ensures refused { IfErr result (λ e. IfRefusal e (λ r. draws_of_trees (tables_in tables.now) scope.old.items place (parts_after (views parts.now)) (draws_in form) ≡ Err r)) }
{
    check_draws(&tables.headers, place, form, parts)?;
    let parts = drawn_parts(alloc, tables, scope, parts)?;
    of_draws(alloc, &tables.headers, place, form, parts)
}

/// The generators after the head of a list.
#[cycle(generators)]
fn drawn_parts(
    alloc: Global,
    tables: &Tables,
    scope: &mut Seq<Variable>,
    parts: &[Tree],
) -> Result<Seq<Drawn>, Fault>
    ensures ok { IfOk result (λ gs. generators_of (tables_in tables.now) scope.old.items [] (parts_after (views parts.now)) ≡ Ok (map drawn_in gs.items)) }
    ensures scope { OnOk result (scope.new.items ≡ scope.old.items) }
    ensures refused { IfErr result (λ e. IfRefusal e (λ r. generators_of (tables_in tables.now) scope.old.items [] (parts_after (views parts.now)) ≡ Err r)) }
{
    let mut seen = Seq::make(alloc);
    for i in 1..parts.len() {
        seen.add(generator(alloc, tables, scope, &parts[i])?)?;
    }
    Ok(seen)
}

#[cycle(generators)]
fn sized_at(
    alloc: Global,
    tables: &Tables,
    scope: &mut Seq<Variable>,
    place: Place,
    parts: &[Tree],
    form: Sized,
) -> Result<Drawn, Fault>
    ensures ok { IfOk result (λ g. sized_of_trees (tables_in tables.now) scope.old.items place (sized_in form) (parts_after (views parts.now)) ≡ Ok (drawn_in g)) }
    ensures scope { OnOk result (scope.new.items ≡ scope.old.items) }
    ensures refused { IfErr result (λ e. IfRefusal e (λ r. sized_of_trees (tables_in tables.now) scope.old.items place (sized_in form) (parts_after (views parts.now)) ≡ Err r)) }
{
    let [_, size, body] = parts else {
        return Err(refusal(WRONG_COUNT, place));
    };
    let size = expression(alloc, tables, scope, size)?;
    let body = generator(alloc, tables, scope, body)?;
    of_sized(alloc, place, form, size, body)
}

#[cycle(generators)]
fn bind_at(
    alloc: Global,
    tables: &Tables,
    scope: &mut Seq<Variable>,
    place: Place,
    parts: &[Tree],
) -> Result<Drawn, Fault>
    ensures ok { IfOk result (λ g. bind_of_trees (tables_in tables.now) scope.old.items place (parts_after (views parts.now)) ≡ Ok (drawn_in g)) }
    ensures scope { OnOk result (scope.new.items ≡ scope.old.items) }
    ensures refused { IfErr result (λ e. IfRefusal e (λ r. bind_of_trees (tables_in tables.now) scope.old.items place (parts_after (views parts.now)) ≡ Err r)) }
{
    let [_, variable, first, body] = parts else {
        return Err(refusal(WRONG_COUNT, place));
    };
    let name = variable_at(alloc, &[], variable)?;
    let first = generator(alloc, tables, scope, first)?;
    bind_body(alloc, tables, scope, body, place, name, first)
}

/// What a variable is drawn by, and the generator that sees it.
#[cycle(generators)]
fn bind_body(
    alloc: Global,
    tables: &Tables,
    scope: &mut Seq<Variable>,
    tree: &Tree,
    place: Place,
    name: Bytes,
    first: Drawn,
) -> Result<Drawn, Fault>
    ensures ok { IfOk result (λ g. bind_body_of (tables_in tables.now) scope.old.items place name.items (drawn_in first) (view tree.now) ≡ Ok (drawn_in g)) }
    ensures scope { OnOk result (scope.new.items ≡ scope.old.items) }
    ensures refused { IfErr result (λ e. IfRefusal e (λ r. bind_body_of (tables_in tables.now) scope.old.items place name.items (drawn_in first) (view tree.now) ≡ Err r)) }
{
    let seen = scope.len();
    bind(alloc, scope, name.as_slice(), &first.ty)?;
    let body = generator(alloc, tables, scope, tree)?;
    unbind(scope, seen);
    Ok(gen_bound(alloc, place, first.gen_expr, body)?)
}

#[cycle(generators)]
fn frequency_at(
    alloc: Global,
    tables: &Tables,
    scope: &mut Seq<Variable>,
    place: Place,
    parts: &[Tree],
) -> Result<Drawn, Fault>
    ensures ok { IfOk result (λ g. frequency_of_trees (tables_in tables.now) scope.old.items place (parts_after (views parts.now)) ≡ Ok (drawn_in g)) }
    ensures scope { OnOk result (scope.new.items ≡ scope.old.items) }
    ensures refused { IfErr result (λ e. IfRefusal e (λ r. frequency_of_trees (tables_in tables.now) scope.old.items place (parts_after (views parts.now)) ≡ Err r)) }
{
    check_some(place, parts)?;
    let parts = weighed_parts(alloc, tables, scope, parts)?;
    of_parts(alloc, place, parts)
}

/// The parts of a frequency after its head.
#[cycle(generators)]
fn weighed_parts(
    alloc: Global,
    tables: &Tables,
    scope: &mut Seq<Variable>,
    parts: &[Tree],
) -> Result<Seq<Part>, Fault>
    ensures ok { IfOk result (λ ps. parts_of_trees (tables_in tables.now) scope.old.items [] (parts_after (views parts.now)) ≡ Ok (map part_in ps.items)) }
    ensures scope { OnOk result (scope.new.items ≡ scope.old.items) }
    ensures refused { IfErr result (λ e. IfRefusal e (λ r. parts_of_trees (tables_in tables.now) scope.old.items [] (parts_after (views parts.now)) ≡ Err r)) }
{
    let mut seen = Seq::make(alloc);
    for i in 1..parts.len() {
        seen.add(part_at(alloc, tables, scope, &parts[i])?)?;
    }
    Ok(seen)
}

#[cycle(generators)]
fn part_at(
    alloc: Global,
    tables: &Tables,
    scope: &mut Seq<Variable>,
    tree: &Tree,
) -> Result<Part, Fault>
    ensures ok { IfOk result (λ part. part_of_tree (tables_in tables.now) scope.old.items (view tree.now) ≡ Ok (part_in part)) }
    ensures scope { OnOk result (scope.new.items ≡ scope.old.items) }
    ensures refused { IfErr result (λ e. IfRefusal e (λ r. part_of_tree (tables_in tables.now) scope.old.items (view tree.now) ≡ Err r)) }
{
    match &tree.node {
        Node::List(parts) => part_of(alloc, tables, scope, tree.place, parts.as_slice()),
        _ => Err(refusal(UNKNOWN_FORM, tree.place)),
    }
}

#[cycle(generators)]
fn part_of(
    alloc: Global,
    tables: &Tables,
    scope: &mut Seq<Variable>,
    place: Place,
    parts: &[Tree],
) -> Result<Part, Fault>
    ensures ok { IfOk result (λ part. part_of_tree (tables_in tables.now) scope.old.items (list place (views parts.now)) ≡ Ok (part_in part)) }
    ensures scope { OnOk result (scope.new.items ≡ scope.old.items) }
    ensures refused { IfErr result (λ e. IfRefusal e (λ r. part_of_tree (tables_in tables.now) scope.old.items (list place (views parts.now)) ≡ Err r)) }
{
    let [weight, body] = parts else {
        return Err(refusal(WRONG_COUNT, place));
    };
    let weight = weight_of(weight)?;
    let body = generator(alloc, tables, scope, body)?;
    Ok(Part { weight, body })
}
