//! How a binder's value is drawn and shrunk.
ghost use Rattle.std.specs.Prelude.{◌≡◌, ◌∷◌, [], Ok, Err, OnOk, IfOk, IfErr, option_map, unwrap_or};
ghost use Rattle.std.specs.Option.{option_copied};
ghost use Rattle.qk_syntax.specs.PlainTrees.{list};
ghost use Rattle.qk_syntax.specs.Refusals.{IfRefusal};
ghost use Rattle.qk_syntax.specs.View.{view, views};
ghost use Rattle.qk_clauses.specs.Binders.{commands_of, drawn_by as drawn_by_tree, draw_at as draw_of, shrink_with as shrink_with_of, shrink_at as shrink_of, shrink_or_builtin as shrink_or_builtin_of};
ghost use Rattle.qk_clauses.specs.BoundView.{draw_in, is_commands, headed_commands};
ghost use Rattle.qk_clauses.specs.Models.{function_at};
ghost use Rattle.qk_typing.specs.TablesView.{tables_in};
ghost use Rattle.qk_headers.specs.TypesOf.{parts_after};
ghost use Rattle.qk_value.specs.Types.{int_type, list_type};
ghost use Rattle.qk_value.specs.View.{view_type};

use crate::signed::{function_from_one, model_named};
use qk_base::{Fault, Memory, Place, Seq};
use qk_core::{Draw, ShrinkBy};
use qk_generators::{Drawn, generator};
use qk_headers::{ModelTypes, Tables, Variable, listed, reads};
use qk_names::{UNKNOWN_FORM, WRONG_COUNT, refusal};
use qk_syntax::{Node, Tree};
use qk_value::Ty;
use std::alloc::Global;

/// How values are drawn, and their type.
#[derive(Drop)]
pub struct TypedDraw {
    pub ty: Ty,
    pub draw: Draw,
}

/// A generator, or `(commands MODEL)`.
pub fn draw_at(
    alloc: Global,
    tables: &Tables,
    scope: &mut Seq<Variable>,
    tree: &Tree,
) -> Result<TypedDraw, Fault>
    ensures draw { IfOk result (λ d. draw_of (tables_in tables.now) scope.old.items (view tree.now) ≡ Ok (draw_in d)) }
    ensures scope { OnOk result (scope.new.items ≡ scope.old.items) }
    ensures refused { IfErr result (λ e. IfRefusal e (λ r. draw_of (tables_in tables.now) scope.old.items (view tree.now) ≡ Err r)) }
{
    if draws_commands(tree) {
        return commands_at(alloc, tables, tree);
    }
    drawn_by(alloc, tables, scope, tree)
}

fn draws_commands(tree: &Tree) -> bool
    ensures { result ≡ is_commands (view tree.now) }
{
    let Node::List(parts) = &tree.node else {
        return false;
    };
    let [head, ..] = parts.as_slice() else {
        return false;
    };
    match &head.node {
        Node::Name(word) => word.as_slice() == b"commands".as_slice(),
        _ => false,
    }
}

fn drawn_by(
    alloc: Global,
    tables: &Tables,
    scope: &mut Seq<Variable>,
    tree: &Tree,
) -> Result<TypedDraw, Fault>
    ensures draw { IfOk result (λ d. drawn_by_tree (tables_in tables.now) scope.old.items (view tree.now) ≡ Ok (draw_in d)) }
    ensures scope { OnOk result (scope.new.items ≡ scope.old.items) }
    ensures refused { IfErr result (λ e. IfRefusal e (λ r. drawn_by_tree (tables_in tables.now) scope.old.items (view tree.now) ≡ Err r)) }
{
    let g = generator(alloc, tables, scope, tree)?;
    Ok(TypedDraw {
        ty: g.ty,
        draw: Draw::Plain(g.gen_expr),
    })
}

/// What stands after `commands` is the name of a model.
fn commands_at(alloc: Global, tables: &Tables, tree: &Tree) -> Result<TypedDraw, Fault>
    ensures draw { IfOk result (λ d. headed_commands (tables_in tables.now) (view tree.now) ≡ Ok (draw_in d)) }
    ensures refused { IfErr result (λ e. IfRefusal e (λ r. headed_commands (tables_in tables.now) (view tree.now) ≡ Err r)) }
{
    match &tree.node {
        Node::List(parts) => command_parts(alloc, tables, tree.place, parts.as_slice()),
        _ => Err(refusal(UNKNOWN_FORM, tree.place)),
    }
}

fn command_parts(
    alloc: Global,
    tables: &Tables,
    place: Place,
    parts: &[Tree],
) -> Result<TypedDraw, Fault>
    ensures draw { IfOk result (λ d. commands_of (tables_in tables.now) place (parts_after (views parts.now)) ≡ Ok (draw_in d)) }
    ensures refused { IfErr result (λ e. IfRefusal e (λ r. commands_of (tables_in tables.now) place (parts_after (views parts.now)) ≡ Err r)) }
{
    let [_head, model] = parts else {
        return Err(refusal(WRONG_COUNT, place));
    };
    let model = model_named(tables, model)?;
    let command = command_type(alloc, tables.headers.models.get(model as usize))?;
    let ty = listed(alloc, command)?;
    Ok(TypedDraw {
        ty,
        draw: Draw::Commands(model),
    })
}

/// The type of the commands of a model.
fn command_type(alloc: Global, found: Option<&ModelTypes>) -> Result<Ty, Memory>
    ensures { IfOk result (λ t. view_type t ≡ unwrap_or (option_map (λ model. model.command) (option_copied found.entry)) int_type) }
{
    match found {
        Some(types) => types.command.copy(alloc),
        None => Ok(Ty::Int),
    }
}

/// How values of the type are shrunk, where the binder may say so.
pub fn shrink_or_builtin(
    alloc: Global,
    tables: &Tables,
    ty: &Ty,
    shrink: Option<&Tree>,
) -> Result<ShrinkBy, Fault>
    ensures ok { IfOk result (λ s. shrink_or_builtin_of (tables_in tables.now) (view_type ty.now) (option_map view (option_copied shrink.entry)) ≡ Ok s) }
    ensures refused { IfErr result (λ e. IfRefusal e (λ r. shrink_or_builtin_of (tables_in tables.now) (view_type ty.now) (option_map view (option_copied shrink.entry)) ≡ Err r)) }
{
    match shrink {
        Some(tree) => shrink_at(alloc, tables, ty, tree),
        None => Ok(ShrinkBy::Builtin),
    }
}

fn shrink_at(alloc: Global, tables: &Tables, ty: &Ty, tree: &Tree) -> Result<ShrinkBy, Fault>
    ensures ok { IfOk result (λ s. shrink_of (tables_in tables.now) (view_type ty.now) (view tree.now) ≡ Ok s) }
    ensures refused { IfErr result (λ e. IfRefusal e (λ r. shrink_of (tables_in tables.now) (view_type ty.now) (view tree.now) ≡ Err r)) }
{
    match &tree.node {
        Node::Number(_) => Err(refusal(UNKNOWN_FORM, tree.place)),
        Node::Name(word) => {
            reads(word.as_slice(), b"no-shrink".as_slice(), tree.place)?;
            Ok(ShrinkBy::Nothing)
        }
        Node::List(parts) => headed_shrink(alloc, tables, ty, tree.place, parts.as_slice()),
    }
}

fn headed_shrink(
    alloc: Global,
    tables: &Tables,
    ty: &Ty,
    place: Place,
    parts: &[Tree],
) -> Result<ShrinkBy, Fault>
    ensures ok { IfOk result (λ s. shrink_of (tables_in tables.now) (view_type ty.now) (list place (views parts.now)) ≡ Ok s) }
    ensures refused { IfErr result (λ e. IfRefusal e (λ r. shrink_of (tables_in tables.now) (view_type ty.now) (list place (views parts.now)) ≡ Err r)) }
{
    let [head, parts @ ..] = parts else {
        return Err(refusal(UNKNOWN_FORM, place));
    };
    let Node::Name(word) = &head.node else {
        return Err(refusal(UNKNOWN_FORM, place));
    };
    reads(word.as_slice(), b"shrink-with".as_slice(), place)?;
    shrink_with(alloc, tables, ty, place, parts)
}

fn shrink_with(
    alloc: Global,
    tables: &Tables,
    ty: &Ty,
    place: Place,
    parts: &[Tree],
) -> Result<ShrinkBy, Fault>
    ensures ok { IfOk result (λ s. shrink_with_of (tables_in tables.now) (view_type ty.now) place (views parts.now) ≡ Ok s) }
    ensures refused { IfErr result (λ e. IfRefusal e (λ r. shrink_with_of (tables_in tables.now) (view_type ty.now) place (views parts.now) ≡ Err r)) }
{
    let [function] = parts else {
        return Err(refusal(WRONG_COUNT, place));
    };
    let function = shrinker(alloc, tables, ty, function)?;
    Ok(ShrinkBy::Function(function))
}

/// A function from a value of the type to the list of its candidates.
fn shrinker(alloc: Global, tables: &Tables, ty: &Ty, tree: &Tree) -> Result<u32, Fault>
    ensures ok { IfOk result (λ f. function_at (tables_in tables.now) (view_type ty.now ∷ []) (list_type (view_type ty.now)) (view tree.now) ≡ Ok f) }
    ensures refused { IfErr result (λ e. IfRefusal e (λ r. function_at (tables_in tables.now) (view_type ty.now ∷ []) (list_type (view_type ty.now)) (view tree.now) ≡ Err r)) }
{
    let item = ty.copy(alloc)?;
    let candidates = listed(alloc, item)?;
    function_from_one(tables, ty, &candidates, tree)
}
