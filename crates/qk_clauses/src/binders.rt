//! The binders of a property, each after those before it.
ghost use Rattle.std.specs.Prelude.{◌≡◌, ◌∷◌, ◌++◌, [], Ok, Err, OnOk, IfOk, IfErr, map, bytes_eq, option_map};
ghost use Rattle.std.specs.List.{list_any};
ghost use Rattle.std.specs.Option.{option_copied};
ghost use Rattle.qk_syntax.specs.PlainTrees.{list};
ghost use Rattle.qk_syntax.specs.Refusals.{IfRefusal};
ghost use Rattle.qk_syntax.specs.View.{view, views};
ghost use Rattle.qk_clauses.specs.Binders.{binder_of as binder_of_parts, binder_at as binder_of_tree, binders_at as binders_of};
ghost use Rattle.qk_clauses.specs.BoundView.{Sees, KeepsBound, AddsBinder};
ghost use Rattle.qk_headers.specs.Scopes.{new_variable, variable_at};
ghost use Rattle.qk_typing.specs.TablesView.{tables_in};

use crate::draws::{draw_at, shrink_or_builtin};
use qk_base::{Bytes, Fault, Memory, Place, Seq};
use qk_core::Binder;
use qk_headers::{Tables, Variable, bind, bytes_of, is_truth};
use qk_names::{DOUBLED_NAME, UNKNOWN_FORM, WRONG_COUNT, refusal};
use qk_syntax::{Node, Tree};
use std::alloc::Global;

/// The binders of a property, and the scope that they make.
#[derive(Drop)]
pub struct Bound {
    pub binders: Seq<Binder>,
    pub scope: Seq<Variable>,
}

/// The binders that trees are, one after another.
pub fn binders_at(alloc: Global, tables: &Tables, trees: &[Tree]) -> Result<Bound, Fault>
    ensures binders { IfOk result (λ b. binders_of (tables_in tables.now) [] (views trees.now) ≡ Ok b.binders.items) }
    ensures scope { IfOk result (λ b. Sees b) }
    ensures refused { IfErr result (λ e. IfRefusal e (λ r. binders_of (tables_in tables.now) [] (views trees.now) ≡ Err r)) }
{
    let mut bound = no_binders(alloc);
    for tree in trees {
        let binder = binder_at(alloc, tables, &mut bound, tree)?;
        add_binder(alloc, &mut bound, binder)?;
    }
    Ok(bound)
}

fn no_binders(alloc: Global) -> Bound
    ensures binders { result.binders.items ≡ [] }
    ensures scope { result.scope.items ≡ [] }
{
    Bound {
        binders: Seq::make(alloc),
        scope: Seq::make(alloc),
    }
}

fn add_binder(alloc: Global, bound: &mut Bound, binder: Binder) -> Result<(), Memory>
    requires { Sees bound.old }
    ensures binders { OnOk result (AddsBinder bound.old.binders.items binder bound.new.binders.items) }
    ensures scope { OnOk result (Sees bound.new) }
{
    let ty = binder.ty.copy(alloc)?;
    bind(alloc, &mut bound.scope, binder.name.as_slice(), ty)?;
    bound.binders.add(binder)
}

fn binder_at(
    alloc: Global,
    tables: &Tables,
    bound: &mut Bound,
    tree: &Tree,
) -> Result<Binder, Fault>
    requires { Sees bound.old }
    ensures binder { IfOk result (λ b. binder_of_tree (tables_in tables.now) bound.old.binders.items (view tree.now) ≡ Ok b) }
    ensures bound { OnOk result (KeepsBound bound.old bound.new) }
    ensures refused { IfErr result (λ e. IfRefusal e (λ r. binder_of_tree (tables_in tables.now) bound.old.binders.items (view tree.now) ≡ Err r)) }
{
    match &tree.node {
        Node::List(parts) => binder_parts(alloc, tables, bound, tree.place, parts.as_slice()),
        _ => Err(refusal(UNKNOWN_FORM, tree.place)),
    }
}

fn binder_parts(
    alloc: Global,
    tables: &Tables,
    bound: &mut Bound,
    place: Place,
    parts: &[Tree],
) -> Result<Binder, Fault>
    requires { Sees bound.old }
    ensures binder { IfOk result (λ b. binder_of_tree (tables_in tables.now) bound.old.binders.items (list place (views parts.now)) ≡ Ok b) }
    ensures bound { OnOk result (KeepsBound bound.old bound.new) }
    ensures refused { IfErr result (λ e. IfRefusal e (λ r. binder_of_tree (tables_in tables.now) bound.old.binders.items (list place (views parts.now)) ≡ Err r)) }
{
    match parts {
        [name, drawn] => binder_of(alloc, tables, bound, name, drawn, None),
        [name, drawn, shrink] => binder_of(alloc, tables, bound, name, drawn, Some(shrink)),
        _ => Err(refusal(WRONG_COUNT, place)),
    }
}

fn binder_of(
    alloc: Global,
    tables: &Tables,
    bound: &mut Bound,
    name: &Tree,
    drawn: &Tree,
    shrink: Option<&Tree>,
) -> Result<Binder, Fault>
    requires { Sees bound.old }
    ensures binder { IfOk result (λ b. binder_of_parts (tables_in tables.now) bound.old.binders.items (view name.now) (view drawn.now) (option_map view (option_copied shrink.entry)) ≡ Ok b) }
    ensures bound { OnOk result (KeepsBound bound.old bound.new) }
    ensures refused { IfErr result (λ e. IfRefusal e (λ r. binder_of_parts (tables_in tables.now) bound.old.binders.items (view name.now) (view drawn.now) (option_map view (option_copied shrink.entry)) ≡ Err r)) }
{
    let name = binder_name(alloc, bound.binders.as_slice(), name)?;
    let draw = draw_at(alloc, tables, &mut bound.scope, drawn)?;
    let shrink = shrink_or_builtin(alloc, tables, &draw.ty, shrink)?;
    Ok(Binder {
        name,
        ty: draw.ty,
        draw: draw.draw,
        shrink,
    })
}

/// The name of a binder after these.
fn binder_name(alloc: Global, before: &[Binder], tree: &Tree) -> Result<Bytes, Fault>
    ensures name { IfOk result (λ w. variable_at (map (λ b. b.name) before.now) (view tree.now) ≡ Ok w.items) }
    ensures refused { IfErr result (λ e. IfRefusal e (λ r. variable_at (map (λ b. b.name) before.now) (view tree.now) ≡ Err r)) }
{
    let Node::Name(word) = &tree.node else {
        return Err(refusal(UNKNOWN_FORM, tree.place));
    };
    new_binder(before, tree.place, word.as_slice())?;
    Ok(bytes_of(alloc, word.as_slice())?)
}

/// That a binder may have the name after these.
fn new_binder(before: &[Binder], place: Place, word: &[u8]) -> Result<(), Fault>
    ensures ok { OnOk result (new_variable (map (λ b. b.name) before.now) place word.now ≡ Ok word.now) }
    ensures refused { IfErr result (λ e. IfRefusal e (λ r. new_variable (map (λ b. b.name) before.now) place word.now ≡ Err r)) }
{
    if is_truth(word) || is_bound(before, word) {
        return Err(refusal(DOUBLED_NAME, place));
    }
    Ok(())
}

/// Whether one of the binders has the name.
fn is_bound(before: &[Binder], word: &[u8]) -> bool
    ensures { result ≡ list_any (bytes_eq word.now) (map (λ b. b.name) before.now) }
{
    for binder in before {
        if word == binder.name.as_slice() {
            return true;
        }
    }
    false
}
