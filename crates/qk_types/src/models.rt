//! The names and expressions of a model, in the order in which they stand.
ghost use Rattle.std.specs.Prelude.{◌≡◌, [], Ok, Err, IfOk, IfErr};
ghost use Rattle.qk_core.specs.ExprView.{view_expr};
ghost use Rattle.qk_syntax.specs.PlainTrees.{list};
ghost use Rattle.qk_syntax.specs.Refusals.{IfRefusal};
ghost use Rattle.qk_syntax.specs.View.{view, views};
ghost use Rattle.qk_clauses.specs.Models.{closed as closed_of, command_at as command_of, abstract_at as abstract_of, system_at as system_of, model_at as model_of};
ghost use Rattle.qk_types.specs.ModelView.{abstract_in, system_in};
ghost use Rattle.qk_typing.specs.TablesView.{tables_in};
ghost use Rattle.qk_value.specs.View.{view_type};

use qk_base::{Fault, Memory, Place, Seq};
use qk_clauses::{
    function_from_three, function_from_two, generator_from_one, truth_type, typed_expression,
};
use qk_core::{Expr, ModelDef};
use qk_headers::{ModelTypes, Tables};
use qk_names::{UNKNOWN_FORM, WRONG_COUNT, refusal};
use qk_syntax::{Node, Tree};
use qk_value::Ty;
use std::alloc::Global;

/// What a model says of its abstract states.
#[derive(Drop)]
pub struct AbstractPart {
    pub init: Expr,
    pub pre: u32,
    pub next: u32,
}

/// What a model says of the system's states.
#[derive(Drop)]
pub struct SystemPart {
    pub start: Expr,
    pub step: u32,
    pub post: u32,
}

/// The model with these types, from what stands after its name.
pub fn model_at(
    alloc: Global,
    tables: &Tables,
    place: Place,
    types: &ModelTypes,
    parts: &[Tree],
) -> Result<ModelDef, Fault>
    ensures model { IfOk result (λ m. model_of (tables_in tables.now) place types.now (views parts.now) ≡ Ok m) }
    ensures refused { IfErr result (λ e. IfRefusal e (λ r. model_of (tables_in tables.now) place types.now (views parts.now) ≡ Err r)) }
{
    let [command, abstract_part, system] = parts else {
        return Err(refusal(WRONG_COUNT, place));
    };
    let maker = command_at(tables, types, command)?;
    let abstract_part = abstract_at(alloc, tables, types, abstract_part)?;
    let system = system_at(alloc, tables, types, system)?;
    Ok(model_def(alloc, types, maker, abstract_part, system)?)
}

fn model_def(
    alloc: Global,
    types: &ModelTypes,
    maker: u32,
    abstract_part: AbstractPart,
    system: SystemPart,
) -> Result<ModelDef, Memory>
    ensures { IfOk result (λ m. m ≡ record { command = types.now.command; maker = maker; abstract_ty = types.now.abstract_ty; init = view_expr abstract_part.init; pre = abstract_part.pre; next = abstract_part.next; system_ty = types.now.system_ty; start = view_expr system.start; step = system.step; post = system.post }) }
{
    let command = types.command.copy(alloc)?;
    let abstract_ty = types.abstract_ty.copy(alloc)?;
    let system_ty = types.system_ty.copy(alloc)?;
    let AbstractPart { init, pre, next } = abstract_part;
    let SystemPart { start, step, post } = system;
    Ok(ModelDef {
        command,
        maker,
        abstract_ty,
        init,
        pre,
        next,
        system_ty,
        start,
        step,
        post,
    })
}

/// The expression of that type that a tree is, where no variable is seen.
fn closed(alloc: Global, tables: &Tables, ty: &Ty, tree: &Tree) -> Result<Expr, Fault>
    ensures ok { IfOk result (λ e. closed_of (tables_in tables.now) (view_type ty.now) (view tree.now) ≡ Ok (view_expr e)) }
    ensures refused { IfErr result (λ e. IfRefusal e (λ r. closed_of (tables_in tables.now) (view_type ty.now) (view tree.now) ≡ Err r)) }
{
    let mut scope = Seq::make(alloc);
    typed_expression(alloc, tables, &mut scope, ty, tree)
}

fn command_at(tables: &Tables, types: &ModelTypes, tree: &Tree) -> Result<u32, Fault>
    ensures maker { IfOk result (λ g. command_of (tables_in tables.now) types.now (view tree.now) ≡ Ok g) }
    ensures refused { IfErr result (λ e. IfRefusal e (λ r. command_of (tables_in tables.now) types.now (view tree.now) ≡ Err r)) }
{
    match &tree.node {
        Node::List(parts) => command_part(tables, types, tree.place, parts.as_slice()),
        _ => Err(refusal(UNKNOWN_FORM, tree.place)),
    }
}

fn command_part(
    tables: &Tables,
    types: &ModelTypes,
    place: Place,
    parts: &[Tree],
) -> Result<u32, Fault>
    ensures maker { IfOk result (λ g. command_of (tables_in tables.now) types.now (list place (views parts.now)) ≡ Ok g) }
    ensures refused { IfErr result (λ e. IfRefusal e (λ r. command_of (tables_in tables.now) types.now (list place (views parts.now)) ≡ Err r)) }
{
    match parts {
        [_head, _command, maker] => {
            generator_from_one(tables, &types.abstract_ty, &types.command, maker)
        }
        _ => Err(refusal(UNKNOWN_FORM, place)),
    }
}

fn abstract_at(
    alloc: Global,
    tables: &Tables,
    types: &ModelTypes,
    tree: &Tree,
) -> Result<AbstractPart, Fault>
    ensures part { IfOk result (λ s. abstract_of (tables_in tables.now) types.now (view tree.now) ≡ Ok (abstract_in s)) }
    ensures refused { IfErr result (λ e. IfRefusal e (λ r. abstract_of (tables_in tables.now) types.now (view tree.now) ≡ Err r)) }
{
    match &tree.node {
        Node::List(parts) => abstract_part(alloc, tables, types, tree.place, parts.as_slice()),
        _ => Err(refusal(UNKNOWN_FORM, tree.place)),
    }
}

fn abstract_part(
    alloc: Global,
    tables: &Tables,
    types: &ModelTypes,
    place: Place,
    parts: &[Tree],
) -> Result<AbstractPart, Fault>
    ensures part { IfOk result (λ s. abstract_of (tables_in tables.now) types.now (list place (views parts.now)) ≡ Ok (abstract_in s)) }
    ensures refused { IfErr result (λ e. IfRefusal e (λ r. abstract_of (tables_in tables.now) types.now (list place (views parts.now)) ≡ Err r)) }
{
    let [_head, _ty, init, pre, next] = parts else {
        return Err(refusal(UNKNOWN_FORM, place));
    };
    let state = &types.abstract_ty;
    let init = closed(alloc, tables, state, init)?;
    let truth = truth_type();
    let pre = function_from_two(tables, state, &types.command, &truth, pre)?;
    let next = function_from_two(tables, state, &types.command, state, next)?;
    Ok(AbstractPart { init, pre, next })
}

fn system_at(
    alloc: Global,
    tables: &Tables,
    types: &ModelTypes,
    tree: &Tree,
) -> Result<SystemPart, Fault>
    ensures part { IfOk result (λ s. system_of (tables_in tables.now) types.now (view tree.now) ≡ Ok (system_in s)) }
    ensures refused { IfErr result (λ e. IfRefusal e (λ r. system_of (tables_in tables.now) types.now (view tree.now) ≡ Err r)) }
{
    match &tree.node {
        Node::List(parts) => system_part(alloc, tables, types, tree.place, parts.as_slice()),
        _ => Err(refusal(UNKNOWN_FORM, tree.place)),
    }
}

fn system_part(
    alloc: Global,
    tables: &Tables,
    types: &ModelTypes,
    place: Place,
    parts: &[Tree],
) -> Result<SystemPart, Fault>
    ensures part { IfOk result (λ s. system_of (tables_in tables.now) types.now (list place (views parts.now)) ≡ Ok (system_in s)) }
    ensures refused { IfErr result (λ e. IfRefusal e (λ r. system_of (tables_in tables.now) types.now (list place (views parts.now)) ≡ Err r)) }
{
    let [_head, _ty, start, step, post] = parts else {
        return Err(refusal(UNKNOWN_FORM, place));
    };
    let (state, command) = (&types.system_ty, &types.command);
    let start = closed(alloc, tables, state, start)?;
    let step = function_from_two(tables, state, command, state, step)?;
    let truth = truth_type();
    let post = function_from_three(tables, &types.abstract_ty, command, state, &truth, post)?;
    Ok(SystemPart { start, step, post })
}
