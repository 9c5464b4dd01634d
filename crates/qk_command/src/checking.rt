//! The steps of judging that come before the marks.
ghost use Rattle.std.specs.Prelude.{◌≡◌, IfOk, Some, None, map, option_map, slice_get, unwrap_or};
ghost use Rattle.std.specs.Option.{option_copied};
ghost use Rattle.qk_core.specs.ExprView.{view_expr};
ghost use Rattle.qk_core.specs.PropertyView.{view_draw, view_check};
ghost use Rattle.qk_value.specs.Data.{list, end};
ghost use Rattle.qk_eval.specs.Meaning.{meaning};
ghost use Rattle.qk_command.specs.CommandListsView.{step_in};
ghost use Rattle.qk_command.specs.Judging.{keeps as keeps_of, keeping_commands, all_keep as all_keep_of, givens_hold as givens_hold_of, check_holds as check_holds_of, running_commands, model_of as model_found};
ghost use Rattle.qk_command.specs.Steps.{goes_on, with_value, where_true};

use crate::command_lists::{Kept, Ran};
use crate::keeping::keeps_model;
use crate::running::runs_model;
use crate::step::Step;
use qk_base::{Cause, Memory};
use qk_core::{Binder, Check, Core, Draw, Expr, ModelDef};
use qk_eval::{Ending, Shared, eval_shared};
use std::alloc::Global;

/// The model of that number.
pub(crate) fn model_at(core: &Core, number: u32) -> Option<&ModelDef>
    ensures { option_copied result ≡ slice_get core.now.models number }
{
    if number < core.models() {
        Some(core.model(number))
    } else {
        None
    }
}

/// Whether each list of commands among the values keeps its preconditions.
pub(crate) fn all_keep(
    alloc: Global,
    core: &Core,
    binders: &[Binder],
    values: &[Shared],
    fuel: u32,
) -> Result<Step, Memory>
    ensures { IfOk result (λ step. step_in step ≡ all_keep_of core.now binders.now values.now fuel) }
{
    let mut left = fuel;
    for (index, binder) in binders.iter().enumerate() {
        let Some(value) = values.get(index) else {
            return Ok(Step::On { left });
        };
        match keeps(alloc, core, &binder.draw, value, left)? {
            Step::On { left: rest } => left = rest,
            Step::Discard => return Ok(Step::Discard),
            Step::Fail(cause) => return Ok(Step::Fail(cause)),
        }
    }
    Ok(Step::On { left })
}

// Whether a value keeps its preconditions, where it is a list of commands.
fn keeps(alloc: Global, core: &Core, draw: &Draw, value: &Shared, fuel: u32) -> Result<Step, Memory>
    ensures { IfOk result (λ step. step_in step ≡ keeps_of core.now (view_draw draw.now) value.now fuel) }
{
    match draw {
        Draw::Plain(_) => Ok(Step::On { left: fuel }),
        Draw::Commands(model) => keeps_commands(alloc, core, model_at(core, *model), value, fuel),
    }
}

fn keeps_commands(
    alloc: Global,
    core: &Core,
    model: Option<&ModelDef>,
    value: &Shared,
    fuel: u32,
) -> Result<Step, Memory>
    ensures { IfOk result (λ step. step_in step ≡ keeping_commands core.now.functions (option_copied model.entry) value.now fuel) }
{
    let Some(model) = model else {
        return Ok(Step::On { left: fuel });
    };
    match keeps_model(alloc, core, model, value, fuel)? {
        Kept::Yes { left } => Ok(Step::On { left }),
        Kept::No { .. } => Ok(Step::Discard),
        Kept::Crash(cause) => Ok(Step::Fail(cause)),
    }
}

#[tactic(auto, using(crate::proofs::Stepping::given_first))]
/// Whether each given is true.
pub(crate) fn givens_hold(
    alloc: Global,
    core: &Core,
    givens: &[Expr],
    env: &[Shared],
    fuel: u32,
) -> Result<Step, Memory>
    ensures { IfOk result (λ step. step_in step ≡ givens_hold_of core.now.functions (map view_expr givens.now) env.now fuel) }
{
    let mut left = fuel;
    for given in givens {
        match holds(alloc, core, given, env, left, Step::Discard)? {
            Step::On { left: rest } => left = rest,
            Step::Discard => return Ok(Step::Discard),
            Step::Fail(cause) => return Ok(Step::Fail(cause)),
        }
    }
    Ok(Step::On { left })
}

// Goes on where the expression is true, and ends so where it is false.
fn holds(
    alloc: Global,
    core: &Core,
    expr: &Expr,
    env: &[Shared],
    fuel: u32,
    otherwise: Step,
) -> Result<Step, Memory>
    ensures { IfOk result (λ step. step_in step ≡ with_value (meaning core.now.functions (view_expr expr.now) env.now fuel) (λ x u. where_true x (goes_on tt u) (step_in otherwise))) }
{
    match eval_shared(alloc, core, expr, env, fuel)? {
        Ending::Crash(cause) => Ok(Step::Fail(cause)),
        Ending::Value { value, left } => {
            if value.is_true() {
                Ok(Step::On { left })
            } else {
                Ok(otherwise)
            }
        }
    }
}

/// Whether the check is true, or the run of commands holds.
pub(crate) fn check_holds(
    alloc: Global,
    core: &Core,
    binders: &[Binder],
    check: &Check,
    values: &[Shared],
    fuel: u32,
) -> Result<Step, Memory>
    ensures { IfOk result (λ step. step_in step ≡ check_holds_of core.now binders.now (view_check check.now) values.now fuel) }
{
    match check {
        Check::Expression(expr) => {
            holds(alloc, core, expr, values, fuel, Step::Fail(Cause::False))
        }
        Check::Runs(binder) => {
            let commands = value_at(values, *binder)?;
            let model = model_of(core, binders, *binder);
            runs_commands(alloc, core, model, &commands, fuel)
        }
    }
}

// The value of that index.
fn value_at(values: &[Shared], index: u32) -> Result<Shared, Memory>
    ensures { IfOk result (λ x. x ≡ unwrap_or (slice_get values.now index) (list end)) }
{
    match values.get(index as usize) {
        Some(value) => value.share(),
        None => Ok(Shared::nil()),
    }
}

// The model whose commands the binder of that index is.
fn model_of<'c>(core: &'c Core, binders: &[Binder], index: u32) -> Option<&'c ModelDef>
    ensures { option_copied result ≡ model_found core.now binders.now index }
{
    let binder = binders.get(index as usize)?;
    match &binder.draw {
        Draw::Plain(_) => None,
        Draw::Commands(model) => model_at(core, *model),
    }
}

fn runs_commands(
    alloc: Global,
    core: &Core,
    model: Option<&ModelDef>,
    commands: &Shared,
    fuel: u32,
) -> Result<Step, Memory>
    ensures { IfOk result (λ step. step_in step ≡ running_commands core.now.functions (option_copied model.entry) commands.now fuel) }
{
    let Some(model) = model else {
        return Ok(Step::On { left: fuel });
    };
    match runs_model(alloc, core, model, commands, fuel)? {
        Ran::Held { left } => Ok(Step::On { left }),
        Ran::Broke { cause, .. } => Ok(Step::Fail(cause)),
    }
}
