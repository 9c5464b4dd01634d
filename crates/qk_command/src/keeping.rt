//! Whether a list of commands keeps its preconditions.
ghost use Rattle.std.specs.Prelude.{◌≡◌, ◌<◌, ◌+◌, ◌∷◌, [], ℕ, IfOk, Some, length, slice_get};
ghost use Rattle.qk_core.specs.Definitions.{ModelData};
ghost use Rattle.qk_value.specs.Data.{Datas, more, datas_of};
ghost use Rattle.qk_value.specs.Measures.{IsSmall};
ghost use Rattle.qk_value.specs.View.{view_value};
ghost use Rattle.qk_eval.specs.Meaning.{called};
ghost use Rattle.qk_command.specs.CommandLists.{kept, kept_with, kept_from};
ghost use Rattle.qk_command.specs.CommandListsView.{kept_in};
ghost use Rattle.qk_command.specs.KeepingSteps.{passed_then};

use crate::arguments::{eval_closed, two};
use crate::command_lists::Kept;
use qk_base::{Cause, Memory};
use qk_core::{Core, ModelDef};
use qk_eval::{Ending, Shared, call_shared};
use qk_value::Value;
use std::alloc::Global;

/// What one command came to: the next abstract state, or why there is none.
#[derive(Drop)]
pub(crate) enum Passed {
    On { state: Shared, left: u32 },
    Broken,
    Crash(Cause),
}

/// Whether a list of commands of a model keeps its preconditions, from the model's first state on. Each call of a precondition
/// and of the next state costs a unit of fuel; the next state is found after the last command too.
pub fn keeps(
    alloc: Global,
    core: &Core,
    model: u32,
    commands: &Value,
    fuel: u32,
) -> Result<Kept, Memory>
    requires model { model < length core.now.models }
    requires small { IsSmall (view_value commands.now) }
    ensures { IfOk result (λ answer. (m : ModelData) → slice_get core.now.models model ≡ Some m → kept_in answer ≡ kept core.now.functions m (view_value commands.now) fuel) }
{
    let commands = Shared::of_value(alloc, commands)?;
    keeps_model(alloc, core, core.model(model), &commands, fuel)
}

/// `keeps` for the model itself.
pub(crate) fn keeps_model(
    alloc: Global,
    core: &Core,
    model: &ModelDef,
    commands: &Shared,
    fuel: u32,
) -> Result<Kept, Memory>
    ensures { IfOk result (λ answer. kept_in answer ≡ kept core.now.functions model.now commands.now fuel) }
{
    match eval_closed(alloc, core, &model.init, fuel)? {
        Ending::Crash(cause) => Ok(Kept::Crash(cause)),
        Ending::Value { value, left } => {
            let commands = commands.items(alloc)?;
            keeps_from(alloc, core, model, value, &commands, left)
        }
    }
}

fn keeps_from(
    alloc: Global,
    core: &Core,
    model: &ModelDef,
    first: Shared,
    commands: &[Shared],
    fuel: u32,
) -> Result<Kept, Memory>
    ensures { IfOk result (λ answer. kept_in answer ≡ kept_from core.now.functions model.now 0 first (datas_of commands.now) fuel) }
{
    // So many commands have no room in memory.
    if commands.len() > u32::MAX as usize {
        return Err(Memory);
    }
    let mut state = first;
    let mut left = fuel;
    for (step, command) in commands.iter().enumerate() {
        match pass(alloc, core, model, state, command, left)? {
            Passed::Broken => return Ok(Kept::No { step: step as u32 }),
            Passed::Crash(cause) => return Ok(Kept::Crash(cause)),
            Passed::On {
                state: next,
                left: rest,
            } => {
                state = next;
                left = rest;
            }
        }
    }
    Ok(Kept::Yes { left })
}

// One command: its precondition, and the next state.
fn pass(
    alloc: Global,
    core: &Core,
    model: &ModelDef,
    state: Shared,
    command: &Shared,
    fuel: u32,
) -> Result<Passed, Memory>
    ensures { IfOk result (λ passed. (step : ℕ) (rest : Datas) → kept_from core.now.functions model.now step state (more command.now rest) fuel ≡ passed_then core.now.functions model.now step rest passed) }
{
    let args = two(alloc, &state, command)?;
    match call_shared(alloc, core, model.pre, args, fuel)? {
        Ending::Crash(cause) => Ok(Passed::Crash(cause)),
        Ending::Value { value, left } => {
            if value.is_true() {
                advance(alloc, core, model, state, command, left)
            } else {
                Ok(Passed::Broken)
            }
        }
    }
}

// The next abstract state.
fn advance(
    alloc: Global,
    core: &Core,
    model: &ModelDef,
    state: Shared,
    command: &Shared,
    fuel: u32,
) -> Result<Passed, Memory>
    ensures { IfOk result (λ passed. (step : ℕ) (rest : Datas) →
        kept_with (called core.now.functions model.now.next (state ∷ command.now ∷ []) fuel) (λ s u. kept_from core.now.functions model.now (step + 1) s rest u)
        ≡ passed_then core.now.functions model.now step rest passed) }
{
    let args = two(alloc, &state, command)?;
    match call_shared(alloc, core, model.next, args, fuel)? {
        Ending::Crash(cause) => Ok(Passed::Crash(cause)),
        Ending::Value { value, left } => Ok(Passed::On { state: value, left }),
    }
}
