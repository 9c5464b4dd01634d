//! Whether a system runs a list of commands as its model says.
ghost use Rattle.std.specs.Prelude.{◌≡◌, ◌<◌, ◌+◌, ◌∷◌, [], ℕ, IfOk, Some, length, slice_get, if◌then◌else◌};
ghost use Rattle.qk_base.specs.declared.outcome.Cause.TheVariants.{Post as PostCause};
ghost use Rattle.qk_core.specs.Definitions.{ModelData};
ghost use Rattle.qk_value.specs.Data.{Datas, more, datas_of};
ghost use Rattle.qk_value.specs.Measures.{IsSmall};
ghost use Rattle.qk_value.specs.View.{view_value};
ghost use Rattle.qk_eval.specs.Meaning.{meaning, called};
ghost use Rattle.qk_eval.specs.Parts.{items_of, truth_of};
ghost use Rattle.qk_command.specs.CommandLists.{ran, ran_with, ran_from, broke as broke_at};
ghost use Rattle.qk_command.specs.CommandListsView.{ran_in};
ghost use Rattle.qk_command.specs.KeepingSteps.{moved_then};

use crate::arguments::{eval_closed, three, two};
use crate::command_lists::Ran;
use qk_base::{Cause, Memory};
use qk_core::{Core, ModelDef};
use qk_eval::{Ending, Shared, call_shared};
use qk_value::Value;
use std::alloc::Global;

/// What one command came to: both next states, or the cause for which the run broke.
#[derive(Drop)]
pub(crate) enum Moved {
    On {
        state: Shared,
        system: Shared,
        left: u32,
    },
    Broke(Cause),
}

/// Whether a system runs a list of commands as its model says, from both first states on. For each command the next abstract
/// state, the system's step and the postcondition cost a unit of fuel each.
pub fn runs(
    alloc: Global,
    core: &Core,
    model: u32,
    commands: &Value,
    fuel: u32,
) -> Result<Ran, Memory>
    requires model { model < length core.now.models }
    requires small { IsSmall (view_value commands.now) }
    ensures { IfOk result (λ answer. (m : ModelData) → slice_get core.now.models model ≡ Some m → ran_in answer ≡ ran core.now.functions m (view_value commands.now) fuel) }
{
    let commands = Shared::of_value(alloc, commands)?;
    runs_model(alloc, core, core.model(model), &commands, fuel)
}

/// `runs` for the model itself.
pub(crate) fn runs_model(
    alloc: Global,
    core: &Core,
    model: &ModelDef,
    commands: &Shared,
    fuel: u32,
) -> Result<Ran, Memory>
    ensures { IfOk result (λ answer. ran_in answer ≡ ran core.now.functions model.now commands.now fuel) }
{
    match eval_closed(alloc, core, &model.init, fuel)? {
        Ending::Crash(cause) => Ok(Ran::Broke { step: 0, cause }),
        Ending::Value { value, left } => runs_system(alloc, core, model, value, commands, left),
    }
}

fn runs_system(
    alloc: Global,
    core: &Core,
    model: &ModelDef,
    state: Shared,
    commands: &Shared,
    fuel: u32,
) -> Result<Ran, Memory>
    ensures { IfOk result (λ answer. ran_in answer
        ≡ ran_with 0 (meaning core.now.functions model.now.start [] fuel) (λ r u. ran_from core.now.functions model.now 0 state r (items_of commands.now) u)) }
{
    match eval_closed(alloc, core, &model.start, fuel)? {
        Ending::Crash(cause) => Ok(Ran::Broke { step: 0, cause }),
        Ending::Value { value, left } => {
            let commands = commands.items(alloc)?;
            runs_from(alloc, core, model, state, value, &commands, left)
        }
    }
}

fn runs_from(
    alloc: Global,
    core: &Core,
    model: &ModelDef,
    first: Shared,
    first_system: Shared,
    commands: &[Shared],
    fuel: u32,
) -> Result<Ran, Memory>
    ensures { IfOk result (λ answer. ran_in answer ≡ ran_from core.now.functions model.now 0 first first_system (datas_of commands.now) fuel) }
{
    // So many commands have no room in memory.
    if commands.len() > u32::MAX as usize {
        return Err(Memory);
    }
    let mut state = first;
    let mut system = first_system;
    let mut left = fuel;
    for (step, command) in commands.iter().enumerate() {
        match advance(alloc, core, model, state, system, command, left)? {
            Moved::Broke(cause) => {
                return Ok(Ran::Broke {
                    step: step as u32,
                    cause,
                });
            }
            Moved::On {
                state: next,
                system: moved,
                left: rest,
            } => {
                state = next;
                system = moved;
                left = rest;
            }
        }
    }
    Ok(Ran::Held { left })
}

// One command: the next abstract state, then the system's step, then the postcondition.
fn advance(
    alloc: Global,
    core: &Core,
    model: &ModelDef,
    state: Shared,
    system: Shared,
    command: &Shared,
    fuel: u32,
) -> Result<Moved, Memory>
    ensures { IfOk result (λ moved. (step : ℕ) (rest : Datas) →
        ran_from core.now.functions model.now step state system (more command.now rest) fuel ≡ moved_then core.now.functions model.now step rest moved) }
{
    let args = two(alloc, &state, command)?;
    match call_shared(alloc, core, model.next, args, fuel)? {
        Ending::Crash(cause) => Ok(Moved::Broke(cause)),
        Ending::Value { value, left } => {
            move_system(alloc, core, model, value, system, command, left)
        }
    }
}

// The system's step, then the postcondition of both new states.
fn move_system(
    alloc: Global,
    core: &Core,
    model: &ModelDef,
    state: Shared,
    system: Shared,
    command: &Shared,
    fuel: u32,
) -> Result<Moved, Memory>
    ensures { IfOk result (λ moved. (step : ℕ) (rest : Datas) →
        ran_with step (called core.now.functions model.now.step (system ∷ command.now ∷ []) fuel) (λ r v.
        ran_with step (called core.now.functions model.now.post (state ∷ command.now ∷ r ∷ []) v) (λ x u.
        if truth_of x then ran_from core.now.functions model.now (step + 1) state r rest u else broke_at step PostCause))
        ≡ moved_then core.now.functions model.now step rest moved) }
{
    let args = two(alloc, &system, command)?;
    match call_shared(alloc, core, model.step, args, fuel)? {
        Ending::Crash(cause) => Ok(Moved::Broke(cause)),
        Ending::Value { value, left } => {
            ask_post(alloc, core, model, state, value, command, left)
        }
    }
}

// The postcondition.
fn ask_post(
    alloc: Global,
    core: &Core,
    model: &ModelDef,
    state: Shared,
    system: Shared,
    command: &Shared,
    fuel: u32,
) -> Result<Moved, Memory>
    ensures { IfOk result (λ moved. (step : ℕ) (rest : Datas) →
        ran_with step (called core.now.functions model.now.post (state ∷ command.now ∷ system ∷ []) fuel) (λ x u.
        if truth_of x then ran_from core.now.functions model.now (step + 1) state system rest u else broke_at step PostCause)
        ≡ moved_then core.now.functions model.now step rest moved) }
{
    let args = three(alloc, &state, command, &system)?;
    match call_shared(alloc, core, model.post, args, fuel)? {
        Ending::Crash(cause) => Ok(Moved::Broke(cause)),
        Ending::Value { value, left } => {
            if value.is_true() {
                Ok(Moved::On {
                    state,
                    system,
                    left,
                })
            } else {
                Ok(Moved::Broke(Cause::Post))
            }
        }
    }
}
