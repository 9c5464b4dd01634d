//! Lists of commands that are drawn.
ghost use Rattle.std.specs.Prelude.{◌≡◌, ◌≤◌, ◌<◌, ◌∷◌, [], ℕ, pos, IfOk, Some, length, slice_get};
ghost use Rattle.qk_core.specs.Definitions.{ModelData};
ghost use Rattle.qk_eval.specs.Answers.{said, ended, IsSmallAnswer, LeavesWithin};
ghost use Rattle.qk_eval.specs.Meaning.{and_then};
ghost use Rattle.qk_gen.specs.Drawing.{chosen, drawn, length_of};
ghost use Rattle.qk_splitmix.specs.SplitMix.{Generator};
ghost use Rattle.qk_command.specs.Drawing.{drawing_commands, turns as turns_of};
ghost use Rattle.qk_command.specs.TurnsView.{turned_then, added, asked};

use crate::arguments::{eval_closed, one, two};
use crate::commands::Commands;
use qk_base::{Cause, Memory};
use qk_core::{Core, ModelDef};
use qk_eval::{Answer, Ending, Shared, answered, call_shared};
use qk_gen::draw_user_shared;
use qk_splitmix::{Gen, choose};
use std::alloc::Global;

/// What a turn came to: the state after it, or a crash.
#[derive(Drop)]
pub(crate) enum Turned {
    On { state: Shared, left: u32 },
    Crash(Cause),
}

/// A list of commands of a model: the left half of the generator chooses the number of turns, the right half draws them. In a turn a
/// command is drawn for the state; where its precondition is true it is added to the list, and the next state is found, else the turn
/// gives nothing. Each of the three calls costs a unit of fuel.
pub fn draw_commands(
    alloc: Global,
    core: &Core,
    model: u32,
    g: Gen,
    size: u32,
    fuel: u32,
) -> Result<Answer, Memory>
    requires model { model < length core.now.models }
    requires size { size ≤ 1000 }
    ensures drawing { IfOk result (λ answer. (m : ModelData) → slice_get core.now.models model ≡ Some m → said answer ≡ drawing_commands core.now m size g fuel) }
    ensures small { IfOk result (λ answer. IsSmallAnswer answer) }
    ensures left { IfOk result (λ answer. LeavesWithin fuel answer) }
{
    let ending = draw_commands_shared(alloc, core, core.model(model), g, size, fuel)?;
    let answer = answered(&ending, alloc)?;
    Ok(answer)
}

/// `draw_commands` for the model itself, over shared values.
pub(crate) fn draw_commands_shared(
    alloc: Global,
    core: &Core,
    model: &ModelDef,
    g: Gen,
    size: u32,
    fuel: u32,
) -> Result<Ending, Memory>
    requires { size ≤ 1000 }
    ensures { IfOk result (λ ending. ended ending ≡ drawing_commands core.now model.now size g fuel) }
{
    let (chooser, drawer) = g.split();
    match eval_closed(alloc, core, &model.init, fuel)? {
        Ending::Crash(cause) => Ok(Ending::Crash(cause)),
        Ending::Value { value, left } => {
            let count = turn_count(chooser, size);
            turns(alloc, core, model, value, drawer, size, count, left)
        }
    }
}

// How many turns there are.
fn turn_count(g: Gen, size: u32) -> u32
    requires { size ≤ 1000 }
    ensures { result ≡ length_of (chosen g (pos 0) (pos size)) }
{
    let (word, _) = g.next();
    choose(word, 0, size as i64) as u32
}

fn turns(
    alloc: Global,
    core: &Core,
    model: &ModelDef,
    first: Shared,
    g: Gen,
    size: u32,
    count: u32,
    fuel: u32,
) -> Result<Ending, Memory>
    requires { size ≤ 1000 }
    ensures { IfOk result (λ ending. ended ending ≡ turns_of core.now model.now size count [] first g fuel) }
{
    let mut commands = Commands::none(alloc);
    let mut state = first;
    let mut kept = g;
    let mut left = fuel;
    for _ in 0..count {
        let (own, rest) = kept.split();
        match turn(alloc, core, model, &mut commands, state, own, size, left)? {
            Turned::Crash(cause) => return Ok(Ending::Crash(cause)),
            Turned::On {
                state: next,
                left: units,
            } => {
                state = next;
                left = units;
            }
        }
        kept = rest;
    }
    let value = commands.into_list(alloc)?;
    Ok(Ending::Value { value, left })
}

// One turn: a command is drawn for the state, and added where its precondition is true.
fn turn(
    alloc: Global,
    core: &Core,
    model: &ModelDef,
    commands: &mut Commands,
    state: Shared,
    g: Gen,
    size: u32,
    fuel: u32,
) -> Result<Turned, Memory>
    requires { size ≤ 1000 }
    ensures { IfOk result (λ turned. (n : ℕ) (h : Generator) →
        and_then (drawn core.now.functions core.now.generators model.now.maker (state ∷ []) size g fuel) (λ x u. asked core.now model.now size n commands.old state x h u)
        ≡ turned_then core.now model.now size n h commands.new turned) }
{
    let args = one(alloc, &state)?;
    match draw_user_shared(alloc, core, model.maker, args, g, size, fuel)? {
        Ending::Crash(cause) => Ok(Turned::Crash(cause)),
        Ending::Value { value, left } => ask(alloc, core, model, commands, state, value, left),
    }
}

// The precondition of a command that was drawn.
fn ask(
    alloc: Global,
    core: &Core,
    model: &ModelDef,
    commands: &mut Commands,
    state: Shared,
    command: Shared,
    fuel: u32,
) -> Result<Turned, Memory>
    ensures { IfOk result (λ turned. (size n : ℕ) (h : Generator) → asked core.now model.now size n commands.old state command h fuel ≡ turned_then core.now model.now size n h commands.new turned) }
{
    let args = two(alloc, &state, &command)?;
    match call_shared(alloc, core, model.pre, args, fuel)? {
        Ending::Crash(cause) => Ok(Turned::Crash(cause)),
        Ending::Value { value, left } => {
            if value.is_true() {
                add(alloc, core, model, commands, &state, &command, left)
            } else {
                Ok(Turned::On { state, left })
            }
        }
    }
}

// Adds a command, and finds the next state.
fn add(
    alloc: Global,
    core: &Core,
    model: &ModelDef,
    commands: &mut Commands,
    state: &Shared,
    command: &Shared,
    fuel: u32,
) -> Result<Turned, Memory>
    ensures { IfOk result (λ turned. (size n : ℕ) (h : Generator) → added core.now model.now size n commands.old state.now command.now h fuel ≡ turned_then core.now model.now size n h commands.new turned) }
{
    if let Err(cause) = commands.push(command)? {
        return Ok(Turned::Crash(cause));
    }
    let args = two(alloc, state, command)?;
    match call_shared(alloc, core, model.next, args, fuel)? {
        Ending::Crash(cause) => Ok(Turned::Crash(cause)),
        Ending::Value { value, left } => Ok(Turned::On { state: value, left }),
    }
}
