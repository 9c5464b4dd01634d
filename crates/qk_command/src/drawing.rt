//! What is drawn for the binders of a property.
ghost use Rattle.std.specs.Prelude.{◌≡◌, ◌≤◌, ◌↔◌, IfOk, None, length, map};
ghost use Rattle.std.specs.Option.{option_copied};
ghost use Rattle.qk_core.specs.PropertyView.{view_draw};
ghost use Rattle.qk_eval.specs.Answers.{ended, AreSmall};
ghost use Rattle.qk_value.specs.View.{view_value};
ghost use Rattle.qk_command.specs.Drawing.{binder_draws, drawn_values, model_draws};
ghost use Rattle.qk_command.specs.TurnsView.{drawn_in, all_drawn_in};

use crate::checking::model_at;
use crate::turning::draw_commands_shared;
use qk_base::{Cause, Memory, Seq};
use qk_core::{Core, Draw, ModelDef, Property};
use qk_eval::{Ending, Shared, plain_all};
use qk_gen::draw_shared;
use qk_splitmix::Gen;
use qk_value::Value;
use std::alloc::Global;

/// The values of the binders, or those before the binder whose drawing crashed, with the cause.
#[derive(Drop)]
pub struct DrawnAll {
    pub values: Seq<Value>,
    pub crash: Option<Cause>,
}

/// Draws the binders of a property in order, a generator being split off for each; the units of fuel run through all of them. What
/// was drawn may be judged as it is.
pub fn draw_all(
    alloc: Global,
    core: &Core,
    property: &Property,
    g: Gen,
    size: u32,
    fuel: u32,
) -> Result<DrawnAll, Memory>
    requires { size ≤ 1000 }
    ensures drawn { IfOk result (λ all. all_drawn_in all ≡ drawn_values core.now property.now size g fuel) }
    ensures whole { IfOk result (λ all. (all.crash ≡ None) ↔ (length all.values.items ≡ length property.now.binders)) }
    ensures small { IfOk result (λ all. AreSmall (map view_value all.values.items)) }
{
    let drawn = draw_all_shared(alloc, core, property, g, size, fuel)?;
    let values = plain_all(alloc, &drawn.values)?;
    Ok(DrawnAll {
        values,
        crash: drawn.crash,
    })
}

/// `DrawnAll` over shared values.
#[derive(Drop)]
pub struct Drawn {
    pub values: Vec<Shared>,
    pub crash: Option<Cause>,
}

/// `draw_all` over shared values.
pub fn draw_all_shared(
    alloc: Global,
    core: &Core,
    property: &Property,
    g: Gen,
    size: u32,
    fuel: u32,
) -> Result<Drawn, Memory>
    requires { size ≤ 1000 }
    ensures { IfOk result (λ drawn. drawn_in drawn ≡ drawn_values core.now property.now size g fuel) }
{
    let mut values = Vec::new(alloc);
    let mut kept = g;
    let mut left = fuel;
    for binder in property.binders.as_slice() {
        let (own, rest) = kept.split();
        match draw_binder(alloc, core, &binder.draw, &values, own, size, left)? {
            Ending::Crash(cause) => {
                return Ok(Drawn {
                    values,
                    crash: Some(cause),
                });
            }
            Ending::Value { value, left: units } => {
                values.push(value)?;
                left = units;
            }
        }
        kept = rest;
    }
    Ok(Drawn {
        values,
        crash: None,
    })
}

// The value of one binder, which sees those before it.
fn draw_binder(
    alloc: Global,
    core: &Core,
    draw: &Draw,
    env: &[Shared],
    g: Gen,
    size: u32,
    fuel: u32,
) -> Result<Ending, Memory>
    requires { size ≤ 1000 }
    ensures { IfOk result (λ ending. ended ending ≡ binder_draws core.now (view_draw draw.now) env.now size g fuel) }
{
    match draw {
        Draw::Plain(gen_expr) => draw_shared(alloc, core, gen_expr, env, g, size, fuel),
        Draw::Commands(model) => { draw_model(alloc, core, model_at(core, *model), g, size, fuel) }
    }
}

fn draw_model(
    alloc: Global,
    core: &Core,
    model: Option<&ModelDef>,
    g: Gen,
    size: u32,
    fuel: u32,
) -> Result<Ending, Memory>
    requires { size ≤ 1000 }
    ensures { IfOk result (λ ending. ended ending ≡ model_draws core.now (option_copied model.entry) size g fuel) }
{
    match model {
        None => Ok(Ending::Value {
            value: Shared::nil(),
            left: fuel,
        }),
        Some(model) => draw_commands_shared(alloc, core, model, g, size, fuel),
    }
}
