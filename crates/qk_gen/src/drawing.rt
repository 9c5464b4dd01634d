//! Drawing by a generator, and by a generator of the program.
ghost use Rattle.std.specs.Prelude.{◌≡◌, [], IfOk, map};
ghost use Rattle.qk_core.specs.GenView.{view_gen};
ghost use Rattle.qk_eval.specs.Answers.{said, ended, IsSmallAnswer, LeavesWithin, AreSmall};
ghost use Rattle.qk_gen.specs.Drawing.{drawing, drawn};
ghost use Rattle.qk_gen.specs.Pending.{outcome};
ghost use Rattle.qk_value.specs.View.{view_value};

use crate::machine::{enter, go_on};
use crate::pending::Control;
use crate::steps::start;
use qk_base::{Memory, Seq};
use qk_core::{Core, GenExpr};
use qk_eval::{Answer, Ending, Shared, answered, copied, shared_all};
use qk_splitmix::Gen;
use qk_value::Value;
use std::alloc::Global;

/// The value that a generator draws in an environment, with the units of fuel that are left, or why there is none. A call of a
/// function or of a generator costs a unit. The depth of calls uses no machine stack.
pub fn draw(
    alloc: Global,
    core: &Core,
    generator: &GenExpr,
    env: &Seq<Value>,
    g: Gen,
    size: u32,
    fuel: u32,
) -> Result<Answer, Memory>
    requires { AreSmall (map view_value env.now.items) }
    ensures drawing { IfOk result (λ answer. said answer
        ≡ drawing core.now.functions core.now.generators (view_gen generator.now) (map view_value env.now.items) size g fuel) }
    ensures small { IfOk result (λ answer. IsSmallAnswer answer) }
    ensures left { IfOk result (λ answer. LeavesWithin fuel answer) }
{
    let bound = shared_all(alloc, env.as_slice())?;
    let first = Control::Draw { generator, g, size };
    let ending = run(alloc, core, first, bound, fuel)?;
    let answer = answered(&ending, alloc)?;
    Ok(answer)
}

/// What a generator of the program draws with these arguments: a crash of fuel where no unit is given, else what its body draws with
/// the arguments as its environment and a unit less.
pub fn draw_user(
    alloc: Global,
    core: &Core,
    generator: u32,
    args: &Seq<Value>,
    g: Gen,
    size: u32,
    fuel: u32,
) -> Result<Answer, Memory>
    requires { AreSmall (map view_value args.now.items) }
    ensures drawing { IfOk result (λ answer. said answer
        ≡ drawn core.now.functions core.now.generators generator (map view_value args.now.items) size g fuel) }
    ensures small { IfOk result (λ answer. IsSmallAnswer answer) }
    ensures left { IfOk result (λ answer. LeavesWithin fuel answer) }
{
    let parts = shared_all(alloc, args.as_slice())?;
    let ending = draw_user_shared(alloc, core, generator, parts, g, size, fuel)?;
    let answer = answered(&ending, alloc)?;
    Ok(answer)
}

/// `draw` over shared values, without a conversion of the environment or of the value.
pub fn draw_shared(
    alloc: Global,
    core: &Core,
    generator: &GenExpr,
    env: &[Shared],
    g: Gen,
    size: u32,
    fuel: u32,
) -> Result<Ending, Memory>
    ensures { IfOk result (λ ending. ended ending ≡ drawing core.now.functions core.now.generators (view_gen generator.now) env.now size g fuel) }
{
    let bound = copied(alloc, env)?;
    let first = Control::Draw { generator, g, size };
    let ending = run(alloc, core, first, bound, fuel)?;
    Ok(ending)
}

/// `draw_user` over shared values, without a conversion of the arguments or of the value.
pub fn draw_user_shared(
    alloc: Global,
    core: &Core,
    generator: u32,
    args: Vec<Shared>,
    g: Gen,
    size: u32,
    fuel: u32,
) -> Result<Ending, Memory>
    ensures { IfOk result (λ ending. ended ending ≡ drawn core.now.functions core.now.generators generator args.items size g fuel) }
{
    let first = Control::Enter {
        generator,
        args,
        g,
        size,
    };
    let ending = run(alloc, core, first, Vec::new(alloc), fuel)?;
    Ok(ending)
}

// The machine, from its first step to its answer. It would take centuries to come to the last turn.
fn run<'e>(
    alloc: Global,
    core: &'e Core,
    first: Control<'e>,
    env: Vec<Shared>,
    fuel: u32,
) -> Result<Ending, Memory>
    ensures { IfOk result (λ ending. ended ending ≡ outcome core.now.functions core.now.generators [] env.items first.entry fuel) }
{
    let mut bound = env;
    let mut frames = Vec::new(alloc);
    let mut left = fuel;
    let mut control = first;
    'turns: for _ in 0..u64::MAX {
        control = match control {
            Control::Draw { generator, g, size } => start(
                alloc,
                core,
                generator,
                g,
                size,
                &bound,
                &mut frames,
                &mut left,
            )?,
            Control::Enter {
                generator,
                args,
                g,
                size,
            } => enter(
                core,
                generator,
                args,
                g,
                size,
                &mut bound,
                &mut frames,
                &mut left,
            )?,
            Control::Crash(cause) => return Ok(Ending::Crash(cause)),
            Control::Return(value) => match frames.pop() {
                None => return Ok(Ending::Value { value, left }),
                Some(frame) => go_on(alloc, frame, value, &mut bound, &mut frames)?,
            },
        };
    }
    Err(Memory)
}
