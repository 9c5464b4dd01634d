//! Worked drawings: each form with its crashes, and generators of a program by hand.
ghost use Rattle.std.specs.Prelude.{IfOk, map};
ghost use Rattle.qk_value.specs.View.{view_value};
ghost use Rattle.qk_eval.specs.Answers.{AreSmall};

mod lines;
mod notation;
mod wanted;

use lines::{BODIES, CALLED, LINES, Line};
use notation::{generator, program};
use qk_base::{Memory, Seq};
use qk_core::Core;
use qk_gen::{draw, draw_user};
use qk_splitmix::Gen;
use qk_value::Value;
use std::alloc::Global;
use std::test::Fail;
use wanted::{Want, is_wanted};

// A list of that number, if there is one.
fn values(alloc: Global, number: Option<i64>) -> Result<Seq<Value>, Memory>
    ensures { IfOk result (λ all. AreSmall (map view_value all.items)) }
{
    let mut all = Seq::make(alloc);
    if let Some(number) = number {
        all.add(Value::Int(number))?;
    }
    Ok(all)
}

fn draws(alloc: Global, core: &Core, line: &Line) -> Result<bool, Memory> {
    let (words, seed, size, fuel, want, left) = *line;
    let generator = generator(alloc, words)?;
    let env = values(alloc, Some(20))?;
    let answer = draw(alloc, core, &generator, &env, Gen::start(seed), size, fuel)?;
    Ok(is_wanted(&answer, want, left))
}

// The first line that gives something else, if one does.
fn wrong_line(alloc: Global, lines: &[Line]) -> Result<Option<usize>, Memory> {
    let core = program(alloc, &BODIES)?;
    for (n, line) in lines.iter().enumerate() {
        if !draws(alloc, &core, line)? {
            return Ok(Some(n));
        }
    }
    Ok(None)
}

fn wrong_call(
    alloc: Global,
    lines: &[(u32, Option<i64>, u64, u32, u32, Want, u32)],
) -> Result<Option<usize>, Memory> {
    let core = program(alloc, &BODIES)?;
    for (n, (number, args, seed, size, fuel, want, left)) in lines.iter().enumerate() {
        let args = values(alloc, *args)?;
        let answer = draw_user(
            alloc,
            &core,
            *number,
            &args,
            Gen::start(*seed),
            *size,
            *fuel,
        )?;
        if !is_wanted(&answer, *want, *left) {
            return Ok(Some(n));
        }
    }
    Ok(None)
}

#[test]
fn worked_drawings(rt: HostRuntime) -> Result<(), Fail> {
    assert_eq!(rt; wrong_line(rt.alloc(), &LINES)?, None);
    Ok(())
}

#[test]
fn worked_calls(rt: HostRuntime) -> Result<(), Fail> {
    assert_eq!(rt; wrong_call(rt.alloc(), &CALLED)?, None);
    Ok(())
}
