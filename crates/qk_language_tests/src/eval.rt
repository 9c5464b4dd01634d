//! Worked examples: each form with its crashes, and functions of a program by hand.
ghost use Rattle.std.specs.Prelude.{IfOk, map};
ghost use Rattle.qk_value.specs.View.{view_value};
ghost use Rattle.qk_eval.specs.Answers.{AreSmall};

mod bodies;
mod calls;
mod forms;
mod notation;
mod rows;
mod told;
mod wanted;

use bodies::BODIES;
use calls::{CALLED, CALLS};
use forms::{CHOICES, NUMBERS, PARTS};
use notation::{Word, expression, program};
use qk_base::{Memory, Seq};
use qk_core::{Core, Op2};
use qk_eval::{Answer, call, eval};
use qk_value::Value;
use std::alloc::Global;
use std::test::Fail;
use wanted::{Want, is_wanted};

// The environment 7, -2.
fn environment(alloc: Global) -> Result<Seq<Value>, Memory>
    ensures { IfOk result (λ env. AreSmall (map view_value env.items)) }
{
    let mut env = Seq::make(alloc);
    env.add(Value::Int(7))?;
    env.add(Value::Int(-2))?;
    Ok(env)
}

// Whether these words give that value with so many units left, or that crash.
fn gives(
    alloc: Global,
    core: &Core,
    words: &[Word],
    fuel: u32,
    want: Want,
    left: u32,
) -> Result<bool, Memory> {
    let expr = expression(alloc, words)?;
    let env = environment(alloc)?;
    let answer = eval(alloc, core, &expr, &env, fuel)?;
    Ok(is_wanted(&answer, want, left))
}

// The first line that gives something else, if one does.
fn wrong_number(alloc: Global, lines: &[(Op2, i64, i64, Want)]) -> Result<Option<usize>, Memory> {
    let core = program(alloc, &[])?;
    for (n, (op, first, second, want)) in lines.iter().enumerate() {
        let words = [Word::Two(*op), Word::Int(*first), Word::Int(*second)];
        if !gives(alloc, &core, &words, 3, *want, 3)? {
            return Ok(Some(n));
        }
    }
    Ok(None)
}

// No line has a call, so that each leaves all units.
fn wrong_form(alloc: Global, lines: &[(&[Word], Want)]) -> Result<Option<usize>, Memory> {
    let core = program(alloc, &[])?;
    for (n, (words, want)) in lines.iter().enumerate() {
        if !gives(alloc, &core, words, 3, *want, 3)? {
            return Ok(Some(n));
        }
    }
    Ok(None)
}

fn wrong_call(alloc: Global, lines: &[(&[Word], u32, Want, u32)]) -> Result<Option<usize>, Memory> {
    let core = program(alloc, &BODIES)?;
    for (n, (words, fuel, want, left)) in lines.iter().enumerate() {
        if !gives(alloc, &core, words, *fuel, *want, *left)? {
            return Ok(Some(n));
        }
    }
    Ok(None)
}

fn called(alloc: Global, core: &Core, function: u32, n: i64, fuel: u32) -> Result<Answer, Memory> {
    let mut args = Seq::make(alloc);
    args.add(Value::Int(n))?;
    call(alloc, core, function, &args, fuel)
}

fn wrong_function(
    alloc: Global,
    lines: &[(u32, i64, u32, Want, u32)],
) -> Result<Option<usize>, Memory> {
    let core = program(alloc, &BODIES)?;
    for (n, (function, number, fuel, want, left)) in lines.iter().enumerate() {
        let answer = called(alloc, &core, *function, *number, *fuel)?;
        if !is_wanted(&answer, *want, *left) {
            return Ok(Some(n));
        }
    }
    Ok(None)
}

#[test]
fn numbers(rt: HostRuntime) -> Result<(), Fail> {
    assert_eq!(rt; wrong_number(rt.alloc(), &NUMBERS)?, None);
    Ok(())
}

#[test]
fn choices(rt: HostRuntime) -> Result<(), Fail> {
    assert_eq!(rt; wrong_form(rt.alloc(), &CHOICES)?, None);
    Ok(())
}

#[test]
fn parts(rt: HostRuntime) -> Result<(), Fail> {
    assert_eq!(rt; wrong_form(rt.alloc(), &PARTS)?, None);
    Ok(())
}

#[test]
fn calls_of_functions(rt: HostRuntime) -> Result<(), Fail> {
    assert_eq!(rt; wrong_call(rt.alloc(), &CALLS)?, None);
    assert_eq!(rt; wrong_function(rt.alloc(), &CALLED)?, None);
    Ok(())
}
