//! Worked examples over counters: lists of commands, whole attempts and their marks.

mod counter;
mod properties;

use counter::{commands, only_commands, program};
use properties::{Says, labelled, saying};
use qk_base::{Cause, Memory, Outcome, Verdict};
use qk_command::{Answer, Kept, Ran, attempt, draw_all, draw_commands, judge, keeps, runs};
use qk_core::{Core, Property};
use qk_splitmix::Gen;
use qk_value::Value;
use std::alloc::Global;
use std::test::Fail;

// A model, the number of commands, the units given, and what is wanted.
const KEEPING: [(u32, u32, u32, Kept); 9] = [
    (0, 0, 0, Kept::Yes { left: 0 }),
    (0, 3, 6, Kept::Yes { left: 0 }),
    (0, 3, 10, Kept::Yes { left: 4 }),
    (0, 3, 5, Kept::Crash(Cause::Fuel)),
    (1, 2, 10, Kept::Yes { left: 6 }),
    (1, 3, 10, Kept::No { step: 2 }),
    (1, 5, 5, Kept::No { step: 2 }),
    (1, 5, 4, Kept::Crash(Cause::Fuel)),
    (2, 0, 9, Kept::Crash(Cause::Overflow)),
];

const RUNNING: [(u32, u32, u32, Ran); 8] = [
    (0, 0, 0, Ran::Held { left: 0 }),
    (0, 2, 6, Ran::Held { left: 0 }),
    (0, 2, 9, Ran::Held { left: 3 }),
    (
        0,
        2,
        5,
        Ran::Broke {
            step: 1,
            cause: Cause::Fuel,
        },
    ),
    (
        0,
        3,
        9,
        Ran::Broke {
            step: 2,
            cause: Cause::Post,
        },
    ),
    (
        0,
        5,
        8,
        Ran::Broke {
            step: 2,
            cause: Cause::Fuel,
        },
    ),
    (
        2,
        1,
        9,
        Ran::Broke {
            step: 0,
            cause: Cause::Overflow,
        },
    ),
    (
        3,
        1,
        9,
        Ran::Broke {
            step: 0,
            cause: Cause::DivZero,
        },
    ),
];

fn keeping(alloc: Global, core: &Core, model: u32, count: u32, fuel: u32) -> Result<Kept, Memory> {
    if model >= core.models() {
        return Err(Memory);
    }
    let commands = commands(alloc, count)?;
    keeps(alloc, core, model, &commands, fuel)
}

fn running(alloc: Global, core: &Core, model: u32, count: u32, fuel: u32) -> Result<Ran, Memory> {
    if model >= core.models() {
        return Err(Memory);
    }
    let commands = commands(alloc, count)?;
    runs(alloc, core, model, &commands, fuel)
}

// The first line that gives something else, if one does.
fn wrong_keeping(alloc: Global) -> Result<Option<usize>, Memory> {
    let core = program(alloc)?;
    for (n, (model, count, fuel, want)) in KEEPING.iter().enumerate() {
        if keeping(alloc, &core, *model, *count, *fuel)? != *want {
            return Ok(Some(n));
        }
    }
    Ok(None)
}

fn wrong_running(alloc: Global) -> Result<Option<usize>, Memory> {
    let core = program(alloc)?;
    for (n, (model, count, fuel, want)) in RUNNING.iter().enumerate() {
        if running(alloc, &core, *model, *count, *fuel)? != *want {
            return Ok(Some(n));
        }
    }
    Ok(None)
}

// So many commands with so many units left, or a crash.
#[derive(Clone, Copy)]
enum Want {
    Commands(usize, u32),
    Crash(Cause),
}

// A model, the number of the words' generator, the size, the units given, and what is wanted. Words by hand: with number 0 there are
// no turns at size 0, 5 at size 6 and 7 at size 8. A turn costs 3 units, and 2 where its precondition is false.
const DRAWING: [(u32, u64, u32, u32, Want); 8] = [
    (0, 0, 0, 9, Want::Commands(0, 9)),
    (0, 0, 6, 20, Want::Commands(5, 5)),
    (0, 0, 8, 21, Want::Commands(7, 0)),
    (0, 0, 8, 20, Want::Crash(Cause::Fuel)),
    (0, 1, 6, 9, Want::Commands(3, 0)),
    (1, 0, 6, 12, Want::Commands(2, 0)),
    (1, 0, 6, 11, Want::Crash(Cause::Fuel)),
    (2, 0, 6, 20, Want::Crash(Cause::Overflow)),
];

fn are_commands(values: &[Value]) -> bool {
    for value in values {
        if !matches!(
            value,
            Value::Made {
                kind: 0,
                maker: 0,
                ..
            }
        ) {
            return false;
        }
    }
    true
}

fn is_wanted(answer: &Answer, want: Want) -> bool {
    match (answer, want) {
        (
            Answer::Value {
                value: Value::List(items),
                left,
            },
            Want::Commands(count, units),
        ) => items.len() == count && *left == units && are_commands(items.as_slice()),
        (Answer::Crash(cause), Want::Crash(other)) => *cause == other,
        _ => false,
    }
}

fn draws(alloc: Global, core: &Core, line: &(u32, u64, u32, u32, Want)) -> Result<bool, Memory> {
    let (model, number, size, fuel, want) = *line;
    if model >= core.models() || size > 1000 {
        return Ok(false);
    }
    let answer = draw_commands(alloc, core, model, Gen::start(number), size, fuel)?;
    Ok(is_wanted(&answer, want))
}

fn wrong_drawing(alloc: Global) -> Result<Option<usize>, Memory> {
    let core = program(alloc)?;
    for (n, line) in DRAWING.iter().enumerate() {
        if !draws(alloc, &core, line)? {
            return Ok(Some(n));
        }
    }
    Ok(None)
}

// How many commands are drawn, and the number, if they are drawn.
type Drawn = Option<(usize, i64)>;

// What a property says, the number of the words' generator, the size, the units given, what is drawn, and the verdict. Words by hand:
// with number 0 there are 2 turns at sizes 4 and 5, and 3 at size 6, and the number is -2, -3 and -3; with number 4 there is no turn at
// size 4, and the number is 4.
const ATTEMPTS: [(Says, u64, u32, u32, Drawn, Verdict); 10] = [
    (Says::Runs(0), 0, 5, 10, Some((2, -3)), Verdict::Pass),
    (
        Says::Runs(0),
        0,
        5,
        9,
        Some((2, -3)),
        Verdict::Fail(Cause::Fuel),
    ),
    (Says::Runs(0), 0, 5, 5, None, Verdict::Fail(Cause::Fuel)),
    (
        Says::Runs(0),
        0,
        6,
        99,
        Some((3, -3)),
        Verdict::Fail(Cause::Post),
    ),
    (Says::Runs(1), 0, 6, 99, Some((2, -3)), Verdict::Pass),
    (
        Says::Runs(3),
        0,
        0,
        99,
        Some((0, 0)),
        Verdict::Fail(Cause::DivZero),
    ),
    (Says::Given, 0, 4, 99, Some((2, -2)), Verdict::Pass),
    (Says::Given, 4, 4, 99, Some((0, 4)), Verdict::Discard),
    (Says::Checks, 0, 4, 99, Some((2, -2)), Verdict::Pass),
    (
        Says::Checks,
        4,
        4,
        99,
        Some((0, 4)),
        Verdict::Fail(Cause::False),
    ),
];

fn are_drawn(values: &[Value], want: Drawn) -> bool {
    match values {
        [] => want.is_none(),
        [Value::List(items), Value::Int(number)] => {
            want == Some((items.len(), *number)) && are_commands(items.as_slice())
        }
        _ => false,
    }
}

// Drawing and then judging: whether that is drawn, and the verdict.
fn in_two_steps(
    alloc: Global,
    core: &Core,
    property: &Property,
    g: Gen,
    size: u32,
    fuel: u32,
    want: Drawn,
) -> Result<(bool, Verdict), Memory> {
    if size > 1000 {
        return Err(Memory);
    }
    let drawn = draw_all(alloc, core, property, g, size, fuel)?;
    let same = are_drawn(drawn.values.as_slice(), want);
    match drawn.crash {
        Some(cause) => Ok((same, Verdict::Fail(cause))),
        None => {
            let outcome = judge(alloc, core, property, &drawn.values, fuel)?;
            Ok((same, outcome.verdict))
        }
    }
}

fn attempts(
    alloc: Global,
    core: &Core,
    line: &(Says, u64, u32, u32, Drawn, Verdict),
) -> Result<bool, Memory> {
    let (says, number, size, fuel, want, verdict) = *line;
    if size > 1000 {
        return Ok(false);
    }
    let property = saying(alloc, says)?;
    let g = Gen::start(number);
    let whole = attempt(alloc, core, &property, g, size, fuel)?;
    let steps = in_two_steps(alloc, core, &property, g, size, fuel, want)?;
    Ok(whole.verdict == verdict && steps == (true, verdict))
}

fn wrong_attempt(alloc: Global) -> Result<Option<usize>, Memory> {
    let core = program(alloc)?;
    for (n, line) in ATTEMPTS.iter().enumerate() {
        if !attempts(alloc, &core, line)? {
            return Ok(Some(n));
        }
    }
    Ok(None)
}

// A list that breaks a precondition is discarded, before it is run.
fn judged(alloc: Global, model: u32, count: u32) -> Result<Verdict, Memory> {
    let core = program(alloc)?;
    let property = saying(alloc, Says::Runs(model))?;
    let values = only_commands(alloc, count)?;
    let outcome = judge(alloc, &core, &property, &values, 99)?;
    Ok(outcome.verdict)
}

// What a property of two commands with that label comes to.
fn marked(alloc: Global, label: &[u8]) -> Result<Outcome, Memory> {
    let core = program(alloc)?;
    let property = labelled(alloc, label)?;
    let values = only_commands(alloc, 2)?;
    judge(alloc, &core, &property, &values, 99)
}

fn has_label(alloc: Global, label: &[u8], joined: &[u8]) -> Result<bool, Memory> {
    let outcome = marked(alloc, label)?;
    Ok(outcome.marks.label.as_slice() == joined)
}

#[test]
fn lists_of_commands(rt: HostRuntime) -> Result<(), Fail> {
    assert_eq!(rt; wrong_keeping(rt.alloc())?, None);
    assert_eq!(rt; wrong_running(rt.alloc())?, None);
    assert_eq!(rt; wrong_drawing(rt.alloc())?, None);
    Ok(())
}

#[test]
fn whole_attempts(rt: HostRuntime) -> Result<(), Fail> {
    assert_eq!(rt; wrong_attempt(rt.alloc())?, None);
    assert_eq!(rt; judged(rt.alloc(), 1, 2)?, Verdict::Pass);
    assert_eq!(rt; judged(rt.alloc(), 1, 3)?, Verdict::Discard);
    assert_eq!(rt; judged(rt.alloc(), 0, 3)?, Verdict::Fail(Cause::Post));
    Ok(())
}

#[test]
fn marks_of_an_attempt(rt: HostRuntime) -> Result<(), Fail> {
    let outcome = marked(rt.alloc(), b"short")?;
    assert_eq!(rt; outcome.verdict, Verdict::Pass);
    assert_eq!(rt;
        outcome.marks.label.as_slice(),
        b"[Inc, Inc], short".as_slice()
    );
    assert_eq!(rt; outcome.marks.classes.as_slice(), [false, true].as_slice());
    assert_eq!(rt; outcome.marks.covers.as_slice(), [true].as_slice());
    assert_eq!(rt; outcome.marks.entries.len(), 1);
    Ok(())
}

// With `[Inc, Inc], ` before them, 52 bytes make 64, and 53 make 65.
#[test]
fn long_labels(rt: HostRuntime) -> Result<(), Fail> {
    assert!(rt;
        has_label(
            rt.alloc(),
            &[b'a'; 52],
            b"[Inc, Inc], aaaaaaaaaaaaaaaaaaaaaaaaaaaaaaaaaaaaaaaaaaaaaaaaaaaa"
        )?
    );
    assert!(rt;
        has_label(
            rt.alloc(),
            &[b'a'; 53],
            b"[Inc, Inc], aaaaaaaaaaaaaaaaaaaaaaaaaaaaaaaaaaaaaaaaaaaaaaaaa..."
        )?
    );
    Ok(())
}
