//! Workers and windows.

use super::{says, written};
use qk_base::{MeetGate, OpenGate, OrderGate, Seq};
use std::process::Abort;
use std::test::Fail;
use std::thread::Threads;

// Passes at size 0, is discarded at 1, and fails at 3.
const SKIPS: &str = "(prop a (forall ((x size)) (given (not (= x 1))) (check (not (= x 3)))))";

const SKIPS_FAILED: &str = "a: failed after 4 tests, 10 discarded
cause: false
attempt: 13, size 3
shrinks: 0, tried 2
  x = 3
path: -
replay: q1:0:0:13:3:100000:-
";

const FAILED: &str = "properties: 1, passed 0, failed 1, gave up 0\n";

const PASSING: &str = "(prop a (forall ((x int)) (check true)))";

const PASSED: &str = "a: passed 100 tests, 0 discarded\n";

const PASSED_ALL: &str = "properties: 1, passed 1, failed 0, gave up 0\n";

// Words, a file, the block, the line on work and the last line.
const WORKS: [(&str, &str, u8, &str, &str, &str); 4] = [
    (
        "--work f",
        PASSING,
        0,
        PASSED,
        "work: windows 2, rounds 2, trials 100\n",
        PASSED_ALL,
    ),
    (
        "--window 8 --work f",
        SKIPS,
        1,
        SKIPS_FAILED,
        "work: windows 2, rounds 11, trials 30\n",
        FAILED,
    ),
    (
        "--window 1 --work f",
        SKIPS,
        1,
        SKIPS_FAILED,
        "work: windows 14, rounds 14, trials 14\n",
        FAILED,
    ),
    (
        "--work --window=8 --workers 1 f",
        SKIPS,
        1,
        SKIPS_FAILED,
        "work: windows 2, rounds 11, trials 30\n",
        FAILED,
    ),
];

fn works<R: Threads + Sync + Abort + AllocGlobal>(
    rt: &R,
    row: (&str, &str, u8, &str, &str, &str),
) -> Result<(), Fail> {
    let (words, file, status, block, work, last) = row;
    let text = format!(in rt.alloc(); "{block}{work}{last}")?;
    says(rt, words, file, status, text.as_str())
}

#[test]
fn work_lines(rt: HostRuntime) -> Result<(), Fail> {
    for row in WORKS {
        works(&rt, row)?;
    }
    Ok(())
}

// One, two and many workers, with one, eight and the most attempts tried ahead.
const NINE: [&str; 9] = [
    "--workers 1 --window 1 f",
    "--workers 1 --window 8 f",
    "--workers 1 --window 4096 f",
    "--workers 2 --window 1 f",
    "--workers 2 --window 8 f",
    "--workers 2 --window 4096 f",
    "--workers 64 --window 1 f",
    "--workers 64 --window 8 f",
    "--workers 64 --window 4096 f",
];

#[test]
fn nine_pairs(rt: HostRuntime) -> Result<(), Fail> {
    let text = format!(in rt.alloc(); "{SKIPS_FAILED}{FAILED}")?;
    for words in NINE {
        says(&rt, words, SKIPS, 1, text.as_str())?;
    }
    Ok(())
}

// The line on work is that of the window also where the first trials are let in by an order of their own.
#[test]
fn trials_in_a_forced_order(rt: HostRuntime) -> Result<(), Fail> {
    let mut order = Seq::make(rt.alloc());
    order.append(&[3, 2, 1, 0])?;
    let gate = OrderGate::make(order, 1_000_000);
    let said = written(&rt, "--window 8 --work f", SKIPS, &gate)?;
    let work = "work: windows 2, rounds 11, trials 30\n";
    let text = format!(in rt.alloc(); "{SKIPS_FAILED}{work}{FAILED}status 1")?;
    assert_eq!(rt; said.as_str(), text.as_str());
    Ok(())
}

// Two workers are at work at once.
#[test]
fn workers_meet(rt: HostRuntime) -> Result<(), Fail> {
    let gate = MeetGate::make(200_000_000);
    let said = written(&rt, "--workers 2 f", PASSING, &gate)?;
    assert!(rt; said.as_str().starts_with(PASSED), "{said}");
    assert!(rt; gate.met(), "one thread alone");
    Ok(())
}
