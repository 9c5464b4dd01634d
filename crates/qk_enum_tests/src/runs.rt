//! Exhaustive runs over a file and a report in memory.

use qk_base::{CalmLibrary, CalmSink, Gate, MeetGate, MemLibrary, MemSink, OpenGate, Status};
use qk_enum::{run_enum, run_enum_calm};
use std::process::Abort;
use std::test::Fail;
use std::thread::Threads;

fn words_of<R: AllocGlobal>(rt: &R, words: &str) -> Result<Vec<String>, Fail> {
    let mut owned = Vec::new(rt.alloc());
    for word in words.split(' ') {
        if !word.is_empty() {
            owned.push(String::from_str(rt.alloc(), word)?)?;
        }
    }
    Ok(owned)
}

// Compares what is written for words with blanks between them with a status and a text, over a file `f`.
fn writes<R: Threads + Sync + Abort + AllocGlobal, G: Gate>(
    rt: &R,
    words: &str,
    file: &str,
    gate: &G,
    status: u8,
    text: &str,
) -> Result<(), Fail> {
    let alloc = rt.alloc();
    let mut library = MemLibrary::make(alloc, 4096);
    library.add(alloc, "f", file.as_bytes())?;
    let mut sink = MemSink::make(alloc, 4096, 20_000)?;
    let owned = words_of(rt, words)?;
    let answer = run_enum(rt, alloc, owned.as_slice(), &mut library, &mut sink, gate);
    assert_eq!(rt; sink.bytes(), text.as_bytes(), "{words} {file}");
    assert_eq!(rt; answer.number(), status, "{words} {file}");
    Ok(())
}

pub fn says<R: Threads + Sync + Abort + AllocGlobal>(
    rt: &R,
    words: &str,
    file: &str,
    status: u8,
    text: &str,
) -> Result<(), Fail> {
    writes(rt, words, file, &OpenGate, status, text)
}

const FILE: &str = "(prop a (forall ((b bool)) (check true)))";

const REPORT: &str = "a: held in all 2 cases, 0 discarded\nproperties: 1, passed 1, failed 0\n";

const USAGE: &str = "usage: quicker_enum [options] FILE\n";

#[test]
fn words_that_are_accepted_and_others(rt: HostRuntime) -> Result<(), Fail> {
    for words in [
        "f",
        "--depth 0 f",
        "f --depth=8",
        "--cases 1000000 f --fuel 1000000 --workers 64",
        "--depth 08 f",
    ] {
        says(&rt, words, FILE, 0, REPORT)?;
    }
    for words in [
        "",
        "--depth 9 f",
        "--depth -1 f",
        "--depth= f",
        "--depth f",
        "--depth 1",
        "--cases 0 f",
        "--cases 1000001 f",
        "--fuel 0 f",
        "--fuel 1000001 f",
        "--workers 0 f",
        "--workers=65 f",
        "--depth 1 --depth 1 f",
        "f f",
        "f -",
        "--help",
        "--seed 1 f",
        "--greedy f",
        "--work f",
        "-- f",
        "--depthf",
    ] {
        says(&rt, words, FILE, 2, USAGE)?;
    }
    Ok(())
}

// The most bytes of a read and of a write, and the call of each that fails, if one does.
fn meets<R: Threads + Sync + Abort + AllocGlobal>(
    rt: &R,
    words: &str,
    read_fails: Option<u64>,
    write_fails: Option<u64>,
    status: u8,
    text: &str,
) -> Result<(), Fail> {
    let alloc = rt.alloc();
    let mut library = MemLibrary::make(alloc, 10);
    library.add(alloc, "f", FILE.as_bytes())?;
    if let Some(call) = read_fails {
        library.fail_at(call)?;
    }
    let mut sink = MemSink::make(alloc, 10, 1_000)?;
    if let Some(call) = write_fails {
        sink.fail_at(call)?;
    }
    let owned = words_of(rt, words)?;
    let answer = run_enum(
        rt,
        alloc,
        owned.as_slice(),
        &mut library,
        &mut sink,
        &OpenGate,
    );
    assert_eq!(rt; answer.number(), status, "{words}");
    assert_eq!(rt; sink.bytes(), text.as_bytes(), "{words}");
    Ok(())
}

#[test]
fn reads_and_writes_that_fail(rt: HostRuntime) -> Result<(), Fail> {
    for call in 1..8 {
        meets(&rt, "f", Some(call), None, 4, "")?;
    }
    meets(&rt, "f", Some(8), None, 0, REPORT)?;
    meets(&rt, "f", None, Some(1), 5, "")?;
    meets(&rt, "f", None, Some(2), 5, "a: held in")?;
    meets(&rt, "f", None, Some(3), 5, "a: held in all 2 cas")?;
    meets(&rt, "g", None, None, 4, "")?;
    meets(&rt, "f f", Some(1), None, 2, USAGE)
}

#[test]
fn calls_that_never_fail(rt: HostRuntime) -> Result<(), Fail> {
    let mut library = CalmLibrary::make(rt.alloc(), 10);
    library.add(rt.alloc(), "f", FILE.as_bytes())?;
    let mut sink = CalmSink::make(rt.alloc(), 10, 1_000)?;
    let words = words_of(&rt, "f")?;
    let answer = run_enum_calm(
        &rt,
        rt.alloc(),
        words.as_slice(),
        &mut library,
        &mut sink,
        &OpenGate,
    );
    assert_eq!(rt; answer, Status::AllPassed);
    assert_eq!(rt; sink.bytes(), REPORT.as_bytes());
    Ok(())
}

// A run that judges its cases one after another never meets itself at the gate.
#[test]
fn two_workers_meet(rt: HostRuntime) -> Result<(), Fail> {
    let gate = MeetGate::make(200_000_000);
    writes(&rt, "--workers 2 f", FILE, &gate, 0, REPORT)?;
    assert!(rt; gate.met(), "the workers did not meet");
    Ok(())
}
