//! Runs over a library and a sink that never fail.

use super::{FAILING, FAILING_REPORT};
use qk_base::{CalmLibrary, CalmSink, OpenGate, Status};
use qk_engine::{read_words, run, run_calm, run_into_calm, run_with_calm};
use std::process::Abort;
use std::test::Fail;
use std::thread::Threads;

fn library_of<R: AllocGlobal>(rt: &R) -> Result<CalmLibrary, Fail> {
    let mut library = CalmLibrary::make(rt.alloc(), 10);
    library.add(rt.alloc(), "f", FAILING.as_bytes())?;
    Ok(library)
}

fn words_of<R: AllocGlobal>(rt: &R, word: &str) -> Result<Vec<String>, Fail> {
    let mut words = Vec::new(rt.alloc());
    words.push(String::from_str(rt.alloc(), word)?)?;
    Ok(words)
}

// Runs a file's name over room for so many bytes: the status, and the bytes that are kept.
fn keeps<R: Threads + Sync + Abort + AllocGlobal>(
    rt: &R,
    name: &str,
    room: usize,
    status: Status,
    kept: &str,
    whole: bool,
) -> Result<(), Fail> {
    let words = words_of(rt, name)?;
    let mut library = library_of(rt)?;
    let mut sink = CalmSink::make(rt.alloc(), 10, room)?;
    let answer = run(
        rt,
        rt.alloc(),
        words.as_slice(),
        &mut library,
        &mut sink,
        &OpenGate,
    );
    assert_eq!(rt; answer, status, "{name} {room}");
    assert_eq!(rt; sink.bytes(), kept.as_bytes(), "{name} {room}");
    assert_eq!(rt; sink.whole(), whole, "{name} {room}");
    Ok(())
}

#[test]
fn room_for_the_report(rt: HostRuntime) -> Result<(), Fail> {
    let failed = Status::SomeFailed;
    keeps(&rt, "f", 177, failed, FAILING_REPORT, true)?;
    keeps(&rt, "f", 178, failed, FAILING_REPORT, true)?;
    keeps(&rt, "f", 10, failed, "a: failed ", false)?;
    keeps(&rt, "f", 0, failed, "", false)?;
    keeps(&rt, "g", 100, Status::Refused, "refused 28 at 1:1\n", true)
}

#[test]
fn calls_that_never_fail(rt: HostRuntime) -> Result<(), Fail> {
    let words = words_of(&rt, "f")?;
    let mut library = library_of(&rt)?;
    let Ok(made) = run_into_calm(&rt, rt.alloc(), words.as_slice(), &mut library, &OpenGate) else {
        panic!(rt; "memory")
    };
    assert_eq!(rt; made.status, Status::SomeFailed);
    assert_eq!(rt; made.text.as_slice(), FAILING_REPORT.as_bytes());
    let Ok(settings) = read_words(rt.alloc(), words.as_slice()) else {
        panic!(rt; "not read")
    };
    let Ok(made) = run_with_calm(&rt, rt.alloc(), &settings, &mut library, &OpenGate) else {
        panic!(rt; "memory")
    };
    assert_eq!(rt; made.text.as_slice(), FAILING_REPORT.as_bytes());
    let mut sink = CalmSink::make(rt.alloc(), 4096, 177)?;
    let answer = run_calm(
        &rt,
        rt.alloc(),
        words.as_slice(),
        &mut library,
        &mut sink,
        &OpenGate,
    );
    assert_eq!(rt; answer, Status::SomeFailed);
    assert!(rt; sink.whole());
    Ok(())
}
