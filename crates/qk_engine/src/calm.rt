//! The top call over a library that never fails, and a sink that never fails.
ghost use Rattle.std.specs.Prelude.{◌≡◌, ◌⊎◌, ℕ, List, Some, map, string_bytes, IfOk, IfErr};
ghost use Rattle.qk_base.specs.Calm.{content, told};
ghost use Rattle.qk_base.specs.Gains.{Gains};
ghost use Rattle.qk_file.specs.Files.{IsReply};
ghost use Rattle.qk_engine.specs.Reply.{AimTells, Replies, ReplyOf, Tells};
ghost use Rattle.qk_words.specs.SettingsData.{settings_in, AreInRange};

use crate::top::{run, run_into, run_with};
use qk_base::{CalmLibrary, CalmSink, Gate, Status};
use qk_file::Made;
use qk_words::Settings;
use std::alloc::Global;
use std::thread::Threads;

/// `run`: there is a reply, or memory is wanted.
pub fn run_calm<R: Threads + Sync, G: Gate>(
    rt: &R,
    alloc: Global,
    words: &[String],
    library: &mut CalmLibrary,
    sink: &mut CalmSink,
    gate: &G,
) -> Status
    ensures answers { IsReply result ⊎ (result ≡ Status.Memory) }
    ensures replies { IsReply result → (bytes : List ℕ) → Tells (λ name. Some (content library.old.files name)) (map string_bytes words.now) bytes
        → (text : List ℕ) × Replies (map string_bytes words.now) bytes result text × Gains (told sink.old) (told sink.new) text }
{
    run(rt, alloc, words, library, sink, gate)
}

/// `run_into`: there is a reply, or memory is wanted.
pub fn run_into_calm<R: Threads + Sync, G: Gate>(
    rt: &R,
    alloc: Global,
    words: &[String],
    library: &mut CalmLibrary,
    gate: &G,
) -> Result<Made, Status>
    ensures answers { IfErr result (λ status. status ≡ Status.Memory) }
    ensures replies { IfOk result (λ made. IsReply made.status × ((bytes : List ℕ) → Tells (λ name. Some (content library.old.files name)) (map string_bytes words.now) bytes
        → Replies (map string_bytes words.now) bytes made.status made.text.items)) }
{
    run_into(rt, alloc, words, library, gate)
}

/// `run_with`: there is a reply, or memory is wanted.
pub fn run_with_calm<R: Threads + Sync, G: Gate>(
    rt: &R,
    alloc: Global,
    settings: &Settings<'_>,
    library: &mut CalmLibrary,
    gate: &G,
) -> Result<Made, Status>
    requires { AreInRange (settings_in settings.now) }
    ensures answers { IfErr result (λ status. status ≡ Status.Memory) }
    ensures replies { IfOk result (λ made. IsReply made.status × ((bytes : List ℕ) → AimTells (λ name. Some (content library.old.files name)) (settings_in settings.now).aim bytes
        → ReplyOf (settings_in settings.now) bytes made.status made.text.items)) }
{
    run_with(rt, alloc, settings, library, gate)
}
