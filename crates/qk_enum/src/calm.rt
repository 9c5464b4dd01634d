//! The top call over a library that never fails, and a sink that never fails.
ghost use Rattle.std.specs.Prelude.{◌≡◌, ◌⊎◌, ℕ, List, Some, map, string_bytes};
ghost use Rattle.qk_base.specs.Calm.{content, told};
ghost use Rattle.qk_base.specs.Gains.{Gains};
ghost use Rattle.qk_enum.specs.Reply.{Replies, Tells};
ghost use Rattle.qk_file.specs.Files.{IsReply};

use crate::top::run_enum;
use qk_base::{CalmLibrary, CalmSink, Gate, Status};
use std::alloc::Global;
use std::thread::Threads;

/// `run_enum`: there is a reply, or memory is wanted.
pub fn run_enum_calm<R: Threads + Sync, G: Gate>(
    rt: &R,
    alloc: Global,
    words: &[String],
    library: &mut CalmLibrary,
    sink: &mut CalmSink,
    gate: &G,
) -> Status
    ensures answers { IsReply result ⊎ (result ≡ Status.Memory) }
    ensures replies { IsReply result → (bytes : List ℕ) → Tells (λ name. Some (content library.old.files name)) (map string_bytes words.now) bytes
        → (text : List ℕ) × Replies (map string_bytes words.now) bytes result text × Gains (told sink.old) (told sink.new) text }
{
    run_enum(rt, alloc, words, library, sink, gate)
}
