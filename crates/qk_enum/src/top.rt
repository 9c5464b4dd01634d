//! The top call.
ghost use Rattle.std.specs.Prelude.{◌≡◌, ◌⊎◌, ℕ, List, [], Some, take, map, string_bytes, IfOk, IfErr, IsErrOf};
ghost use Rattle.qk_base.specs.Faults.{HasRisen};
ghost use Rattle.qk_base.specs.Gains.{Gains};
ghost use Rattle.qk_base.specs.declared.status.Status.{Status as Answer};
ghost use Rattle.qk_core.specs.Program.{ProgramData};
ghost use Rattle.qk_enum.specs.Reply.{MayRun, Names, Replies, ReplyOf, Tells};
ghost use Rattle.qk_enum_words.specs.SettingsData.{AreInRange, settings_in};
ghost use Rattle.qk_file.specs.Files.{IsProgram, IsReply, IsRun};

use crate::loading::load_file;
use crate::replying::{bytes_reply, usage_reply};
use qk_base::{Gate, Library, Sink, Status, store};
use qk_enum_words::{EnumSettings, WordsFault, read_words};
use qk_file::Made;
use std::alloc::Global;
use std::thread::Threads;

/// The exhaustive run: reads the words, loads the file, judges the cases of its properties and writes the report. The words are
/// those after the program's name. The reply does not look at the number of workers; see `workers_decide_nothing`.
pub fn run_enum<R: Threads + Sync, L: Library, K: Sink, G: Gate>(
    rt: &R,
    alloc: Global,
    words: &[String],
    library: &mut L,
    sink: &mut K,
    gate: &G,
) -> Status
    // The sink has gained the reply, and nothing else.
    ensures replies { IsReply result → (bytes : List ℕ) → Tells (L.holds library.old) (map string_bytes words.now) bytes
        → (text : List ℕ) × Replies (map string_bytes words.now) bytes result text × Gains (K.written sink.old) (K.written sink.new) text }

    // The sink has gained nothing.
    ensures silent { (result ≡ Status.ReadFault) ⊎ (result ≡ Status.Memory) → Gains (K.written sink.old) (K.written sink.new) [] }
    ensures read_fault { result ≡ Status.ReadFault
        → (file : List ℕ) × Names (map string_bytes words.now) file × HasRisen (L.faults library.old file) (L.faults library.new file) }

    // The sink has gained the front of the reply.
    ensures write_fault { result ≡ Status.WriteFault → HasRisen (K.faults sink.old) (K.faults sink.new) }
    ensures front { result ≡ Status.WriteFault → (bytes : List ℕ) → Tells (L.holds library.old) (map string_bytes words.now) bytes
        → (status : Answer) × (text : List ℕ) × (n : ℕ) × IsReply status × Replies (map string_bytes words.now) bytes status text × Gains (K.written sink.old) (K.written sink.new) (take n text) }

    // The file was read to its end, and the library is as it was where the words name none.
    ensures read_whole { IsRun result → (file bytes : List ℕ) → Names (map string_bytes words.now) file → L.holds library.old file ≡ Some bytes → L.left library.new ≡ Some [] }
    ensures unread { ((file : List ℕ) → Names (map string_bytes words.now) file → ⊥) → library.new ≡ library.old }

    // Where nothing fails, there is a reply, or memory is wanted.
    ensures answers { ((file : List ℕ) → Names (map string_bytes words.now) file → HasRisen (L.faults library.old file) (L.faults library.new file) → ⊥)
        → (HasRisen (K.faults sink.old) (K.faults sink.new) → ⊥) → IsReply result ⊎ (result ≡ Status.Memory) }

    // .. and where no refusal applies either, it tells of a run.
    ensures completes { (bytes : List ℕ) → Tells (L.holds library.old) (map string_bytes words.now) bytes → MayRun (map string_bytes words.now) bytes
        → ((file : List ℕ) → Names (map string_bytes words.now) file → HasRisen (L.faults library.old file) (L.faults library.new file) → ⊥)
        → (HasRisen (K.faults sink.old) (K.faults sink.new) → ⊥) → IsRun result ⊎ (result ≡ Status.Memory) }
{
    match made_for_words(rt, alloc, words, library, gate) {
        Err(status) => status,
        Ok(made) => match store(sink, made.text.as_slice()) {
            Ok(()) => made.status,
            Err(_) => Status::WriteFault,
        },
    }
}

// The run before writing: the status and the text, or why there is none.
fn made_for_words<R: Threads + Sync, L: Library, G: Gate>(
    rt: &R,
    alloc: Global,
    words: &[String],
    library: &mut L,
    gate: &G,
) -> Result<Made, Status>
    ensures replies { IfOk result (λ made. IsReply made.status × ((bytes : List ℕ) → Tells (L.holds library.old) (map string_bytes words.now) bytes
        → Replies (map string_bytes words.now) bytes made.status made.text.items)) }
    ensures faults { IfErr result (λ status. (status ≡ Status.ReadFault) ⊎ (status ≡ Status.Memory)) }
    ensures read_fault { IsErrOf result Status.ReadFault
        → (file : List ℕ) × Names (map string_bytes words.now) file × HasRisen (L.faults library.old file) (L.faults library.new file) }
    ensures answers { ((file : List ℕ) → Names (map string_bytes words.now) file → HasRisen (L.faults library.old file) (L.faults library.new file) → ⊥)
        → IfErr result (λ status. status ≡ Status.Memory) }
    ensures completes { IfOk result (λ made. (bytes : List ℕ) → Tells (L.holds library.old) (map string_bytes words.now) bytes → MayRun (map string_bytes words.now) bytes → IsRun made.status) }
    ensures read_whole { IfOk result (λ made. IsRun made.status → (file bytes : List ℕ) → Names (map string_bytes words.now) file → L.holds library.old file ≡ Some bytes → L.left library.new ≡ Some []) }
    ensures unread { ((file : List ℕ) → Names (map string_bytes words.now) file → ⊥) → library.new ≡ library.old }
{
    match read_words(alloc, words) {
        Ok(settings) => {
            let made = made_for_settings(rt, alloc, &settings, library, gate)?;
            Ok(made)
        }
        Err(WordsFault::Memory) => Err(Status::Memory),
        Err(WordsFault::NotAccepted) => Ok(usage_reply(alloc)?),
    }
}

// The run of settings before writing.
fn made_for_settings<R: Threads + Sync, L: Library, G: Gate>(
    rt: &R,
    alloc: Global,
    settings: &EnumSettings<'_>,
    library: &mut L,
    gate: &G,
) -> Result<Made, Status>
    requires { AreInRange (settings_in settings.now) }
    ensures replies { IfOk result (λ made. IsReply made.status × ((bytes : List ℕ) → L.holds library.old (settings_in settings.now).file ≡ Some bytes
        → ReplyOf (settings_in settings.now) bytes made.status made.text.items)) }
    ensures faults { IfErr result (λ status. (status ≡ Status.ReadFault) ⊎ (status ≡ Status.Memory)) }
    ensures read_fault { IsErrOf result Status.ReadFault
        → HasRisen (L.faults library.old (settings_in settings.now).file) (L.faults library.new (settings_in settings.now).file) }
    ensures completes { IfOk result (λ made. (bytes : List ℕ) → L.holds library.old (settings_in settings.now).file ≡ Some bytes
        → ((c : ProgramData) × IsProgram bytes c) → IsRun made.status) }
    ensures read_whole { IfOk result (λ made. IsRun made.status → (bytes : List ℕ) → L.holds library.old (settings_in settings.now).file ≡ Some bytes → L.left library.new ≡ Some []) }
{
    let bytes = load_file(alloc, settings.file, library)?;
    Ok(bytes_reply(rt, alloc, gate, settings, bytes.as_slice())?)
}
