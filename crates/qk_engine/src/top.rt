//! The top call.
ghost use Rattle.std.specs.Prelude.{◌≡◌, ◌⊎◌, ℕ, List, [], Some, Ok, take, map, string_bytes, IfOk, IfErr, IsErrOf};
ghost use Rattle.qk_base.specs.Faults.{HasRisen};
ghost use Rattle.qk_base.specs.Gains.{Gains};
ghost use Rattle.qk_base.specs.declared.status.Status.{Status as Answer};
ghost use Rattle.qk_file.specs.Files.{IsReply, IsRun};
ghost use Rattle.qk_engine.specs.Reply.{AimNames, AimTells, IsRunnable, MayRun, Names, Replies, ReplyOf, Tells};
ghost use Rattle.qk_words.specs.Given.{AreSettings};
ghost use Rattle.qk_words.specs.SettingsData.{settings_in, AreInRange};

use crate::loading::load_aim;
use crate::replaying::refused_token;
use crate::replying::{bytes_reply, usage_reply};
use qk_base::{Gate, Library, Sink, Status, store};
use qk_file::Made;
use qk_words::{Settings, WordsFault, read_words};
use std::alloc::Global;
use std::thread::Threads;

/// The whole run: reads the words, loads the file, runs its properties and writes the report. The words are those after the
/// program's name. The reply does not look at the number of workers; see `workers_decide_nothing`.
pub fn run<R: Threads + Sync, L: Library, K: Sink, G: Gate>(
    rt: &R,
    alloc: Global,
    words: &[String],
    library: &mut L,
    sink: &mut K,
    gate: &G,
) -> Status
    // The sink has gained a reply, and nothing else.
    ensures replies { IsReply result → (bytes : List ℕ) → Tells (L.holds library.old) (map string_bytes words.now) bytes
        → (text : List ℕ) × Replies (map string_bytes words.now) bytes result text × Gains (K.written sink.old) (K.written sink.new) text }

    // The sink has gained nothing.
    ensures silent { (result ≡ Status.ReadFault) ⊎ (result ≡ Status.Memory) → Gains (K.written sink.old) (K.written sink.new) [] }
    ensures read_fault { result ≡ Status.ReadFault
        → (file : List ℕ) × Names (map string_bytes words.now) file × HasRisen (L.faults library.old file) (L.faults library.new file) }

    // The sink has gained the front of a reply.
    ensures write_fault { result ≡ Status.WriteFault → HasRisen (K.faults sink.old) (K.faults sink.new) }
    ensures front { result ≡ Status.WriteFault → (bytes : List ℕ) → Tells (L.holds library.old) (map string_bytes words.now) bytes
        → (status : Answer) × (text : List ℕ) × (n : ℕ) × IsReply status × Replies (map string_bytes words.now) bytes status text × Gains (K.written sink.old) (K.written sink.new) (take n text) }

    // The file was read to its end, and the library is as it was where the words name none.
    ensures read_whole { IsRun result → (file bytes : List ℕ) → Names (map string_bytes words.now) file → L.holds library.old file ≡ Some bytes → L.left library.new ≡ Some [] }
    ensures unread { ((file : List ℕ) → Names (map string_bytes words.now) file → ⊥) → library.new ≡ library.old }

    // Where nothing fails, there is a reply, or memory is wanted.
    ensures answers { ((file : List ℕ) → Names (map string_bytes words.now) file → HasRisen (L.faults library.old file) (L.faults library.new file) → ⊥)
        → (HasRisen (K.faults sink.old) (K.faults sink.new) → ⊥) → IsReply result ⊎ (result ≡ Status.Memory) }

    // .. and where no refusal applies either, it tells of a run.
    ensures completes { (bytes : List ℕ) → Tells (L.holds library.old) (map string_bytes words.now) bytes → MayRun (map string_bytes words.now) bytes
        → ((file : List ℕ) → Names (map string_bytes words.now) file → HasRisen (L.faults library.old file) (L.faults library.new file) → ⊥)
        → (HasRisen (K.faults sink.old) (K.faults sink.new) → ⊥) → IsRun result ⊎ (result ≡ Status.Memory) }
{
    match run_into(rt, alloc, words, library, gate) {
        Err(status) => status,
        Ok(made) => match store(sink, made.text.as_slice()) {
            Ok(()) => made.status,
            Err(_) => Status::WriteFault,
        },
    }
}

/// The run before writing: the status and the text, or why there is none.
pub fn run_into<R: Threads + Sync, L: Library, G: Gate>(
    rt: &R,
    alloc: Global,
    words: &[String],
    library: &mut L,
    gate: &G,
) -> Result<Made, Status>
    ensures replies { IfOk result (λ made. IsReply made.status × ((bytes : List ℕ) → Tells (L.holds library.old) (map string_bytes words.now) bytes
        → Replies (map string_bytes words.now) bytes made.status made.text.items)) }
    ensures faults { IfErr result (λ status. (status ≡ Status.ReadFault) ⊎ (status ≡ Status.Memory)) }
    ensures read_fault { IsErrOf result Status.ReadFault
        → (file : List ℕ) × Names (map string_bytes words.now) file × HasRisen (L.faults library.old file) (L.faults library.new file) }
    ensures answers { ((file : List ℕ) → Names (map string_bytes words.now) file → HasRisen (L.faults library.old file) (L.faults library.new file) → ⊥)
        → IfErr result (λ status. status ≡ Status.Memory) }
    ensures completes { IfOk result (λ made. (bytes : List ℕ) → Tells (L.holds library.old) (map string_bytes words.now) bytes → MayRun (map string_bytes words.now) bytes → IsRun made.status) }
    ensures read_whole { IfOk result (λ made. IsRun made.status → (file bytes : List ℕ) → Names (map string_bytes words.now) file → L.holds library.old file ≡ Some bytes → L.left library.new ≡ Some []) }
    ensures unread { ((file : List ℕ) → Names (map string_bytes words.now) file → ⊥) → library.new ≡ library.old }
{
    match read_words(alloc, words) {
        Ok(settings) => {
            let made = run_with(rt, alloc, &settings, library, gate)?;
            Ok(made)
        }
        Err(WordsFault::Memory) => Err(Status::Memory),
        Err(WordsFault::NotAccepted) => Ok(usage_reply(alloc)?),
        Err(WordsFault::BadToken) => Ok(refused_token(alloc, "refused 40\n")?),
    }
}

/// The run of settings before writing.
pub fn run_with<R: Threads + Sync, L: Library, G: Gate>(
    rt: &R,
    alloc: Global,
    settings: &Settings<'_>,
    library: &mut L,
    gate: &G,
) -> Result<Made, Status>
    requires { AreInRange (settings_in settings.now) }
    ensures replies { IfOk result (λ made. IsReply made.status × ((bytes : List ℕ) → AimTells (L.holds library.old) (settings_in settings.now).aim bytes
        → ReplyOf (settings_in settings.now) bytes made.status made.text.items)) }
    ensures faults { IfErr result (λ status. (status ≡ Status.ReadFault) ⊎ (status ≡ Status.Memory)) }
    ensures read_fault { IsErrOf result Status.ReadFault
        → (file : List ℕ) × AimNames (settings_in settings.now).aim file × HasRisen (L.faults library.old file) (L.faults library.new file) }
    ensures answers { ((file : List ℕ) → AimNames (settings_in settings.now).aim file → HasRisen (L.faults library.old file) (L.faults library.new file) → ⊥)
        → IfErr result (λ status. status ≡ Status.Memory) }
    ensures completes { IfOk result (λ made. (bytes : List ℕ) → AimTells (L.holds library.old) (settings_in settings.now).aim bytes → IsRunnable (settings_in settings.now).aim bytes → IsRun made.status) }
    ensures read_whole { IfOk result (λ made. IsRun made.status → (file bytes : List ℕ) → AimNames (settings_in settings.now).aim file → L.holds library.old file ≡ Some bytes → L.left library.new ≡ Some []) }
    ensures unread { ((file : List ℕ) → AimNames (settings_in settings.now).aim file → ⊥) → library.new ≡ library.old }
{
    let bytes = load_aim(alloc, &settings.aim, library)?;
    Ok(bytes_reply(rt, alloc, gate, settings, bytes.as_slice())?)
}
