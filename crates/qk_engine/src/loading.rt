//! The bytes that are run.
ghost use Rattle.std.specs.Prelude.{◌≡◌, ◌<◌, ℕ, List, [], Some, length, IfOk, OnOk, Err};
ghost use Rattle.qk_base.specs.Faults.{HasRisen};
ghost use Rattle.qk_engine.specs.Reading.{IsLoaded};
ghost use Rattle.qk_engine.specs.Reply.{AimNames, AimTells};
ghost use Rattle.qk_words.specs.SettingsData.{aim_in};

use crate::generating::generated_bytes;
use qk_base::{Bytes, Library, LoadFault, load};
use qk_words::Aim;
use std::alloc::Global;

/// The longest file, and one byte more.
const MOST: usize = 1_048_577;

/// Loads the file that the aim names, or makes the one that it wants.
pub fn load_aim<L: Library>(
    alloc: Global,
    aim: &Aim<'_>,
    library: &mut L,
) -> Result<Bytes, LoadFault>
    ensures loaded { IfOk result (λ loaded. (bytes : List ℕ) → AimTells (L.holds library.old) (aim_in aim.now) bytes → IsLoaded (aim_in aim.now) bytes loaded.items) }
    ensures read_fault { result ≡ Err LoadFault.Failed → (file : List ℕ) × AimNames (aim_in aim.now) file × HasRisen (L.faults library.old file) (L.faults library.new file) }
    ensures whole { OnOk result ((file bytes : List ℕ) → AimNames (aim_in aim.now) file → L.holds library.old file ≡ Some bytes → length bytes < 1048577 → L.left library.new ≡ Some []) }
    ensures unread { ((file : List ℕ) → AimNames (aim_in aim.now) file → ⊥) → library.new ≡ library.old }
{
    match aim {
        Aim::File(file) => load(alloc, library, file, MOST),
        Aim::Replay(_, file) => load(alloc, library, file, MOST),
        Aim::Generate(count) => Ok(generated_bytes(alloc, *count)?),
    }
}
