//! The bytes that are run.
ghost use Rattle.std.specs.Prelude.{◌≡◌, ◌<◌, ℕ, List, [], Some, take, length, IfOk, OnOk, Err};
ghost use Rattle.qk_base.specs.Faults.{HasRisen};

use qk_base::{Bytes, Library, LoadFault, load};
use std::alloc::Global;

/// The longest file, and one byte more.
const MOST: usize = 1_048_577;

/// Loads the front of a file, or all of it where that is no longer than a file may be.
pub(crate) fn load_file<L: Library>(
    alloc: Global,
    file: &str,
    library: &mut L,
) -> Result<Bytes, LoadFault>
    ensures loaded { IfOk result (λ loaded. (bytes : List ℕ) → L.holds library.old file.now ≡ Some bytes → loaded.items ≡ take 1048577 bytes) }
    ensures read_fault { result ≡ Err LoadFault.Failed → HasRisen (L.faults library.old file.now) (L.faults library.new file.now) }
    ensures whole { OnOk result ((bytes : List ℕ) → L.holds library.old file.now ≡ Some bytes → length bytes < 1048577 → L.left library.new ≡ Some []) }
{
    load(alloc, library, file, MOST)
}
