ghost use Rattle.std.specs.Prelude.{◌≡◌, ◌≤◌, ◌<◌, ◌+◌, ◌++◌, ℕ, List, [], Option, Some, Bool, true, take, drop, length, IfOk, OnOk, Err};
ghost use Rattle.qk_base.specs.Faults.{HasRisen};

use crate::bytes::Bytes;
use crate::fault::{Failed, Memory};
use crate::library::Library;
use crate::status::Status;
use std::alloc::Global;

#[derive(Clone, Copy, Debug, PartialEq, Eq)]
pub enum LoadFault {
    Memory,
    Failed,
}

impl From<Memory> for LoadFault {
    ghost use Rattle.qk_base.specs.declared.loading.LoadFault.TheVariants as faults;

    ghost from_gives = { λ _ fault. fault ≡ faults.Memory };

    fn from(_memory: Memory) -> LoadFault {
        LoadFault::Memory
    }
}

impl From<Failed> for LoadFault {
    ghost use Rattle.qk_base.specs.declared.loading.LoadFault.TheVariants as faults;

    ghost from_gives = { λ _ fault. fault ≡ faults.Failed };

    fn from(_failed: Failed) -> LoadFault {
        LoadFault::Failed
    }
}

/// The bytes of a file, at most so many.
pub fn load<L: Library>(
    alloc: Global,
    library: &mut L,
    name: &str,
    most: usize,
) -> Result<Bytes, LoadFault>
    requires { 0 < most }
    ensures counts { (other : List ℕ) → L.faults library.old other ≤ L.faults library.new other }
    ensures held { (other : List ℕ) → L.holds library.new other ≡ L.holds library.old other }
    ensures failed { result ≡ Err LoadFault.Failed → HasRisen (L.faults library.old name.now) (L.faults library.new name.now) }

    // The whole content, or its front.
    ensures told { IfOk result (λ loaded. (bytes : List ℕ) → L.holds library.old name.now ≡ Some bytes → loaded.items ≡ take most bytes) }
    ensures whole { OnOk result ((bytes : List ℕ) → L.holds library.old name.now ≡ Some bytes → length bytes < most → L.left library.new ≡ Some []) }
{
    library.open_file(name)?;
    let mut bytes = Bytes::make(alloc);
    while bytes.len() < most {
        let n = read_some(library, &mut bytes, most)?;
        if n == 0 {
            return Ok(bytes);
        }
    }
    Ok(bytes)
}

// Reads once, to the end of the bytes.
fn read_some<L: Library>(
    library: &mut L,
    bytes: &mut Bytes,
    most: usize,
) -> Result<usize, LoadFault>
    requires { length bytes.old.items < most }
    ensures counts { (other : List ℕ) → L.faults library.old other ≤ L.faults library.new other }
    ensures held { (other : List ℕ) → L.holds library.new other ≡ L.holds library.old other }
    ensures reading { (name : List ℕ) → L.reads library.new name ≡ L.reads library.old name }
    ensures failed { result ≡ Err LoadFault.Failed → (name : List ℕ) → L.reads library.old name ≡ true → HasRisen (L.faults library.old name) (L.faults library.new name) }
    ensures len { IfOk result (λ n. length bytes.new.items ≡ length bytes.old.items + n) }
    ensures within { OnOk result (length bytes.new.items ≤ most) }
    ensures told { IfOk result (λ n. (rest : List ℕ) → L.left library.old ≡ Some rest → (n ≤ length rest) × (bytes.new.items ≡ bytes.old.items ++ take n rest) × (L.left library.new ≡ Some (drop n rest))) }
    ensures end { IfOk result (λ n. n ≡ 0 → (rest : List ℕ) → L.left library.old ≡ Some rest → rest ≡ []) }
{
    let mut buf = [0u8; 4096];
    let room = (most - bytes.len()).min(4096);
    let n = library.read(&mut buf[..room])?;
    bytes.append(&buf[..n])?;
    Ok(n)
}

impl From<LoadFault> for Status {
    ghost use Rattle.qk_base.specs.Status.{load_status};

    ghost from_gives = { λ fault status. status ≡ load_status fault };

    fn from(fault: LoadFault) -> Status {
        match fault {
            LoadFault::Memory => Status::Memory,
            LoadFault::Failed => Status::ReadFault,
        }
    }
}
