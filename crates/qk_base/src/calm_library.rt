//! Files in memory that never fail, for tests: every name is held.
ghost use Rattle.std.specs.Prelude.{◌≡◌, ◌≤◌, ◌<◌, ◌++◌, ◌∷◌, ℕ, List, [], Some, true, take, drop, length, IfOk, OnOk, OnErr, is_ok};
ghost use Rattle.qk_base.specs.Faults.{HasRisen};
ghost use Rattle.qk_base.specs.Calm.{content, calm_given};

use crate::bytes::Bytes;
use crate::fault::{Failed, Memory};
use crate::library::Library;
use crate::mem_file::{MemFile, find, rest};
use crate::seq::Seq;
use std::alloc::Global;
use std::marker::Model;

/// Files in memory, where a name that was not added has no bytes. No opening and no read fails. Contracts see it as its files by
/// name and what is left of the open file.
#[derive(Drop)]
pub struct CalmLibrary {
    files: Seq<MemFile>,
    most: usize,
    current: Option<usize>,
    at: usize,
}

impl Model for CalmLibrary {
    ghost use Rattle.std.specs.Prelude.{◌<◌};
    ghost use Rattle.qk_base.specs.Places.{rest_at, IsWithin};
    ghost use Rattle.qk_base.specs.Calm.{CalmShelf};

    ghost Value = { CalmShelf };

    ghost view = { λ l. record { files = l.files.items; most = l.most; left = rest_at l.files.items l.current l.at } };

    ghost invariant = { λ l. (0 < l.most) × IsWithin l.files.items l.current };
}

impl CalmLibrary {
    /// A library to which no file was added. Each read gives at most `most` bytes.
    pub fn make(alloc: Global, most: usize) -> CalmLibrary
        requires { 0 < most }
        ensures { result ≡ record { files = []; most = most; left = [] } }
    {
        CalmLibrary {
            files: Seq::make(alloc),
            most,
            current: None,
            at: 0,
        }
    }

    /// Adds a file, or replaces the file of that name; what is left of an open file stays.
    pub fn add(&mut self, alloc: Global, name: &str, bytes: &[u8]) -> Result<(), Memory>
        ensures ok { OnOk result (self.new ≡ record self.old { files = self.old.files ++ record { name = name.now; bytes = bytes.now } ∷ [] }) }
        ensures err { OnErr result (self.new ≡ self.old) }
    {
        let mut title = Bytes::make(alloc);
        title.append(name.as_bytes())?;
        let mut content = Bytes::make(alloc);
        content.append(bytes)?;
        self.files.add(MemFile::make(title, content))
    }
}

impl Library for CalmLibrary {
    ghost use Rattle.qk_base.specs.Calm.{content};

    ghost faults = { λ library name. 0 };

    ghost reads = { λ library name. true };

    ghost holds = { λ library name. Some (content library.files name) };

    ghost left = { λ library. Some library.left };

    /// It answers Ok at each name.
    fn open_file(&mut self, name: &str) -> Result<(), Failed>
        ensures exact { is_ok result ≡ true }
        ensures after { self.new ≡ record self.old { left = content self.old.files name.now } }
        ensures counts { (other : List ℕ) → 0 ≤ 0 }
        ensures failed { OnErr result (HasRisen 0 0) }
        ensures opened { OnOk result (true ≡ true) }
        ensures held { (other : List ℕ) → Some (content self.new.files other) ≡ Some (content self.old.files other) }
        ensures told { OnOk result ((bytes : List ℕ) → Some (content self.old.files name.now) ≡ Some bytes → Some self.new.left ≡ Some bytes) }
    {
        self.current = find(self.files.as_slice(), name.as_bytes());
        self.at = 0;
        Ok(())
    }

    /// It answers Ok at each call.
    fn read(&mut self, buf: &mut [u8]) -> Result<usize, Failed>
        requires { 0 < length buf.old }
        ensures exact { is_ok result ≡ true }
        ensures after { self.new ≡ record self.old { left = drop (calm_given self.old (length buf.old)) self.old.left } }
        ensures gives { IfOk result (λ n. n ≡ calm_given self.old (length buf.old)) }
        ensures within { IfOk result (λ n. n ≤ length buf.old) }
        ensures counts { (other : List ℕ) → 0 ≤ 0 }
        ensures failed { OnErr result ((name : List ℕ) → true ≡ true → HasRisen 0 0) }
        ensures reading { (name : List ℕ) → true ≡ true }
        ensures held { (other : List ℕ) → Some (content self.new.files other) ≡ Some (content self.old.files other) }
        ensures told { IfOk result (λ n. (bytes : List ℕ) → Some self.old.left ≡ Some bytes → (n ≤ length bytes) × (take n buf.new ≡ take n bytes) × (Some self.new.left ≡ Some (drop n bytes))) }
        ensures end { IfOk result (λ n. n ≡ 0 → (bytes : List ℕ) → Some self.old.left ≡ Some bytes → bytes ≡ []) }
    {
        let rest = rest(self.files.as_slice(), self.current, self.at);
        let n = self.most.min(buf.len()).min(rest.len());
        let (front, _) = rest.split_at(n);
        buf[..n].copy_from_slice(front);
        self.at += n;
        Ok(n)
    }
}
