//! A report in memory that never fails, for tests: it keeps the bytes that it has room for.
ghost use Rattle.std.specs.Prelude.{◌≡◌, ◌≤◌, ◌<◌, ℕ, List, [], true, length, IfOk, OnErr, is_ok};
ghost use Rattle.qk_base.specs.Faults.{HasRisen};
ghost use Rattle.qk_base.specs.Gains.{Gains, taken};
ghost use Rattle.qk_base.specs.Calm.{calm_taken, after_calm_write, told};

use crate::bytes::Bytes;
use crate::fault::{Failed, Memory};
use crate::sink::Sink;
use std::alloc::Global;
use std::marker::Model;

/// The front of a report in memory. No write fails: bytes for which there is no room are taken and left out, and from then on the
/// bytes are told no longer. Contracts see it as the kept bytes, the room that is left, and whether no byte was left out.
#[derive(Drop)]
pub struct CalmSink {
    bytes: Bytes,
    most: usize,
    room: usize,
    whole: bool,
}

impl Model for CalmSink {
    ghost use Rattle.std.specs.Prelude.{◌<◌, ◌≤◌};
    ghost use Rattle.qk_base.specs.Calm.{CalmSheet};

    ghost Value = { CalmSheet };

    ghost view = { λ s. record { bytes = s.bytes.items; most = s.most; room = s.room; whole = s.whole } };

    ghost invariant = { λ s. (0 < s.most) × (s.room ≤ s.bytes.spare) };
}

impl CalmSink {
    /// An empty report with room for `room` bytes, which is taken here. Each write takes at most `most` bytes.
    pub fn make(alloc: Global, most: usize, room: usize) -> Result<CalmSink, Memory>
        requires { 0 < most }
        ensures { IfOk result (λ sink. sink ≡ record { bytes = []; most = most; room = room; whole = true }) }
    {
        let mut bytes = Bytes::make(alloc);
        bytes.reserve(room)?;
        Ok(CalmSink {
            bytes,
            most,
            room,
            whole: true,
        })
    }

    /// The kept bytes.
    pub fn bytes(&self) -> &[u8]
        ensures { result.now ≡ self.now.bytes }
    {
        self.bytes.as_slice()
    }

    /// Whether no byte was left out.
    pub fn whole(&self) -> bool
        ensures { result ≡ self.now.whole }
    {
        self.whole
    }
}

impl Sink for CalmSink {
    ghost use Rattle.qk_base.specs.Calm.{told};

    ghost faults = { λ sink. 0 };

    ghost written = { λ sink. told sink };

    /// It answers Ok at each piece. It takes no memory.
    fn write(&mut self, piece: &[u8]) -> Result<usize, Failed>
        requires { 0 < length piece.now }
        ensures exact { is_ok result ≡ true }
        ensures after { self.new ≡ after_calm_write self.old piece.now }
        ensures takes { IfOk result (λ n. n ≡ calm_taken self.old piece.now) }
        ensures some { IfOk result (λ n. (0 < n) × (n ≤ length piece.now)) }
        ensures counts { 0 ≤ 0 }
        ensures failed { OnErr result (HasRisen 0 0) }
        ensures told { Gains (told self.old) (told self.new) (taken result piece.now) }
    {
        let n = self.most.min(piece.len());
        let kept = n.min(self.room);
        let (front, _) = piece.split_at(kept);
        self.bytes.append(front).unwrap();
        self.whole = self.whole && n <= self.room;
        self.room -= kept;
        Ok(n)
    }
}
