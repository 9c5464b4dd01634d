//! A gate that tells whether two workers were at a trial at one time.

use crate::gate::Gate;
use std::sync::atomic::{AtomicU64, Ordering};

/// Nobody has come.
const VACANT: u64 = 0;
/// The first entry is held.
const WAITING: u64 = 1;
/// A second entry came while the first was held.
const MET: u64 = 2;
/// The first entry went on alone.
const ALONE: u64 = 3;

/// A gate that holds its first entry until a second one comes, for at most some number of loads. A tool for tests: it means
/// nothing for any answer.
#[derive(Drop)]
pub struct MeetGate {
    stage: AtomicU64,
    turns: u64,
}

impl MeetGate {
    /// A gate that holds its first entry for at most that many loads.
    pub fn make(turns: u64) -> MeetGate {
        MeetGate {
            stage: AtomicU64::new(VACANT),
            turns,
        }
    }

    /// Whether a second entry came while the first was held.
    pub fn met(&self) -> bool {
        self.stage.load(Ordering::SeqCst) == MET
    }

    fn moves(&self, from: u64, to: u64) -> bool {
        let moved = self
            .stage
            .compare_exchange(from, to, Ordering::SeqCst, Ordering::SeqCst);
        moved.is_ok()
    }
}

impl Gate for MeetGate {
    fn enter(&self, _number: u32) {
        if !self.moves(VACANT, WAITING) {
            let _ = self.moves(WAITING, MET);
            return;
        }
        for _ in 0..self.turns {
            if self.met() {
                return;
            }
        }
        let _ = self.moves(WAITING, ALONE);
    }
}
