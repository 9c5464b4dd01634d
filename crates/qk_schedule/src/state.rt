//! The state of a run.

use qk_base::Seq;
use std::marker::Model;

/// What a run has counted so far. A contract sees it as its plain data, without the spare room of its list.
#[derive(Drop)]
pub struct State {
    /// Attempts that passed.
    pub successes: u64,
    /// Attempts that were discarded.
    pub discards: u64,
    /// Attempts that were discarded since the last one that passed.
    pub recent: u64,
    /// For each cover clause, the attempts that it covered.
    pub covers: Seq<u64>,
}

impl Model for State {
    ghost use Rattle.qk_schedule.specs.Counts.{Counts};

    ghost Value = { Counts };

    ghost view = { λ s. record { successes = s.successes; discards = s.discards; recent = s.recent; covers = s.covers.items } };
}
