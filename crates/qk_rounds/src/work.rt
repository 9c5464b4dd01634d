//! The work of a run.

/// Windows begun, rounds of repair, and answers stored. They depend on the window and on no number of workers.
#[derive(Clone, Copy, Debug, PartialEq, Eq)]
pub struct Work {
    pub windows: u64,
    pub rounds: u64,
    pub trials: u64,
}
