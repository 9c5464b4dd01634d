//! Tests of whole runs: files at fault, reports, replays, shrinks, and many workers.
#![tactic(auto)]

#[cfg(test)]
mod programs;
#[cfg(test)]
mod runs;
#[cfg(test)]
mod wellformed;
