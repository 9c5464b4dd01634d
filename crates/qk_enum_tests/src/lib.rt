//! Tests of exhaustive runs: reports for one worker and for many, refusals, faults, and calls that never fail.
#![tactic(auto)]

#[cfg(test)]
mod reports;
#[cfg(test)]
mod runs;
