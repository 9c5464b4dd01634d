//! Tests of the relay of jobs, and of answers by many takers.
#![tactic(auto)]

#[cfg(test)]
mod relay;
#[cfg(test)]
mod serving;
