//! The candidates of values, found by their numbers.
#![tactic(auto)]

mod blocks;
mod copies;
mod counting;
mod fields;
mod laws;
mod lists;
mod numbers;
mod seeking;
mod sought;
mod spread;

pub use counting::value_count;
pub use laws::{candidates_are_no_larger, candidates_are_small, candidates_have_the_type};
pub use seeking::value_candidate;
pub use spread::Spread;
