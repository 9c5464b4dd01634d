//! Exhaustive runs: from the words and a library to a report in a sink.
#![tactic(auto)]

mod calm;
mod laws;
mod loading;
mod replying;
mod top;

pub use calm::run_enum_calm;
pub use laws::{replies_are_one, replies_exist, workers_decide_nothing};
pub use top::run_enum;
