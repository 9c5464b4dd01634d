//! A run over numbered cases, up to the first that fails.
#![tactic(auto)]

mod cases;
mod exhausting;
mod frontier;
mod walked;

pub use cases::Cases;
pub use exhausting::{Exhausted, exhaust};
pub use walked::Walked;
