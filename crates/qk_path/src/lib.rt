//! A table of shared words by which many walkers go down one chain of failing candidates, each step of which the first finder takes for all.
#![tactic(auto)]

mod table;
mod view;
mod walker;

pub use table::{ClosedPath, PathTable, Taken};
pub use walker::Walker;
