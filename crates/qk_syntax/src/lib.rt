//! The notation: texts of numbers, names and nested lists are read into trees, and printed.
#![tactic(auto)]

mod cursor;
mod laws;
mod lexis;
mod open_lists;
mod printing;
mod reading;
mod tree;
mod word;

pub use laws::trees_or_fault;
pub use printing::print;
pub use reading::read;
pub use tree::{Node, Tree};

#[cfg(test)]
mod tests;
