//! Generators: what a tree draws, with its type.
#![tactic(auto)]

mod drawing;
mod drawn_types;
mod gen_heads;
mod gen_nodes;
mod generators;
mod weights;

pub use drawn_types::Drawn;
pub use generators::generator;
