//! Elaboration: the checked program that trees stand for, or the first fault in the written order of checks.
#![tactic(auto)]

mod bodies;
mod definitions;
mod elaboration;
mod models;
mod properties;

pub use elaboration::elaborate;
