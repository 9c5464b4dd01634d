//! Expressions: the typed expression that a tree stands for, with atoms, patterns and matches.
#![tactic(auto)]

mod atoms;
mod expressions;
mod matching;
mod patterns;

pub use expressions::{arguments, expression};
