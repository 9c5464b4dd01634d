//! Drawing of values by generators, with fuel.
#![tactic(auto)]

mod choices;
mod drawing;
mod expressions;
mod items;
mod machine;
mod pending;
mod steps;

pub use drawing::{draw, draw_shared, draw_user, draw_user_shared};
pub use qk_eval::Answer;
