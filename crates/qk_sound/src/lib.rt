//! What trees stand for is well typed.
#![tactic(auto)]

mod laws;

pub use laws::{
    cases_are_typed, programs_are_typed, reported_values_are_typed, reserved_words_are_forms,
};
