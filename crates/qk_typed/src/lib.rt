//! Well-typed programs: typing rules, and the laws that values keep their types.
#![tactic(auto)]

mod laws;

pub use laws::{
    calls_are_typed, candidates_are_typed, commands_are_typed, drawings_are_typed,
    enumerated_cases_are_typed, judging_is_typed, meanings_are_typed, steps_are_typed,
    values_are_typed,
};
