//! Which trees stand for which program, apart from any order of checks: what elaboration gives is what they stand for.
#![tactic(auto)]

mod laws;
mod programs;

pub use laws::{
    binders_stand, bodies_stand, clauses_stand, expressions_stand, generators_stand, headers_stand,
    models_stand, names_stand, programs_stand, types_stand,
};
pub use programs::program_of;
