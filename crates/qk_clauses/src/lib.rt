//! The binders and clauses of a property.
#![tactic(auto)]

mod agreeing;
mod binders;
mod clause_heads;
mod clause_values;
mod clauses;
mod draws;
mod mark_clauses;
mod signed;

pub use agreeing::{draws_type, has_type, truth_type, typed_expression};
pub use binders::binders_at;
pub use clause_heads::Clauses;
pub use clauses::clauses_at;
pub use signed::{function_from_three, function_from_two, generator_from_one};
