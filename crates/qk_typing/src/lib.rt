//! The heads of expressions, the variables that they see, and the types of what operators make.
#![tactic(auto)]

mod heads;
mod nodes;
mod operators;
mod scopes;
mod typing;

pub use heads::{Form, Operator, head_form, is_known, unusable};
pub use nodes::bound;
pub use operators::{applied, check_count, count_after_head, fields_of, plain};
pub use scopes::{bind, bind_all, copied, innermost, is_among, unbind, variable_at};
pub use typing::{agree, fit_params, has_type, is_number, is_same, list_of};
