//! The second pass: types, signatures, and what the headers of the items say.
#![tactic(auto)]

mod checking;
mod header_parts;
mod headers;
mod signatures;
mod tables;
mod types_of;

pub use checking::{bind, bytes_of, is_same, param_types, reads, scope_of};
pub use headers::headers_of;
pub use signatures::is_truth;
pub use tables::{Headers, ModelTypes, Signature, Tables, Typed, Variable};
pub use types_of::{listed, paired, type_at};
