//! Types and values: weight, depth, order, types of values, and text.
#![tactic(auto)]

mod kinds;
mod order;
mod print;
mod ty;
mod typing;
mod value;

pub use kinds::{Kind, Kinds, Maker};
pub use order::order_is_total;
pub use ty::Ty;
pub use value::{Value, copy_all};
