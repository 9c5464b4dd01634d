//! The values of a type up to a depth: how many there are, and each by its number.
#![tactic(auto)]

mod cases;
mod counts;
mod members;
mod parts;
mod saturated;
mod weighed;

pub use cases::Case;
pub use counts::Counts;
pub use members::Enumerated;
