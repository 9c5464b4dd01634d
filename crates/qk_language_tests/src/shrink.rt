//! Candidates by hand, and each call with ample memory.

mod tuples;
mod values;
