//! What a worker brings home.

/// A number with the answer of its job.
#[derive(Drop)]
pub struct Found<A> {
    pub number: u32,
    pub answer: A,
}
