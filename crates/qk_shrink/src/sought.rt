//! What a search by number comes to.

/// What a search for the member of a list by its number comes to.
#[derive(Drop)]
pub(crate) enum Sought<T> {
    Here(T),
    /// The number lies so far past the end.
    Past(u64),
}
