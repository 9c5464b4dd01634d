//! The limits of a run.

/// How far a run goes. `QuickCourse::make` says which limits are in range.
#[derive(Clone, Copy, Debug, PartialEq, Eq)]
pub struct Limits {
    /// The successes that are wanted, 1 to 1,000,000.
    pub success: u64,
    /// The discards that are borne for each wanted success, 1 to 100.
    pub ratio: u64,
    /// The greatest size, 1 to 1,000.
    pub max_size: u64,
    /// The number of cover clauses of the property.
    pub covers: u32,
}
