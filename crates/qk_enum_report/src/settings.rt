//! The settings of an exhaustive run.

/// What the exhaustive run of each property follows.
#[derive(Clone, Copy, Debug, PartialEq, Eq)]
pub struct CaseSettings {
    /// The depth up to which values are enumerated, 0 to 8.
    pub depth: u32,
    /// The most cases of a property, up to 1,000,000.
    pub cases: u64,
    /// The units of fuel of each judging.
    pub fuel: u32,
    /// The workers that judge, 1 to 64. The report does not depend on them.
    pub workers: u32,
}
