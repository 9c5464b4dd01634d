//! The settings of a call.

/// The settings of an exhaustive run, which contracts see as plain data by `settings_in`.
#[derive(Clone, Copy, Drop)]
pub struct EnumSettings<'w> {
    /// The depth up to which values are enumerated, 0 to 8.
    pub depth: u32,
    /// The most cases of a property, 1 to 1,000,000.
    pub cases: u64,
    /// The units of fuel of each judging, 1 to 1,000,000.
    pub fuel: u32,
    /// The workers that judge, 1 to 64. The report does not depend on them.
    pub workers: u32,
    /// The name of the property file.
    pub file: &'w str,
}

/// Why words give no settings.
#[derive(Clone, Copy, Debug, PartialEq, Eq)]
pub enum WordsFault {
    Memory,
    NotAccepted,
}
