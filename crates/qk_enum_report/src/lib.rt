//! The report of an exhaustive run of a program: its properties' cases, their blocks and the last line.
#![tactic(auto)]

mod blocks;
mod cases;
mod lines;
mod reporting;
mod settings;
mod totals;

pub use cases::PropertyCases;
pub use reporting::{CaseReport, report_cases};
pub use settings::CaseSettings;
