//! The run of one property: its attempts, the points that a shrink of it goes through, and its block of the report.
#![tactic(auto)]

mod counting;
mod family;
mod point;
mod replaying;
mod reporting;
mod settings;
mod shrinking;
mod testing;
mod trial;

pub use counting::{Counted, count_property};
pub use family::{PointSpread, PropertyFamily, cause_of_point};
pub use point::Point;
pub use replaying::replay;
pub use reporting::{Reported, report_property};
pub use settings::RunSettings;
pub use shrinking::{drawn_point, shrink};
pub use testing::{Tested, test_property};
pub use trial::{PropertyTrial, generator_of};
