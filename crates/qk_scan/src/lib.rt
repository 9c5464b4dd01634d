//! The answers of numbered jobs up to the first hit, found by many workers.
#![tactic(auto)]

mod crew;
mod found;
mod jobs;
mod pace;
mod scanning;
mod slots;
mod working;

pub use found::Found;
pub use jobs::Jobs;
pub use pace::{Pace, Shares};
pub use scanning::{scan, scan_paced};
pub use working::work;
