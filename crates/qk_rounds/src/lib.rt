//! Windows of attempts at guessed sizes, rounds of repair, and outcomes committed in order.
#![tactic(auto)]

mod alone;
mod batches;
mod commit;
mod due;
mod fold;
mod folded;
mod freely;
mod known;
mod repair;
mod run;
mod settle;
mod slots;
mod store;
mod trial;
mod work;

pub use freely::{Reached, drive_freely};
pub use known::Known;
pub use qk_schedule::Finish;
pub use repair::round;
pub use run::{Ended, drive};
pub use slots::Slots;
pub use trial::Trial;
pub use work::Work;
