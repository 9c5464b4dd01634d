//! A relay of numbered jobs from one feeder to many takers, and the answers of numbered jobs by many takers.
#![tactic(auto)]

mod crew;
mod feeding;
mod relay;
mod serving;
mod slots;
mod taken;
mod taker;
mod task;
mod view;
mod worker;
mod working;

pub use relay::Relay;
pub use serving::serve;
pub use taken::Taken;
pub use taker::{Feeder, Taker};
pub use task::{Feed, Task};
