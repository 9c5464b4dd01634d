//! A board of shared words from which many workers claim numbers, and by which they tell each other the least one that matters.
#![tactic(auto)]

mod blocks;
mod board;
mod layout;
mod seat;
mod strides;
mod view;

pub use blocks::Blocks;
pub use board::{Board, Claim, Closed};
pub use layout::Layout;
pub use seat::BoardSeat;
pub use strides::Strides;
