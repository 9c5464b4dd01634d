//! Command lists and the judging of an attempt.
#![tactic(auto)]

mod arguments;
mod attempting;
mod checking;
mod command_lists;
mod commands;
mod drawing;
mod judging;
mod keeping;
mod marking;
mod noting;
mod running;
mod step;
mod turning;

pub use attempting::attempt;
pub use command_lists::{Kept, Ran};
pub use drawing::{Drawn, DrawnAll, draw_all, draw_all_shared};
pub use judging::{judge, judge_shared};
pub use keeping::keeps;
pub use qk_eval::Answer;
pub use running::runs;
pub use turning::draw_commands;
