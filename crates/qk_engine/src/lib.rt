//! The top call: from the words and a library to a report in a sink.
#![tactic(auto)]

mod blocks;
mod calm;
mod generating;
mod laws;
mod loading;
mod replaying;
mod replying;
mod settings;
mod summing;
mod top;
mod totals;

pub use calm::{run_calm, run_into_calm, run_with_calm};
pub use laws::{
    greedy_decides_only_shrinks, greedy_is_for_files, replies_are_one, replies_exist,
    window_decides_only_work_lines, window_decides_work_lines, workers_decide_nothing,
};
pub use qk_file::Made;
pub use qk_words::{Aim, Settings, WordsFault, read_words};
pub use top::{run, run_into, run_with};
