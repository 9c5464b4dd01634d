//! The words of a call: which are accepted, and the settings that they give.
#![tactic(auto)]

mod command;
mod laws;
mod numbers;
mod options;
mod reading;
mod settings;
mod walk;

pub use command::read_accepted;
pub use laws::words_have_one_answer;
pub use numbers::is_number_within;
pub use options::{FlagName, OptionName};
pub use reading::read_words;
pub use settings::{Aim, Settings, WordsFault};
