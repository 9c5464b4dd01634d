//! The words of an exhaustive run: which are accepted, and the settings that they give.
#![tactic(auto)]

mod command;
mod laws;
mod options;
mod reading;
mod settings;
mod walk;

pub use command::read_accepted;
pub use laws::words_have_one_answer;
pub use options::OptionName;
pub use reading::read_words;
pub use settings::{EnumSettings, WordsFault};
