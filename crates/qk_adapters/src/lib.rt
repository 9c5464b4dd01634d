//! What the programs make of the machine: its files as a library, standard output as a sink, and the words of the command line.
#![tactic(auto)]

mod file_library;
mod out_sink;
#[cfg(test)]
mod tests;
mod words;

pub use file_library::FileLibrary;
pub use out_sink::OutSink;
pub use words::word_list;
