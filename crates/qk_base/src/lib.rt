//! The types, lists and traits that every crate of the workspace speaks of.
#![tactic(auto)]

mod bytes;
mod calm_library;
mod calm_sink;
mod family;
mod fault;
mod gate;
mod library;
mod loading;
mod meet_gate;
mod mem_file;
mod mem_library;
mod mem_sink;
mod order_gate;
mod outcome;
mod place;
mod seq;
mod sink;
mod status;
mod tally;

pub use bytes::Bytes;
pub use calm_library::CalmLibrary;
pub use calm_sink::CalmSink;
pub use family::Family;
pub use fault::{Failed, Fault, Memory};
pub use gate::{Gate, OpenGate};
pub use library::Library;
pub use loading::{LoadFault, load};
pub use meet_gate::MeetGate;
pub use mem_library::MemLibrary;
pub use mem_sink::MemSink;
pub use order_gate::OrderGate;
pub use outcome::{Cause, Marks, Outcome, Verdict};
pub use place::{Place, Refusal};
pub use seq::Seq;
pub use sink::{Sink, store};
pub use status::Status;
pub use tally::Tally;
