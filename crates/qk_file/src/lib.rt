//! What the bytes of a property file are: a program, or its first fault; and the refusal of a fault.
#![tactic(auto)]

mod laws;
mod made;
mod reading;
mod refusing;

pub use laws::files_have_one_reading;
pub use made::Made;
pub use reading::read_program;
pub use refusing::refused_file;
