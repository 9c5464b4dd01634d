//! SplitMix: pseudo-random words from generators that split, for numbered attempts that need no shared state.
#![tactic(auto)]

mod attempts;
mod choosing;
mod gen_words;
mod mixing;

pub use attempts::{AttemptGens, attempt_gens};
pub use choosing::choose;
pub use gen_words::Gen;
