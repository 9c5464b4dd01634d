//! Ways from a failing point to one that has no failing candidate: the descent, which is the same for every number of workers, and
//! greedy shrinking, which is not.
#![tactic(auto)]

mod crew;
mod descent;
mod frontier;
mod minimum;
mod shrinking;
mod walking;

pub use descent::descend;
pub use minimum::Minimum;
pub use shrinking::greedy;
pub use walking::walk;
