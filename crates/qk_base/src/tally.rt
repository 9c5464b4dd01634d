//! Tallies of committed outcomes.
ghost use Rattle.std.specs.Prelude.{◌≡◌, List, [], ◌∷◌, ◌++◌, OnOk, OnErr, ◌↔◌};
ghost use Rattle.qk_base.specs.Judged.{Judged};

use crate::fault::Memory;
use crate::outcome::Outcome;
use std::alloc::Global;

/// What collects committed outcomes, one after another.
pub trait Tally {
    /// The type of what a tally was made for. No value of it is made.
    type Made;

    /// Whether the tally stands for a list of outcomes.
    ghost stands_for: { Self → List Judged → Type 0 };

    /// The outcomes that may be added.
    ghost takes: { Self → Judged → Type 0 };

    /// What the tally was made for.
    ghost made: { Self → Self.Made };

    /// Adds one outcome. After want of memory the tally stands for what it stood for.
    fn add(&mut self, alloc: Global, outcome: &Outcome) -> Result<(), Memory>
        requires { takes self.old outcome.now }
        ensures ok { OnOk result ((outcomes : List Judged) → stands_for self.old outcomes → stands_for self.new (outcomes ++ outcome.now ∷ [])) }
        ensures err { OnErr result ((outcomes : List Judged) → stands_for self.old outcomes → stands_for self.new outcomes) }
        ensures taking { (other : Judged) → takes self.new other ↔ takes self.old other }
        ensures same_made { made self.new ≡ made self.old };
}
