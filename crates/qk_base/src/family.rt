//! What a shrink walks on.
ghost use Rattle.std.specs.Prelude.{◌≡◌, ℕ, ◌<◌, ◌^◌, ◌≤◌, List, Bool, IfOk, All, length, slice_get, Some};

use crate::fault::Memory;
use std::alloc::Global;

/// The points that a shrink goes through: each has candidates, in order, and fails or does not.
pub trait Family: Sync {
    /// A point, as an attempt's values.
    type Point: Send + Sync + Drop;

    /// What is prepared of a point, so that its candidates are found by their numbers.
    type Spread: Send + Sync + Drop;

    /// Whether a point is one of this family.
    ghost owns: { Self → Self.Point → Type 0 };

    /// The candidates of a point.
    ghost children: { Self → Self.Point → List Self.Point };

    /// Whether a point fails.
    ghost failing: { Self → Self.Point → Bool };

    /// The points that a spread stands for.
    ghost listed: { Self → Self.Spread → List Self.Point };

    /// Prepares the candidates of a point.
    fn spread(&self, alloc: Global, point: &Self::Point) -> Result<Self::Spread, Memory>
        requires { owns self.now point.now }
        ensures { IfOk result (λ spread. listed self.now spread ≡ children self.now point.now) };

    /// How many candidates there are. It takes no memory.
    fn count(&self, spread: &Self::Spread) -> u64
        ensures count { result ≡ length (listed self.now spread.now) }
        ensures bounded { result ≤ 2 ^ 40 };

    /// Candidate `k`, counted from 0.
    fn child(&self, alloc: Global, spread: &Self::Spread, k: u64) -> Result<Self::Point, Memory>
        requires { k < length (listed self.now spread.now) }
        ensures { IfOk result (λ point. slice_get (listed self.now spread.now) k ≡ Some point) };

    /// Whether the point fails.
    fn fails(&self, alloc: Global, point: &Self::Point) -> Result<bool, Memory>
        requires { owns self.now point.now }
        ensures { IfOk result (λ fails. fails ≡ failing self.now point.now) };

    /// Each candidate of a point of this family is one too.
    ghost children_are_owned: { (family : Self) (point : Self.Point) → owns family point → All (owns family) (children family point) };
}
