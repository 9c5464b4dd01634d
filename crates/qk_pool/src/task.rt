//! What is served.
ghost use Rattle.std.specs.Prelude.{◌≡◌, ℕ, ◌≤◌, List, Option, Some, Err, IfOk};
ghost use Rattle.qk_base.specs.Faults.{HasRisen};

use qk_base::{Bytes, LoadFault, Memory};

/// Where the inputs come from.
pub trait Feed {
    /// The count of faults of a number.
    ghost faults: { Self → ℕ → ℕ };
    /// The input of a number, where it is told.
    ghost inputs: { Self → ℕ → Option (List ℕ) };
    /// What no call changes.
    ghost made: { Self → List (List ℕ) };

    fn next(&mut self, number: u32) -> Result<Bytes, LoadFault>
        ensures counts { (n : ℕ) → faults self.old n ≤ faults self.new n }
        ensures failed { result ≡ Err LoadFault.Failed → HasRisen (faults self.old number) (faults self.new number) }
        ensures inputs { (n : ℕ) → inputs self.new n ≡ inputs self.old n }
        ensures made { made self.new ≡ made self.old }
        ensures told { IfOk result (λ b. (input : List ℕ) → inputs self.old number ≡ Some input → b.items ≡ input) };
}

/// What is done with each input.
pub trait Task: Sync {
    type Answer: Send + Drop;

    /// What performing needs of the task.
    ghost ready: { Self → Type 0 };
    /// The answers that a number with its input may have.
    ghost answers: { Self → ℕ → List ℕ → Self.Answer → Type 0 };

    fn perform(&self, number: u32, input: &Bytes) -> Result<Self::Answer, Memory>
        requires { ready self.now }
        ensures { IfOk result (λ answer. answers self.now number input.now.items answer) };
}
