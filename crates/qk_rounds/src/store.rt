//! Answers put into the due slots of a window.
ghost use Rattle.std.specs.Prelude.{◌≡◌, ◌<◌, ◌≤◌, length, All};
ghost use Rattle.qk_rounds.specs.Placed.{placed};

use crate::due::Due;
use crate::known::Known;
use qk_base::{Outcome, Seq};

/// The first due slots know the answers, each at the size for which its slot was due.
pub(crate) fn store(slots: &mut [Option<Known>], due: &[Due], mut answers: Seq<Outcome>)
    requires few { length answers.items ≤ length due.now }
    requires within { All (λ d. d.index < length slots.old) due.now }
    ensures { slots.new ≡ placed due.now answers.items slots.old }
{
    while let Some(outcome) = answers.pop() {
        let place = due[answers.len()];
        slots[place.index as usize] = Some(Known {
            size: place.size,
            outcome,
        });
    }
}
