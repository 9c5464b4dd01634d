//! The slots of a window.
ghost use Rattle.std.specs.Prelude.{◌≡◌, ◌<◌, ◌≤◌, None, length, replicate, IfOk};
ghost use Rattle.std.specs.Option.{option_copied};

use crate::known::Known;
use qk_base::{Memory, Seq};
use std::alloc::Global;
use std::marker::Model;

/// The slots of a window, for attempts with consecutive numbers. A contract sees them as the list of what each knows.
#[derive(Drop)]
pub struct Slots {
    pub(crate) slots: Seq<Option<Known>>,
}

impl Model for Slots {
    ghost use Rattle.std.specs.Prelude.{◌<◌, ◌≤◌, List, length};
    ghost use Rattle.qk_rounds.specs.Windows.{Slot};

    ghost Value = { List Slot };

    ghost view = { λ s. s.slots.items };

    ghost invariant = { λ s. (0 < length s.slots.items) × (length s.slots.items ≤ 4096) };
}

impl Slots {
    ghost use Rattle.std.specs.Prelude.{slice_index_or};

    /// As many unknown slots.
    pub fn make(alloc: Global, count: u32) -> Result<Slots, Memory>
        requires { (0 < count) × (count ≤ 4096) }
        ensures { IfOk result (λ slots. slots ≡ replicate count None) }
    {
        let mut slots = Seq::make(alloc);
        slots.reserve(count as usize)?;
        for _ in 0..count {
            slots.add(None)?;
        }
        Ok(Slots { slots })
    }

    /// What a slot knows.
    pub fn known(&self, index: u32) -> Option<&Known>
        requires { index < length self.now }
        ensures { option_copied result ≡ slice_index_or self.now index None }
    {
        match self.slots.get(index as usize) {
            None => None,
            Some(slot) => slot.as_ref(),
        }
    }

    pub(crate) fn len(&self) -> usize
        ensures { result ≡ length self.now }
    {
        self.slots.len()
    }

    pub(crate) fn as_slice(&self) -> &[Option<Known>]
        ensures same { result.now ≡ self.now }
        ensures few { length self.now ≤ 4096 }
    {
        self.slots.as_slice()
    }
}
