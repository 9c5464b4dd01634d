//! Counting what the marks of an attempt give.
ghost use Rattle.std.specs.Prelude.{◌≡◌, [], ◌∷◌, All, OnErr, OnOk, map, true};
ghost use Rattle.qk_report.specs.Counted.{Key, Raises, SameCounts, has_row, key_in};
ghost use Rattle.qk_report.specs.Given.{keys_given as keys_of_marks};

use crate::counted::Counted;
use crate::given::keys_given;
use crate::tables::Tables;
use qk_base::{Marks, Memory};
use std::alloc::Global;

impl<'p> Tables<'p> {
    /// Counts what the marks of an attempt give. The memory is taken first.
    pub(crate) fn add_marks(&mut self, alloc: Global, marks: &Marks) -> Result<(), Memory>
        ensures property { self.new.property ≡ self.old.property }
        ensures ok { OnOk result (Raises self.old (keys_of_marks self.old.property.now marks.now) self.new) }
        ensures err { OnErr result (SameCounts self.old self.new) }
    {
        let keys = keys_given(alloc, self.property, marks)?;
        self.take_rows(alloc, &keys)?;
        self.count_all(&keys);
        Ok(())
    }

    fn take_rows(&mut self, alloc: Global, keys: &[Counted<'p>]) -> Result<(), Memory>
        ensures property { self.new.property ≡ self.old.property }
        ensures counts { SameCounts self.old self.new }
        ensures rows { OnOk result (All (λ key. has_row self.new (key_in key) ≡ true) keys.now) }
    {
        for key in keys {
            self.take_row(alloc, key)?;
        }
        Ok(())
    }

    // Takes the memory that counting the key needs, by a row whose count is 0.
    fn take_row(&mut self, alloc: Global, key: &Counted<'p>) -> Result<(), Memory>
        ensures property { self.new.property ≡ self.old.property }
        ensures counts { SameCounts self.old self.new }
        ensures row { OnOk result (has_row self.new (key_in key.now) ≡ true) }
        ensures rows { (other : Key) → has_row self.old other ≡ true → has_row self.new other ≡ true }
    {
        if self.counts.contains_key(key) {
            return Ok(());
        }
        let own = key.copy(alloc)?;
        self.counts.insert(own, 0)?;
        Ok(())
    }

    fn count_all(&mut self, keys: &[Counted<'p>])
        requires { All (λ key. has_row self.old (key_in key) ≡ true) keys.now }
        ensures property { self.new.property ≡ self.old.property }
        ensures counts { Raises self.old (map key_in keys.now) self.new }
    {
        for key in keys {
            self.count(key);
        }
    }

    // Counts a key that has a row; this takes no memory.
    fn count(&mut self, key: &Counted<'p>)
        requires { has_row self.old (key_in key.now) ≡ true }
        ensures property { self.new.property ≡ self.old.property }
        ensures counts { Raises self.old (key_in key.now ∷ []) self.new }
        ensures rows { (other : Key) → has_row self.new other ≡ has_row self.old other }
    {
        if let Some(count) = self.counts.get_mut(key) {
            *count = count.saturating_add(1);
        }
    }
}
