//! The tables of a property.
ghost use Rattle.std.specs.Prelude.{◌≡◌, ◌≢◌, IfOk, [], List, ◌∷◌, ◌++◌, OnOk, OnErr, ◌↔◌};
ghost use Rattle.qk_base.specs.Judged.{Judged};
ghost use Rattle.qk_core.specs.Properties.{PropertyData};
ghost use Rattle.qk_report.specs.Counted.{IsTaken, StandsFor};

use crate::counted::Counted;
use indexmap::IndexMap;
use qk_base::{Memory, Outcome, Tally, Verdict};
use qk_core::Property;
use std::alloc::Global;

/// The counts of what the marks of a property said of the attempts that passed. A count stands still at 2^64 - 1.
#[derive(Drop)]
pub struct Tables<'p> {
    pub(crate) property: &'p Property,
    pub(crate) counts: IndexMap<Counted<'p>, u64>,
}

impl<'p> Tables<'p> {
    /// Tables for no outcome.
    pub fn make(alloc: Global, property: &'p Property) -> Result<Tables<'p>, Memory>
        ensures made { IfOk result (λ tables. tables.property.now ≡ property.entry.now) }
        ensures empty { IfOk result (λ tables. StandsFor tables []) }
    {
        Ok(Tables {
            property,
            counts: IndexMap::new(alloc),
        })
    }

    /// The property for which the tables were made.
    pub fn property(&self) -> &'p Property
        ensures { result.now ≡ self.now.property.now }
    {
        self.property
    }
}

impl<'p> Tally for Tables<'p> {
    type Made = Property;

    ghost stands_for = { StandsFor };

    ghost takes = { λ tables. IsTaken tables.property.now };

    ghost made = { λ tables. tables.property.now };

    fn add(&mut self, alloc: Global, outcome: &Outcome) -> Result<(), Memory> {
        match outcome.verdict {
            Verdict::Pass => self.add_marks(alloc, &outcome.marks),
            Verdict::Discard => Ok(()),
            Verdict::Fail(_) => Ok(()),
        }
    }
}
