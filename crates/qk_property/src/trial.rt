//! The attempts of a property as trials.
ghost use Rattle.std.specs.Prelude.{◌≡◌, ◌<◌, ℕ, length, slice_get, Some, [], IfOk};
ghost use Rattle.qk_splitmix.specs.SplitMix.{start, left};
ghost use Rattle.qk_splitmix.specs.Attempts.{rights, attempt_gen};
ghost use Rattle.qk_rounds.specs.Trial.{Includes};

use qk_base::{Memory, Outcome, Seq};
use qk_command::attempt;
use qk_core::{Core, Property};
use qk_rounds::Trial;
use qk_splitmix::{Gen, attempt_gens};
use std::alloc::Global;

/// The attempts of a property in a run with a seed, by their number and size. The generators of the prepared numbers are made ahead, so
/// that attempts run in any order and on any worker.
#[derive(Drop)]
pub struct PropertyTrial<'c> {
    core: &'c Core,
    property: &'c Property,
    seed: u64,
    fuel: u32,
    first: u64,
    kept: Gen,
    gens: Seq<Gen>,
    ghost none_yet: { length gens.items ≡ 0 → first ≡ 0 },
    ghost kept_is: { kept ≡ rights first (start seed) },
    ghost gens_are: { (k : ℕ) → k < length gens.items → slice_get gens.items k ≡ Some (left (rights k kept)) },
}

impl<'c> PropertyTrial<'c> {
    /// The attempts of a property of a program, none of them prepared.
    pub fn make(
        alloc: Global,
        core: &'c Core,
        property: &'c Property,
        seed: u64,
        fuel: u32,
    ) -> PropertyTrial<'c>
        ensures core { result.core.now ≡ core.now }
        ensures property { result.property.now ≡ property.now }
        ensures seed { result.seed ≡ seed }
        ensures fuel { result.fuel ≡ fuel }
        ensures fresh { length result.gens.items ≡ 0 }
    {
        PropertyTrial {
            core,
            property,
            seed,
            fuel,
            first: 0,
            kept: Gen::start(seed),
            gens: Seq::make(alloc),
        }
    }

    // The generator of a prepared number.
    fn generator(&self, number: u64) -> Gen
        requires among { Includes (record { first = self.now.first; count = length self.now.gens.items }) number }
        ensures { result ≡ attempt_gen self.now.seed number }
    {
        self.gens.as_slice()[(number - self.first) as usize]
    }
}

// What is kept after so many splits more.
fn skip(kept: Gen, splits: u64) -> Gen
    ensures { result ≡ rights splits kept }
{
    let mut now = kept;
    for _ in 0..splits {
        (_, now) = now.split();
    }
    now
}

impl<'c> Trial for PropertyTrial<'c> {
    ghost use Rattle.qk_property.specs.Attempts.{outcome as outcome_of};

    ghost outcome = { λ trial. outcome_of trial.core.now trial.property.now trial.seed trial.fuel };

    ghost prepared = { λ trial. record { first = trial.first; count = length trial.gens.items } };

    fn prepare(&mut self, alloc: Global, from: u64, count: u32) -> Result<(), Memory> {
        let kept = skip(self.kept, from - self.first);
        let made = attempt_gens(alloc, kept, count)?;
        *self = PropertyTrial {
            core: self.core,
            property: self.property,
            seed: self.seed,
            fuel: self.fuel,
            first: from,
            kept,
            gens: made.gens,
        };
        Ok(())
    }

    fn perform(&self, alloc: Global, number: u64, size: u32) -> Result<Outcome, Memory> {
        let own = self.generator(number);
        attempt(alloc, self.core, self.property, own, size, self.fuel)
    }
}

/// The generator of an attempt. It takes as many splits as there are attempts before it.
pub fn generator_of(seed: u64, attempt: u64) -> Gen
    ensures { result ≡ attempt_gen seed attempt }
{
    let (own, _) = skip(Gen::start(seed), attempt).split();
    own
}
