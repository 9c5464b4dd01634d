//! Generators: the next word, and the split into two.
ghost use Rattle.std.specs.Prelude.{◌≡◌, ◌%◌};
ghost use Rattle.qk_splitmix.specs.SplitMix.{start, word, after, left, right};

use crate::mixing;
use std::marker::Model;

/// A SplitMix generator: a seed that moves on by an odd gamma, after Steele, Lea and Flood, "Fast Splittable Pseudorandom Number
/// Generators" (2014). It is a value: `next` and `split` give new generators, and the old one may be used again.
#[derive(Clone, Copy, Debug, PartialEq, Eq)]
pub struct Gen {
    seed: u64,
    gamma: u64,
}

impl Model for Gen {
    ghost use Rattle.std.specs.Prelude.{◌≡◌, ◌%◌};
    ghost use Rattle.qk_splitmix.specs.SplitMix.{Generator};

    ghost Value = { Generator };

    ghost view = { λ g. record { seed = g.seed; gamma = g.gamma } };

    ghost inverse = { λ g. record { seed = g.seed; gamma = g.gamma } };

    ghost invariant = { λ g. g.gamma % 2 ≡ 1 };
}

impl Gen {
    /// The generator of a number, as of a run's seed.
    #[tactic(auto, unfolding(crate::specs::SplitMix::start))]
    pub fn start(number: u64) -> Gen
        ensures { result ≡ start number }
    {
        Gen {
            seed: mixing::mix64(number),
            gamma: mixing::mix_gamma(number.wrapping_add(0x9e37_79b9_7f4a_7c15)),
        }
    }

    pub fn seed(self) -> u64
        ensures { result ≡ self.seed }
    {
        self.seed
    }

    /// Odd, so that the seed comes to every word before it comes back to one.
    pub fn gamma(self) -> u64
        ensures exact { result ≡ self.gamma }
        ensures odd { result % 2 ≡ 1 }
    {
        self.gamma
    }

    /// The next word, and the generator after it.
    #[tactic(auto, unfolding(crate::specs::SplitMix::word, crate::specs::SplitMix::after))]
    pub fn next(self) -> (u64, Gen)
        ensures word { result.0 ≡ word self }
        ensures after { result.1 ≡ after self }
    {
        let moved = Gen {
            seed: self.seed.wrapping_add(self.gamma),
            gamma: self.gamma,
        };
        (mixing::mix64(moved.seed), moved)
    }

    /// Two generators whose words are unrelated, the left half and the right half.
    #[tactic(auto, unfolding(crate::specs::SplitMix::left, crate::specs::SplitMix::right))]
    pub fn split(self) -> (Gen, Gen)
        ensures left { result.0 ≡ left self }
        ensures right { result.1 ≡ right self }
    {
        let once = self.seed.wrapping_add(self.gamma);
        let twice = once.wrapping_add(self.gamma);
        let left = Gen {
            seed: twice,
            gamma: self.gamma,
        };
        let right = Gen {
            seed: mixing::mix64(once),
            gamma: mixing::mix_gamma(twice),
        };
        (left, right)
    }
}
