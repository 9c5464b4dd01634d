//! The generators of numbered attempts, made ahead for a window of them.
ghost use Rattle.std.specs.Prelude.{◌≡◌, ◌<◌, ℕ, length, slice_get, Some, IfOk};
ghost use Rattle.qk_splitmix.specs.SplitMix.{left};
ghost use Rattle.qk_splitmix.specs.Attempts.{rights};

use crate::gen_words::Gen;
use qk_base::{Memory, Seq};
use std::alloc::Global;

/// The generators of attempts that follow one another, and what is kept for the attempts after them.
#[derive(Drop)]
pub struct AttemptGens {
    pub gens: Seq<Gen>,
    pub rest: Gen,
}

/// The generators of the next `count` attempts: of each split the left half is the attempt's, and the right half is split next.
pub fn attempt_gens(alloc: Global, rest: Gen, count: u32) -> Result<AttemptGens, Memory>
    ensures count { IfOk result (λ made. length made.gens.items ≡ count) }
    ensures each { IfOk result (λ made. (k : ℕ) → k < count → slice_get made.gens.items k ≡ Some (left (rights k rest))) }
    ensures rest { IfOk result (λ made. made.rest ≡ rights count rest) }
{
    let mut gens = Seq::make(alloc);
    gens.reserve(count as usize)?;
    let mut kept = rest;
    for _ in 0..count {
        let (attempt, next) = kept.split();
        gens.add(attempt)?;
        kept = next;
    }
    Ok(AttemptGens { gens, rest: kept })
}
