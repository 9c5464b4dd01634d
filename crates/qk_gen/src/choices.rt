//! One of several generators.
ghost use Rattle.std.specs.Prelude.{◌≡◌, ℕ, List, IfOk, option_map, pos};
ghost use Rattle.std.specs.Option.{option_copied};
ghost use Rattle.qk_core.specs.Definitions.{FunctionData};
ghost use Rattle.qk_core.specs.GenView.{view_gen, view_gens, view_weighteds};
ghost use Rattle.qk_gen.specs.Drawing.{Calls, draws_at, draws_reached, draws_body, total_weight};
ghost use Rattle.qk_splitmix.specs.SplitMix.{Generator};
ghost use Rattle.qk_value.specs.Data.{Data};

use qk_base::{Memory, Seq};
use qk_core::{GenExpr, Weighted};

/// The generator at that place.
pub(crate) fn at(generators: &Seq<GenExpr>, place: usize) -> Option<&GenExpr>
    ensures { (functions : List FunctionData) (calls : Calls) (env : List Data) (size : ℕ) (g : Generator) (u : ℕ) →
        draws_at functions calls (view_gens generators.now.items) place env size g u
        ≡ draws_body functions calls (option_map view_gen (option_copied result)) env size g u }
{
    generators.get(place)
}

/// The sum of the weights. No program of a file has weights that come to more than 2^62.
pub(crate) fn total(parts: &[Weighted]) -> Result<i64, Memory>
    ensures { IfOk result (λ sum. sum ≡ pos (total_weight (view_weighteds parts.now))) }
{
    let mut sum = 0u64;
    for part in parts {
        sum += part.weight as u64;
        if sum > 4_611_686_018_427_387_904 {
            return Err(Memory);
        }
    }
    Ok(sum as i64)
}

/// The first generator whose weights so far reach that number.
pub(crate) fn reached(parts: &[Weighted], number: u64) -> Option<&GenExpr>
    ensures { (functions : List FunctionData) (calls : Calls) (env : List Data) (size : ℕ) (g : Generator) (u : ℕ) →
        draws_reached functions calls (view_weighteds parts.now) number env size g u
        ≡ draws_body functions calls (option_map view_gen (option_copied result)) env size g u }
{
    let mut rest = number;
    for part in parts {
        if rest <= part.weight as u64 {
            return Some(&part.body);
        }
        rest -= part.weight as u64;
    }
    None
}
