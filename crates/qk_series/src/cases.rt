//! The cases of a property by their numbers.
ghost use Rattle.std.specs.Prelude.{◌≡◌, ◌<◌, [], length, get_or, IfOk};
ghost use Rattle.qk_series.specs.Cases.{case_in, case_of, cases};
ghost use Rattle.qk_series.specs.Members.{saturated};

use crate::counts::Counts;
use crate::members::Enumerated;
use crate::saturated::product;
use qk_base::{Cause, Memory, Seq};
use qk_core::Binder;
use qk_value::Value;
use std::alloc::Global;

/// The values of a case, or those before the first that is too large, with the cause.
#[derive(Drop)]
pub struct Case {
    pub values: Seq<Value>,
    pub crash: Option<Cause>,
}

impl<'c> Counts<'c> {
    /// How many cases binders have at a depth, or 2^40 where there are more. Generators are not looked at.
    pub fn count_cases(&self, binders: &[Binder], depth: u32) -> u64
        requires { depth < length self.now.rows.items }
        ensures { result ≡ saturated (length (cases self.now.kinds.now depth binders.now)) }
    {
        let mut count = 1;
        for binder in binders {
            count = product(count, self.count(&binder.ty, depth));
        }
        count
    }

    /// Case `k` of binders at a depth. Its values are all small.
    pub fn case_at(
        &self,
        alloc: Global,
        binders: &[Binder],
        depth: u32,
        k: u64,
    ) -> Result<Case, Memory>
        requires depth { depth < length self.now.rows.items }
        requires number { k < saturated (length (cases self.now.kinds.now depth binders.now)) }
        ensures { IfOk result (λ case. case_in case ≡ case_of (get_or (cases self.now.kinds.now depth binders.now) k [])) }
    {
        let mut values = Seq::make(alloc);
        let mut rest = k;
        for i in 0..binders.len() {
            let (_, behind) = binders.split_at(i + 1);
            let others = self.count_cases(behind, depth);
            let binder = &binders[i];
            match self.value_at(alloc, &binder.ty, depth, rest / others)? {
                Enumerated::Crash(cause) => {
                    return Ok(Case {
                        values,
                        crash: Some(cause),
                    });
                }
                Enumerated::Value(value) => values.add(value)?,
            }
            rest %= others;
        }
        Ok(Case {
            values,
            crash: None,
        })
    }
}
