//! The cases of a property, by their numbers.
ghost use Rattle.std.specs.Prelude.{◌≡◌, ◌<◌, ◌^◌, [], length, min, get_or, IfOk};
ghost use Rattle.qk_enum_report.specs.Verdicts.{case_verdict, cases_over};
ghost use Rattle.qk_eval.specs.Answers.{AreSmall};
ghost use Rattle.qk_series.specs.Cases.{case_in, case_of};

use qk_base::{Memory, Verdict};
use qk_command::judge;
use qk_core::{Core, Property};
use qk_exhaust::Cases;
use qk_series::{Case, Counts};
use std::alloc::Global;

/// The cases of a property of a program, all values of its binders up to a depth, each judged with so many units of fuel.
#[derive(Drop)]
pub struct PropertyCases<'c> {
    core: &'c Core,
    property: &'c Property,
    counts: &'c Counts<'c>,
    depth: u32,
    fuel: u32,
    ghost counted: { depth < length counts.now.rows.items },
}

impl<'c> PropertyCases<'c> {
    /// The cases of a property, whose types are counted.
    pub fn make(
        core: &'c Core,
        property: &'c Property,
        counts: &'c Counts<'c>,
        depth: u32,
        fuel: u32,
    ) -> PropertyCases<'c>
        requires counted { depth < length counts.now.rows.items }
        ensures core { result.core.now ≡ core.now }
        ensures property { result.property.now ≡ property.now }
        ensures counts { result.counts.now ≡ counts.now }
        ensures depth { result.depth ≡ depth }
        ensures fuel { result.fuel ≡ fuel }
    {
        PropertyCases {
            core,
            property,
            counts,
            depth,
            fuel,
        }
    }

    /// The case of a number.
    pub fn case(&self, alloc: Global, number: u64) -> Result<Case, Memory>
        requires { number < min (length (cases_over self.now.counts.now.kinds.now self.now.property.now self.now.depth)) (2 ^ 40) }
        ensures case { IfOk result (λ case. case_in case ≡ case_of (get_or (cases_over self.now.counts.now.kinds.now self.now.property.now self.now.depth) number [])) }
        ensures small { IfOk result (λ case. AreSmall (case_in case).values) }
    {
        let property = self.property;
        let binders = property.binders.as_slice();
        self.counts.case_at(alloc, binders, self.depth, number)
    }

    /// The verdict of a case.
    pub fn verdict_of(&self, alloc: Global, case: &Case) -> Result<Verdict, Memory>
        requires { AreSmall (case_in case.now).values }
        ensures { IfOk result (λ verdict. verdict ≡ case_verdict self.now.core.now self.now.property.now self.now.fuel (case_in case.now)) }
    {
        match case.crash {
            Some(cause) => Ok(Verdict::Fail(cause)),
            None => {
                let outcome = judge(alloc, self.core, self.property, &case.values, self.fuel)?;
                Ok(outcome.verdict)
            }
        }
    }
}

impl<'c> Cases for PropertyCases<'c> {
    ghost use Rattle.qk_enum_report.specs.Verdicts.{verdicts_over};

    ghost verdicts = { λ cases. verdicts_over cases.counts.now.kinds.now cases.core.now cases.property.now cases.depth cases.fuel };

    fn count(&self) -> u64 {
        let property = self.property;
        let binders = property.binders.as_slice();
        self.counts.count_cases(binders, self.depth)
    }

    fn verdict(&self, alloc: Global, number: u64) -> Result<Verdict, Memory> {
        let case = self.case(alloc, number)?;
        self.verdict_of(alloc, &case)
    }
}
