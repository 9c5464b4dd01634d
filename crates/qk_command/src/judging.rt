//! What the values of a property's binders come to.
ghost use Rattle.std.specs.Prelude.{◌≡◌, IfOk, map};
ghost use Rattle.qk_value.specs.View.{view_value};
ghost use Rattle.qk_eval.specs.Answers.{AreSmall};
ghost use Rattle.qk_command.specs.CommandListsView.{step_in};
ghost use Rattle.qk_command.specs.Judging.{givens_hold as givens_hold_of, check_holds as check_holds_of, holds, judged, no_marks, verdict_on};
ghost use Rattle.qk_command.specs.Marking.{notes_of};
ghost use Rattle.qk_command.specs.Steps.{goes_on, then, with_value};

use crate::checking::{all_keep, check_holds, givens_hold};
use crate::marking::mark_all;
use crate::step::Step;
use qk_base::{Bytes, Marks, Memory, Outcome, Seq, Verdict};
use qk_core::{Core, Property};
use qk_eval::{Shared, shared_all};
use qk_value::Value;
use std::alloc::Global;

/// The outcome of values, one for each binder: the preconditions of commands, the givens, the check and the marks, in this
/// order. The units of fuel run through all of them; a crash anywhere fails with its cause.
pub fn judge(
    alloc: Global,
    core: &Core,
    property: &Property,
    values: &Seq<Value>,
    fuel: u32,
) -> Result<Outcome, Memory>
    requires { AreSmall (map view_value values.now.items) }
    ensures { IfOk result (λ outcome. outcome ≡ judged core.now property.now (map view_value values.now.items) fuel) }
{
    let values = shared_all(alloc, values.as_slice())?;
    judge_shared(alloc, core, property, &values, fuel)
}

/// `judge` over shared values.
pub fn judge_shared(
    alloc: Global,
    core: &Core,
    property: &Property,
    values: &[Shared],
    fuel: u32,
) -> Result<Outcome, Memory>
    ensures { IfOk result (λ outcome. outcome ≡ judged core.now property.now values.now fuel) }
{
    match check_all(alloc, core, property, values, fuel)? {
        Step::Discard => Ok(without_marks(alloc, Verdict::Discard)),
        Step::Fail(cause) => Ok(without_marks(alloc, Verdict::Fail(cause))),
        Step::On { left } => passing(alloc, core, property, values, left),
    }
}

// The steps before the marks.
fn check_all(
    alloc: Global,
    core: &Core,
    property: &Property,
    values: &[Shared],
    fuel: u32,
) -> Result<Step, Memory>
    ensures { IfOk result (λ step. step_in step ≡ holds core.now property.now values.now fuel) }
{
    match all_keep(alloc, core, property.binders.as_slice(), values, fuel)? {
        Step::On { left } => check_given(alloc, core, property, values, left),
        Step::Discard => Ok(Step::Discard),
        Step::Fail(cause) => Ok(Step::Fail(cause)),
    }
}

// The givens and the check.
fn check_given(
    alloc: Global,
    core: &Core,
    property: &Property,
    values: &[Shared],
    fuel: u32,
) -> Result<Step, Memory>
    ensures { IfOk result (λ step. step_in step ≡ then (givens_hold_of core.now.functions property.now.givens values.now fuel) (λ _ u. check_holds_of core.now property.now.binders property.now.check values.now u)) }
{
    match givens_hold(alloc, core, property.givens.as_slice(), values, fuel)? {
        Step::On { left } => check_holds(
            alloc,
            core,
            property.binders.as_slice(),
            &property.check,
            values,
            left,
        ),
        Step::Discard => Ok(Step::Discard),
        Step::Fail(cause) => Ok(Step::Fail(cause)),
    }
}

// The outcome of an attempt whose check holds: its marks, or a crash of one of them.
fn passing(
    alloc: Global,
    core: &Core,
    property: &Property,
    values: &[Shared],
    fuel: u32,
) -> Result<Outcome, Memory>
    ensures { IfOk result (λ outcome. outcome ≡ verdict_on (with_value (notes_of core.now.functions core.now.kinds property.now.marks values.now fuel) goes_on)) }
{
    match mark_all(alloc, core, property.marks.as_slice(), values, fuel)? {
        Ok(marks) => Ok(Outcome {
            verdict: Verdict::Pass,
            marks,
        }),
        Err(cause) => Ok(without_marks(alloc, Verdict::Fail(cause))),
    }
}

pub(crate) fn without_marks(alloc: Global, verdict: Verdict) -> Outcome
    ensures { result ≡ record { verdict = verdict; marks = no_marks } }
{
    Outcome {
        verdict,
        marks: Marks {
            label: Bytes::make(alloc),
            classes: Seq::make(alloc),
            entries: Seq::make(alloc),
            covers: Seq::make(alloc),
        },
    }
}
