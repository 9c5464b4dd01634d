//! The block of a property.
ghost use Rattle.std.specs.Prelude.{◌≡◌, ◌<◌, ◌^◌, ◌++◌, OnOk, IfOk, length, min, unwrap_or};
ghost use Rattle.qk_base.specs.Judged.{cause_of as cause_of_verdict};
ghost use Rattle.qk_base.specs.declared.outcome.Cause.TheVariants as causes;
ghost use Rattle.qk_enum_report.specs.Blocks.{block_of, case_at, failure_lines, fails};
ghost use Rattle.qk_enum_report.specs.Reach.{AreInRange, reach_of};
ghost use Rattle.qk_enum_report.specs.Verdicts.{cases_of};

use crate::cases::PropertyCases;
use crate::lines::{put_failed_line, put_held_line};
use crate::settings::CaseSettings;
use qk_base::{Bytes, Cause, Gate, Memory, Verdict};
use qk_core::{Core, Property};
use qk_exhaust::exhaust;
use qk_report::{put_cause_line, put_value_lines};
use qk_series::Counts;
use std::alloc::Global;
use std::thread::Threads;

/// Judges the cases of a property, adds its block, and tells whether a case failed.
pub(crate) fn put_block<R: Threads + Sync, G: Gate>(
    rt: &R,
    alloc: Global,
    gate: &G,
    text: &mut Bytes,
    core: &Core,
    counts: &Counts<'_>,
    property: &Property,
    settings: &CaseSettings,
) -> Result<bool, Memory>
    requires in_range { AreInRange settings.now }
    requires counted { settings.now.depth < length counts.now.rows.items }
    requires of_core { counts.now.kinds.now ≡ core.now.kinds }
    ensures text { OnOk result (text.new.items ≡ text.old.items ++ block_of (reach_of settings.now) core.now property.now) }
    ensures failed { IfOk result (λ failed. failed ≡ fails (reach_of settings.now) core.now property.now) }
{
    let CaseSettings {
        depth,
        cases,
        fuel,
        workers,
    } = *settings;
    let property_cases = PropertyCases::make(core, property, counts, depth, fuel);
    let found = exhaust(rt, alloc, gate, &property_cases, cases, workers)?;
    let name = property.name.as_slice();
    let discards = found.walked.discards;
    match found.walked.failed {
        None => {
            put_held_line(alloc, text, name, found.all, found.looked, discards)?;
            Ok(false)
        }
        Some(number) => {
            put_failed_line(alloc, text, name, number, discards)?;
            put_failure(
                alloc,
                text,
                core,
                property,
                settings,
                &property_cases,
                number,
            )?;
            Ok(true)
        }
    }
}

// Adds why a case fails, and its values.
fn put_failure(
    alloc: Global,
    text: &mut Bytes,
    core: &Core,
    property: &Property,
    _settings: &CaseSettings,
    cases: &PropertyCases<'_>,
    number: u64,
) -> Result<(), Memory>
    requires number { number < min (length (cases_of core.now property.now _settings.now.depth)) (2 ^ 40) }
    requires core { cases.now.core.now ≡ core.now }
    requires kinds { cases.now.counts.now.kinds.now ≡ core.now.kinds }
    requires property { cases.now.property.now ≡ property.now }
    requires depth { cases.now.depth ≡ _settings.now.depth }
    requires fuel { cases.now.fuel ≡ _settings.now.fuel }
    ensures { OnOk result (text.new.items ≡ text.old.items ++ failure_lines (reach_of _settings.now) core.now property.now (case_at (reach_of _settings.now) core.now property.now number)) }
{
    let case = cases.case(alloc, number)?;
    let verdict = cases.verdict_of(alloc, &case)?;
    put_cause_line(text, cause_of(verdict), case.crash.is_some())?;
    let binders = property.binders.as_slice();
    put_value_lines(alloc, text, core.kinds(), binders, case.values.as_slice())
}

// Why a verdict fails; `False` where it does not.
fn cause_of(verdict: Verdict) -> Cause
    ensures { result ≡ unwrap_or (cause_of_verdict verdict) causes.False }
{
    match verdict {
        Verdict::Pass => Cause::False,
        Verdict::Discard => Cause::False,
        Verdict::Fail(cause) => cause,
    }
}
