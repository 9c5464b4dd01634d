//! The report of an exhaustive run of a program.
ghost use Rattle.std.specs.Prelude.{◌≡◌, ◌<◌, ◌++◌, nat_eq, OnOk, IfOk, length, if◌then◌else◌};
ghost use Rattle.qk_base.specs.declared.status.Status.TheVariants as status;
ghost use Rattle.qk_enum_report.specs.Lines.{totals_line};
ghost use Rattle.qk_enum_report.specs.Reach.{AreInRange, reach_of};
ghost use Rattle.qk_enum_report.specs.Report.{blocks_of, failures, passes, report_of, status_of};

use crate::blocks::put_block;
use crate::lines::put_totals_line;
use crate::settings::CaseSettings;
use crate::totals::CaseTotals;
use qk_base::{Bytes, Gate, Memory, Status};
use qk_core::Core;
use qk_series::Counts;
use std::alloc::Global;
use std::thread::Threads;

/// A report with its status.
#[derive(Drop)]
pub struct CaseReport {
    pub status: Status,
    pub text: Bytes,
}

/// Judges the cases of each property in the order of the file, and reports of them.
pub fn report_cases<R: Threads + Sync, G: Gate>(
    rt: &R,
    alloc: Global,
    gate: &G,
    core: &Core,
    settings: &CaseSettings,
) -> Result<CaseReport, Memory>
    requires { AreInRange settings.now }
    ensures text { IfOk result (λ report. report.text.items ≡ report_of (reach_of settings.now) core.now) }
    ensures status { IfOk result (λ report. report.status ≡ status_of (reach_of settings.now) core.now) }
{
    let counts = Counts::make(alloc, core, settings.depth)?;
    let mut text = Bytes::make(alloc);
    let totals = put_blocks(rt, alloc, gate, &mut text, core, &counts, settings)?;
    let CaseTotals { passed, failed } = totals;
    put_totals_line(alloc, &mut text, core.properties() as u64, passed, failed)?;
    Ok(CaseReport {
        status: status_for(failed),
        text,
    })
}

fn status_for(failed: u64) -> Status
    ensures { result ≡ (if nat_eq failed 0 then status.AllPassed else status.SomeFailed) }
{
    if failed == 0 {
        Status::AllPassed
    } else {
        Status::SomeFailed
    }
}

// Adds the block of each property.
fn put_blocks<R: Threads + Sync, G: Gate>(
    rt: &R,
    alloc: Global,
    gate: &G,
    text: &mut Bytes,
    core: &Core,
    counts: &Counts<'_>,
    settings: &CaseSettings,
) -> Result<CaseTotals, Memory>
    requires in_range { AreInRange settings.now }
    requires counted { settings.now.depth < length counts.now.rows.items }
    requires of_core { counts.now.kinds.now ≡ core.now.kinds }
    ensures text { OnOk result (text.new.items ≡ text.old.items ++ blocks_of (reach_of settings.now) core.now core.now.properties) }
    ensures passed { IfOk result (λ totals. totals.passed ≡ passes (reach_of settings.now) core.now core.now.properties) }
    ensures failed { IfOk result (λ totals. totals.failed ≡ failures (reach_of settings.now) core.now core.now.properties) }
{
    let mut totals = CaseTotals {
        passed: 0,
        failed: 0,
    };
    for number in 0..core.properties() {
        let property = core.property(number);
        let fails = put_block(rt, alloc, gate, text, core, counts, property, settings)?;
        totals = totals.with(fails);
    }
    Ok(totals)
}
