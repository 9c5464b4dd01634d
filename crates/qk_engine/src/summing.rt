//! The runs of a program's properties, counted and not told.
ghost use Rattle.std.specs.Prelude.{◌≡◌, ◌<◌, IfOk, Some, length, slice_get};
ghost use Rattle.qk_core.specs.Properties.{PropertyData};
ghost use Rattle.qk_engine.specs.Generated.{all_attempts};
ghost use Rattle.qk_engine.specs.Program.{how_many, is_passed, is_failed, is_gave_up};
ghost use Rattle.qk_property.specs.Settings.{AreInRange, report_settings};

use crate::totals::Totals;
use qk_base::{Gate, Memory};
use qk_core::Core;
use qk_property::{RunSettings, count_property};
use std::alloc::Global;
use std::thread::Threads;

/// How the properties ended, and the attempts of all.
#[derive(Clone, Copy, Debug, PartialEq, Eq)]
pub struct Summed {
    pub totals: Totals,
    pub attempts: u64,
}

/// Runs each property in the order of the file.
pub fn sum_properties<R: Threads + Sync, G: Gate>(
    rt: &R,
    alloc: Global,
    gate: &G,
    core: &Core,
    settings: &RunSettings,
) -> Result<Summed, Memory>
    requires { AreInRange settings.now }
    ensures attempts { IfOk result (λ summed. summed.attempts ≡ all_attempts (report_settings settings.now) core.now) }
    ensures passed { IfOk result (λ summed. summed.totals.passed ≡ how_many is_passed (report_settings settings.now) core.now) }
    ensures failed { IfOk result (λ summed. summed.totals.failed ≡ how_many is_failed (report_settings settings.now) core.now) }
    ensures gave_up { IfOk result (λ summed. summed.totals.gave_up ≡ how_many is_gave_up (report_settings settings.now) core.now) }
{
    let mut totals = Totals::none();
    let mut attempts = 0u64;
    for number in 0..core.properties() {
        let counted = count_property(rt, alloc, gate, core, number, settings)?;
        totals = totals.with(counted.finish);
        attempts += counted.attempts;
    }
    Ok(Summed { totals, attempts })
}
