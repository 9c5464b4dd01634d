//! The blocks of a program's properties.
ghost use Rattle.std.specs.Prelude.{◌≡◌, ◌<◌, ◌++◌, ℕ, List, IfOk, OnOk, Some, length, slice_get};
ghost use Rattle.qk_core.specs.Properties.{PropertyData};
ghost use Rattle.qk_engine.specs.Program.{AreBlocks, how_many, is_passed, is_failed, is_gave_up};
ghost use Rattle.qk_property.specs.Blocks.{IsBlock};
ghost use Rattle.qk_property.specs.Running.{run_of};
ghost use Rattle.qk_property.specs.Settings.{AreInRange, report_settings};

use crate::totals::Totals;
use qk_base::{Bytes, Gate, Memory};
use qk_core::Core;
use qk_property::{RunSettings, report_property};
use qk_schedule::Finish;
use std::alloc::Global;
use std::thread::Threads;

/// Runs each property in the order of the file, and adds its block.
pub fn put_blocks<R: Threads + Sync, G: Gate>(
    rt: &R,
    alloc: Global,
    gate: &G,
    text: &mut Bytes,
    core: &Core,
    settings: &RunSettings,
) -> Result<Totals, Memory>
    requires { AreInRange settings.now }
    ensures text { OnOk result ((blocks : List ℕ) × AreBlocks (report_settings settings.now) core.now 0 core.now.properties blocks × (text.new.items ≡ text.old.items ++ blocks)) }
    ensures passed { IfOk result (λ totals. totals.passed ≡ how_many is_passed (report_settings settings.now) core.now) }
    ensures failed { IfOk result (λ totals. totals.failed ≡ how_many is_failed (report_settings settings.now) core.now) }
    ensures gave_up { IfOk result (λ totals. totals.gave_up ≡ how_many is_gave_up (report_settings settings.now) core.now) }
{
    let mut totals = Totals::none();
    for number in 0..core.properties() {
        let finish = put_block(rt, alloc, gate, text, core, number, settings)?;
        totals = totals.with(finish);
    }
    Ok(totals)
}

// Runs the property of that number, and adds its block.
fn put_block<R: Threads + Sync, G: Gate>(
    rt: &R,
    alloc: Global,
    gate: &G,
    text: &mut Bytes,
    core: &Core,
    number: u32,
    settings: &RunSettings,
) -> Result<Finish, Memory>
    requires number { number < length core.now.properties }
    requires in_range { AreInRange settings.now }
    ensures text { OnOk result ((p : PropertyData) → slice_get core.now.properties number ≡ Some p → (block : List ℕ) × IsBlock (report_settings settings.now) core.now number p block × (text.new.items ≡ text.old.items ++ block)) }
    ensures finish { IfOk result (λ finish. (p : PropertyData) → slice_get core.now.properties number ≡ Some p → finish ≡ (run_of (report_settings settings.now) core.now p).finish) }
{
    let reported = report_property(rt, alloc, gate, core, number, settings)?;
    text.append(reported.text.as_slice())?;
    Ok(reported.finish)
}
