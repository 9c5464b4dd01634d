//! The reply to the settings of a call and the bytes that it runs.
ghost use Rattle.std.specs.Prelude.{◌≡◌, ◌+◌, ◌++◌, IfOk, OnOk, length, nat_eq, if◌then◌else◌};
ghost use Rattle.qk_base.specs.declared.status.Status.TheVariants as status;
ghost use Rattle.qk_engine.specs.Program.{status_of as status_of_program, totals_line};
ghost use Rattle.qk_file.specs.Files.{FileReply};
ghost use Rattle.qk_engine.specs.Reply.{GeneratedReply, ReportReply, program_reply, usage};
ghost use Rattle.qk_engine.specs.Settings.{settings_told};
ghost use Rattle.qk_engine.specs.Totals.{AreTotals};
ghost use Rattle.qk_property.specs.Settings.{AreInRange, report_settings};
ghost use Rattle.qk_words.specs.SettingsData.{settings_in, AreInRange as AreSettingsInRange};

use crate::blocks::put_blocks;
use crate::replaying::token_reply;
use crate::settings::run_settings;
use crate::summing::sum_properties;
use crate::totals::Totals;
use qk_base::{Bytes, Gate, Memory, Status};
use qk_core::Core;
use qk_file::{Made, read_program, refused_file};
use qk_property::RunSettings;
use qk_report::{put, put_last_line, put_named};
use qk_words::{Aim, Settings};
use std::alloc::Global;
use std::thread::Threads;

/// The reply to words that are not accepted.
pub fn usage_reply(alloc: Global) -> Result<Made, Memory>
    ensures { IfOk result (λ made. (made.status ≡ status.Usage) × (made.text.items ≡ usage)) }
{
    let mut text = Bytes::make(alloc);
    put(&mut text, "usage: quicker [options] FILE\n")?;
    Ok(Made {
        status: Status::Usage,
        text,
    })
}

/// The reply to the bytes that are run.
pub fn bytes_reply<R: Threads + Sync, G: Gate>(
    rt: &R,
    alloc: Global,
    gate: &G,
    settings: &Settings<'_>,
    bytes: &[u8],
) -> Result<Made, Memory>
    requires { AreSettingsInRange (settings_in settings.now) }
    ensures { IfOk result (λ made. FileReply (program_reply (settings_in settings.now).aim (settings_told (settings_in settings.now))) bytes.now made.status made.text.items) }
{
    match read_program(alloc, bytes)? {
        Err(refusal) => refused_file(alloc, refusal),
        Ok(core) => reply_to_program(rt, alloc, gate, settings, &core),
    }
}

// The reply to a program.
fn reply_to_program<R: Threads + Sync, G: Gate>(
    rt: &R,
    alloc: Global,
    gate: &G,
    settings: &Settings<'_>,
    core: &Core,
) -> Result<Made, Memory>
    requires { AreSettingsInRange (settings_in settings.now) }
    ensures { IfOk result (λ made. program_reply (settings_in settings.now).aim (settings_told (settings_in settings.now)) core.now made.status made.text.items) }
{
    let run = run_settings(settings);
    match &settings.aim {
        Aim::File(_) => report_reply(rt, alloc, gate, core, &run),
        Aim::Replay(token, _) => token_reply(alloc, core, token),
        Aim::Generate(count) => generated_reply(rt, alloc, gate, core, &run, *count),
    }
}

// The report of a program.
fn report_reply<R: Threads + Sync, G: Gate>(
    rt: &R,
    alloc: Global,
    gate: &G,
    core: &Core,
    settings: &RunSettings,
) -> Result<Made, Memory>
    requires { AreInRange settings.now }
    ensures { IfOk result (λ made. ReportReply (report_settings settings.now) core.now made.status made.text.items) }
{
    let mut text = Bytes::make(alloc);
    let totals = put_blocks(rt, alloc, gate, &mut text, core, settings)?;
    put_totals(alloc, &mut text, core, totals, settings)?;
    Ok(Made {
        status: status_of(totals),
        text,
    })
}

// What is told of a generated file.
fn generated_reply<R: Threads + Sync, G: Gate>(
    rt: &R,
    alloc: Global,
    gate: &G,
    core: &Core,
    settings: &RunSettings,
    count: u32,
) -> Result<Made, Memory>
    requires { AreInRange settings.now }
    ensures { IfOk result (λ made. GeneratedReply (report_settings settings.now) count core.now made.status made.text.items) }
{
    let summed = sum_properties(rt, alloc, gate, core, settings)?;
    let mut text = Bytes::make(alloc);
    put_named(alloc, &mut text, "generated: ", count as u64)?;
    put(&mut text, "\n")?;
    put_named(alloc, &mut text, "attempts: ", summed.attempts)?;
    put(&mut text, "\n")?;
    put_totals(alloc, &mut text, core, summed.totals, settings)?;
    Ok(Made {
        status: status_of(summed.totals),
        text,
    })
}

// Adds the last line.
fn put_totals(
    alloc: Global,
    text: &mut Bytes,
    core: &Core,
    totals: Totals,
    _settings: &RunSettings,
) -> Result<(), Memory>
    requires { AreTotals (report_settings _settings.now) core.now totals }
    ensures { OnOk result (text.new.items ≡ text.old.items ++ totals_line (report_settings _settings.now) core.now) }
{
    let properties = core.properties() as u64;
    let Totals {
        passed,
        failed,
        gave_up,
    } = totals;
    put_last_line(alloc, text, properties, passed, failed, gave_up)
}

fn status_of(totals: Totals) -> Status
    ensures { result ≡ (if nat_eq (totals.failed + totals.gave_up) 0 then status.AllPassed else status.SomeFailed) }
{
    if totals.failed == 0 && totals.gave_up == 0 {
        Status::AllPassed
    } else {
        Status::SomeFailed
    }
}
