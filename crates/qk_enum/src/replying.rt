//! The reply to the settings of a call and the bytes of its file.
ghost use Rattle.std.specs.Prelude.{◌≡◌, IfOk};
ghost use Rattle.qk_base.specs.declared.status.Status.TheVariants as status;
ghost use Rattle.qk_enum.specs.Reply.{ReplyOf, ReportReply, reach_told, usage};
ghost use Rattle.qk_enum_report.specs.Reach.{AreInRange as AreCasesInRange, reach_of};
ghost use Rattle.qk_enum_words.specs.SettingsData.{AreInRange, settings_in};

use qk_base::{Bytes, Gate, Memory, Status};
use qk_core::Core;
use qk_enum_report::{CaseSettings, report_cases};
use qk_enum_words::EnumSettings;
use qk_file::{Made, read_program, refused_file};
use qk_report::put;
use std::alloc::Global;
use std::thread::Threads;

/// The reply to words that are not accepted.
pub(crate) fn usage_reply(alloc: Global) -> Result<Made, Memory>
    ensures { IfOk result (λ made. (made.status ≡ status.Usage) × (made.text.items ≡ usage)) }
{
    let mut text = Bytes::make(alloc);
    put(&mut text, "usage: quicker_enum [options] FILE\n")?;
    Ok(Made {
        status: Status::Usage,
        text,
    })
}

/// The reply to the bytes of a file.
pub(crate) fn bytes_reply<R: Threads + Sync, G: Gate>(
    rt: &R,
    alloc: Global,
    gate: &G,
    settings: &EnumSettings<'_>,
    bytes: &[u8],
) -> Result<Made, Memory>
    requires { AreInRange (settings_in settings.now) }
    ensures { IfOk result (λ made. ReplyOf (settings_in settings.now) bytes.now made.status made.text.items) }
{
    match read_program(alloc, bytes)? {
        Err(refusal) => refused_file(alloc, refusal),
        Ok(core) => program_reply(rt, alloc, gate, settings, &core),
    }
}

// The reply to a program.
fn program_reply<R: Threads + Sync, G: Gate>(
    rt: &R,
    alloc: Global,
    gate: &G,
    settings: &EnumSettings<'_>,
    core: &Core,
) -> Result<Made, Memory>
    requires { AreInRange (settings_in settings.now) }
    ensures { IfOk result (λ made. ReportReply (reach_told (settings_in settings.now)) core.now made.status made.text.items) }
{
    let cases = case_settings(settings);
    let report = report_cases(rt, alloc, gate, core, &cases)?;
    Ok(Made {
        status: report.status,
        text: report.text,
    })
}

// The settings of the cases.
fn case_settings(settings: &EnumSettings<'_>) -> CaseSettings
    requires { AreInRange (settings_in settings.now) }
    ensures in_range { AreCasesInRange result }
    ensures told { reach_of result ≡ reach_told (settings_in settings.now) }
{
    CaseSettings {
        depth: settings.depth,
        cases: settings.cases,
        fuel: settings.fuel,
        workers: settings.workers,
    }
}
