//! The command that reads accepted words.
ghost use Rattle.std.specs.Prelude.{◌≡◌, IfOk, IfErr, false, map, string_bytes};
ghost use Rattle.clap.specs.Words.{app_of, rule_of, with_rule, kind_of, rows_of, found_of, matches_of};
ghost use Rattle.qk_enum_words.specs.Accepted.{IsAccepted};
ghost use Rattle.qk_enum_words.specs.EnumCommand.{bare_app, quicker_enum, unnamed, valued, with_options};

use clap::error::ErrorKind;
use clap::{Arg, ArgAction, ArgMatches, Command, Error};
use std::alloc::{AllocError, Global};

fn option<'w>(alloc: Global, id: &'w str) -> Arg<'w>
    ensures rule { rule_of result ≡ valued id.entry.now }
    ensures local { result.global ≡ false }
{
    Arg::new(alloc, id).long(id).action(ArgAction::Set)
}

/// The word that names a file.
fn unnamed<'w>(alloc: Global, id: &'w str) -> Arg<'w>
    ensures rule { rule_of result ≡ unnamed id.entry.now }
    ensures local { result.global ≡ false }
{
    Arg::new(alloc, id).action(ArgAction::Set)
}

fn bare<'w>(alloc: Global) -> Command<'w>
    ensures { app_of result ≡ bare_app }
{
    Command::new(alloc, "quicker_enum")
        .no_binary_name(true)
        .disable_help_flag(true)
}

fn with_options<'w>(alloc: Global, command: Command<'w>) -> Result<Command<'w>, AllocError>
    ensures { IfOk result (λ c. app_of c ≡ with_options (app_of command.entry)) }
{
    command
        .arg(option(alloc, "depth"))?
        .arg(option(alloc, "cases"))?
        .arg(option(alloc, "fuel"))?
        .arg(option(alloc, "workers"))
}

/// The command that takes every accepted list of words.
fn command<'w>(alloc: Global) -> Result<Command<'w>, AllocError>
    ensures { IfOk result (λ c. app_of c ≡ quicker_enum) }
{
    let command = with_options(alloc, bare(alloc))?;
    command.arg(unnamed(alloc, "file"))
}

/// Reads accepted words, which fails for want of memory alone.
pub fn read_accepted<'w>(alloc: Global, words: &'w [String]) -> Result<ArgMatches<'w>, Error>
    requires { IsAccepted (map string_bytes words.now) }
    ensures ok { IfOk result (λ m. rows_of (found_of m) ≡ matches_of quicker_enum (map string_bytes words.entry.now)) }
    ensures err { IfErr result (λ e. kind_of e ≡ ErrorKind.OutOfMemory) }
{
    let command = command(alloc)?;
    command.try_get_matches_from(words)
}
