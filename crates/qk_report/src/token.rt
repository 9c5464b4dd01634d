//! The replay token's text.
ghost use Rattle.std.specs.Prelude.{◌≡◌, ◌++◌, OnOk};
ghost use Rattle.qk_report.specs.Block.{token_of};
ghost use Rattle.qk_report.specs.FailureView.{failure_behind};
ghost use Rattle.qk_report.specs.Lines.{path_line, replay_line};
ghost use Rattle.qk_report.specs.Token.{dotted, path_text, token_text};
ghost use Rattle.qk_report.specs.TokenView.{parts_in};

use crate::failure::FailureRef;
use crate::texts::{put, put_named, put_number};
use qk_base::{Bytes, Memory};
use std::alloc::Global;

fn put_path(alloc: Global, text: &mut Bytes, path: &[u64]) -> Result<(), Memory>
    ensures { OnOk result (text.new.items ≡ text.old.items ++ path_text path.now) }
{
    match path.split_first() {
        None => put(text, "-"),
        Some((first, rest)) => {
            put_number(alloc, text, *first)?;
            put_dotted(alloc, text, rest)
        }
    }
}

fn put_dotted(alloc: Global, text: &mut Bytes, path: &[u64]) -> Result<(), Memory>
    ensures { OnOk result (text.new.items ≡ text.old.items ++ dotted path.now) }
{
    for number in path {
        put_named(alloc, text, ".", *number)?;
    }
    Ok(())
}

/// Adds the line of the path.
pub(crate) fn put_path_line(alloc: Global, text: &mut Bytes, path: &[u64]) -> Result<(), Memory>
    ensures { OnOk result (text.new.items ≡ text.old.items ++ path_line path.now) }
{
    put(text, "path: ")?;
    put_path(alloc, text, path)?;
    put(text, "\n")
}

/// Adds the line of the replay token.
pub(crate) fn put_replay_line(
    alloc: Global,
    text: &mut Bytes,
    number: u32,
    failure: FailureRef<'_>,
) -> Result<(), Memory>
    ensures { OnOk result (text.new.items ≡ text.old.items ++ replay_line (token_of number (failure_behind failure.entry))) }
{
    put(text, "replay: ")?;
    put_token(alloc, text, &parts_of(number, failure))?;
    put(text, "\n")
}

/// The fields of a token.
#[derive(Clone, Copy)]
pub(crate) struct TokenParts<'a> {
    pub property: u32,
    pub seed: u64,
    pub attempt: u64,
    pub size: u32,
    pub fuel: u32,
    pub path: &'a [u64],
}

fn parts_of<'a>(number: u32, failure: FailureRef<'a>) -> TokenParts<'a>
    ensures { parts_in result ≡ token_of number (failure_behind failure.entry) }
{
    TokenParts {
        property: number,
        seed: failure.seed,
        attempt: failure.attempt,
        size: failure.size,
        fuel: failure.fuel,
        path: failure.path,
    }
}

/// Adds the text of a token.
pub(crate) fn put_token(
    alloc: Global,
    text: &mut Bytes,
    parts: &TokenParts<'_>,
) -> Result<(), Memory>
    ensures { OnOk result (text.new.items ≡ text.old.items ++ token_text (parts_in parts.now)) }
{
    put_named(alloc, text, "q1:", parts.property as u64)?;
    put_named(alloc, text, ":", parts.seed)?;
    put_named(alloc, text, ":", parts.attempt)?;
    put_named(alloc, text, ":", parts.size as u64)?;
    put_named(alloc, text, ":", parts.fuel as u64)?;
    put(text, ":")?;
    put_path(alloc, text, parts.path)
}
