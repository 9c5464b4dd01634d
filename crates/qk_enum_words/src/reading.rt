//! The settings that words give.
ghost use Rattle.std.specs.Prelude.{◌≡◌, ◌<◌, ◌^◌, IfOk, Err, List, Some, map, string_bytes, option_map, codes, true};
ghost use Rattle.clap.specs.Words.{rows_of, found_of, first_of};
ghost use Rattle.qk_words.specs.Parts.{is_number, number as number_written};
ghost use Rattle.qk_enum_words.specs.Accepted.{IsAccepted};
ghost use Rattle.qk_enum_words.specs.Given.{AreSettings, Gives, number_given};
ghost use Rattle.qk_enum_words.specs.Matches.{AreMatches, HasMatches};
ghost use Rattle.qk_enum_words.specs.Options.{IsTaken};
ghost use Rattle.qk_enum_words.specs.Parts.{Part, given};
ghost use Rattle.qk_enum_words.specs.SettingsData.{AreInRange, settings_in};

use crate::command::read_accepted;
use crate::options::OptionName;
use crate::settings::{EnumSettings, WordsFault};
use crate::walk::are_accepted;
use clap::ArgMatches;
use qk_report::number_of;
use std::alloc::Global;

/// The settings that the words of a call give. They are refused exactly where they are not accepted.
pub fn read_words<'w>(alloc: Global, words: &'w [String]) -> Result<EnumSettings<'w>, WordsFault>
    ensures ok { IfOk result (λ s. AreSettings (map string_bytes words.entry.now) (settings_in s)) }
    ensures range { IfOk result (λ s. AreInRange (settings_in s)) }
    ensures not_accepted { result ≡ Err WordsFault.NotAccepted → IsAccepted (map string_bytes words.entry.now) → ⊥ }
{
    if !are_accepted(words) {
        return Err(WordsFault::NotAccepted);
    }
    match read_accepted(alloc, words) {
        Err(_) => Err(WordsFault::Memory),
        Ok(matches) => Ok(settings_for(&matches)),
    }
}

/// The settings, from the matches of accepted words.
fn settings_for<'w>(matches: &ArgMatches<'w>) -> EnumSettings<'w>
    requires { HasMatches (rows_of (found_of matches.now)) }
    ensures given { (ps : List Part) → AreMatches ps (rows_of (found_of matches.now)) → Gives ps (settings_in result) }
    ensures range { AreInRange (settings_in result) }
{
    EnumSettings {
        depth: number(matches, OptionName::Depth, 3) as u32,
        cases: number(matches, OptionName::Cases, 100_000),
        fuel: number(matches, OptionName::Fuel, 100_000) as u32,
        workers: number(matches, OptionName::Workers, 4) as u32,
        file: file(matches),
    }
}

/// The name of the file.
fn file<'w>(matches: &ArgMatches<'w>) -> &'w str
    requires { HasMatches (rows_of (found_of matches.now)) }
    ensures { (ps : List Part) → AreMatches ps (rows_of (found_of matches.now)) → given (codes "file") ps ≡ Some result.now }
{
    match value(matches, "file") {
        Some(file) => file,
        None => unreachable!(),
    }
}

fn value<'w>(matches: &ArgMatches<'w>, key: &str) -> Option<&'w str>
    ensures { option_map (λ s. s.now) result ≡ first_of key.now (rows_of (found_of matches.now)) }
{
    matches.get_str(key)
}

/// The number that is given for an option, else its default.
fn number(matches: &ArgMatches<'_>, name: OptionName, default: u64) -> u64
    requires matches { HasMatches (rows_of (found_of matches.now)) }
    requires default { IsTaken name default }
    ensures given { (ps : List Part) → AreMatches ps (rows_of (found_of matches.now)) → result ≡ number_given name default ps }
    ensures taken { IsTaken name result }
{
    match value(matches, name.text()) {
        None => default,
        Some(text) => written(text),
    }
}

/// The number that a value of an option writes.
fn written(text: &str) -> u64
    requires { (is_number text.now ≡ true) × (number_written text.now < 2 ^ 64) }
    ensures { result ≡ number_written text.now }
{
    match number_of(text.as_bytes()) {
        Some(number) => number,
        None => unreachable!(),
    }
}
