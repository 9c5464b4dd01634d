//! The walk over the words, which tells whether they are accepted.
ghost use Rattle.std.specs.Prelude.{◌≡◌, ◌<◌, ◌↔◌, IsTrue, map, string_bytes, option_map, Some, codes};
ghost use Rattle.qk_words.specs.Parts.{is_plain};
ghost use Rattle.qk_enum_words.specs.Accepted.{IsAccepted};
ghost use Rattle.qk_enum_words.specs.Parts.{fits};
ghost use Rattle.qk_enum_words.specs.Walk.{after_name, has, is_good, marked, nothing, option_named, option_of, option_place, step, step_file, step_option, step_part, strip};

use crate::options::OptionName;
use qk_words::is_number_within;

/// What was met so far.
#[derive(Clone, Copy, Debug, PartialEq, Eq)]
pub(crate) struct State {
    /// The option whose value is the next word.
    waits: Option<OptionName>,
    /// What was given: the options and FILE.
    seen: [bool; 5],
}

/// The place of FILE.
const FILE: usize = 4;

impl OptionName {
    /// Its place in what was given.
    fn place(self) -> usize
        ensures place { result ≡ option_place self }
        ensures small { result < 4 }
    {
        match self {
            OptionName::Depth => 0,
            OptionName::Cases => 1,
            OptionName::Fuel => 2,
            OptionName::Workers => 3,
        }
    }

    /// Whether the value is one of this option.
    fn fits(self, value: &[u8]) -> bool
        ensures { result ≡ fits self value.now }
    {
        let (least, greatest) = self.range();
        is_number_within(value, least, greatest)
    }

    /// This option at the head of a text, with the value behind it.
    fn read<'w>(self, name: &'w [u8]) -> Option<(OptionName, Option<&'w [u8]>)>
        ensures { option_map (λ p. (p.0, option_map (λ v. v.now) p.1)) result ≡ option_named self name.now }
    {
        match name.strip_prefix(self.text().as_bytes()) {
            None => None,
            Some(rest) => self.read_value(rest),
        }
    }

    fn read_value<'w>(self, rest: &'w [u8]) -> Option<(OptionName, Option<&'w [u8]>)>
        ensures { option_map (λ p. (p.0, option_map (λ v. v.now) p.1)) result ≡ after_name self (Some rest.now) }
    {
        match rest {
            [] => Some((self, None)),
            [first, value @ ..] => if *first == b'=' {
                Some((self, Some(value)))
            } else {
                None
            },
        }
    }
}

fn is_plain(word: &[u8]) -> bool
    ensures { result ≡ is_plain word.now }
{
    match word {
        [] => false,
        [first, ..] => *first != b'-',
    }
}

/// The option that a text begins with, and the value behind it.
fn option_of<'w>(name: &'w [u8]) -> Option<(OptionName, Option<&'w [u8]>)>
    ensures { option_map (λ p. (p.0, option_map (λ v. v.now) p.1)) result ≡ option_of name.now }
{
    if let Some(found) = OptionName::Depth.read(name) {
        return Some(found);
    }
    if let Some(found) = OptionName::Cases.read(name) {
        return Some(found);
    }
    if let Some(found) = OptionName::Fuel.read(name) {
        return Some(found);
    }
    OptionName::Workers.read(name)
}

impl State {
    fn has(self, place: usize) -> bool
        requires { place < 5 }
        ensures { result ≡ has place self }
    {
        self.seen[place]
    }

    fn marked(self, place: usize) -> State
        requires { place < 5 }
        ensures { result ≡ marked place self }
    {
        let mut seen = self.seen;
        seen[place] = true;
        State { seen, ..self }
    }

    fn step(self, word: &[u8]) -> Option<State>
        ensures { result ≡ step self word.now }
    {
        match self.waits {
            Some(name) => if is_plain(word) && name.fits(word) {
                Some(State {
                    waits: None,
                    ..self
                })
            } else {
                None
            },
            None => self.step_part(word),
        }
    }

    fn step_part(self, word: &[u8]) -> Option<State>
        ensures { result ≡ step_part (strip (codes "--") word.now) self word.now }
    {
        match word.strip_prefix(b"--".as_slice()) {
            Some(name) => self.step_named(name),
            None => self.step_file(word),
        }
    }

    fn step_named(self, name: &[u8]) -> Option<State>
        ensures { result ≡ step_option (option_of name.now) self }
    {
        match option_of(name) {
            Some((option, value)) => self.step_option(option, value),
            None => None,
        }
    }

    fn step_option(self, option: OptionName, value: Option<&[u8]>) -> Option<State>
        ensures { result ≡ step_option (Some (option, option_map (λ v. v.now) value.entry)) self }
    {
        if self.has(option.place()) {
            return None;
        }
        let seen = self.marked(option.place());
        match value {
            None => Some(State {
                waits: Some(option),
                ..seen
            }),
            Some(text) => if is_plain(text) && option.fits(text) {
                Some(seen)
            } else {
                None
            },
        }
    }

    fn step_file(self, word: &[u8]) -> Option<State>
        ensures { result ≡ step_file self word.now }
    {
        if is_plain(word) && !self.has(FILE) {
            Some(self.marked(FILE))
        } else {
            None
        }
    }
}

fn walk(words: &[String]) -> bool
    ensures { result ≡ is_good (map string_bytes words.now) nothing }
{
    let mut state = State {
        waits: None,
        seen: [false; 5],
    };
    for word in words {
        match state.step(word.as_bytes()) {
            None => return false,
            Some(next) => state = next,
        }
    }
    state.waits.is_none() && state.has(FILE)
}

/// Whether the words are accepted.
pub(crate) fn are_accepted(words: &[String]) -> bool
    ensures { IsTrue result ↔ IsAccepted (map string_bytes words.now) }
{
    walk(words)
}
