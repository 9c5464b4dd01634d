//! Replay tokens, and their print.
ghost use Rattle.std.specs.Prelude.{◌≡◌, IfOk};
ghost use Rattle.qk_report.specs.Token.{token_text};
ghost use Rattle.qk_report.specs.TokenView.{parts_in};

use crate::token::{TokenParts, put_token};
use qk_base::{Bytes, Memory, Seq};
use std::alloc::Global;
use std::marker::Model;

/// A replay token: the number of a property, the seed, attempt, size and fuel by which the attempt is drawn again, and the
/// numbers of the candidates that are followed from it.
#[derive(Drop)]
pub struct Token {
    pub property: u32,
    pub seed: u64,
    pub attempt: u64,
    pub size: u32,
    pub fuel: u32,
    pub path: Seq<u64>,
}

impl Model for Token {
    ghost use Rattle.qk_report.specs.Token.{TokenData};

    ghost Value = { TokenData };

    ghost view = { λ t. record { property = t.property; seed = t.seed; attempt = t.attempt; size = t.size; fuel = t.fuel; path = t.path.items } };
}

impl Token {
    fn parts(&self) -> TokenParts<'_>
        ensures { parts_in result ≡ self.now }
    {
        TokenParts {
            property: self.property,
            seed: self.seed,
            attempt: self.attempt,
            size: self.size,
            fuel: self.fuel,
            path: self.path.as_slice(),
        }
    }

    /// The text of the token, as a report has it.
    pub fn print(&self, alloc: Global) -> Result<Bytes, Memory>
        ensures { IfOk result (λ text. text.items ≡ token_text self.now) }
    {
        let mut text = Bytes::make(alloc);
        put_token(alloc, &mut text, &self.parts())?;
        Ok(text)
    }
}
