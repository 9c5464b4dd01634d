//! The options of a call.
ghost use Rattle.std.specs.Prelude.{◌≡◌};
ghost use Rattle.qk_enum_words.specs.Options.{option_text, range_of};

/// An option, which has a value.
#[derive(Clone, Copy, Debug, PartialEq, Eq)]
pub enum OptionName {
    Depth,
    Cases,
    Fuel,
    Workers,
}

impl OptionName {
    /// The name, without its two hyphens.
    pub(crate) fn text(self) -> &'static str
        ensures { result.now ≡ option_text self }
    {
        match self {
            OptionName::Depth => "depth",
            OptionName::Cases => "cases",
            OptionName::Fuel => "fuel",
            OptionName::Workers => "workers",
        }
    }

    /// The least and the greatest number that it takes.
    pub(crate) fn range(self) -> (u64, u64)
        ensures { result ≡ range_of self }
    {
        match self {
            OptionName::Depth => (0, 8),
            OptionName::Cases => (1, 1_000_000),
            OptionName::Fuel => (1, 1_000_000),
            OptionName::Workers => (1, 64),
        }
    }
}
