//! What holds of all words of a call.
ghost use Rattle.std.specs.Prelude.{◌≡◌, List};
ghost use Rattle.qk_words.specs.Given.{AreSettings, HasBadToken};
ghost use Rattle.qk_words.specs.Options.{Text};
ghost use Rattle.qk_words.specs.SettingsData.{SettingsData};

/// Words give one settings at most, and none where their token is bad.
pub fn words_have_one_answer()
    ensures settings { (words : List Text) (s t : SettingsData) → AreSettings words s → AreSettings words t → s ≡ t }
    ensures bad_token { (words : List Text) (s : SettingsData) → AreSettings words s → HasBadToken words → ⊥ }
{}
