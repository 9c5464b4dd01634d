//! What holds of all words of a call.
ghost use Rattle.std.specs.Prelude.{◌≡◌, List};
ghost use Rattle.qk_enum_words.specs.Accepted.{IsAccepted};
ghost use Rattle.qk_enum_words.specs.Given.{AreSettings};
ghost use Rattle.qk_enum_words.specs.Options.{Text};
ghost use Rattle.qk_enum_words.specs.SettingsData.{SettingsData};

/// Accepted words give settings, and one alone.
pub fn words_have_one_answer()
    ensures settings { (words : List Text) → IsAccepted words → (s : SettingsData) × AreSettings words s }
    ensures one { (words : List Text) (s t : SettingsData) → AreSettings words s → AreSettings words t → s ≡ t }
{}
