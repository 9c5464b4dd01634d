//! What holds of all tokens.
ghost use Rattle.std.specs.Prelude.{◌≡◌, ℕ, List};
ghost use Rattle.qk_report.specs.Token.{TokenData, token_text};
ghost use Rattle.qk_report.specs.TokenWords.{IsTokenInRange, IsTokenOf};

/// A word is the text of one token at most. So a token that is printed and read again is the same, and a word that is read prints
/// as itself.
pub fn tokens_have_one_text()
    ensures word { (word : List ℕ) (t u : TokenData) → IsTokenOf word t → IsTokenOf word u → t ≡ u }
    ensures text { (t u : TokenData) → IsTokenInRange t → IsTokenInRange u → token_text t ≡ token_text u → t ≡ u }
{}
