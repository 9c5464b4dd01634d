//! What holds of every text.
ghost use Rattle.std.specs.Prelude.{◌≡◌, ◌≤◌, ℕ, List, None, length};
ghost use Rattle.qk_syntax.specs.Canonical.{canonical, Readable};
ghost use Rattle.qk_syntax.specs.PlainTrees.{PlainTrees};
ghost use Rattle.qk_syntax.specs.Spelling.{Spells};
ghost use Rattle.qk_syntax.specs.TextFault.{text_fault};

/// A text has trees exactly where it has no fault, and then one list of trees. These can be printed where their canonical
/// text is not too long: it can be longer than the text, since it has a space between two lists.
pub fn trees_or_fault()
    ensures faultless { (bytes : List ℕ) → text_fault bytes ≡ None → (trees : PlainTrees) × Spells bytes trees }
    ensures spelled { (bytes : List ℕ) (trees : PlainTrees) → Spells bytes trees → text_fault bytes ≡ None }
    ensures one { (bytes : List ℕ) (trees others : PlainTrees) → Spells bytes trees → Spells bytes others → trees ≡ others }
    ensures readable { (bytes : List ℕ) (trees : PlainTrees) → Spells bytes trees → length (canonical trees) ≤ 1048576 → Readable trees }
{}
