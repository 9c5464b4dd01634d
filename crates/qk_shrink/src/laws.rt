//! Laws of candidates.
ghost use Rattle.std.specs.Prelude.{◌≡◌, ◌≤◌, ℕ, List, length, All, IsTrue};
ghost use Rattle.qk_core.specs.Program.{ProgramData};
ghost use Rattle.qk_core.specs.Properties.{BinderData};
ghost use Rattle.qk_eval.specs.Answers.{AreSmall};
ghost use Rattle.qk_value.specs.Data.{Data};
ghost use Rattle.qk_value.specs.Kinds.{KindData};
ghost use Rattle.qk_value.specs.Measures.{weight, depth};
ghost use Rattle.qk_value.specs.Types.{TypeData};
ghost use Rattle.qk_value.specs.Typing.{has_type};
ghost use Rattle.qk_shrink.specs.Candidates.{value_candidates};
ghost use Rattle.qk_shrink.specs.Tuples.{candidates};

/// No candidate of a value is heavier or deeper than the value.
pub fn candidates_are_no_larger()
    ensures { (kinds : List KindData) (t : TypeData) (x : Data) → All (λ y. (weight y ≤ weight x) × (depth y ≤ depth x)) (value_candidates kinds t x) }
{}

/// Each candidate of a value has its type.
pub fn candidates_have_the_type()
    ensures { (kinds : List KindData) (t : TypeData) (x : Data) → IsTrue (has_type kinds t x) → All (λ y. IsTrue (has_type kinds t y)) (value_candidates kinds t x) }
{}

/// The candidates of small values are small, and as many as the values, whichever way each binder is shrunk.
pub fn candidates_are_small()
    ensures small { (core : ProgramData) (binders : List BinderData) (values : List Data) (fuel : ℕ) → AreSmall values → All AreSmall (candidates core binders values fuel) }
    ensures many { (core : ProgramData) (binders : List BinderData) (values : List Data) (fuel : ℕ) → All (λ others. length others ≡ length values) (candidates core binders values fuel) }
{}
