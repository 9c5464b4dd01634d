//! Laws of the programs that trees stand for.
ghost use Rattle.qk_sound.specs.Laws.{DrawnCasesAreTyped, ProgramsAreTyped, ShrunkCasesAreTyped};
ghost use Rattle.qk_sound.specs.Reported.{ReplayedPointsAreTyped, ShrunkPointsAreTyped};
ghost use Rattle.qk_sound.specs.ReservedWords.{ReservedWordsAreForms};

/// A program that trees stand for is well typed, so that the laws of well-typed programs hold for it.
pub fn programs_are_typed()
    ensures { ProgramsAreTyped }
{}

/// What its properties are judged on, drawn or shrunk, has the types of their binders.
pub fn cases_are_typed()
    ensures drawn { DrawnCasesAreTyped }
    ensures shrunk { ShrunkCasesAreTyped }
{}

/// So have the values that a report tells of a failing property, and that a replay tells.
pub fn reported_values_are_typed()
    ensures shrunk { ShrunkPointsAreTyped }
    ensures replayed { ReplayedPointsAreTyped }
{}

/// The words that no declaration may take are those of the forms of types, expressions and generators.
pub fn reserved_words_are_forms()
    ensures { ReservedWordsAreForms }
{}
