//! Laws of well-typed programs.
ghost use Rattle.qk_typed.specs.Laws.{CallsAreTyped, CandidatesAreTyped, ChecksAreTyped, CommandsAreTyped, DrawingsAreTyped, DrawnCallsAreTyped, DrawnValuesAreTyped, EnumeratedCasesAreTyped, GivensAreTyped, JudgedValuesAreTyped, MarksAreTyped, MeaningsAreTyped, RunsAreTyped, StartsAreTyped, StepsAreTyped};

/// A typed expression means a value of its type, or crashes.
pub fn meanings_are_typed()
    ensures { MeaningsAreTyped }
{}

/// So does the call of a function with arguments of its parameters' types.
pub fn calls_are_typed()
    ensures { CallsAreTyped }
{}

/// A typed generator draws values of its type, or crashes.
pub fn drawings_are_typed()
    ensures expressions { DrawingsAreTyped }
    ensures calls { DrawnCallsAreTyped }
{}

/// What is drawn by a model is a list of its commands.
pub fn commands_are_typed()
    ensures { CommandsAreTyped }
{}

/// Commands of a model lead from states of its types to states of its types.
pub fn steps_are_typed()
    ensures starts { StartsAreTyped }
    ensures steps { StepsAreTyped }
{}

/// The values that are drawn for a property's binders have their types: those that are judged, and those before a crash.
pub fn values_are_typed()
    ensures drawn { DrawnValuesAreTyped }
    ensures judged { JudgedValuesAreTyped }
{}

/// The candidates of values of the binders' types have these types, those that a shrinking function lists too.
pub fn candidates_are_typed()
    ensures { CandidatesAreTyped }
{}

/// Where values of the binders' types are judged, each given, check and mark looks at values of the types that it takes, or crashes.
pub fn judging_is_typed()
    ensures givens { GivensAreTyped }
    ensures checks { ChecksAreTyped }
    ensures runs { RunsAreTyped }
    ensures marks { MarksAreTyped }
{}

/// The cases of an exhaustive run have the types of the binders, in every program.
pub fn enumerated_cases_are_typed()
    ensures { EnumeratedCasesAreTyped }
{}
