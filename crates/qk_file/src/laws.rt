//! What holds of all property files.
ghost use Rattle.qk_file.specs.Laws.{NeverBoth, OneFault, OneProgram, ProgramOrFault};

/// A file is of a program or has a first fault, never both, and it is one program or one fault.
pub fn files_have_one_reading()
    ensures read { ProgramOrFault }
    ensures apart { NeverBoth }
    ensures program { OneProgram }
    ensures fault { OneFault }
{}
