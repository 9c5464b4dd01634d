//! The program that a file's trees stand for.
ghost use Rattle.std.specs.Prelude.{◌≡◌, ◌≤◌, length, Some, IfOk, IfErr};
ghost use Rattle.qk_core.specs.Program.{ProgramData};
ghost use Rattle.qk_syntax.specs.Refusals.{IfRefusal};
ghost use Rattle.qk_syntax.specs.View.{views};
ghost use Rattle.qk_types.specs.Elaboration.{type_fault};
ghost use Rattle.qk_wellformed.specs.StandsFor.{StandsFor};

use qk_base::{Fault, Seq};
use qk_core::Core;
use qk_syntax::Tree;
use qk_types::elaborate;
use std::alloc::Global;

/// What `elaborate` answers: the program that the trees stand for, or their first fault where they stand for none. A file has at
/// most 1,000 items.
pub fn program_of(alloc: Global, trees: &Seq<Tree>) -> Result<Core, Fault>
    requires { length trees.now.items ≤ 1000 }
    ensures program { IfOk result (λ core. StandsFor (views trees.now.items) core) }
    ensures refused { IfErr result (λ e. IfRefusal e (λ r. type_fault (views trees.now.items) ≡ Some r)) }
    ensures none { IfErr result (λ e. IfRefusal e (λ r. (core : ProgramData) → StandsFor (views trees.now.items) core → ⊥)) }
{
    elaborate(alloc, trees)
}
