//! The program of a file.
ghost use Rattle.std.specs.Prelude.{◌≤◌, IfOk, length};
ghost use Rattle.qk_file.specs.Reading.{IsChecked, IsRead};
ghost use Rattle.qk_syntax.specs.View.{views};

use qk_base::{Fault, Memory, Refusal, Seq};
use qk_core::Core;
use qk_syntax::{Tree, read};
use qk_wellformed::program_of;
use std::alloc::Global;

/// The program that the bytes of a file stand for, or the file's first fault.
pub fn read_program(alloc: Global, bytes: &[u8]) -> Result<Result<Core, Refusal>, Memory>
    ensures { IfOk result (λ made. IsRead bytes.now made) }
{
    match read(alloc, bytes) {
        Ok(trees) => {
            let made = checked(alloc, &trees)?;
            Ok(made)
        }
        Err(Fault::Memory) => Err(Memory),
        Err(Fault::Refused(refusal)) => Ok(Err(refusal)),
    }
}

// The program that the trees stand for, or the first check that does not hold of them.
fn checked(alloc: Global, trees: &Seq<Tree>) -> Result<Result<Core, Refusal>, Memory>
    requires { length trees.now.items ≤ 1000 }
    ensures { IfOk result (λ checked. IsChecked (views trees.now.items) checked) }
{
    match program_of(alloc, trees) {
        Ok(core) => Ok(Ok(core)),
        Err(Fault::Memory) => Err(Memory),
        Err(Fault::Refused(refusal)) => Ok(Err(refusal)),
    }
}
