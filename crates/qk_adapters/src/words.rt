//! The words of the command line.
ghost use Rattle.std.specs.Prelude.{◌≡◌, IfErr};
ghost use Rattle.qk_base.specs.declared.status.Status.TheVariants as status;

use qk_base::Status;
use std::rt::Env;
use std::{env, io};

/// The words after the program's name. Where one of them is not UTF-8 there are none, so that no program accepts them.
pub fn word_list<R: Env + AllocGlobal>(rt: &R) -> Result<Vec<String>, Status>
    ensures { IfErr result (λ s. s ≡ status.Memory) }
{
    let mut words = Vec::new(rt.alloc());
    match env::args(rt) {
        Ok(mut args) => {
            let _program = args.next();
            for word in args {
                if words.push(word).is_err() {
                    return Err(Status::Memory);
                }
            }
        }
        Err(error) if error.kind() == io::ErrorKind::OutOfMemory => return Err(Status::Memory),
        Err(_) => {}
    }
    Ok(words)
}
