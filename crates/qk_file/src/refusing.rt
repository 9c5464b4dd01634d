//! The refusal of a file.
ghost use Rattle.std.specs.Prelude.{◌≡◌, ◌++◌, IfOk, OnOk};
ghost use Rattle.qk_file.specs.Files.{Refuses, refusal};

use crate::made::Made;
use qk_base::{Bytes, Memory, Refusal, Status};
use qk_report::{put, put_named};
use std::alloc::Global;

/// The answer to a file that is refused.
pub fn refused_file(alloc: Global, refused: Refusal) -> Result<Made, Memory>
    ensures { IfOk result (λ made. Refuses refused made.status made.text.items) }
{
    let mut text = Bytes::make(alloc);
    put_refusal(alloc, &mut text, refused)?;
    Ok(Made {
        status: Status::Refused,
        text,
    })
}

// Adds the refusal of a file.
fn put_refusal(alloc: Global, text: &mut Bytes, refused: Refusal) -> Result<(), Memory>
    ensures { OnOk result (text.new.items ≡ text.old.items ++ refusal refused) }
{
    put_named(alloc, text, "refused ", refused.code as u64)?;
    put_named(alloc, text, " at ", refused.place.line as u64)?;
    put_named(alloc, text, ":", refused.place.column as u64)?;
    put(text, "\n")
}
