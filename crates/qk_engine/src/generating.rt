//! The file that is generated.
ghost use Rattle.std.specs.Prelude.{◌≡◌, ◌++◌, ◌%◌, IfOk, OnOk};
ghost use Rattle.qk_engine.specs.Generated.{asked, generated_file, list_asked, number_asked, property_line};

use qk_base::{Bytes, Memory};
use qk_report::{put, put_named};
use std::alloc::Global;

/// The bytes of a file with so many properties, one a line.
pub fn generated_bytes(alloc: Global, count: u32) -> Result<Bytes, Memory>
    ensures { IfOk result (λ bytes. bytes.items ≡ generated_file count) }
{
    let mut text = Bytes::make(alloc);
    for i in 0..count {
        put_property(alloc, &mut text, i)?;
    }
    Ok(text)
}

fn put_property(alloc: Global, text: &mut Bytes, i: u32) -> Result<(), Memory>
    ensures { OnOk result (text.new.items ≡ text.old.items ++ property_line i) }
{
    put_named(alloc, text, "(prop p", i as u64)?;
    put(text, " (forall ")?;
    put_asked(alloc, text, i)?;
    put(text, "))\n")?;
    Ok(())
}

// What is asked of property i.
fn put_asked(alloc: Global, text: &mut Bytes, i: u32) -> Result<(), Memory>
    ensures { OnOk result (text.new.items ≡ text.old.items ++ asked (i % 4) i) }
{
    match i % 4 {
        0 => put(text, "((x int)) (check (= x x))"),
        1 => put(text, "((x size)) (given (= (mod x 2) 0)) (check (<= 0 x))"),
        2 => put_number(alloc, text, 8 + i as u64),
        _ => put_list(alloc, text, 2 + i as u64 % 50),
    }
}

fn put_number(alloc: Global, text: &mut Bytes, number: u64) -> Result<(), Memory>
    ensures { OnOk result (text.new.items ≡ text.old.items ++ number_asked number) }
{
    put_named(alloc, text, "((x (choose ", number)?;
    put_named(alloc, text, " ", number)?;
    put(text, "))) (check (< x 5))")?;
    Ok(())
}

fn put_list(alloc: Global, text: &mut Bytes, length: u64) -> Result<(), Memory>
    ensures { OnOk result (text.new.items ≡ text.old.items ++ list_asked length) }
{
    put_named(alloc, text, "((xs (vector ", length)?;
    put(text, " (choose 3 3)))) (check (< (length xs) 2))")?;
    Ok(())
}
