//! One test of each adapter.

use crate::file_library::FileLibrary;
use crate::out_sink::OutSink;
use qk_base::{Library, Sink, load};
use std::fs;
use std::test::Fail;

#[test]
fn reads_files_of_the_machine(rt: HostRuntime) -> Result<(), Fail> {
    let id = std::process::id(rt.process());
    let path = format!(in rt.alloc(); "/tmp/quicker_reads_{id}")?;
    let name = path.as_str();
    fs::write(&rt, name, "seven by")?;
    let mut library = FileLibrary::make(&rt);
    let mut buf = [0u8; 4];
    assert!(rt; library.read(&mut buf).is_err(), "nothing is open");
    let whole = load(rt.alloc(), &mut library, name, 100).map_err(|_| "not loaded")?;
    assert_eq!(rt; whole.as_slice(), b"seven by".as_slice());
    let front = load(rt.alloc(), &mut library, name, 5).map_err(|_| "not loaded")?;
    assert_eq!(rt; front.as_slice(), b"seven".as_slice());
    fs::remove_file(&rt, name)?;
    assert!(rt; library.open_file(name).is_err());
    Ok(())
}

#[test]
fn writes_to_standard_output(rt: HostRuntime) -> Result<(), Fail> {
    let mut sink = OutSink::make(&rt);
    let taken = sink
        .write(b"a line\n".as_slice())
        .map_err(|_| "not written")?;
    assert_eq!(rt; taken, 7);
    Ok(())
}
