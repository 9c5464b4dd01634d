//! Files of the machine.
ghost use Rattle.std.specs.Prelude.{◌≡◌, None, true};

use qk_base::{Failed, Library};
use std::fs;
use std::io::Read;
use std::rt::Files;

/// The machine's files. It keeps one count of faults for all names, and tells nothing of bytes.
#[derive(Drop)]
pub struct FileLibrary<'r, R: Files> {
    rt: &'r R,
    file: Option<R::File>,
    faults: u64,
}

impl<'r, R: Files> FileLibrary<'r, R> {
    /// A library with no open file and without a fault.
    pub fn make(rt: &'r R) -> FileLibrary<'r, R>
        ensures { result.faults ≡ 0 }
    {
        FileLibrary {
            rt,
            file: None,
            faults: 0,
        }
    }
}

impl<R: Files> Library for FileLibrary<'_, R> {
    ghost faults = { λ library name. library.faults };

    ghost reads = { λ library name. true };

    ghost holds = { λ library name. None };

    ghost left = { λ library. None };

    fn open_file(&mut self, name: &str) -> Result<(), Failed> {
        match fs::open(self.rt, name) {
            Ok(file) => {
                self.file = Some(file);
                Ok(())
            }
            Err(_) => {
                self.faults = self.faults.saturating_add(1);
                Err(Failed)
            }
        }
    }

    fn read(&mut self, buf: &mut [u8]) -> Result<usize, Failed> {
        if let Some(file) = &mut self.file
            && let Ok(n) = file.read(buf)
        {
            return Ok(n);
        }
        self.faults = self.faults.saturating_add(1);
        Err(Failed)
    }
}
