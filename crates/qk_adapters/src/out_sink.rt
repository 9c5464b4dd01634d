//! Standard output.
ghost use Rattle.std.specs.Prelude.{◌≡◌, None};

use qk_base::{Failed, Sink};
use std::io::Print;

/// Standard output. It counts its faults, and tells nothing of bytes.
#[derive(Drop)]
pub struct OutSink<'r, P: Print> {
    rt: &'r P,
    faults: u64,
}

impl<'r, P: Print> OutSink<'r, P> {
    /// Standard output without a fault.
    pub fn make(rt: &'r P) -> OutSink<'r, P>
        ensures { result.faults ≡ 0 }
    {
        OutSink { rt, faults: 0 }
    }
}

impl<P: Print> Sink for OutSink<'_, P> {
    ghost faults = { λ sink. sink.faults };

    ghost written = { λ sink. None };

    fn write(&mut self, piece: &[u8]) -> Result<usize, Failed> {
        match self.rt.write_some(piece) {
            Ok(n) if 0 < n && n <= piece.len() => Ok(n),
            _ => {
                self.faults = self.faults.saturating_add(1);
                Err(Failed)
            }
        }
    }
}
