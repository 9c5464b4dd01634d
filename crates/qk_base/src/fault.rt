//! Why a call has no answer.
ghost use Rattle.std.specs.Prelude.{◌≡◌};

use crate::place::Refusal;
use std::alloc::{AllocError, AllocFailed};
use std::error::Error;
use std::fmt;

/// Want of memory.
#[derive(Clone, Copy, Debug, PartialEq, Eq)]
pub struct Memory;

impl fmt::Display for Memory {
    fn fmt<W: fmt::Write>(&self, f: &mut fmt::Formatter<W>) -> fmt::Result {
        write!(f, "out of memory")
    }
}

impl Error for Memory {}

impl From<AllocError> for Memory {
    fn from(_e: AllocError) -> Memory {
        Memory
    }
}

impl<T: Drop> From<AllocFailed<T>> for Memory {
    fn from(_e: AllocFailed<T>) -> Memory {
        Memory
    }
}

/// A library or a sink that failed.
#[derive(Clone, Copy, Debug, PartialEq, Eq)]
pub struct Failed;

/// Why a text has no answer.
#[derive(Clone, Copy, Debug, PartialEq, Eq)]
pub enum Fault {
    Memory,
    Refused(Refusal),
}

impl From<Memory> for Fault {
    ghost use Rattle.qk_base.specs.declared.fault.Fault.TheVariants as faults;

    ghost from_gives = { λ _ fault. fault ≡ faults.Memory };

    fn from(_memory: Memory) -> Fault {
        Fault::Memory
    }
}

impl From<Refusal> for Fault {
    ghost use Rattle.qk_base.specs.declared.fault.Fault.TheVariants as faults;

    ghost from_gives = { λ refusal fault. fault ≡ faults.Refused refusal };

    fn from(refusal: Refusal) -> Fault {
        Fault::Refused(refusal)
    }
}
