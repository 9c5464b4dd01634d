//! How a run ended.
ghost use Rattle.std.specs.Prelude.{◌≡◌};
ghost use Rattle.qk_base.specs.Status.{number_of};

use crate::fault::Memory;

/// How a run ended; its number is the exit status of the program.
#[derive(Clone, Copy, Debug, PartialEq, Eq)]
pub enum Status {
    /// Every property passed.
    AllPassed,
    /// Some property failed or gave up, or a replay was printed.
    SomeFailed,
    /// The words were not accepted, or a token was refused.
    Usage,
    /// The file was refused.
    Refused,
    /// The file was not read.
    ReadFault,
    /// The report was not written whole.
    WriteFault,
    /// Want of memory.
    Memory,
}

impl Status {
    /// 0 to 6, in the order of the variants.
    pub fn number(self) -> u8
        ensures { result ≡ number_of self }
    {
        self as u8
    }
}

impl From<Memory> for Status {
    ghost use Rattle.qk_base.specs.declared.status.Status.TheVariants as statuses;

    ghost from_gives = { λ _ status. status ≡ statuses.Memory };

    fn from(_memory: Memory) -> Status {
        Status::Memory
    }
}
