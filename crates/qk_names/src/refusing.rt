//! Refusals by their codes.
ghost use Rattle.std.specs.Prelude.{◌≡◌};
ghost use Rattle.qk_base.specs.declared.fault.Fault.TheVariants as faults;

use qk_base::{Fault, Place, Refusal};

pub const UNKNOWN_FORM: u16 = 20;

pub const DOUBLED_NAME: u16 = 21;

pub const UNKNOWN_NAME: u16 = 22;

pub const WRONG_COUNT: u16 = 23;

pub const WRONG_TYPE: u16 = 24;

pub const MISSING_CASE: u16 = 25;

pub const DOUBLED_CASE: u16 = 26;

pub const EMPTY_DATA: u16 = 27;

pub const NO_PROPERTY: u16 = 28;

pub const WRONG_WEIGHT: u16 = 29;

pub const NO_PERCENTAGE: u16 = 30;

/// The most fields of a maker and parameters of a function.
pub const MOST_PARTS: usize = 16;

/// The refusal of that code there.
pub fn refusal(code: u16, place: Place) -> Fault
    ensures { result ≡ faults.Refused (record { code = code; place = place }) }
{
    Fault::Refused(Refusal { code, place })
}
