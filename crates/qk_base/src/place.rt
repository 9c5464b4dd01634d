//! Places in a text, and refusals of a text.

/// A place in a text: lines and columns are counted from 1, columns in bytes.
#[derive(Clone, Copy, Debug, PartialEq, Eq)]
pub struct Place {
    pub line: u32,
    pub column: u32,
}

/// Why a file is refused, and where: a code of 1 to 30 and the place of the fault.
#[derive(Clone, Copy, Debug, PartialEq, Eq)]
pub struct Refusal {
    pub code: u16,
    pub place: Place,
}
