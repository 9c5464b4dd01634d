//! What tables count.
ghost use Rattle.std.specs.Prelude.{◌≡◌, IfOk};
ghost use Rattle.qk_report.specs.Counted.{key_in};

use qk_base::Memory;
use std::alloc::Global;

/// What a mark says of an attempt: its joined labels, a class by its name, a text of a table, that a table has one more text, or
/// the cover clause of that index.
#[derive(Drop, PartialEq, Eq, Hash)]
pub(crate) enum Counted<'p> {
    Label(Vec<u8>),
    Class(&'p [u8]),
    Entry(&'p [u8], Vec<u8>),
    Entries(&'p [u8]),
    Cover(usize),
}

impl<'p> Counted<'p> {
    pub(crate) fn copy(&self, alloc: Global) -> Result<Counted<'p>, Memory>
        ensures { IfOk result (λ key. key_in key ≡ key_in self.now) }
    {
        match self {
            Counted::Label(text) => Ok(Counted::Label(Vec::from_slice(alloc, text.as_slice())?)),
            Counted::Class(name) => Ok(Counted::Class(*name)),
            Counted::Entry(name, text) => {
                let own = Vec::from_slice(alloc, text.as_slice())?;
                Ok(Counted::Entry(*name, own))
            }
            Counted::Entries(name) => Ok(Counted::Entries(*name)),
            Counted::Cover(index) => Ok(Counted::Cover(*index)),
        }
    }
}
