//! The first pass: the names that a program declares.
ghost use Rattle.std.specs.Prelude.{◌≡◌, ◌+◌, ◌<◌, ◌^◌, ◌++◌, ◌∷◌, [], ℕ, None, Ok, Err, OnOk, IfErr, length};
ghost use Rattle.qk_syntax.specs.Refusals.{IfRefusal};
ghost use Rattle.qk_syntax.specs.View.{view, views};
ghost use Rattle.qk_names.specs.Names.{declare, item_of as item_of_word, named_by, numbered};
ghost use Rattle.qk_names.specs.declared.names.Item.{Item};
ghost use Rattle.qk_names.specs.NameTable.{names_in, count_in, all_in, Declares};

use crate::refusing::{DOUBLED_NAME, refusal};
use crate::reserved::is_reserved;
use indexmap::IndexMap;
use qk_base::{Fault, Memory, Place};
use std::alloc::Global;

/// What a declared name names, by its number. Items are numbered by their sort, makers within their type.
#[derive(Clone, Copy, Debug, PartialEq, Eq)]
pub enum Named {
    Kind(u32),
    Maker { kind: u32, maker: u32 },
    Function(u32),
    Generator(u32),
    Model(u32),
    Property(u32),
}

/// A sort of items.
#[derive(Clone, Copy, Debug, PartialEq, Eq)]
pub enum Item {
    Kind,
    Function,
    Generator,
    Model,
    Property,
}

/// The sort of an item by its head.
pub fn item_of(head: &[u8]) -> Option<Item>
    ensures { result ≡ item_of_word head.now }
{
    if head == b"type".as_slice() {
        Some(Item::Kind)
    } else if head == b"fun".as_slice() {
        Some(Item::Function)
    } else if head == b"gen".as_slice() {
        Some(Item::Generator)
    } else if head == b"model".as_slice() {
        Some(Item::Model)
    } else if head == b"prop".as_slice() {
        Some(Item::Property)
    } else {
        None
    }
}

/// How many items of each sort are declared.
#[derive(Clone, Copy, Debug, PartialEq, Eq)]
pub struct Counts {
    pub kinds: u32,
    pub functions: u32,
    pub generators: u32,
    pub models: u32,
    pub properties: u32,
}

impl Counts {
    /// No item of any sort.
    pub fn none() -> Counts
        ensures each { (item : Item) → count_in result item ≡ 0 }
        ensures all { all_in result ≡ 0 }
    {
        Counts {
            kinds: 0,
            functions: 0,
            generators: 0,
            models: 0,
            properties: 0,
        }
    }

    /// What the next item of the sort is.
    pub fn next(&self, item: Item) -> Named
        ensures { result ≡ numbered item (count_in self.now item) }
    {
        match item {
            Item::Kind => Named::Kind(self.kinds),
            Item::Function => Named::Function(self.functions),
            Item::Generator => Named::Generator(self.generators),
            Item::Model => Named::Model(self.models),
            Item::Property => Named::Property(self.properties),
        }
    }

    /// One more of the sort.
    pub fn with(&self, item: Item) -> Counts
        requires { all_in self.now + 1 < 2 ^ 32 }
        ensures same { count_in result item ≡ count_in self.now item + 1 }
        ensures others { (other : Item) → (other ≡ item → ⊥) → count_in result other ≡ count_in self.now other }
        ensures all { all_in result ≡ all_in self.now + 1 }
    {
        let mut counts = *self;
        match item {
            Item::Kind => counts.kinds += 1,
            Item::Function => counts.functions += 1,
            Item::Generator => counts.generators += 1,
            Item::Model => counts.models += 1,
            Item::Property => counts.properties += 1,
        }
        counts
    }
}

/// The declared names, in the order of their declaration, looked up by name.
#[derive(Drop)]
pub struct Names {
    table: IndexMap<Vec<u8>, Named>,
}

impl Names {
    /// No name.
    pub fn make(alloc: Global) -> Names
        ensures { names_in result ≡ [] }
    {
        Names {
            table: IndexMap::new(alloc),
        }
    }

    /// What the name names.
    pub fn get(&self, name: &[u8]) -> Option<Named>
        ensures { result ≡ named_by (names_in self.now) name.now }
    {
        self.table.get(name).copied()
    }

    /// Adds a name that is not there.
    fn add(&mut self, alloc: Global, name: &[u8], named: Named) -> Result<(), Memory>
        requires { named_by (names_in self.old) name.now ≡ None }
        ensures { OnOk result (Declares (names_in self.old) name.now named (names_in self.new)) }
    {
        let key = Vec::from_slice(alloc, name)?;
        self.table.insert(key, named)?;
        Ok(())
    }

    /// Declares a name; it is refused where it is reserved or was declared before.
    pub fn declare(
        &mut self,
        alloc: Global,
        place: Place,
        name: &[u8],
        named: Named,
    ) -> Result<(), Fault>
        ensures ok { OnOk result (declare (names_in self.old) place name.now named ≡ Ok (names_in self.new)) }
        ensures refused { IfErr result (λ e. IfRefusal e (λ r. declare (names_in self.old) place name.now named ≡ Err r)) }
    {
        if is_reserved(name) || self.get(name).is_some() {
            return Err(refusal(DOUBLED_NAME, place));
        }
        self.add(alloc, name, named)?;
        Ok(())
    }
}
