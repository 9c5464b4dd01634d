//! Types of values.
ghost use Rattle.std.specs.Prelude.{◌≡◌, ◌↔◌, IfOk, IsTrue};
ghost use Rattle.qk_value.specs.Types.{same_type};
ghost use Rattle.qk_value.specs.View.{view_type};

use qk_base::Memory;
use std::alloc::Global;

/// A type of values.
#[derive(Drop)]
pub enum Ty {
    Int,
    Bool,
    List(Box<Ty>),
    Pair(Box<Ty>, Box<Ty>),
    /// A user type, by its number.
    Made(u32),
}

impl Ty {
    /// An equal type.
    pub fn copy(&self, alloc: Global) -> Result<Ty, Memory>
        ensures { IfOk result (λ copy. view_type copy ≡ view_type self.now) }
    {
        match self {
            Ty::Int => Ok(Ty::Int),
            Ty::Bool => Ok(Ty::Bool),
            Ty::List(item) => {
                let item = item.copy(alloc)?;
                Ok(Ty::List(Box::new(alloc, item)?))
            }
            Ty::Pair(first, second) => {
                let first = first.copy(alloc)?;
                let second = second.copy(alloc)?;
                Ok(Ty::Pair(Box::new(alloc, first)?, Box::new(alloc, second)?))
            }
            Ty::Made(kind) => Ok(Ty::Made(*kind)),
        }
    }

    /// Whether the types are the same.
    pub fn equal(&self, other: &Ty) -> bool
        ensures { IsTrue result ↔ (view_type self.now ≡ view_type other.now) }
    {
        self.is_same(other)
    }

    fn is_same(&self, other: &Ty) -> bool
        ensures { result ≡ same_type (view_type self.now) (view_type other.now) }
    {
        match (self, other) {
            (Ty::Int, Ty::Int) => true,
            (Ty::Bool, Ty::Bool) => true,
            (Ty::List(item), Ty::List(other_item)) => item.is_same(other_item),
            (Ty::Pair(first, second), Ty::Pair(other_first, other_second)) => {
                first.is_same(other_first) && second.is_same(other_second)
            }
            (Ty::Made(kind), Ty::Made(other_kind)) => kind == other_kind,
            _ => false,
        }
    }
}
