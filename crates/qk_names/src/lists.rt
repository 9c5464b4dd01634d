//! Lists that are taken apart.
ghost use Rattle.std.specs.Prelude.{◌≡◌, ◌≢◌, [], ◌∷◌, IfOk, MatchOption, length, reverse};

use qk_base::{Memory, Seq};
use std::alloc::Global;

/// The item of a list of one.
pub fn one<T: Drop>(items: Seq<T>) -> Option<T>
    ensures { MatchOption result (length items.items ≢ 1) (λ a. items.items ≡ a ∷ []) }
{
    let mut items = items;
    if items.len() != 1 {
        return None;
    }
    items.pop()
}

/// The items of a list of two.
pub fn two<T: Drop>(items: Seq<T>) -> Option<(T, T)>
    ensures { MatchOption result (length items.items ≢ 2) (λ p. items.items ≡ p.0 ∷ p.1 ∷ []) }
{
    let mut items = items;
    if items.len() != 2 {
        return None;
    }
    let second = items.pop()?;
    Some((items.pop()?, second))
}

/// The items of a list of three.
pub fn three<T: Drop>(items: Seq<T>) -> Option<(T, T, T)>
    ensures { MatchOption result (length items.items ≢ 3) (λ p. items.items ≡ p.0 ∷ p.1 ∷ p.2 ∷ []) }
{
    let mut items = items;
    if items.len() != 3 {
        return None;
    }
    let third = items.pop()?;
    let second = items.pop()?;
    Some((items.pop()?, second, third))
}

/// The items in the other order.
pub fn reversed<T: Drop>(alloc: Global, items: Seq<T>) -> Result<Seq<T>, Memory>
    ensures { IfOk result (λ r. r.items ≡ reverse items.items) }
{
    let mut items = items;
    let mut other = Seq::make(alloc);
    while let Some(item) = items.pop() {
        other.add(item)?;
    }
    Ok(other)
}

/// A list of two.
pub fn both<T: Drop>(alloc: Global, first: T, second: T) -> Result<Seq<T>, Memory>
    ensures { IfOk result (λ s. s.items ≡ first ∷ second ∷ []) }
{
    let mut items = Seq::make(alloc);
    items.add(first)?;
    items.add(second)?;
    Ok(items)
}
