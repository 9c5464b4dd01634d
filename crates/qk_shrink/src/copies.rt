//! The other values around one that is replaced.
ghost use Rattle.std.specs.Prelude.{◌≡◌, ◌+◌, ◌<◌, ◌++◌, ◌∷◌, length, take, drop, IfOk, OnOk};

use qk_base::Memory;
use qk_eval::Shared;
use std::alloc::Global;

// More values at the end, a step for each.
fn share_onto(items: &[Shared], all: &mut Vec<Shared>) -> Result<(), Memory>
    ensures { OnOk result (all.new.items ≡ all.old.items ++ items.now) }
{
    for item in items {
        all.push(item.share()?)?;
    }
    Ok(())
}

/// The values, with another one in the place of one.
pub(crate) fn put_in_place(
    alloc: Global,
    items: &[Shared],
    at: usize,
    item: Shared,
) -> Result<Vec<Shared>, Memory>
    requires { at < length items.now }
    ensures { IfOk result (λ all. all.items ≡ take at items.now ++ item ∷ drop (at + 1) items.now) }
{
    let mut all = Vec::with_capacity(alloc, items.len())?;
    share_onto(&items[..at], &mut all)?;
    all.push(item)?;
    share_onto(&items[at + 1..], &mut all)?;
    Ok(all)
}
