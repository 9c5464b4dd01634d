//! The items of a list, one after another.
ghost use Rattle.std.specs.Prelude.{◌≡◌};
ghost use Rattle.qk_eval.specs.Forms.{to_come, first_and_others};
ghost use Rattle.qk_eval.specs.Parts.{items_of};

use crate::shared::{Node, Shared};

/// The items of a list from some place on, which are lent.
#[derive(Clone, Copy)]
pub enum Items<'a> {
    /// A value's items, none of what is no list.
    Of(&'a Shared),
    /// These, and then a value's.
    Before(&'a [Shared], &'a Shared),
}

impl<'a> Items<'a> {
    /// The first item and the items behind it, in a step.
    pub fn next(self) -> Option<(&'a Shared, Items<'a>)>
        ensures { first_and_others result ≡ to_come self.entry }
    {
        match self {
            Items::Of(list) => first_of(list),
            Items::Before(items, rest) => match items.split_first() {
                Some((first, others)) => Some((first, Items::Before(others, rest))),
                None => first_of(rest),
            },
        }
    }
}

fn first_of(list: &Shared) -> Option<(&Shared, Items<'_>)>
    ensures { first_and_others result ≡ items_of list.now }
{
    match &list.node {
        Node::Cons(cell) => Some((&cell.first, Items::Of(&cell.second))),
        Node::Row(row, at) => {
            let first = &row.items[*at];
            let others = &row.items[*at + 1..];
            Some((first, Items::Before(others, &row.rest)))
        }
        _ => None,
    }
}
