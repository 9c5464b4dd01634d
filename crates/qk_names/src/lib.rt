//! The names that a program declares: the reserved words, the first pass over the items, and the table of names.
#![tactic(auto)]

mod lists;
mod names;
mod naming;
mod refusing;
mod reserved;

pub use lists::{both, one, reversed, three, two};
pub use names::{Item, Named, Names, item_of};
pub use naming::names_of;
pub use refusing::{
    DOUBLED_CASE, DOUBLED_NAME, MISSING_CASE, MOST_PARTS, NO_PERCENTAGE, UNKNOWN_FORM,
    UNKNOWN_NAME, WRONG_COUNT, WRONG_TYPE, WRONG_WEIGHT, refusal,
};
pub use reserved::is_reserved;
