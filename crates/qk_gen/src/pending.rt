//! The work that a drawing has before it.

use qk_base::Cause;
use qk_core::GenExpr;
use qk_eval::Shared;
use qk_splitmix::Gen;

/// A piece of pending work, for when the value before it is there. What is still to be drawn has its words and its size.
#[derive(Drop)]
pub(crate) enum Frame<'e> {
    /// The second part of a pair.
    Second {
        second: &'e GenExpr,
        g: Gen,
        size: u32,
    },
    /// A pair of this value and that one.
    Both(Shared),
    /// The generator that sees the value.
    Body {
        body: &'e GenExpr,
        g: Gen,
        size: u32,
    },
    /// The last variable leaves the environment.
    Unbind,
    /// So many more items of a list, whose items have that weight so far with the list's own.
    Items {
        item: &'e GenExpr,
        more: u32,
        weight: u64,
        done: Vec<Shared>,
        g: Gen,
        size: u32,
    },
    /// The rest of a made value's parts.
    Parts {
        kind: u32,
        maker: u32,
        rest: &'e [GenExpr],
        done: Vec<Shared>,
        g: Gen,
        size: u32,
    },
    /// The call is over, and this is its caller's environment.
    Leave(Vec<Shared>),
}

/// What the machine does next.
#[derive(Drop)]
pub(crate) enum Control<'e> {
    Draw {
        generator: &'e GenExpr,
        g: Gen,
        size: u32,
    },
    /// A call of a generator of the program.
    Enter {
        generator: u32,
        args: Vec<Shared>,
        g: Gen,
        size: u32,
    },
    Return(Shared),
    Crash(Cause),
}
