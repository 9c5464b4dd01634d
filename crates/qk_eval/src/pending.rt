//! The work that a machine has before it.

use crate::shared::Shared;
use qk_base::Cause;
use qk_core::{Case, Expr, Op1, Op2};

/// What is done with the values of a list of parts.
#[derive(Clone, Copy)]
pub(crate) enum Then {
    Call(u32),
    Make { kind: u32, maker: u32 },
}

/// A piece of pending work, for when the value before it is there.
#[derive(Drop)]
pub(crate) enum Frame<'e> {
    Apply(Op1),
    /// The operator on that value and on the expression's.
    First(Op2, &'e Expr),
    /// The operator on this value and on that one.
    Second(Op2, Shared),
    Branch(&'e Expr, &'e Expr),
    /// The body that sees the value.
    Body(&'e Expr),
    Cases(&'e [Case]),
    /// So many values leave the environment's end.
    Unbind(usize),
    Gather {
        then: Then,
        rest: &'e [Expr],
        done: Vec<Shared>,
    },
    /// The call is over, and this is its caller's environment.
    Leave(Vec<Shared>),
}

/// What the machine does next.
#[derive(Drop)]
pub(crate) enum Control<'e> {
    Evaluate(&'e Expr),
    Return(Shared),
    Gathered { then: Then, parts: Vec<Shared> },
    Crash(Cause),
}
