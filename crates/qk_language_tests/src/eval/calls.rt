//! Tables of calls, and what they give.

use super::bodies::{DOWN, FROM, FULL, GROW, INC, NEST, SHARE, SPIN, TOTAL};
use super::notation::Word::{
    self, Bad, Bool, Call, If, Int, List, Make, Match, Nil, One, Two, Var,
};
use super::wanted::Want;
use qk_base::Cause::{Depth, DivZero, Fuel, Overflow, Weight};
use qk_core::Op1::Length;
use qk_core::Op2::{self, Add, And, Append, Cons, Or};

const MOST: i64 = i64::MAX;

/// Expressions with calls, the units given, what they give, and the units left.
pub(crate) const CALLS: [(&[Word], u32, Want, u32); 32] = [
    (&[Call(INC, 1), Int(41)], 3, Want::Int(42), 2),
    (&[Call(INC, 1), Call(INC, 1), Int(1)], 3, Want::Int(3), 1),
    (&[Call(INC, 1), Int(41)], 0, Want::Crash(Fuel), 0),
    (&[Call(INC, 1), Int(MOST)], 1, Want::Crash(Overflow), 0),
    // arguments come before the unit
    (&[Call(INC, 1), Bad], 0, Want::Crash(DivZero), 0),
    (&[Call(SHARE, 2), Int(7), Int(2)], 1, Want::Int(3), 0),
    (
        &[Call(SHARE, 2), Call(INC, 1), Int(8), Call(INC, 1), Int(2)],
        3,
        Want::Int(3),
        0,
    ),
    (
        &[Call(SHARE, 2), Int(7), Int(0)],
        1,
        Want::Crash(DivZero),
        0,
    ),
    (
        &[
            Call(SHARE, 2),
            Call(INC, 1),
            Int(MOST),
            Call(SPIN, 1),
            Int(0),
        ],
        9,
        Want::Crash(Overflow),
        0,
    ),
    // the caller's variables come back
    (
        &[Two(Add), Call(INC, 1), Int(1), Var(0)],
        1,
        Want::Int(9),
        0,
    ),
    // what is left unevaluated takes no unit
    (
        &[If, Bool(true), Int(1), Call(SPIN, 1), Int(0)],
        0,
        Want::Int(1),
        0,
    ),
    (
        &[Two(And), Bool(false), Call(SPIN, 1), Int(0)],
        0,
        Want::Bool(false),
        0,
    ),
    (
        &[Two(Or), Bool(true), Call(SPIN, 1), Int(0)],
        0,
        Want::Bool(true),
        0,
    ),
    (&[Call(DOWN, 1), Int(2)], 3, Want::Int(2), 0),
    (&[Call(DOWN, 1), Int(3)], 3, Want::Crash(Fuel), 0),
    // doubled fifteen times [0] has 32,768 items, and 65,536 are too heavy
    (&[Call(GROW, 1), List(&[0])], 15, Want::Crash(Fuel), 0),
    (&[Call(GROW, 1), List(&[0])], 16, Want::Crash(Weight), 0),
    (
        &[Call(GROW, 1), List(&[0])],
        100_000,
        Want::Crash(Weight),
        0,
    ),
    // 60,001 calls make the list, and as many sum it
    (
        &[Call(TOTAL, 1), Call(FROM, 1), Int(60_000)],
        120_003,
        Want::Int(1_800_030_000),
        1,
    ),
    // lists of 65,535 items, of 32,767 and one, and the next longer ones
    (
        &[One(Length), Call(FULL, 2), Int(16), Nil],
        17,
        Want::Int(65_535),
        0,
    ),
    (
        &[Two(Cons), Int(0), Call(FULL, 2), Int(16), Nil],
        17,
        Want::Crash(Weight),
        0,
    ),
    (
        &[
            One(Length),
            Two(Append),
            Two(Cons),
            Int(0),
            Call(FULL, 2),
            Int(15),
            Nil,
            Call(FULL, 2),
            Int(15),
            Nil,
        ],
        32,
        Want::Int(65_535),
        0,
    ),
    (
        &[
            Two(Append),
            Two(Cons),
            Int(0),
            Call(FULL, 2),
            Int(15),
            Nil,
            Two(Cons),
            Int(0),
            Call(FULL, 2),
            Int(15),
            Nil,
        ],
        32,
        Want::Crash(Weight),
        0,
    ),
    // a list of one list, of depth 200, and the next deeper one
    (
        &[One(Length), Call(NEST, 1), Int(199)],
        200,
        Want::Int(1),
        0,
    ),
    (&[Call(NEST, 1), Int(200)], 201, Want::Crash(Depth), 0),
    // a pair and a maker count for themselves
    (
        &[Two(Op2::Pair), Int(0), Call(FULL, 2), Int(16), Nil],
        17,
        Want::Crash(Weight),
        0,
    ),
    (
        &[Two(Op2::Pair), Int(0), Call(NEST, 1), Int(199)],
        200,
        Want::Crash(Depth),
        0,
    ),
    (
        &[Make(1, 2), Int(0), Call(FULL, 2), Int(16), Nil],
        17,
        Want::Crash(Weight),
        0,
    ),
    (
        &[Make(1, 2), Int(0), Call(NEST, 1), Int(199)],
        200,
        Want::Crash(Depth),
        0,
    ),
    // weight comes before depth
    (
        &[
            Two(Op2::Pair),
            Call(NEST, 1),
            Int(199),
            Call(FULL, 2),
            Int(16),
            Nil,
        ],
        217,
        Want::Crash(Weight),
        0,
    ),
    (
        &[
            Make(1, 2),
            Call(NEST, 1),
            Int(199),
            Call(FULL, 2),
            Int(16),
            Nil,
        ],
        217,
        Want::Crash(Weight),
        0,
    ),
    (
        &[
            Two(Cons),
            Call(NEST, 1),
            Int(199),
            Call(FULL, 2),
            Int(16),
            Nil,
        ],
        217,
        Want::Crash(Weight),
        0,
    ),
];

/// Functions called with a number, the units given, what they give, and the units left.
pub(crate) const CALLED: [(u32, i64, u32, Want, u32); 9] = [
    (DOWN, 99_999, 100_000, Want::Int(99_999), 0),
    (DOWN, 100_000, 100_000, Want::Crash(Fuel), 0),
    (SPIN, 0, 100_000, Want::Crash(Fuel), 0),
    (SPIN, 0, 0, Want::Crash(Fuel), 0),
    (INC, 41, 1, Want::Int(42), 0),
    (INC, 41, 3, Want::Int(42), 2),
    (INC, 41, 0, Want::Crash(Fuel), 0),
    (INC, MOST, 1, Want::Crash(Overflow), 0),
    (FROM, 2, 3, Want::List(&[2, 1]), 0),
];
