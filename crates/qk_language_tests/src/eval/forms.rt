//! Tables of forms without calls, and what they give.

use super::notation::Word::{self, Bad, Bool, If, Int, Let, List, Make, Match, Nil, One, Two, Var};
use super::wanted::Want;
use qk_base::Cause::{DivZero, Overflow};
use qk_core::Op1::{Length, Neg, Not};
use qk_core::Op2::{Add, And, Append, AtMost, Cons, Div, Equal, Less, Mod, Mul, Or, Sub};
use qk_core::{Op2, Pattern};

const LEAST: i64 = i64::MIN;

const MOST: i64 = i64::MAX;

const FIRST: Pattern = Pattern::Maker { kind: 0, maker: 0 };

const SECOND: Pattern = Pattern::Maker { kind: 0, maker: 1 };

/// Operators on two numbers.
pub(crate) const NUMBERS: [(Op2, i64, i64, Want); 34] = [
    (Add, 2, 3, Want::Int(5)),
    (Add, MOST, 1, Want::Crash(Overflow)),
    (Add, LEAST, -1, Want::Crash(Overflow)),
    (Sub, 2, 3, Want::Int(-1)),
    (Sub, LEAST, 1, Want::Crash(Overflow)),
    (Sub, 0, LEAST, Want::Crash(Overflow)),
    (Sub, -1, LEAST, Want::Int(MOST)),
    (Mul, -3, 4, Want::Int(-12)),
    (Mul, MOST, 2, Want::Crash(Overflow)),
    (Mul, LEAST, -1, Want::Crash(Overflow)),
    (Div, 7, 2, Want::Int(3)),
    (Div, -7, 2, Want::Int(-3)),
    (Div, 7, -2, Want::Int(-3)),
    (Div, 1, 0, Want::Crash(DivZero)),
    (Div, LEAST, -1, Want::Crash(Overflow)),
    (Div, LEAST, 1, Want::Int(LEAST)),
    (Mod, -7, 2, Want::Int(-1)),
    (Mod, 7, -2, Want::Int(1)),
    (Mod, 1, 0, Want::Crash(DivZero)),
    (Mod, LEAST, -1, Want::Crash(Overflow)),
    (Equal, 4, 4, Want::Bool(true)),
    (Equal, 4, 5, Want::Bool(false)),
    (Equal, LEAST, MOST, Want::Bool(false)),
    (Less, 4, 5, Want::Bool(true)),
    (Less, 5, 5, Want::Bool(false)),
    (Less, LEAST, MOST, Want::Bool(true)),
    (Less, 5, -5, Want::Bool(false)),
    (AtMost, 5, 5, Want::Bool(true)),
    (AtMost, 6, 5, Want::Bool(false)),
    (AtMost, LEAST, MOST, Want::Bool(true)),
    (AtMost, -5, 5, Want::Bool(true)),
    (Op2::Pair, 9, 4, Want::Pair(9, 4)),
    (Op2::Pair, 4, 9, Want::Pair(4, 9)),
    (Op2::Pair, LEAST, MOST, Want::Pair(LEAST, MOST)),
];

/// Variables, choices and bindings, where variable 0 is 7 and variable 1 is -2.
pub(crate) const CHOICES: [(&[Word], Want); 32] = [
    (&[Int(0)], Want::Int(0)),
    (&[Int(LEAST)], Want::Int(LEAST)),
    (&[Int(MOST)], Want::Int(MOST)),
    (&[Bool(true)], Want::Bool(true)),
    (&[Bool(false)], Want::Bool(false)),
    (&[Var(0)], Want::Int(7)),
    (&[Var(1)], Want::Int(-2)),
    (&[Two(Sub), Var(0), Var(1)], Want::Int(9)),
    (&[One(Neg), Int(5)], Want::Int(-5)),
    (&[One(Neg), Int(MOST)], Want::Int(-MOST)),
    (&[One(Neg), Int(LEAST)], Want::Crash(Overflow)),
    (&[One(Not), Bool(true)], Want::Bool(false)),
    (&[One(Not), Bool(false)], Want::Bool(true)),
    (&[One(Not), Bad], Want::Crash(DivZero)),
    (&[If, Bool(true), Int(1), Bad], Want::Int(1)),
    (&[If, Bool(false), Bad, Int(2)], Want::Int(2)),
    (&[If, Bool(true), Bad, Int(2)], Want::Crash(DivZero)),
    (
        &[If, Two(Less), Bad, Int(1), Int(1), Int(2)],
        Want::Crash(DivZero),
    ),
    (&[Two(And), Bool(true), Bool(true)], Want::Bool(true)),
    (&[Two(And), Bool(false), Bad], Want::Bool(false)),
    (&[Two(And), Bool(true), Bad], Want::Crash(DivZero)),
    (&[Two(Or), Bool(false), Bool(false)], Want::Bool(false)),
    (&[Two(Or), Bool(true), Bad], Want::Bool(true)),
    (&[Two(Or), Bool(false), Bad], Want::Crash(DivZero)),
    (&[Let, Int(1), Two(Add), Var(2), Var(0)], Want::Int(8)),
    (&[Let, Bad, Int(5)], Want::Crash(DivZero)),
    (
        &[Let, Int(0), Two(Div), Int(1), Var(2)],
        Want::Crash(DivZero),
    ),
    // a variable leaves with its body, and hides nothing
    (
        &[
            Let,
            Int(1),
            Two(Add),
            Let,
            Int(2),
            Var(3),
            Let,
            Int(3),
            Var(3),
        ],
        Want::Int(5),
    ),
    (
        &[Two(Add), Let, Int(1), Var(2), Let, Int(4), Var(2)],
        Want::Int(5),
    ),
    // of two parts that crash the first one's cause is told
    (
        &[Two(Add), Two(Mul), Int(MOST), Int(2), Bad],
        Want::Crash(Overflow),
    ),
    (
        &[Two(Add), Bad, Two(Mul), Int(MOST), Int(2)],
        Want::Crash(DivZero),
    ),
    (&[Two(Less), Bool(false), Bool(true)], Want::Bool(true)),
];

/// Lists, pairs, made values and matches.
pub(crate) const PARTS: [(&[Word], Want); 34] = [
    (&[Nil], Want::List(&[])),
    (&[Two(Equal), Nil, Nil], Want::Bool(true)),
    (&[One(Length), Nil], Want::Int(0)),
    (&[One(Length), List(&[7, 8])], Want::Int(2)),
    (&[One(Length), Two(Cons), Bad, Nil], Want::Crash(DivZero)),
    (&[Two(Cons), Int(1), Nil], Want::List(&[1])),
    (
        &[Two(Cons), Int(1), Two(Cons), Int(2), Nil],
        Want::List(&[1, 2]),
    ),
    (&[Two(Cons), Bad, Nil], Want::Crash(DivZero)),
    (
        &[Two(Append), List(&[1, 2]), List(&[3])],
        Want::List(&[1, 2, 3]),
    ),
    (&[Two(Append), Nil, List(&[3])], Want::List(&[3])),
    (&[Two(Append), List(&[3]), Nil], Want::List(&[3])),
    (
        &[Two(Append), Nil, Two(Cons), Bad, Nil],
        Want::Crash(DivZero),
    ),
    (&[Two(Op2::Pair), Bad, Int(2)], Want::Crash(DivZero)),
    // lists go by their first difference, a front first; pairs by the first part
    (&[Two(Less), List(&[1, 9]), List(&[2])], Want::Bool(true)),
    (&[Two(Less), List(&[1]), List(&[1, 0])], Want::Bool(true)),
    (&[Two(AtMost), List(&[1]), Nil], Want::Bool(false)),
    (
        &[
            Two(Less),
            Two(Op2::Pair),
            Int(1),
            Int(9),
            Two(Op2::Pair),
            Int(2),
            Int(0),
        ],
        Want::Bool(true),
    ),
    (
        &[
            Two(Equal),
            Two(Op2::Pair),
            Int(1),
            Int(9),
            Two(Op2::Pair),
            Int(1),
            Int(9),
        ],
        Want::Bool(true),
    ),
    (&[Make(0, 0)], Want::Made(0, &[])),
    (&[Make(1, 2), Int(9), Int(4)], Want::Made(1, &[9, 4])),
    (&[Make(1, 2), Int(9), Bad], Want::Crash(DivZero)),
    (
        &[Make(1, 2), Two(Add), Int(MOST), Int(1), Bad],
        Want::Crash(Overflow),
    ),
    (
        &[Two(Less), Make(0, 0), Make(1, 2), Int(0), Int(0)],
        Want::Bool(true),
    ),
    (
        &[Match(Pattern::Nil, Pattern::Cons), Nil, Int(1), Bad],
        Want::Int(1),
    ),
    (
        &[Match(Pattern::Nil, Pattern::Cons), List(&[5]), Bad, Var(2)],
        Want::Int(5),
    ),
    (
        &[
            Match(Pattern::Cons, Pattern::Nil),
            List(&[5, 6]),
            Var(3),
            Int(1),
        ],
        Want::List(&[6]),
    ),
    (
        &[
            Match(Pattern::Nil, Pattern::Cons),
            Two(Cons),
            Bad,
            Nil,
            Int(1),
            Int(2),
        ],
        Want::Crash(DivZero),
    ),
    (
        &[
            Match(Pattern::Nil, Pattern::Cons),
            List(&[0]),
            Int(1),
            Two(Div),
            Int(1),
            Var(2),
        ],
        Want::Crash(DivZero),
    ),
    (
        &[
            Match(Pattern::Pair, Pattern::Nil),
            Two(Op2::Pair),
            Int(9),
            Int(4),
            Two(Sub),
            Var(2),
            Var(3),
            Int(0),
        ],
        Want::Int(5),
    ),
    (
        &[Match(FIRST, SECOND), Make(0, 0), Int(3), Bad],
        Want::Int(3),
    ),
    (
        &[
            Match(FIRST, SECOND),
            Make(1, 2),
            Int(9),
            Int(4),
            Bad,
            Var(3),
        ],
        Want::Int(4),
    ),
    (
        &[
            Match(SECOND, FIRST),
            Make(1, 2),
            Int(9),
            Int(4),
            Two(Mod),
            Var(2),
            Var(3),
            Int(0),
        ],
        Want::Int(1),
    ),
    // the variables of a pattern leave with its body
    (
        &[
            Two(Add),
            Match(Pattern::Nil, Pattern::Cons),
            List(&[5]),
            Int(0),
            Var(2),
            Let,
            Int(4),
            Var(2),
        ],
        Want::Int(9),
    ),
    (
        &[
            Let,
            Int(1),
            Match(Pattern::Pair, Pattern::Nil),
            Two(Op2::Pair),
            Int(9),
            Int(4),
            Two(Add),
            Var(2),
            Var(4),
            Int(0),
        ],
        Want::Int(5),
    ),
];
