//! Functions of a program, by their numbers.

use super::notation::Word::{self, Call, If, Int, Match, Nil, Two, Var};
use qk_core::Op2::{Add, Append, Cons, Div, Equal, Sub};
use qk_core::Pattern;

pub(crate) const DOWN: u32 = 0;

pub(crate) const SPIN: u32 = 1;

pub(crate) const GROW: u32 = 2;

pub(crate) const INC: u32 = 3;

pub(crate) const FROM: u32 = 4;

pub(crate) const TOTAL: u32 = 5;

pub(crate) const NEST: u32 = 6;

pub(crate) const SHARE: u32 = 7;

pub(crate) const FULL: u32 = 8;

/// The bodies of these functions.
pub(crate) const BODIES: [&[Word]; 9] = [
    // (if (= n 0) 0 (+ 1 (down (- n 1))))
    &[
        If,
        Two(Equal),
        Var(0),
        Int(0),
        Int(0),
        Two(Add),
        Int(1),
        Call(DOWN, 1),
        Two(Sub),
        Var(0),
        Int(1),
    ],
    // (spin n)
    &[Call(SPIN, 1), Var(0)],
    // (grow (append xs xs))
    &[Call(GROW, 1), Two(Append), Var(0), Var(0)],
    // (+ n 1)
    &[Two(Add), Var(0), Int(1)],
    // (if (= n 0) (nil Int) (cons n (from (- n 1))))
    &[
        If,
        Two(Equal),
        Var(0),
        Int(0),
        Nil,
        Two(Cons),
        Var(0),
        Call(FROM, 1),
        Two(Sub),
        Var(0),
        Int(1),
    ],
    // (match xs ((nil) 0) ((cons y ys) (+ y (total ys))))
    &[
        Match(Pattern::Nil, Pattern::Cons),
        Var(0),
        Int(0),
        Two(Add),
        Var(1),
        Call(TOTAL, 1),
        Var(2),
    ],
    // lists in lists, n + 1 deep: (if (= n 0) (nil Int) (cons (nest (- n 1)) (nil Int)))
    &[
        If,
        Two(Equal),
        Var(0),
        Int(0),
        Nil,
        Two(Cons),
        Call(NEST, 1),
        Two(Sub),
        Var(0),
        Int(1),
        Nil,
    ],
    // (div m n)
    &[Two(Div), Var(0), Var(1)],
    // 2 ^ n - 1 items from none: (if (= n 0) xs (full (- n 1) (cons 0 (append xs xs))))
    &[
        If,
        Two(Equal),
        Var(0),
        Int(0),
        Var(1),
        Call(FULL, 2),
        Two(Sub),
        Var(0),
        Int(1),
        Two(Cons),
        Int(0),
        Two(Append),
        Var(1),
        Var(1),
    ],
];
