//! Tables of generators, and what they draw by a computation apart from this program.

use super::notation::Word::{
    self, Bad, BadCall, BadChoice, BadSize, BadVector, Bind, Bool, Call, Choose, Elements,
    Frequency, Int, List, Make, Nested, OneOf, Pair, Pure, Resize, Size, Var, Vector,
};
use super::wanted::Want;
use qk_base::Cause::{Depth, DivZero, Fuel, Weight};

const LEAST: i64 = i64::MIN;

const MOST: i64 = i64::MAX;

/// The generators of the program, by their numbers.
pub(crate) const BODIES: [&[Word]; 8] = [
    &[Pure(7)],
    &[Var(0)],
    &[Pair, Int, Call(1, &[5])],
    &[Vector(1), Pure(0)],
    &[List, Call(1, &[3])],
    &[Make(1, 2), Int, Int],
    // for ever, with nothing that waits for the call
    &[Call(6, &[])],
    // for ever, with a body that waits for each call
    &[Bind, Call(7, &[]), Var(0)],
];

/// A line: the words of a generator, the number of the words' generator, the size, the units given, what is drawn, and the units
/// left. Variable 0 is 20.
pub(crate) type Line = (&'static [Word], u64, u32, u32, Want, u32);

pub(crate) const LINES: [Line; 69] = [
    (&[Int], 0, 10, 3, Want::Int(2), 3),
    (&[Int], 1, 10, 3, Want::Int(8), 3),
    (&[Int], 42, 1000, 3, Want::Int(-862), 3),
    (&[Int], 0, 0, 3, Want::Int(0), 3),
    (&[Bool], 0, 10, 3, Want::Bool(true), 3),
    (&[Bool], 4, 10, 3, Want::Bool(false), 3),
    (&[Bool], 7, 10, 3, Want::Bool(true), 3),
    (&[Size], 0, 0, 3, Want::Int(0), 3),
    (&[Size], 0, 17, 3, Want::Int(17), 3),
    (&[Size], 1, 1000, 3, Want::Int(1000), 3),
    (&[Choose(9, 3)], 0, 10, 3, Want::Int(7), 3),
    (&[Choose(-5, -5)], 1, 10, 3, Want::Int(-5), 3),
    (
        &[Choose(LEAST, MOST)],
        42,
        10,
        3,
        Want::Int(-7947824002859474384),
        3,
    ),
    (&[List, Int], 0, 6, 3, Want::List(&[-3, 3, 3, 5, -5]), 3),
    (&[List, Int], 1, 5, 3, Want::List(&[1, 0]), 3),
    (&[List, Pure(1)], 7, 0, 3, Want::List(&[]), 3),
    (&[Vector(4), Int], 0, 9, 3, Want::List(&[6, -5, 5, 4]), 3),
    (&[Vector(-3), Int], 0, 9, 3, Want::List(&[]), 3),
    (
        &[Vector(2), Bind, Int, Var(1)],
        3,
        100,
        3,
        Want::List(&[76, 58]),
        3,
    ),
    (&[Pair, Int, Int], 0, 10, 3, Want::Pair(6, 0), 3),
    (&[Pair, Int, Int], 1, 1000, 3, Want::Pair(-38, -276), 3),
    (&[Pair, Size, Var(0)], 0, 10, 3, Want::Pair(10, 20), 3),
    (&[Elements(&[4, 5, 6])], 0, 10, 3, Want::Int(5), 3),
    (&[Elements(&[4, 5, 6])], 1, 10, 3, Want::Int(6), 3),
    (&[Elements(&[4, 5, 6])], 5, 10, 3, Want::Int(4), 3),
    (&[OneOf(3), Int, Pure(5), Size], 0, 10, 3, Want::Int(10), 3),
    (&[OneOf(3), Int, Pure(5), Size], 1, 10, 3, Want::Int(5), 3),
    (&[OneOf(3), Int, Pure(5), Size], 2, 10, 3, Want::Int(1), 3),
    (
        &[Frequency(&[0, 2, 3]), Pure(1), Int, Pure(3)],
        0,
        10,
        3,
        Want::Int(3),
        3,
    ),
    (
        &[Frequency(&[0, 2, 3]), Pure(1), Int, Pure(3)],
        2,
        10,
        3,
        Want::Int(1),
        3,
    ),
    (
        &[Frequency(&[0, 2, 3]), Pure(1), Int, Pure(3)],
        9,
        10,
        3,
        Want::Int(3),
        3,
    ),
    (&[Resize(3), Int], 0, 900, 3, Want::Int(1), 3),
    (&[Resize(-3), Size], 0, 10, 3, Want::Int(0), 3),
    (&[Resize(5000), Size], 0, 10, 3, Want::Int(1000), 3),
    (
        &[Bind, Int, Pair, Var(1), Int],
        0,
        50,
        3,
        Want::Pair(30, -18),
        3,
    ),
    (
        &[Bind, Pure(4), Bind, Int, Pair, Var(1), Var(2)],
        1,
        50,
        3,
        Want::Pair(4, 8),
        3,
    ),
    (
        &[Pair, Bind, Int, Var(1), Var(0)],
        0,
        10,
        3,
        Want::Pair(-1, 20),
        3,
    ),
    (&[Make(0, 0)], 0, 10, 3, Want::Made(0, &[]), 3),
    (
        &[Make(1, 3), Int, Size, Int],
        0,
        10,
        3,
        Want::Made(1, &[6, 10, 5]),
        3,
    ),
    (&[Make(2, 1), Int], 1, 10, 3, Want::Made(2, &[0]), 3),
    (&[Call(0, &[])], 0, 10, 3, Want::Int(7), 2),
    (&[Call(1, &[9])], 0, 10, 1, Want::Int(9), 0),
    (&[Call(1, &[9])], 0, 10, 0, Want::Crash(Fuel), 0),
    (&[Call(2, &[])], 0, 30, 2, Want::Pair(18, 5), 0),
    (&[Call(2, &[])], 0, 30, 1, Want::Crash(Fuel), 0),
    (
        &[Call(4, &[])],
        0,
        8,
        20,
        Want::List(&[3, 3, 3, 3, 3, 3, 3]),
        12,
    ),
    (&[Call(4, &[])], 0, 8, 4, Want::Crash(Fuel), 0),
    (&[Vector(2), Call(5, &[])], 0, 8, 1, Want::Crash(Fuel), 0),
    (
        &[Vector(3), Call(1, &[6])],
        0,
        8,
        3,
        Want::List(&[6, 6, 6]),
        0,
    ),
    (
        &[Make(1, 3), Call(0, &[]), Call(1, &[2]), Call(1, &[1])],
        0,
        8,
        5,
        Want::Made(1, &[7, 2, 1]),
        2,
    ),

    // calls need no machine stack, whether or not something waits for them
    (&[Call(6, &[])], 0, 10, 100_000, Want::Crash(Fuel), 0),
    (&[Call(7, &[])], 0, 10, 100_000, Want::Crash(Fuel), 0),
    // the longest list, and the next longer one, of which nothing is drawn
    (&[Vector(65_535), Size], 0, 10, 0, Want::Length(65_535), 0),
    (
        &[Vector(65_536), Call(0, &[])],
        0,
        10,
        0,
        Want::Crash(Weight),
        0,
    ),
    // with item 32,768 the list is too heavy, before the next item asks for its unit
    (
        &[Vector(40_000), Call(3, &[])],
        0,
        10,
        32_768,
        Want::Crash(Weight),
        0,
    ),
    (
        &[Vector(40_000), Call(3, &[])],
        0,
        10,
        32_767,
        Want::Crash(Fuel),
        0,
    ),
    (&[Nested(199), Size], 0, 10, 0, Want::Length(1), 0),
    (&[Nested(200), Size], 0, 10, 0, Want::Crash(Depth), 0),
    (
        &[Pair, Vector(65_535), Size, Size],
        0,
        10,
        0,
        Want::Crash(Weight),
        0,
    ),
    (
        &[Pair, Nested(199), Size, Size],
        0,
        10,
        0,
        Want::Crash(Depth),
        0,
    ),
    (
        &[Pair, Nested(199), Size, Vector(65_535), Size],
        0,
        10,
        0,
        Want::Crash(Weight),
        0,
    ),
    (
        &[Make(0, 2), Size, Nested(199), Size],
        0,
        10,
        0,
        Want::Crash(Depth),
        0,
    ),
    (
        &[Make(0, 2), Nested(199), Size, Vector(65_535), Size],
        0,
        10,
        0,
        Want::Crash(Weight),
        0,
    ),
    // expressions crash, and then nothing more is drawn
    (&[Bad], 0, 10, 3, Want::Crash(DivZero), 0),
    (
        &[Pair, Bad, Call(6, &[])],
        0,
        10,
        3,
        Want::Crash(DivZero),
        0,
    ),
    (&[BadChoice], 0, 10, 3, Want::Crash(DivZero), 0),
    (&[BadVector, Int], 0, 10, 3, Want::Crash(DivZero), 0),
    (&[BadSize, Int], 0, 10, 3, Want::Crash(DivZero), 0),
    (&[BadCall(0)], 0, 10, 0, Want::Crash(DivZero), 0),
];

/// Generators of the program with their arguments, and the same as above.
pub(crate) const CALLED: [(u32, Option<i64>, u64, u32, u32, Want, u32); 6] = [
    (0, None, 0, 10, 1, Want::Int(7), 0),
    (0, None, 0, 10, 0, Want::Crash(Fuel), 0),
    (1, Some(4), 0, 10, 3, Want::Int(4), 2),
    (2, None, 0, 30, 2, Want::Pair(18, 5), 0),
    (2, None, 0, 30, 1, Want::Crash(Fuel), 0),
    (6, None, 0, 10, 100_000, Want::Crash(Fuel), 0),
];
