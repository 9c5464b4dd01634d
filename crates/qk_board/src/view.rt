//! What a seat knows, and the rule of the board's words.
ghost use Rattle.std.specs.Prelude.{ℕ};

use atomic_table::{Join, Play, Split, TableRule};
use qk_base::Seq;
use std::collections::LinkedList;

/// What a seat knows, each list in the order of the seat's steps. No value of it is made.
pub struct BoardView {
    /// The range and the index of each draw.
    pub draws: LinkedList<(u32, u32)>,
    /// The ranges that were met dry.
    pub dry: LinkedList<u32>,
    pub lowered: LinkedList<u32>,
    /// The bounds that were seen.
    pub seen: LinkedList<u32>,
    pub limit: u32,
    pub lengths: LinkedList<u32>,
    /// The number of seats that this one stands for.
    pub parts: u32,
}

/// What the table is told once.
#[derive(Drop)]
pub struct Plan {
    pub limit: u32,
    pub seats: u32,
    pub lengths: Seq<u32>,
}

pub struct BoardRule;

impl TableRule<(), BoardView, Plan> for BoardRule {
    ghost use Rattle.qk_board.specs.Rule.{Kept};
    ghost use Rattle.qk_board.specs.Views.{fresh};

    ghost holds = { λ k s. Kept k.limit k.seats k.lengths.items s.words s.views };

    ghost first = { λ k. fresh k.limit k.lengths.items k.seats };
}

pub struct Claims;

impl Play<(), BoardView> for Claims {
    ghost use Rattle.qk_board.specs.Steps.{Claimed};

    ghost then = { Claimed };
}

pub struct Lowers;

impl Play<(), BoardView> for Lowers {
    ghost use Rattle.qk_board.specs.Steps.{Lowered};

    ghost then = { Lowered };
}

pub struct Looks;

impl Play<(), BoardView> for Looks {
    ghost use Rattle.qk_board.specs.Steps.{Looked};

    ghost then = { Looked };
}

pub struct OneSeat;

impl Split<BoardView> for OneSeat {
    ghost use Rattle.qk_board.specs.Steps.{one_less, handed};

    ghost left = { one_less };

    ghost right = { handed };
}

pub struct BothSeats;

impl Join<BoardView> for BothSeats {
    ghost use Rattle.qk_board.specs.Steps.{joined, spent_view};

    ghost both = { joined };

    ghost spent = { spent_view };
}
