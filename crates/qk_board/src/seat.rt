//! A seat with the ranges that it has met dry.
ghost use Rattle.std.specs.Prelude.{◌≡◌, ◌<◌, [], IsTrue, ◌↔◌};
ghost use Rattle.qk_totals.specs.Totals.{times};
ghost use Rattle.qk_board.specs.Flags.{Flagged};

use crate::view::BoardView;
use atomic_table::Seat;

/// The token with which one worker takes part in a board.
#[derive(Drop)]
pub struct BoardSeat {
    pub(crate) seat: Seat<(), BoardView>,
    pub(crate) dry: [bool; 64],
    ghost no_slot: { seat.me.1 ≡ [] },
    ghost flags: { Flagged dry seat.me.0.dry },
}

pub(crate) fn seated(seat: Seat<(), BoardView>) -> BoardSeat
    requires { (seat.me.1 ≡ []) × (seat.me.0.dry ≡ []) }
    ensures { result.seat ≡ seat }
{
    BoardSeat {
        seat,
        dry: [false; 64],
    }
}

impl BoardSeat {
    /// Whether this seat has met that range dry.
    pub fn met_dry(&self, range: u32) -> bool
        ensures { IsTrue result ↔ (0 < times range self.now.seat.me.0.dry) }
    {
        range < 64 && self.dry[range as usize]
    }
}
