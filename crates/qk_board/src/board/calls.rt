//! The steps of a board's seats. Each makes exactly one atomic step, takes no memory and waits for nobody.
ghost use Rattle.std.specs.Prelude.{◌≡◌, ℕ, ◌+◌, ◌<◌, ◌≤◌, length};
ghost use Rattle.qk_totals.specs.Totals.{times};
ghost use Rattle.qk_board.specs.Views.{with_lowered, with_seen};
ghost use Rattle.qk_board.specs.Seats.{view_of, IsSeatOf, Tells};

use super::{Board, Claim};
use crate::layout::Layout;
use crate::seat::BoardSeat;
use crate::view::{Claims, Looks, Lowers};

impl<L: Layout> Board<L> {
    /// The layout that `make` was given.
    pub fn layout(&self) -> &L
        ensures { result.now ≡ self.now.layout }
    {
        &self.layout
    }

    /// The next number of a range, or that the range is dry.
    pub fn claim(&self, seat: &mut BoardSeat, range: u32) -> Claim
        requires seat { IsSeatOf self.now.table.shared.table_id (L.limit_of self.now.layout) (L.lengths_of self.now.layout) seat.old }
        requires range { range < length (L.lengths_of self.now.layout) }
        requires wet { times range (view_of seat.old).dry ≡ 0 }
        ensures seat { IsSeatOf self.now.table.shared.table_id (L.limit_of self.now.layout) (L.lengths_of self.now.layout) seat.new }
        ensures tells { Tells (L.number_of self.now.layout) (L.lengths_of self.now.layout) range (view_of seat.old) (view_of seat.new) result }
    {
        let length = self.layout.length(range);
        let shared = &self.table.shared;
        let found = shared.fetch_add::<Claims>(&mut seat.seat, range as usize + 1, 1);
        if found < length as u64 {
            Claim::Number(self.layout.number(range, found as u32))
        } else {
            seat.dry[range as usize] = true;
            Claim::Dry
        }
    }

    /// Makes the bound the least of itself and the number.
    pub fn lower(&self, seat: &mut BoardSeat, number: u32)
        requires seat { IsSeatOf self.now.table.shared.table_id (L.limit_of self.now.layout) (L.lengths_of self.now.layout) seat.old }
        requires number { number < L.limit_of self.now.layout }
        ensures seat { IsSeatOf self.now.table.shared.table_id (L.limit_of self.now.layout) (L.lengths_of self.now.layout) seat.new }
        ensures view { view_of seat.new ≡ with_lowered (view_of seat.old) number }
    {
        let shared = &self.table.shared;
        shared.fetch_min::<Lowers>(&mut seat.seat, 0, number as u64);
    }

    /// The bound as it is now: the least number that was lowered so far, or the limit.
    pub fn bound(&self, seat: &mut BoardSeat) -> u32
        requires seat { IsSeatOf self.now.table.shared.table_id (L.limit_of self.now.layout) (L.lengths_of self.now.layout) seat.old }
        ensures seat { IsSeatOf self.now.table.shared.table_id (L.limit_of self.now.layout) (L.lengths_of self.now.layout) seat.new }
        ensures view { view_of seat.new ≡ with_seen (view_of seat.old) result }
        ensures limit { result ≤ L.limit_of self.now.layout }
        ensures lowered { (n : ℕ) → 0 < times n (view_of seat.old).lowered → result ≤ n }
        ensures seen { (n : ℕ) → 0 < times n (view_of seat.old).seen → result ≤ n }
    {
        let limit = self.layout.limit();
        let shared = &self.table.shared;
        let seen = shared.load::<Looks>(&mut seat.seat, 0);
        prove!(seen <= limit as u64);
        seen as u32
    }
}
