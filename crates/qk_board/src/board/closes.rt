//! Closing a board.
ghost use Rattle.std.specs.Prelude.{◌≡◌, ℕ, ◌+◌, ◌-◌, ◌*◌, ◌^◌, ◌<◌, ◌≤◌, ◌⊎◌, min, List, [], length, All, slice_index};
ghost use Rattle.std.specs.Mem.Slots.{slots_items, slots_len, IsFull};
ghost use Rattle.qk_totals.specs.Totals.{total, EachBelow};
ghost use Rattle.qk_board.specs.Views.{draws_of, dries_of, lowers_of, sights_of, length_at};
ghost use Rattle.qk_board.specs.Rule.{IsLeast};
ghost use Rattle.qk_board.specs.DryBits.{TellsDry};
ghost use Rattle.qk_board.specs.Seats.{view_of, IsSeatOf};

use super::{Board, Closed};
use crate::layout::Layout;
use crate::seat::BoardSeat;
use crate::view::{BoardView, BothSeats};
use atomic_table::{Closed as Shut, Seat};
use qk_base::Seq;
use std::alloc::Global;

impl<L: Layout> Board<L> {
    /// One seat with the views of all.
    fn gather(&self, mut seats: Seq<BoardSeat>) -> Seat<(), BoardView>
        requires some { 0 < length seats.items }
        requires seats { All (IsSeatOf self.now.table.shared.table_id (L.limit_of self.now.layout) (L.lengths_of self.now.layout)) seats.items }
        ensures table { result.table_id ≡ self.now.table.shared.table_id }
        ensures parts { result.me.0.parts ≡ length seats.items }
        ensures draws { (r x : ℕ) → draws_of r x result.me.0 ≡ total (λ s. draws_of r x (view_of s)) seats.items }
        ensures lowered { (n : ℕ) → lowers_of n result.me.0 ≡ total (λ s. lowers_of n (view_of s)) seats.items }
        ensures dries { (r : ℕ) → dries_of r result.me.0 ≡ total (λ s. dries_of r (view_of s)) seats.items }
        ensures seen { (n : ℕ) → sights_of n result.me.0 ≡ total (λ s. sights_of n (view_of s)) seats.items }
    {
        let shared = &self.table.shared;
        let Some(first) = seats.pop() else {
            unreachable!()
        };
        let mut all = seat_of(first);
        while let Some(next) = seats.pop() {
            shared.join_seat::<BothSeats>(&mut all, seat_of(next));
        }
        all
    }

    /// Ends the board, to which all its seats are brought back. The bound is the least of the limit and all lowered numbers, and no
    /// seat has seen a lesser one. Of each range the indexes below its word stand in the seats' draws, each once, and the seats met it
    /// dry as often as it was claimed past its length.
    pub fn close(self, seats: Seq<BoardSeat>) -> Closed
        requires all { length seats.items ≡ self.table.shared.key.seats }
        requires seats { All (IsSeatOf self.table.shared.table_id (L.limit_of self.layout) (L.lengths_of self.layout)) seats.items }
        ensures bound { IsLeast (L.limit_of self.layout) (λ n. total (λ s. lowers_of n (view_of s)) seats.items) result.bound }
        ensures seen { (n : ℕ) → 0 < total (λ s. sights_of n (view_of s)) seats.items → (result.bound ≤ n) × ((n ≡ L.limit_of self.layout) ⊎ (0 < total (λ s. lowers_of n (view_of s)) seats.items)) }
        ensures words { (words : List ℕ)
            × ((r : ℕ) → EachBelow (min (slice_index words (r + 1)) (length_at (L.lengths_of self.layout) r)) (λ x. total (λ s. draws_of r x (view_of s)) seats.items))
            × ((r : ℕ) → total (λ s. dries_of r (view_of s)) seats.items ≡ slice_index words (r + 1) - length_at (L.lengths_of self.layout) r)
            × TellsDry (L.lengths_of self.layout) words 0 result.dry }
        ensures few { result.dry < 2 ^ length (L.lengths_of self.layout) }
    {
        let all = self.gather(seats);
        let limit = self.layout.limit();
        let Board { table, layout } = self;
        let shut = table.close_with(all);
        let bound = shut.word(0);
        let dry = dry_bits(&layout, &shut);
        shut.free();
        prove!(bound <= limit as u64);
        Closed {
            bound: bound as u32,
            dry,
        }
    }
}

/// A bit for each range, the first range's the lowest.
fn dry_bits<L: Layout>(layout: &L, shut: &Shut<(), Global>) -> u64
    requires words { (slots_len shut.now.words ≡ length (L.lengths_of layout.now) + 1) × IsFull shut.now.words }
    ensures dry { TellsDry (L.lengths_of layout.now) (slots_items shut.now.words) 0 result }
    ensures few { result < 2 ^ length (L.lengths_of layout.now) }
{
    let ranges = layout.ranges();
    let mut left = ranges;
    let mut dry = 0u64;
    while 0 < left {
        left -= 1;
        let word = shut.word(left as usize + 1);
        let length = layout.length(left);
        dry = twice(dry, ranges - left, word, length as u64);
    }
    dry
}

/// One more bit, below the others, of which there are then `count`.
fn twice(dry: u64, count: u32, word: u64, length: u64) -> u64
    requires { (0 < count) × (count ≤ 64) × (dry + 1 ≤ 2 ^ (count - 1)) }
    ensures small { result + 1 ≤ 2 ^ count }
    ensures full { length ≤ word → result ≡ 2 * dry + 1 }
    ensures short { word < length → result ≡ 2 * dry }
{
    if length <= word { 2 * dry + 1 } else { 2 * dry }
}

fn seat_of(seat: BoardSeat) -> Seat<(), BoardView>
    ensures { (result ≡ seat.seat) × (result.me.1 ≡ []) }
{
    let BoardSeat { seat, dry: _ } = seat;
    seat
}
