//! Making a board.
ghost use Rattle.std.specs.Prelude.{◌≡◌, ℕ, ◌+◌, ◌<◌, ◌≤◌, [], length, IfOk, All, replicate, slice_set};
ghost use Rattle.qk_board.specs.Views.{fresh, IsEmptyView};
ghost use Rattle.qk_board.specs.Seats.{view_of, IsSeatOf};

use super::Board;
use crate::layout::Layout;
use crate::seat::{BoardSeat, seated};
use crate::view::{BoardView, OneSeat, Plan};
use atomic_table::{Seat, Table};
use qk_base::{Memory, Seq};
use std::alloc::Global;

fn lengths_of<L: Layout>(alloc: Global, layout: &L) -> Result<Seq<u32>, Memory>
    ensures { IfOk result (λ v. (v.items ≡ L.lengths_of layout.now) × (length v.items ≤ 64)) }
{
    let ranges = layout.ranges();
    let mut lengths = Seq::make(alloc);
    for range in 0..ranges {
        lengths.add(layout.length(range))?;
    }
    Ok(lengths)
}

fn first_words(alloc: Global, limit: u32, ranges: usize) -> Result<Vec<u64>, Memory>
    requires { ranges ≤ 64 }
    ensures { IfOk result (λ v. v.items ≡ slice_set (replicate (ranges + 1) 0) 0 limit) }
{
    let mut words = vec![in alloc; 0u64; ranges + 1]?;
    words[0] = limit as u64;
    Ok(words)
}

impl<L: Layout> Board<L> {
    /// A board of which nothing is claimed, and its seats, none of which has made a step.
    pub fn make(alloc: Global, layout: L, seats: u32) -> Result<(Board<L>, Seq<BoardSeat>), Memory>
        requires { (0 < seats) × (seats ≤ 64) }
        ensures { IfOk result (λ p. (p.0.layout ≡ layout) × (p.0.table.shared.key.seats ≡ seats) × (length p.1.items ≡ seats)
            × All (λ s. IsSeatOf p.0.table.shared.table_id (L.limit_of layout) (L.lengths_of layout) s × IsEmptyView (view_of s)) p.1.items) }
    {
        let limit = layout.limit();
        let lengths = lengths_of(alloc, &layout)?;
        let words = first_words(alloc, limit, lengths.len())?;
        let plan = Plan {
            limit,
            seats,
            lengths,
        };
        let (table, first) = Table::of_words(alloc, words.as_slice(), &plan)?;
        let board = Board { table, layout };
        let list = board.deal(alloc, first, seats)?;
        Ok((board, list))
    }

    /// The seats, cut one by one from the first.
    fn deal(
        &self,
        alloc: Global,
        mut first: Seat<(), BoardView>,
        seats: u32,
    ) -> Result<Seq<BoardSeat>, Memory>
        requires seats { 0 < seats }
        requires first { (first.table_id ≡ self.now.table.shared.table_id) × (first.me ≡ (fresh (L.limit_of self.now.layout) (L.lengths_of self.now.layout) seats, [])) }
        ensures { IfOk result (λ v. (length v.items ≡ seats)
            × All (λ s. IsSeatOf self.now.table.shared.table_id (L.limit_of self.now.layout) (L.lengths_of self.now.layout) s × IsEmptyView (view_of s)) v.items) }
    {
        let mut list = Seq::make(alloc);
        let shared = &self.table.shared;
        let mut left = seats;
        while 1 < left {
            let seat = shared.split_seat::<OneSeat>(&mut first);
            list.add(seated(seat))?;
            left -= 1;
        }
        list.add(seated(first))?;
        Ok(list)
    }
}
