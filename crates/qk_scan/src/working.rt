//! One worker of a board.
ghost use Rattle.std.specs.Prelude.{◌≡◌, ℕ, ◌+◌, ◌<◌, ◌≤◌, true, false, [], ◌∷◌, ◌++◌, length, IfOk, OnErr};
ghost use Rattle.qk_totals.specs.Totals.{times};
ghost use Rattle.qk_board.specs.Views.{length_at, IsEmptyView};
ghost use Rattle.qk_board.specs.Seats.{view_of};
ghost use Rattle.qk_scan.specs.Crew.{IsSeatOn};
ghost use Rattle.qk_scan.specs.Work.{Worked, Pending, AreDrawn, MetAllDry, InCyclicOrder, DrawsMore, top_of, DryUpTo};

use crate::found::Found;
use crate::jobs::Jobs;
use qk_base::{Gate, Memory, Seq};
use qk_board::{Board, BoardSeat, Claim, Layout};
use std::alloc::Global;

/// The answer to the number that was drawn last, unless the bound is below it.
fn answer_one<J: Jobs, G: Gate, L: Layout>(
    alloc: Global,
    gate: &G,
    jobs: &J,
    board: &Board<L>,
    seat: &mut BoardSeat,
    number: u32,
    found: &mut Seq<Found<J::Answer>>,
) -> Result<(), Memory>
    requires seat { IsSeatOn board.now seat.old }
    requires number { (number < L.limit_of board.now.layout) × (L.limit_of board.now.layout ≡ J.total jobs.now) }
    requires pending { Pending (L.number_of board.now.layout) (J.answer_at jobs.now) (J.hits jobs.now) number (view_of seat.old) found.old.items }
    ensures seat { IsSeatOn board.now seat.new }
    ensures worked { IfOk result (λ _. Worked (L.number_of board.now.layout) (J.answer_at jobs.now) (J.hits jobs.now) (view_of seat.new) found.new.items) }
    ensures draws { ((view_of seat.new).draws ≡ (view_of seat.old).draws) × ((view_of seat.new).dry ≡ (view_of seat.old).dry) }
    ensures failed { OnErr result (found.new.items ≡ found.old.items) }
{
    let bound = board.bound(seat);
    if bound < number {
        return Ok(());
    }
    gate.enter(number);
    let answer = jobs.perform(alloc, number)?;
    let hit = jobs.hit(&answer);
    found.add(Found { number, answer })?;
    if !hit {
        return Ok(());
    }
    board.lower(seat, number);
    Ok(())
}

/// One claim from a range that the seat has not met dry: true where the range was dry.
fn turn<J: Jobs, G: Gate, L: Layout>(
    alloc: Global,
    gate: &G,
    jobs: &J,
    board: &Board<L>,
    seat: &mut BoardSeat,
    range: u32,
    found: &mut Seq<Found<J::Answer>>,
) -> Result<bool, Memory>
    requires seat { IsSeatOn board.now seat.old }
    requires range { (range < length (L.lengths_of board.now.layout)) × (times range (view_of seat.old).dry ≡ 0) }
    requires count { L.limit_of board.now.layout ≡ J.total jobs.now }
    requires worked { Worked (L.number_of board.now.layout) (J.answer_at jobs.now) (J.hits jobs.now) (view_of seat.old) found.old.items }
    ensures seat { IsSeatOn board.now seat.new }
    ensures worked { IfOk result (λ _. Worked (L.number_of board.now.layout) (J.answer_at jobs.now) (J.hits jobs.now) (view_of seat.new) found.new.items) }
    ensures dry { IfOk result (λ dry. dry ≡ true → (view_of seat.new).dry ≡ (view_of seat.old).dry ++ range ∷ []) }
    ensures drew { IfOk result (λ dry. dry ≡ false → ((view_of seat.new).dry ≡ (view_of seat.old).dry)
        × (top_of range (view_of seat.old).draws < top_of range (view_of seat.new).draws) × (top_of range (view_of seat.new).draws ≤ length_at (L.lengths_of board.now.layout) range)) }
    ensures more { IfOk result (λ _. DrawsMore range (view_of seat.old).draws (view_of seat.new).draws) }
    ensures failed { OnErr result (AreDrawn (L.number_of board.now.layout) (J.answer_at jobs.now) (view_of seat.new).draws found.new.items) }
{
    match board.claim(seat, range) {
        Claim::Dry => Ok(true),
        Claim::Number(number) => {
            answer_one(alloc, gate, jobs, board, seat, number, found)?;
            Ok(false)
        }
    }
}

/// Claims from a range until it is dry.
fn drain<J: Jobs, G: Gate, L: Layout>(
    alloc: Global,
    gate: &G,
    jobs: &J,
    board: &Board<L>,
    seat: &mut BoardSeat,
    range: u32,
    found: &mut Seq<Found<J::Answer>>,
) -> Result<(), Memory>
    requires seat { IsSeatOn board.now seat.old }
    requires range { (range < length (L.lengths_of board.now.layout)) × (times range (view_of seat.old).dry ≡ 0) }
    requires count { L.limit_of board.now.layout ≡ J.total jobs.now }
    requires worked { Worked (L.number_of board.now.layout) (J.answer_at jobs.now) (J.hits jobs.now) (view_of seat.old) found.old.items }
    ensures seat { IsSeatOn board.now seat.new }
    ensures worked { IfOk result (λ _. Worked (L.number_of board.now.layout) (J.answer_at jobs.now) (J.hits jobs.now) (view_of seat.new) found.new.items) }
    ensures dry { IfOk result (λ _. (view_of seat.new).dry ≡ (view_of seat.old).dry ++ range ∷ []) }
    ensures drew { IfOk result (λ _. DrawsMore range (view_of seat.old).draws (view_of seat.new).draws) }
    ensures failed { OnErr result (AreDrawn (L.number_of board.now.layout) (J.answer_at jobs.now) (view_of seat.new).draws found.new.items) }
{
    let mut dry = false;
    while !dry {
        dry = turn(alloc, gate, jobs, board, seat, range, found)?;
    }
    Ok(())
}

/// One worker of a board, which waits for nobody. It claims from the range `first` until that is dry, and then from the others in
/// cyclic order. After each claim that gives a number it loads the bound. It skips the number only where that is below it; else it
/// enters the gate, performs the job and, at a hit, lowers the bound to the number. It takes no memory beside its jobs where `found` has
/// room for each number.
pub fn work<J: Jobs, G: Gate, L: Layout>(
    alloc: Global,
    gate: &G,
    jobs: &J,
    board: &Board<L>,
    seat: &mut BoardSeat,
    first: u32,
    found: &mut Seq<Found<J::Answer>>,
) -> Result<(), Memory>
    requires seat { IsSeatOn board.now seat.old × IsEmptyView (view_of seat.old) }
    requires first { first < length (L.lengths_of board.now.layout) }
    requires count { L.limit_of board.now.layout ≡ J.total jobs.now }
    requires found { found.old.items ≡ [] }
    ensures seat { IsSeatOn board.now seat.new }
    ensures worked { IfOk result (λ _. Worked (L.number_of board.now.layout) (J.answer_at jobs.now) (J.hits jobs.now) (view_of seat.new) found.new.items) }
    ensures dry { IfOk result (λ _. MetAllDry (L.lengths_of board.now.layout) (view_of seat.new)) }
    ensures order { IfOk result (λ _. InCyclicOrder first (length (L.lengths_of board.now.layout)) (view_of seat.new).draws) }
    ensures failed { OnErr result (AreDrawn (L.number_of board.now.layout) (J.answer_at jobs.now) (view_of seat.new).draws found.new.items) }
{
    let ranges = board.layout().ranges();
    let mut range = first;
    let mut done = 0;
    while done < ranges {
        drain(alloc, gate, jobs, board, seat, range, found)?;
        range = if range + 1 == ranges { 0 } else { range + 1 };
        done += 1;
    }
    Ok(())
}
