//! Two seats of a board, in turn.
ghost use Rattle.std.specs.Prelude.{◌≡◌, ◌+◌, ◌<◌, length, All, IfOk};
ghost use Rattle.qk_board.specs.Seats.{IsSeatOf};

use qk_base::{Memory, Seq};
use qk_board::{Board, BoardSeat, Claim, Closed, Layout, Strides};
use std::alloc::Global;
use std::test::Fail;

fn take_seat<L: Layout>(board: &Board<L>, seats: &mut Seq<BoardSeat>) -> BoardSeat
    requires some { 0 < length seats.old.items }
    requires seats { All (IsSeatOf board.now.table.shared.table_id (L.limit_of board.now.layout) (L.lengths_of board.now.layout)) seats.old.items }
    ensures seat { IsSeatOf board.now.table.shared.table_id (L.limit_of board.now.layout) (L.lengths_of board.now.layout) result }
    ensures seats { All (IsSeatOf board.now.table.shared.table_id (L.limit_of board.now.layout) (L.lengths_of board.now.layout)) seats.new.items }
    ensures length { length seats.new.items + 1 ≡ length seats.old.items }
{
    let _ = board;
    let Some(seat) = seats.pop() else {
        unreachable!()
    };
    seat
}

fn put_seat<L: Layout>(
    board: &Board<L>,
    seats: &mut Seq<BoardSeat>,
    seat: BoardSeat,
) -> Result<(), Memory>
    requires seat { IsSeatOf board.now.table.shared.table_id (L.limit_of board.now.layout) (L.lengths_of board.now.layout) seat }
    requires seats { All (IsSeatOf board.now.table.shared.table_id (L.limit_of board.now.layout) (L.lengths_of board.now.layout)) seats.old.items }
    ensures seats { IfOk result (λ _. All (IsSeatOf board.now.table.shared.table_id (L.limit_of board.now.layout) (L.lengths_of board.now.layout)) seats.new.items) }
    ensures length { IfOk result (λ _. length seats.new.items ≡ length seats.old.items + 1) }
{
    let _ = board;
    seats.add(seat)
}

/// A claim, where the seat has not met the range dry.
fn next<L: Layout>(board: &Board<L>, seat: &mut BoardSeat, range: u32) -> Claim
    requires seat { IsSeatOf board.now.table.shared.table_id (L.limit_of board.now.layout) (L.lengths_of board.now.layout) seat.old }
    requires range { range < length (L.lengths_of board.now.layout) }
    ensures seat { IsSeatOf board.now.table.shared.table_id (L.limit_of board.now.layout) (L.lengths_of board.now.layout) seat.new }
{
    if seat.met_dry(range) {
        return Claim::Dry;
    }
    board.claim(seat, range)
}

fn board_of<L: Layout>(
    alloc: Global,
    layout: L,
    seats: u32,
) -> Result<(Board<L>, Seq<BoardSeat>), Memory>
    requires { (0 < seats) × (seats < 65) }
    ensures { IfOk result (λ p. (p.0.layout ≡ layout) × (p.0.table.shared.key.seats ≡ seats) × (length p.1.items ≡ seats)
        × All (IsSeatOf p.0.table.shared.table_id (L.limit_of p.0.layout) (L.lengths_of p.0.layout)) p.1.items) }
{
    Board::make(alloc, layout, seats)
}

#[test]
fn two_seats(rt: HostRuntime) -> Result<(), Fail> {
    let alloc = rt.alloc();
    let Ok((board, mut seats)) = board_of(alloc, Strides::make(10, 1), 2) else {
        panic!(rt; "memory")
    };
    let mut one = take_seat(&board, &mut seats);
    let mut other = take_seat(&board, &mut seats);
    assert_eq!(rt; next(&board, &mut one, 0), Claim::Number(0));
    assert_eq!(rt; next(&board, &mut other, 0), Claim::Number(1));
    assert_eq!(rt; next(&board, &mut one, 0), Claim::Number(2));
    assert_eq!(rt; board.bound(&mut other), 10);
    board.lower(&mut one, 5);
    board.lower(&mut other, 7);
    assert_eq!(rt; board.bound(&mut other), 5);
    assert_eq!(rt; board.layout().limit(), 10);
    let mut back = Seq::make(alloc);
    if put_seat(&board, &mut back, one).is_err() {
        panic!(rt; "memory")
    }
    if put_seat(&board, &mut back, other).is_err() {
        panic!(rt; "memory")
    }
    assert_eq!(rt; board.close(back), Closed { bound: 5, dry: 0 });
    Ok(())
}
