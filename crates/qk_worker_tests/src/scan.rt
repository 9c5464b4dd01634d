//! Scans by many workers.
ghost use Rattle.std.specs.Prelude.{◌≡◌, ◌+◌, ◌<◌, ◌≤◌, nat_eq, true, cond, length, All, IfOk};
ghost use Rattle.qk_board.specs.Views.{IsEmptyView};
ghost use Rattle.qk_board.specs.Seats.{view_of, IsSeatOf};

use qk_base::{MeetGate, Memory, OpenGate, OrderGate, Seq};
use qk_board::{Board, BoardSeat, Closed, Layout, Strides};
use qk_scan::{Jobs, Pace, scan, scan_paced, work};
use std::alloc::Global;
use std::test::Fail;

/// Jobs whose answers are their numbers, two of which may hit.
#[derive(Drop)]
struct Numbers {
    count: u32,
    hits: (u32, u32),
    ghost few: { count ≤ 4096 },
}

/// No job has this number.
const NEVER: u32 = 5000;

impl Jobs for Numbers {
    type Answer = u32;

    ghost total = { λ jobs. jobs.count };

    ghost answer_at = { λ _ index. index };

    ghost hits = { λ jobs answer. cond (nat_eq answer jobs.hits.0) true (nat_eq answer jobs.hits.1) };

    fn count(&self) -> u32 {
        self.count
    }

    fn perform(&self, _alloc: Global, index: u32) -> Result<u32, Memory> {
        Ok(index)
    }

    fn hit(&self, answer: &u32) -> bool {
        *answer == self.hits.0 || *answer == self.hits.1
    }
}

// Whether these are the answers of the first jobs.
fn are_first(answers: &[u32], length: usize) -> bool {
    for (place, answer) in answers.iter().enumerate() {
        if *answer as usize != place {
            return false;
        }
    }
    answers.len() == length
}

// A number of jobs, one that hits, and how many answers there are.
const LENGTHS: [(u32, u32, usize); 6] = [
    (0, NEVER, 0),
    (3, NEVER, 3),
    (200, 150, 151),
    (4096, 0, 1),
    (4096, 4095, 4096),
    (4096, NEVER, 4096),
];

#[test]
fn answers_end_with_the_first_hit(rt: HostRuntime) -> Result<(), Fail> {
    for workers in [1, 2, 7, 64] {
        let mut pace = Pace::make(workers);
        for (count, hit, length) in LENGTHS {
            let hits = (hit, NEVER);
            let jobs = Numbers { count, hits };
            let found = scan(&rt, rt.alloc(), &OpenGate, &jobs, workers)?;
            let paced = scan_paced(&rt, rt.alloc(), &OpenGate, &jobs, &mut pace)?;
            assert!(rt; are_first(found.as_slice(), length) && are_first(paced.as_slice(), length));
        }
    }
    Ok(())
}

#[test]
fn two_workers_meet(rt: HostRuntime) -> Result<(), Fail> {
    let gate = MeetGate::make(200_000_000);
    let jobs = Numbers {
        count: 2,
        hits: (NEVER, NEVER),
    };
    let Ok(found) = scan(&rt, rt.alloc(), &gate, &jobs, 2) else {
        panic!(rt; "memory")
    };
    assert_eq!(rt; found.as_slice(), [0, 1].as_slice());
    assert!(rt; gate.met());
    Ok(())
}

#[test]
fn forced_orders(rt: HostRuntime) -> Result<(), Fail> {
    let alloc = rt.alloc();
    let mut order = Seq::make(alloc);
    if order.append(&[3, 2, 1, 0]).is_err() {
        panic!(rt; "memory")
    }
    let gate = OrderGate::make(order, 1_000_000);
    let jobs = Numbers {
        count: 4,
        hits: (1, 3),
    };
    let Ok(found) = scan(&rt, alloc, &gate, &jobs, 4) else {
        panic!(rt; "memory")
    };
    assert_eq!(rt; found.as_slice(), [0, 1].as_slice());

    let mut order = Seq::make(alloc);
    if order.append(&[1, 3, 5, 2, 4, 0]).is_err() {
        panic!(rt; "memory")
    }
    let gate = OrderGate::make(order, 200_000_000);
    let jobs = Numbers {
        count: 6,
        hits: (NEVER, NEVER),
    };
    let Ok(found) = scan(&rt, alloc, &gate, &jobs, 2) else {
        panic!(rt; "memory")
    };
    assert_eq!(rt; found.as_slice(), [0, 1, 2, 3, 4, 5].as_slice());
    assert!(rt; gate.kept());
    Ok(())
}

fn only_seat<L: Layout>(board: &Board<L>, mut seats: Seq<BoardSeat>) -> BoardSeat
    requires one { length seats.items ≡ 1 }
    requires seats { All (λ s. IsSeatOf board.now.table.shared.table_id (L.limit_of board.now.layout) (L.lengths_of board.now.layout) s × IsEmptyView (view_of s)) seats.items }
    ensures { IsSeatOf board.now.table.shared.table_id (L.limit_of board.now.layout) (L.lengths_of board.now.layout) result × IsEmptyView (view_of result) }
{
    let _ = board;
    let Some(seat) = seats.pop() else {
        unreachable!()
    };
    seat
}

fn seats_of<L: Layout>(
    alloc: Global,
    board: &Board<L>,
    seat: BoardSeat,
) -> Result<Seq<BoardSeat>, Memory>
    requires { IsSeatOf board.now.table.shared.table_id (L.limit_of board.now.layout) (L.lengths_of board.now.layout) seat }
    ensures { IfOk result (λ v. (length v.items ≡ 1) × All (IsSeatOf board.now.table.shared.table_id (L.limit_of board.now.layout) (L.lengths_of board.now.layout)) v.items) }
{
    let _ = board;
    let mut seats = Seq::make(alloc);
    seats.add(seat)?;
    Ok(seats)
}

#[test]
fn one_worker(rt: HostRuntime) -> Result<(), Fail> {
    let alloc = rt.alloc();
    let jobs = Numbers {
        count: 4,
        hits: (1, 3),
    };
    let Ok((board, seats)) = Board::make(alloc, Strides::make(4, 2), 1) else {
        panic!(rt; "memory")
    };
    let mut seat = only_seat(&board, seats);
    let mut found = Seq::make(alloc);
    if work(alloc, &OpenGate, &jobs, &board, &mut seat, 0, &mut found).is_err() {
        panic!(rt; "memory")
    }
    assert_eq!(rt; found.len(), 3);
    for (each, number) in found.as_slice().iter().zip([0, 2, 1].iter()) {
        assert_eq!(rt; (each.number, each.answer), (*number, *number));
    }
    let Ok(back) = seats_of(alloc, &board, seat) else {
        panic!(rt; "memory")
    };
    assert_eq!(rt; board.close(back), Closed { bound: 1, dry: 3 });
    Ok(())
}
