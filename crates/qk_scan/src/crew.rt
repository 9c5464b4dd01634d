//! Workers side by side.
ghost use Rattle.std.specs.Prelude.{◌≡◌, ℕ, ◌<◌, ◌≤◌, length, IfOk, All};
ghost use Rattle.std.specs.Thread.{IsSend, IsSync};
ghost use Rattle.qk_board.specs.Views.{IsEmptyView};
ghost use Rattle.qk_board.specs.Seats.{view_of};
ghost use Rattle.qk_scan.specs.Each.{Each};
ghost use Rattle.qk_scan.specs.Crew.{IsSeatOn, IsReady, HasWorked};

use crate::found::Found;
use crate::jobs::Jobs;
use crate::working::work;
use qk_base::{Gate, Memory, Seq};
use qk_board::{Board, BoardSeat, Layout};
use std::alloc::Global;
use std::thread::{Threads, for_each_mut};

/// A seat with what its worker found, and whether that worker wanted memory.
#[derive(Drop)]
pub struct Worker<A> {
    pub seat: BoardSeat,
    pub found: Seq<Found<A>>,
    pub failed: bool,
}

/// A worker for each seat, with room for `room` answers.
pub fn hire<A: Drop, L: Layout>(
    alloc: Global,
    board: &Board<L>,
    mut seats: Seq<BoardSeat>,
    room: usize,
) -> Result<Vec<Worker<A>>, Memory>
    requires { All (λ s. IsSeatOn board.now s × IsEmptyView (view_of s)) seats.items }
    ensures { IfOk result (λ v. (length v.items ≡ length seats.items) × Each (IsReady board.now) v.items) }
{
    let _ = board;
    let mut workers = Vec::with_capacity(alloc, seats.len())?;
    while let Some(seat) = seats.pop() {
        let mut found = Seq::make(alloc);
        found.reserve(room)?;
        let worker = Worker {
            seat,
            found,
            failed: false,
        };
        if workers.push(worker).is_err() {
            return Err(Memory);
        }
    }
    Ok(workers)
}

/// The work of one worker.
fn employ<J: Jobs, G: Gate, L: Layout>(
    alloc: Global,
    gate: &G,
    jobs: &J,
    board: &Board<L>,
    first: u32,
    worker: &mut Worker<J::Answer>,
)
    requires count { L.limit_of board.now.layout ≡ J.total jobs.now }
    requires first { first < length (L.lengths_of board.now.layout) }
    requires ready { IsReady board.now worker.old }
    ensures { HasWorked board.now (J.answer_at jobs.now) (J.hits jobs.now) worker.new }
{
    let Worker {
        seat,
        found,
        failed,
    } = worker;
    *failed = work(alloc, gate, jobs, board, seat, first, found).is_err();
}

/// The work of all workers, each in a thread of its own but for the last, which works in this one. Each begins with the range of its place.
pub fn crew<R: Threads + Sync, J: Jobs, G: Gate, L: Layout>(
    rt: &R,
    alloc: Global,
    gate: &G,
    jobs: &J,
    board: &Board<L>,
    workers: &mut [Worker<J::Answer>],
)
    requires count { L.limit_of board.now.layout ≡ J.total jobs.now }
    requires places { (0 < length workers.old) × (length workers.old ≤ length (L.lengths_of board.now.layout)) × (length (L.lengths_of board.now.layout) ≤ 64) }
    requires ready { Each (IsReady board.now) workers.old }
    ensures same { length workers.new ≡ length workers.old }
    ensures worked { Each (HasWorked board.now (J.answer_at jobs.now) (J.hits jobs.now)) workers.new }
{
    let count = workers.len();
    for_each_mut(
        rt,
        workers,
        count,
        &|place: usize, worker: &mut Worker<J::Answer>|
            requires { IsSync J.row × IsSync G.row × IsSync L.row × IsSend J.Answer.row × (L.limit_of board.now.layout ≡ J.total jobs.now)
                × (place < length (L.lengths_of board.now.layout)) × (length (L.lengths_of board.now.layout) ≤ 64) × IsReady board.now worker.now }
            ensures { HasWorked board.entry.now (J.answer_at jobs.entry.now) (J.hits jobs.entry.now) worker.exit.now }
        { employ(alloc, gate, jobs, board, place as u32, worker) },
    );
}
