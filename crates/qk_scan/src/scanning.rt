//! The scan.
ghost use Rattle.std.specs.Prelude.{◌≡◌, ℕ, ◌+◌, ◌<◌, ◌≤◌, [], length, IfOk, OnOk};
ghost use Rattle.qk_board.specs.Layouts.{IsLayout};
ghost use Rattle.qk_scan.specs.Each.{Each};
ghost use Rattle.qk_scan.specs.Crew.{IsReady, HasWorked};
ghost use Rattle.qk_scan.specs.Slots.{AreRight, IsSettled};
ghost use Rattle.qk_scan.specs.Prefix.{prefix_to_hit, answers_from};

use crate::crew::{Worker, crew, hire};
use crate::jobs::Jobs;
use crate::pace::{Pace, shares_of};
use crate::slots::{collect, empty_slots, put_all};
use qk_base::{Gate, Memory, Seq};
use qk_board::{Board, BoardSeat, Layout, Strides};
use std::alloc::Global;
use std::thread::Threads;

/// Puts a worker's answers into their slots, and its seat to the others.
fn settle_one<J: Jobs, L: Layout>(
    jobs: &J,
    board: &Board<L>,
    worker: Worker<J::Answer>,
    slots: &mut Vec<Option<J::Answer>>,
    seats: &mut Seq<BoardSeat>,
) -> Result<(), Memory>
    requires done { HasWorked board.now (J.answer_at jobs.now) (J.hits jobs.now) worker }
    requires right { AreRight (J.answer_at jobs.now) slots.old.items }
    requires seats { Each (IsSettled board.now (J.answer_at jobs.now) (J.hits jobs.now) slots.old.items) seats.old.items }
    ensures slots { AreRight (J.answer_at jobs.now) slots.new.items × (length slots.new.items ≡ length slots.old.items) }
    ensures seats { OnOk result ((length seats.new.items ≡ length seats.old.items + 1)
        × Each (IsSettled board.now (J.answer_at jobs.now) (J.hits jobs.now) slots.new.items) seats.new.items) }
{
    let _ = board;
    let Worker {
        seat,
        found,
        failed,
    } = worker;
    if failed {
        return Err(Memory);
    }
    put_all(jobs, found, slots);
    seats.add(seat)
}

/// Puts all workers' answers into their slots, and gathers their seats.
fn settle<J: Jobs, L: Layout>(
    jobs: &J,
    board: &Board<L>,
    mut workers: Vec<Worker<J::Answer>>,
    slots: &mut Vec<Option<J::Answer>>,
    seats: &mut Seq<BoardSeat>,
) -> Result<(), Memory>
    requires done { Each (HasWorked board.now (J.answer_at jobs.now) (J.hits jobs.now)) workers.items }
    requires right { AreRight (J.answer_at jobs.now) slots.old.items }
    requires seats { seats.old.items ≡ [] }
    ensures slots { AreRight (J.answer_at jobs.now) slots.new.items × (length slots.new.items ≡ length slots.old.items) }
    ensures seats { OnOk result ((length seats.new.items ≡ length workers.items)
        × Each (IsSettled board.now (J.answer_at jobs.now) (J.hits jobs.now) slots.new.items) seats.new.items) }
{
    while let Some(worker) = workers.pop() {
        settle_one(jobs, board, worker, slots, seats)?;
    }
    Ok(())
}

/// Tells the proofs above it the layout's law.
fn by_law<L: Layout>(layout: &L)
    ensures { IsLayout (L.limit_of layout.now) (L.lengths_of layout.now) (L.number_of layout.now) }
{
    let _ = layout;
}

/// Closes the board. Every number up to its bound was performed: a number that a worker skipped lies above a bound that it saw, and no
/// bound that was seen is less than the last.
fn finish<J: Jobs, L: Layout>(
    jobs: &J,
    board: Board<L>,
    seats: Seq<BoardSeat>,
    slots: Vec<Option<J::Answer>>,
    found: Seq<J::Answer>,
) -> Result<Seq<J::Answer>, Memory>
    requires count { L.limit_of board.layout ≡ J.total jobs.now }
    requires all { (0 < length seats.items) × (length seats.items ≡ board.table.shared.key.seats) }
    requires seats { Each (IsSettled board (J.answer_at jobs.now) (J.hits jobs.now) slots.items) seats.items }
    requires slots { (length slots.items ≡ J.total jobs.now) × AreRight (J.answer_at jobs.now) slots.items }
    requires found { found.items ≡ [] }
    ensures { IfOk result (λ v. v.items ≡ prefix_to_hit (J.hits jobs.now) (answers_from (J.answer_at jobs.now) 0 (J.total jobs.now))) }
{
    by_law(board.layout());
    let closed = board.close(seats);
    collect(jobs, closed.bound, slots, found)
}

/// Where the answers and the seats come together.
#[derive(Drop)]
struct Room<A> {
    slots: Vec<Option<A>>,
    seats: Seq<BoardSeat>,
    found: Seq<A>,
}

fn make_room<J: Jobs>(alloc: Global, jobs: &J, workers: u32) -> Result<Room<J::Answer>, Memory>
    ensures { IfOk result (λ r. (length r.slots.items ≡ J.total jobs.now) × AreRight (J.answer_at jobs.now) r.slots.items × (r.seats.items ≡ []) × (r.found.items ≡ [])) }
{
    let slots = empty_slots(alloc, jobs)?;
    let mut seats = Seq::make(alloc);
    seats.reserve(workers as usize)?;
    let mut found = Seq::make(alloc);
    found.reserve(slots.len())?;
    Ok(Room {
        slots,
        seats,
        found,
    })
}

/// Lets the workers work, and puts together what they bring home.
fn gather<R: Threads + Sync, J: Jobs, G: Gate, L: Layout>(
    rt: &R,
    alloc: Global,
    gate: &G,
    jobs: &J,
    board: Board<L>,
    mut workers: Vec<Worker<J::Answer>>,
    room: Room<J::Answer>,
    pace: &mut Pace,
) -> Result<Seq<J::Answer>, Memory>
    requires count { L.limit_of board.layout ≡ J.total jobs.now }
    requires all { (0 < length workers.items) × (length workers.items ≡ board.table.shared.key.seats) × (length workers.items ≤ length (L.lengths_of board.layout)) × (length (L.lengths_of board.layout) ≤ 64) }
    requires ready { Each (IsReady board) workers.items }
    requires slots { (length room.slots.items ≡ J.total jobs.now) × AreRight (J.answer_at jobs.now) room.slots.items }
    requires empty { (room.seats.items ≡ []) × (room.found.items ≡ []) }
    ensures { IfOk result (λ v. v.items ≡ prefix_to_hit (J.hits jobs.now) (answers_from (J.answer_at jobs.now) 0 (J.total jobs.now))) }
{
    let Room {
        mut slots,
        mut seats,
        found,
    } = room;
    crew(rt, alloc, gate, jobs, &board, workers.as_mut_slice());
    pace.learn(
        workers.len() as u32,
        jobs.count(),
        shares_of(workers.as_slice()),
    );
    settle(jobs, &board, workers, &mut slots, &mut seats)?;
    finish(jobs, board, seats, slots, found)
}

/// The answers that several workers find.
fn scan_together<R: Threads + Sync, J: Jobs, G: Gate>(
    rt: &R,
    alloc: Global,
    gate: &G,
    jobs: &J,
    workers: u32,
    pace: &mut Pace,
) -> Result<Seq<J::Answer>, Memory>
    requires { (0 < workers) × (workers ≤ 64) }
    ensures { IfOk result (λ v. v.items ≡ prefix_to_hit (J.hits jobs.now) (answers_from (J.answer_at jobs.now) 0 (J.total jobs.now))) }
{
    let count = jobs.count();
    let (board, seats) = Board::make(alloc, Strides::make(count, workers), workers)?;
    let ready = hire(alloc, &board, seats, count as usize)?;
    let room = make_room(alloc, jobs, workers)?;
    gather(rt, alloc, gate, jobs, board, ready, room, pace)
}

/// The answers that the calling thread finds alone, one after another.
fn scan_alone<J: Jobs, G: Gate>(alloc: Global, gate: &G, jobs: &J) -> Result<Seq<J::Answer>, Memory>
    ensures { IfOk result (λ v. v.items ≡ prefix_to_hit (J.hits jobs.now) (answers_from (J.answer_at jobs.now) 0 (J.total jobs.now))) }
{
    let count = jobs.count();
    let mut found = Seq::make(alloc);
    found.reserve(count as usize)?;
    let mut index = 0;
    while index < count {
        gate.enter(index);
        let answer = jobs.perform(alloc, index)?;
        let hit = jobs.hit(&answer);
        found.add(answer)?;
        if hit {
            return Ok(found);
        }
        index += 1;
    }
    Ok(found)
}

/// The answers of the jobs 0, 1 and so on, up to and including the first that hits, or of all jobs where none hits. The answer is
/// the same for every number of workers and every interleaving of their steps. As in QuickerCheck, each worker has numbers of its own
/// and takes from the others once these are used up. No more workers start than there are jobs, and where that is one the calling thread
/// performs the jobs in order. Room for all answers is taken for each worker before the first starts: from then on only the jobs take
/// memory.
pub fn scan<R: Threads + Sync, J: Jobs, G: Gate>(
    rt: &R,
    alloc: Global,
    gate: &G,
    jobs: &J,
    workers: u32,
) -> Result<Seq<J::Answer>, Memory>
    requires { (0 < workers) × (workers ≤ 64) }
    ensures { IfOk result (λ v. v.items ≡ prefix_to_hit (J.hits jobs.now) (answers_from (J.answer_at jobs.now) 0 (J.total jobs.now))) }
{
    let mut pace = Pace::fixed(workers);
    scan_paced(rt, alloc, gate, jobs, &mut pace)
}

/// `scan` with as many workers as a pace says, which learns from it.
pub fn scan_paced<R: Threads + Sync, J: Jobs, G: Gate>(
    rt: &R,
    alloc: Global,
    gate: &G,
    jobs: &J,
    pace: &mut Pace,
) -> Result<Seq<J::Answer>, Memory>
    ensures { IfOk result (λ v. v.items ≡ prefix_to_hit (J.hits jobs.now) (answers_from (J.answer_at jobs.now) 0 (J.total jobs.now))) }
{
    let workers = pace.workers().min(jobs.count());
    if workers < 2 {
        pace.rest();
        return scan_alone(alloc, gate, jobs);
    }
    scan_together(rt, alloc, gate, jobs, workers, pace)
}
