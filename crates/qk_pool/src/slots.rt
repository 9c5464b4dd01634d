//! The answers in their places.
ghost use Rattle.std.specs.Prelude.{◌≡◌, ℕ, ◌+◌, ◌<◌, ◌≤◌, length, All, IfOk};
ghost use Rattle.qk_totals.specs.Totals.{times, EachBelow};
ghost use Rattle.qk_pool.specs.Each.{Each};
ghost use Rattle.qk_pool.specs.Numbers.{ends_of, has_number};
ghost use Rattle.qk_pool.specs.Slots.{AreRight, InPlace, IsFilled};
ghost use Rattle.qk_pool.specs.Tokens.{taken_of, IsTakerOf};
ghost use Rattle.qk_pool.specs.Workers.{IsBacked, IsDone, IsRight, found_numbers, weights_of};

use crate::relay::Relay;
use crate::taker::Taker;
use crate::task::{Feed, Task};
use crate::worker::{Found, Worker};
use qk_base::{Memory, Seq};
use std::alloc::Global;
use std::collections::VecDeque;

/// Every found answer joins the others.
fn pour<T: Task>(
    task: &T,
    takers: &Seq<Taker>,
    mut found: Seq<Found<T::Answer>>,
    mut all: Seq<Found<T::Answer>>,
) -> Result<Seq<Found<T::Answer>>, Memory>
    requires found { Each (IsBacked (T.answers task.now) (weights_of takers.now.items)) found.items }
    requires all { Each (IsBacked (T.answers task.now) (weights_of takers.now.items)) all.items }
    ensures { IfOk result (λ v. Each (IsBacked (T.answers task.now) (weights_of takers.now.items)) v.items
        × ((n : ℕ) → times n (found_numbers v.items) ≡ times n (found_numbers all.items) + times n (found_numbers found.items))) }
{
    let _ = task;
    let _ = takers;
    while let Some(next) = found.pop() {
        all.add(next)?;
    }
    Ok(all)
}

/// The takers apart from what was found.
pub fn part<T: Task>(
    alloc: Global,
    task: &T,
    relay: &Relay,
    mut workers: VecDeque<Worker<T::Answer>>,
) -> Result<(Seq<Taker>, Seq<Found<T::Answer>>), Memory>
    requires { Each (IsDone relay.now (T.answers task.now)) workers.items }
    ensures { IfOk result (λ p. (length p.0.items ≡ length workers.items) × All (λ t. IsTakerOf relay.now t × (ends_of (taken_of t) ≡ 1)) p.0.items
        × Each (IsBacked (T.answers task.now) (weights_of p.0.items)) p.1.items
        × ((n : ℕ) → times n (found_numbers p.1.items) ≡ weights_of p.0.items (has_number n))) }
{
    let _ = relay;
    let mut takers = Seq::make(alloc);
    let mut all = Seq::make(alloc);
    while let Some(worker) = workers.pop_front() {
        let Worker { taker, found } = worker;
        takers.add(taker)?;
        all = pour(task, &takers, found, all)?;
    }
    Ok((takers, all))
}

fn empty_slots<T: Task, F: Feed>(
    alloc: Global,
    task: &T,
    feed: &F,
    count: u32,
) -> Result<Vec<Option<T::Answer>>, Memory>
    ensures { IfOk result (λ v. (length v.items ≡ count) × AreRight (IsRight (F.inputs feed.now) (T.answers task.now)) v.items) }
{
    let _ = task;
    let _ = feed;
    let mut slots = Vec::with_capacity(alloc, count as usize)?;
    let mut made = 0;
    while made < count {
        if slots.push(None).is_err() {
            return Err(Memory);
        }
        made += 1;
    }
    Ok(slots)
}

// The answer into the slot of its number.
fn put_one<T: Task, F: Feed>(
    task: &T,
    feed: &F,
    slots: &mut Vec<Option<T::Answer>>,
    number: u32,
    answer: T::Answer,
)
    requires number { number < length slots.old.items }
    requires right { IsRight (F.inputs feed.now) (T.answers task.now) number answer }
    requires slots { AreRight (IsRight (F.inputs feed.now) (T.answers task.now)) slots.old.items }
    ensures length { length slots.new.items ≡ length slots.old.items }
    ensures here { IsFilled slots.new.items number }
    ensures stays { (n : ℕ) → IsFilled slots.old.items n → IsFilled slots.new.items n }
    ensures right { AreRight (IsRight (F.inputs feed.now) (T.answers task.now)) slots.new.items }
{
    let _ = task;
    let _ = feed;
    slots[number as usize] = Some(answer);
}

// Each answer into the slot of its number. No slot stays empty.
fn place<T: Task, F: Feed>(
    task: &T,
    feed: &F,
    mut found: Seq<Found<T::Answer>>,
    mut slots: Vec<Option<T::Answer>>,
) -> Vec<Option<T::Answer>>
    requires each { EachBelow (length slots.items) (λ n. times n (found_numbers found.items)) }
    requires found { Each (λ f. IsRight (F.inputs feed.now) (T.answers task.now) f.number f.answer) found.items }
    requires slots { AreRight (IsRight (F.inputs feed.now) (T.answers task.now)) slots.items }
    ensures length { length result.items ≡ length slots.items }
    ensures filled { (n : ℕ) → n < length slots.items → IsFilled result.items n }
    ensures right { AreRight (IsRight (F.inputs feed.now) (T.answers task.now)) result.items }
{
    while let Some(next) = found.pop() {
        let Found { number, answer } = next;
        put_one(task, feed, &mut slots, number, answer);
    }
    slots
}

/// The answers in the order of their numbers.
pub fn collect<T: Task, F: Feed>(
    alloc: Global,
    task: &T,
    feed: &F,
    found: Seq<Found<T::Answer>>,
    count: u32,
) -> Result<Seq<T::Answer>, Memory>
    requires each { EachBelow count (λ n. times n (found_numbers found.items)) }
    requires found { Each (λ f. IsRight (F.inputs feed.now) (T.answers task.now) f.number f.answer) found.items }
    ensures { IfOk result (λ v. (length v.items ≡ count) × InPlace (IsRight (F.inputs feed.now) (T.answers task.now)) 0 v.items) }
{
    let empty = empty_slots(alloc, task, feed, count)?;
    let mut slots = place(task, feed, found, empty);
    let mut list = Seq::make(alloc);
    for index in 0..count {
        let Some(answer) = slots[index as usize].take() else {
            unreachable!()
        };
        list.add(answer)?;
    }
    Ok(list)
}
