//! A call that serves: the feeder and all takers, and then the answers.
ghost use Rattle.std.specs.Prelude.{◌≡◌, ℕ, ◌+◌, ◌<◌, ◌≤◌, [], length, Err, IfOk, OnOk};
ghost use Rattle.std.specs.Thread.{IsSend, IsSync};
ghost use Rattle.qk_base.specs.declared.loading.LoadFault.TheVariants as faults;
ghost use Rattle.qk_base.specs.Faults.{HasRisen};
ghost use Rattle.qk_totals.specs.Totals.{total, times, EachBelow};
ghost use Rattle.qk_pool.specs.Each.{Each};
ghost use Rattle.qk_pool.specs.Numbers.{numbers_of, ends_of};
ghost use Rattle.qk_pool.specs.Serving.{strays};
ghost use Rattle.qk_pool.specs.Slots.{InPlace};
ghost use Rattle.qk_pool.specs.Tokens.{put_of, IsFeederOf};
ghost use Rattle.qk_pool.specs.Workers.{IsReady, IsDone, IsRight};

use crate::crew::{crew, hire};
use crate::feeding::feed_all;
use crate::relay::Relay;
use crate::slots::{collect, part};
use crate::taker::Feeder;
use crate::task::{Feed, Task};
use crate::worker::Worker;
use crate::working::work;
use qk_base::{LoadFault, Memory, Seq};
use std::alloc::Global;
use std::collections::VecDeque;
use std::marker::{Send, Sync};
use std::sync::Wait;
use std::thread::{Threads, join};

/// The feeder's work, and then that of the first taker.
fn lead<R: Wait, T: Task, F: Feed>(
    rt: &R,
    task: &T,
    relay: &Relay,
    count: u32,
    mut feeder: Feeder,
    mut first: Worker<T::Answer>,
    feed: &mut F,
) -> (Feeder, Worker<T::Answer>, Result<(), LoadFault>)
    requires task { T.ready task.now }
    requires feeder { IsFeederOf relay.now feeder × (put_of feeder ≡ []) }
    requires count { count ≤ relay.now.room }
    requires first { IsReady relay.now first }
    ensures feeder { IsFeederOf relay.now result.0 × (ends_of (put_of result.0) ≡ relay.now.takers) }
    ensures each { OnOk result.2 (EachBelow count (λ n. times n (numbers_of (put_of result.0)))) }
    ensures told { total (strays (F.inputs feed.new)) (put_of result.0) ≡ 0 }
    ensures counts { (n : ℕ) → F.faults feed.old n ≤ F.faults feed.new n }
    ensures failed { result.2 ≡ Err faults.Failed → (n : ℕ) × (n < count) × HasRisen (F.faults feed.old n) (F.faults feed.new n) }
    ensures made { F.made feed.new ≡ F.made feed.old }
    ensures inputs { (n : ℕ) → F.inputs feed.new n ≡ F.inputs feed.old n }
    ensures done { OnOk result.2 (IsDone relay.now (T.answers task.now) result.1) }
{
    if let Err(fault) = feed_all(rt, relay, &mut feeder, feed, count) {
        return (feeder, first, Err(fault));
    }
    match work(rt, task, relay, &mut first) {
        Ok(()) => (feeder, first, Ok(())),
        Err(_) => (feeder, first, Err(LoadFault::Memory)),
    }
}

/// The answers in their places, where all went well.
fn finish<T: Task, F: Feed>(
    alloc: Global,
    task: &T,
    feed: &F,
    relay: Relay,
    feeder: Feeder,
    first: Worker<T::Answer>,
    led: Result<(), LoadFault>,
    followed: Result<VecDeque<Worker<T::Answer>>, Memory>,
    count: u32,
) -> Result<Seq<T::Answer>, LoadFault>
    requires feeder { IsFeederOf relay feeder × (ends_of (put_of feeder) ≡ relay.takers) }
    requires each { OnOk led (EachBelow count (λ n. times n (numbers_of (put_of feeder)))) }
    requires told { total (strays (F.inputs feed.now)) (put_of feeder) ≡ 0 }
    requires first { OnOk led (IsDone relay (T.answers task.now) first) }
    requires others { IfOk followed (λ v. (length v.items + 1 ≡ relay.takers) × Each (IsDone relay (T.answers task.now)) v.items) }
    ensures ok { IfOk result (λ v. (length v.items ≡ count) × InPlace (IsRight (F.inputs feed.now) (T.answers task.now)) 0 v.items) }
    ensures failed { result ≡ Err faults.Failed → led ≡ Err faults.Failed }
{
    led?;
    let mut others = followed?;
    if others.push_front(first).is_err() {
        return Err(LoadFault::Memory);
    }
    let (tokens, found) = part(alloc, task, &relay, others)?;
    relay.close(feeder, tokens);
    Ok(collect(alloc, task, feed, found, count)?)
}

// Does nothing, but this use of a returned reference ties it to the parameter that lent it.
fn take_back<T>(x: &mut T)
    ensures { x.new ≡ x.old }
{
    let _ = x;
}

/// The work of all. The feeder is in the half that the caller's thread runs: that is the second one. Where no other thread can be
/// made it runs before the first one, so that no taker waits for a feeder that comes later.
fn both<'f, R: Threads + Wait + Sync, T: Task, F: Feed>(
    rt: &R,
    task: &T,
    shared: &Relay,
    count: u32,
    feeder: Feeder,
    first: Worker<T::Answer>,
    others: VecDeque<Worker<T::Answer>>,
    feed: &'f mut F,
) -> (
    &'f mut F,
    (Feeder, Worker<T::Answer>, Result<(), LoadFault>),
    Result<VecDeque<Worker<T::Answer>>, Memory>,
)
    requires task { T.ready task.now }
    requires feeder { IsFeederOf shared.now feeder × (put_of feeder ≡ []) }
    requires count { count ≤ shared.now.room }
    requires first { IsReady shared.now first }
    requires others { Each (IsReady shared.now) others.items }
    ensures same { result.0.ghost_name ≡ feed.entry.ghost_name }
    ensures feeder { IsFeederOf shared.now result.1.0 × (ends_of (put_of result.1.0) ≡ shared.now.takers) }
    ensures each { OnOk result.1.2 (EachBelow count (λ n. times n (numbers_of (put_of result.1.0)))) }
    ensures told { total (strays (F.inputs result.0.now)) (put_of result.1.0) ≡ 0 }
    ensures counts { (n : ℕ) → F.faults feed.entry.now n ≤ F.faults result.0.now n }
    ensures failed { result.1.2 ≡ Err faults.Failed → (n : ℕ) × (n < count) × HasRisen (F.faults feed.entry.now n) (F.faults result.0.now n) }
    ensures made { F.made result.0.now ≡ F.made feed.entry.now }
    ensures inputs { (n : ℕ) → F.inputs result.0.now n ≡ F.inputs feed.entry.now n }
    ensures done { OnOk result.1.2 (IsDone shared.now (T.answers task.now) result.1.1) }
    ensures others { IfOk result.2 (λ v. (length v.items ≡ length others.items) × Each (IsDone shared.now (T.answers task.now)) v.items) }
{
    let after = move || -> Result<VecDeque<Worker<T::Answer>>, Memory>
        requires { IsSync R.row × IsSync T.row × IsSend T.Answer.row × T.ready task.now × Each (IsReady shared.now) others.items }
        ensures { IfOk result (λ v. (length v.items ≡ length others.items) × Each (IsDone shared.entry.now (T.answers task.entry.now)) v.items) }
    { crew(rt, task, shared, others) };
    let before = move || -> (&mut F, (Feeder, Worker<T::Answer>, Result<(), LoadFault>))
        requires { T.ready task.now × IsFeederOf shared.now feeder × (put_of feeder ≡ []) × (count ≤ shared.now.room) × IsReady shared.now first }
        ensures { (result.0.ghost_name ≡ feed.entry.ghost_name)
            × IsFeederOf shared.entry.now result.1.0 × (ends_of (put_of result.1.0) ≡ shared.entry.now.takers)
            × OnOk result.1.2 (EachBelow count (λ n. times n (numbers_of (put_of result.1.0))))
            × (total (strays (F.inputs result.0.now)) (put_of result.1.0) ≡ 0)
            × ((n : ℕ) → F.faults feed.entry.now n ≤ F.faults result.0.now n)
            × (result.1.2 ≡ Err faults.Failed → (n : ℕ) × (n < count) × HasRisen (F.faults feed.entry.now n) (F.faults result.0.now n))
            × (F.made result.0.now ≡ F.made feed.entry.now)
            × ((n : ℕ) → F.inputs result.0.now n ≡ F.inputs feed.entry.now n)
            × OnOk result.1.2 (IsDone shared.entry.now (T.answers task.entry.now) result.1.1) }
    {
        let led = lead(rt, task, shared, count, feeder, first, feed);
        (feed, led)
    };
    let (followed, (lent, led)) = join(rt, after, before);
    (lent, led, followed)
}

/// The answer of each number below `count`, whose input the feed gives.
pub fn serve<'f, R: Threads + Wait + Sync, T: Task, F: Feed>(
    rt: &R,
    alloc: Global,
    task: &T,
    feed: &'f mut F,
    count: u32,
    takers: u32,
) -> Result<Seq<T::Answer>, LoadFault>
    requires few { (0 < count) × (count ≤ 256) × (0 < takers) × (takers ≤ 64) }
    requires task { T.ready task.now }
    ensures ok { IfOk result (λ v. (length v.items ≡ count) × InPlace (IsRight (F.inputs feed.old) (T.answers task.now)) 0 v.items) }
    ensures counts { (n : ℕ) → F.faults feed.old n ≤ F.faults feed.new n }
    ensures failed { result ≡ Err faults.Failed → (n : ℕ) × (n < count) × HasRisen (F.faults feed.old n) (F.faults feed.new n) }
    ensures made { F.made feed.new ≡ F.made feed.old }
{
    let (relay, feeder, list) = Relay::make(alloc, count, takers)?;
    let mut others = hire(alloc, &relay, list)?;
    let Some(first) = others.pop_front() else {
        unreachable!()
    };
    let (lent, (feeder, first, led), followed) = both(
        rt, task, &relay, count, feeder, first, others, feed,
    );
    let answers = finish(
        alloc, task, lent, relay, feeder, first, led, followed, count,
    );
    take_back(lent);
    answers
}
