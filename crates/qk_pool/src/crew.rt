//! Workers in a tree of halves.
ghost use Rattle.std.specs.Prelude.{◌≡◌, ◌+◌, ◌<◌, ◌≤◌, [], length, IfOk, All, OnOk};
ghost use Rattle.std.specs.Thread.{IsSend, IsSync};
ghost use Rattle.qk_pool.specs.Each.{Each};
ghost use Rattle.qk_pool.specs.Tokens.{taken_of, IsTakerOf};
ghost use Rattle.qk_pool.specs.Workers.{IsReady, IsDone};

use crate::relay::Relay;
use crate::taker::Taker;
use crate::task::Task;
use crate::worker::Worker;
use crate::working::work;
use qk_base::{Memory, Seq};
use std::alloc::Global;
use std::collections::VecDeque;
use std::marker::{Send, Sync};
use std::sync::Wait;
use std::thread::{Threads, join};

/// A worker for each taker.
pub fn hire<A: Drop>(
    alloc: Global,
    relay: &Relay,
    mut takers: Seq<Taker>,
) -> Result<VecDeque<Worker<A>>, Memory>
    requires { All (λ t. IsTakerOf relay.now t × (taken_of t ≡ [])) takers.items }
    ensures { IfOk result (λ v. (length v.items ≡ length takers.items) × Each (IsReady relay.now) v.items) }
{
    let _ = relay;
    let mut workers = VecDeque::with_capacity(alloc, takers.len())?;
    while let Some(taker) = takers.pop() {
        let found = Seq::make(alloc);
        if workers.push_back(Worker { taker, found }).is_err() {
            return Err(Memory);
        }
    }
    Ok(workers)
}

/// The work of each worker.
#[cycle(halves)]
pub fn crew<R: Threads + Wait + Sync, T: Task>(
    rt: &R,
    task: &T,
    relay: &Relay,
    workers: VecDeque<Worker<T::Answer>>,
) -> Result<VecDeque<Worker<T::Answer>>, Memory>
    requires task { T.ready task.now }
    requires ready { Each (IsReady relay.now) workers.items }
    ensures { IfOk result (λ v. (length v.items ≡ length workers.items) × Each (IsDone relay.now (T.answers task.now)) v.items) }
{
    let half = workers.len() / 2;
    if half == 0 {
        return alone(rt, task, relay, workers);
    }
    let (low, high) = cut(relay, workers, half)?;
    let left = move || -> Result<VecDeque<Worker<T::Answer>>, Memory>
        requires { IsSync R.row × IsSync T.row × IsSend T.Answer.row × T.ready task.now × Each (IsReady relay.now) low.items }
        ensures { IfOk result (λ v. (length v.items ≡ length low.items) × Each (IsDone relay.entry.now (T.answers task.entry.now)) v.items) }
    { crew(rt, task, relay, low) };
    let right = move || -> Result<VecDeque<Worker<T::Answer>>, Memory>
        requires { IsSync R.row × IsSync T.row × IsSend T.Answer.row × T.ready task.now × Each (IsReady relay.now) high.items }
        ensures { IfOk result (λ v. (length v.items ≡ length high.items) × Each (IsDone relay.entry.now (T.answers task.entry.now)) v.items) }
    { crew(rt, task, relay, high) };
    let (a, b) = join(rt, left, right);
    let a = a?;
    let b = b?;
    glue(task, relay, a, b)
}

/// The work of one worker, where there is one.
fn alone<R: Wait, T: Task>(
    rt: &R,
    task: &T,
    relay: &Relay,
    mut workers: VecDeque<Worker<T::Answer>>,
) -> Result<VecDeque<Worker<T::Answer>>, Memory>
    requires task { T.ready task.now }
    requires few { length workers.items ≤ 1 }
    requires ready { Each (IsReady relay.now) workers.items }
    ensures { IfOk result (λ v. (length v.items ≡ length workers.items) × Each (IsDone relay.now (T.answers task.now)) v.items) }
{
    let Some(mut worker) = workers.pop_front() else {
        return Ok(workers);
    };
    work(rt, task, relay, &mut worker)?;
    if workers.push_back(worker).is_err() {
        return Err(Memory);
    }
    Ok(workers)
}

fn cut<A: Drop>(
    relay: &Relay,
    mut workers: VecDeque<Worker<A>>,
    half: usize,
) -> Result<(VecDeque<Worker<A>>, VecDeque<Worker<A>>), Memory>
    requires at { half ≤ length workers.items }
    requires ready { Each (IsReady relay.now) workers.items }
    ensures { IfOk result (λ p. (length p.0.items ≡ half) × (length p.0.items + length p.1.items ≡ length workers.items)
        × Each (IsReady relay.now) p.0.items × Each (IsReady relay.now) p.1.items) }
{
    let _ = relay;
    let others = workers.split_off(half)?;
    Ok((workers, others))
}

fn glue<T: Task>(
    task: &T,
    relay: &Relay,
    mut a: VecDeque<Worker<T::Answer>>,
    mut b: VecDeque<Worker<T::Answer>>,
) -> Result<VecDeque<Worker<T::Answer>>, Memory>
    requires a { Each (IsDone relay.now (T.answers task.now)) a.items }
    requires b { Each (IsDone relay.now (T.answers task.now)) b.items }
    ensures { IfOk result (λ v. (length v.items ≡ length a.items + length b.items) × Each (IsDone relay.now (T.answers task.now)) v.items) }
{
    let _ = task;
    let _ = relay;
    a.append(&mut b)?;
    Ok(a)
}
