//! The work of one taker.
ghost use Rattle.std.specs.Prelude.{◌≡◌, [], OnOk};
ghost use Rattle.qk_pool.specs.Workers.{IsReady, IsDone};

use crate::relay::Relay;
use crate::taken::Taken;
use crate::task::Task;
use crate::worker::{Found, Worker};
use qk_base::Memory;
use std::sync::Wait;

/// Takes each job until the end, and performs it.
pub fn work<R: Wait, T: Task>(
    rt: &R,
    task: &T,
    relay: &Relay,
    worker: &mut Worker<T::Answer>,
) -> Result<(), Memory>
    requires task { T.ready task.now }
    requires worker { IsReady relay.now worker.old }
    ensures { OnOk result (IsDone relay.now (T.answers task.now) worker.new) }
{
    for _ in rt.forever() {
        match relay.take(rt, &mut worker.taker) {
            Taken::End => return Ok(()),
            Taken::Job { number, input } => {
                let answer = task.perform(number, &input)?;
                worker.found.add(Found { number, answer })?;
            }
        }
    }
    unreachable!()
}
