//! Two takers of one relay.
ghost use Rattle.std.specs.Prelude.{◌≡◌};
ghost use Rattle.qk_pool.specs.Numbers.{ends_of};
ghost use Rattle.qk_pool.specs.Tokens.{taken_of, IsTakerOf};

use qk_base::Seq;
use qk_pool::{Relay, Taken, Taker};
use std::sync::Wait;
use std::test::Fail;

// Takes each job up to the end, and counts them.
fn take_all<R: Wait>(rt: &R, relay: &Relay, taker: &mut Taker) -> u64
    requires { IsTakerOf relay.now taker.old × (ends_of (taken_of taker.old) ≡ 0) }
{
    let mut jobs: u64 = 0;
    for _ in rt.forever() {
        match relay.take(rt, taker) {
            Taken::End => return jobs,
            Taken::Job {
                number: _,
                input: _,
            } => jobs = jobs.saturating_add(1),
        }
    }
    unreachable!()
}

#[test]
fn two_takers(rt: HostRuntime) -> Result<(), Fail> {
    let (relay, mut feeder, mut takers) = Relay::make(rt.alloc(), 2, 2)?;
    relay.put(&rt, &mut feeder, 0, Seq::make(rt.alloc()));
    relay.put(&rt, &mut feeder, 1, Seq::make(rt.alloc()));
    relay.end(&rt, &mut feeder);
    let Some(mut second) = takers.pop() else {
        unreachable!()
    };
    let Some(mut first) = takers.pop() else {
        unreachable!()
    };
    assert_eq!(rt; take_all(&rt, &relay, &mut first), 2);
    assert_eq!(rt; first.taken(), [0u32, 1].as_slice());
    assert_eq!(rt; take_all(&rt, &relay, &mut second), 0);
    assert_eq!(rt; second.taken().len(), 0);
    Ok(())
}
