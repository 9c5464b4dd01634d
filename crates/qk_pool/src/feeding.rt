//! The feeder's work.
ghost use Rattle.std.specs.Prelude.{◌≡◌, ℕ, ◌<◌, ◌≤◌, [], length, Err, OnOk};
ghost use Rattle.qk_base.specs.declared.loading.LoadFault.TheVariants as faults;
ghost use Rattle.qk_base.specs.Faults.{HasRisen};
ghost use Rattle.qk_totals.specs.Totals.{total, times, EachBelow};
ghost use Rattle.qk_pool.specs.Numbers.{numbers_of, ends_of};
ghost use Rattle.qk_pool.specs.Serving.{strays};
ghost use Rattle.qk_pool.specs.Tokens.{put_of, IsFeederOf};

use crate::relay::Relay;
use crate::taker::Feeder;
use crate::task::Feed;
use qk_base::LoadFault;
use std::sync::Wait;

/// Puts each input, up to one that fails.
fn fill<R: Wait, F: Feed>(
    rt: &R,
    relay: &Relay,
    feeder: &mut Feeder,
    feed: &mut F,
    count: u32,
) -> Result<(), LoadFault>
    requires feeder { IsFeederOf relay.now feeder.old × (put_of feeder.old ≡ []) }
    requires count { count ≤ relay.now.room }
    ensures feeder { IsFeederOf relay.now feeder.new × (ends_of (put_of feeder.new) ≡ 0) × (length (put_of feeder.new) ≤ relay.now.room) }
    ensures each { OnOk result (EachBelow count (λ n. times n (numbers_of (put_of feeder.new)))) }
    ensures told { total (strays (F.inputs feed.old)) (put_of feeder.new) ≡ 0 }
    ensures counts { (n : ℕ) → F.faults feed.old n ≤ F.faults feed.new n }
    ensures failed { result ≡ Err faults.Failed → (n : ℕ) × (n < count) × HasRisen (F.faults feed.old n) (F.faults feed.new n) }
    ensures made { F.made feed.new ≡ F.made feed.old }
    ensures inputs { (n : ℕ) → F.inputs feed.new n ≡ F.inputs feed.old n }
{
    for number in 0..count {
        let input = feed.next(number)?;
        relay.put(rt, feeder, number, input);
    }
    Ok(())
}

/// Puts each input, up to one that fails, and then the ends.
pub fn feed_all<R: Wait, F: Feed>(
    rt: &R,
    relay: &Relay,
    feeder: &mut Feeder,
    feed: &mut F,
    count: u32,
) -> Result<(), LoadFault>
    requires feeder { IsFeederOf relay.now feeder.old × (put_of feeder.old ≡ []) }
    requires count { count ≤ relay.now.room }
    ensures feeder { IsFeederOf relay.now feeder.new × (ends_of (put_of feeder.new) ≡ relay.now.takers) }
    ensures each { OnOk result (EachBelow count (λ n. times n (numbers_of (put_of feeder.new)))) }
    ensures told { total (strays (F.inputs feed.new)) (put_of feeder.new) ≡ 0 }
    ensures counts { (n : ℕ) → F.faults feed.old n ≤ F.faults feed.new n }
    ensures failed { result ≡ Err faults.Failed → (n : ℕ) × (n < count) × HasRisen (F.faults feed.old n) (F.faults feed.new n) }
    ensures made { F.made feed.new ≡ F.made feed.old }
    ensures inputs { (n : ℕ) → F.inputs feed.new n ≡ F.inputs feed.old n }
{
    let fed = fill(rt, relay, feeder, feed, count);
    relay.end(rt, feeder);
    fed
}
