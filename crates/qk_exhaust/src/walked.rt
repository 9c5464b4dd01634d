//! The walk over verdicts.
ghost use Rattle.std.specs.Prelude.{◌≡◌, ◌+◌, ◌<◌, ◌≤◌, ◌^◌, length};
ghost use Rattle.qk_exhaust.specs.Run.{walked};

use qk_base::Verdict;

/// The first case that fails, if one does, and how many before it, or in all, were discarded.
#[derive(Clone, Copy, Debug, PartialEq, Eq)]
pub struct Walked {
    pub failed: Option<u64>,
    pub discards: u64,
}

/// The walk over the verdicts of the cases from `first` on, before which so many were discarded.
pub(crate) fn walk(verdicts: &[Verdict], first: u64, discards: u64) -> Walked
    requires { (first + length verdicts.now < 2 ^ 62) × (discards ≤ first) }
    ensures walked { result ≡ walked first discards verdicts.now }
    ensures fewer { result.discards ≤ first + length verdicts.now }
{
    let mut number = first;
    let mut discards = discards;
    for verdict in verdicts {
        match verdict {
            Verdict::Pass => {}
            Verdict::Discard => discards += 1,
            Verdict::Fail(_) => {
                return Walked {
                    failed: Some(number),
                    discards,
                }
            }
        }
        number += 1;
    }
    Walked {
        failed: None,
        discards,
    }
}
