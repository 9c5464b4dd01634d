//! How many workers a scan starts.
ghost use Rattle.std.specs.Prelude.{◌<◌, ◌≤◌};

use crate::crew::Worker;

/// The most scans in a row that one worker makes alone.
const LONGEST: u32 = 64;

/// How many workers the next scan starts. It means nothing for any answer. It learns from how the answers fell to the workers: where one
/// worker found nearly all of them, the others came too late to pay.
#[derive(Clone, Copy, Drop, Debug)]
pub struct Pace {
    most: u32,
    learns: bool,
    alone: u32,
    pause: u32,
    shares: Shares,
    ghost few: { (0 < most) × (most ≤ 64) × (pause ≤ 64) },
}

/// How many answers the workers of a scan found, and how many of these one of them found, at most.
#[derive(Clone, Copy, Drop, Debug, PartialEq, Eq)]
pub struct Shares {
    pub all: usize,
    pub by_one: usize,
}

impl Shares {
    /// Whether no worker found more than three quarters.
    fn are_even(self) -> bool {
        let all = self.all.min(65536);
        let by_one = self.by_one.min(65536);
        by_one * 4 <= all * 3
    }
}

/// What the workers found.
pub(crate) fn shares_of<A>(workers: &[Worker<A>]) -> Shares {
    let mut shares = Shares { all: 0, by_one: 0 };
    for worker in workers {
        let found = worker.found.len();
        shares.all = shares.all.saturating_add(found);
        shares.by_one = shares.by_one.max(found);
    }
    shares
}

impl Pace {
    /// That many workers in each scan, but for scans that come after one in which they did not pay.
    pub fn make(workers: u32) -> Pace
        requires { (0 < workers) × (workers ≤ 64) }
    {
        Pace {
            most: workers,
            learns: true,
            alone: 0,
            pause: 1,
            shares: Shares { all: 0, by_one: 0 },
        }
    }

    /// That many workers in each scan.
    pub fn fixed(workers: u32) -> Pace
        requires { (0 < workers) × (workers ≤ 64) }
    {
        Pace {
            most: workers,
            learns: false,
            alone: 0,
            pause: 1,
            shares: Shares { all: 0, by_one: 0 },
        }
    }

    /// How the answers of the last scan with several workers and enough jobs fell to them.
    pub fn shares(&self) -> Shares {
        self.shares
    }

    /// The workers of the next scan.
    pub(crate) fn workers(&self) -> u32
        ensures { (0 < result) × (result ≤ 64) }
    {
        if self.alone == 0 { self.most } else { 1 }
    }

    /// One worker made a scan alone.
    pub(crate) fn rest(&mut self) {
        if 0 < self.alone {
            self.alone -= 1;
        }
    }

    /// Several workers made a scan of so many jobs. With fewer than two for each it tells nothing.
    pub(crate) fn learn(&mut self, workers: u32, jobs: u32, shares: Shares) {
        if jobs / 2 < workers {
            return;
        }
        self.shares = shares;
        if !self.learns {
            return;
        }
        if shares.are_even() {
            self.pause = 1;
            return;
        }
        self.alone = self.pause;
        self.pause = (self.pause * 2).min(LONGEST);
    }
}
