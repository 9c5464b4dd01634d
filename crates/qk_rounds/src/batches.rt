//! How the next attempts run. It means nothing for any answer.
ghost use Rattle.std.specs.Prelude.{◌<◌, ◌≤◌, IfSome};

use qk_scan::{Pace, Shares};

/// The slots of the first window.
const FIRST: u32 = 16;

/// The slots of each later window that asks whether several workers pay.
const USUAL: u32 = 64;

/// The most slots of a window, and the most attempts that are prepared at once.
const MOST: u32 = 4096;

/// The attempts of the first stretch alone.
const SHORTEST: u64 = 128;

/// How many windows in a row may not pay once one has paid.
const PATIENCE: u32 = 2;

/// Windows on all workers grow as long as they pay, which the shares of the workers tell. Where they do not, stretches alone come
/// between them, each as long as all that was done before, and a window on two workers asks anew.
#[derive(Drop)]
pub(crate) struct Batches {
    pub(crate) pace: Pace,
    workers: u32,
    window: u32,
    asks: bool,
    patience: u32,
    done: u64,
    alone: u64,
    seen: u32,
    ghost few: { (0 < workers) × (workers ≤ 64) × (0 < window) × (window ≤ 4096) },
}

impl Batches {
    pub(crate) fn make(workers: u32) -> Batches
        requires { (0 < workers) × (workers ≤ 64) }
    {
        Batches {
            pace: Pace::fixed(workers.min(2)),
            workers,
            window: FIRST,
            asks: true,
            patience: 0,
            done: 0,
            alone: 0,
            seen: 0,
        }
    }

    /// How many attempts run alone, if any.
    pub(crate) fn stretch(&self) -> Option<u32>
        ensures { IfSome result (λ count. (0 < count) × (count ≤ 4096)) }
    {
        let most = self.done.clamp(USUAL as u64, MOST as u64) as u32;
        if self.workers == 1 {
            return Some(most);
        }
        if self.alone == 0 {
            return None;
        }
        if self.alone < most as u64 {
            return Some(self.alone as u32);
        }
        Some(most)
    }

    /// The greatest size that runs alone: a quarter more than what a window has seen.
    pub(crate) fn most_size(&self) -> u32 {
        if self.workers == 1 {
            return u32::MAX;
        }
        self.seen.saturating_add(self.seen / 4).max(100)
    }

    /// The slots of the next window.
    pub(crate) fn window(&self) -> u32
        ensures { (0 < result) × (result ≤ 4096) }
    {
        self.window
    }

    /// A stretch of so many attempts is done, of those that were to run alone.
    pub(crate) fn rest(&mut self, asked: u32, attempts: u64) {
        self.done = self.done.saturating_add(attempts);
        self.alone = self.alone.saturating_sub(attempts);
        if attempts < asked as u64 {
            self.alone = 0;
        }
    }

    /// A window is done, whose last attempt has that size.
    pub(crate) fn learn(&mut self, slots: u32, trials: u64, size: u32) {
        let committed = slots as u64;
        self.done = self.done.saturating_add(committed);
        self.seen = self.seen.max(size);
        let wrong = self.workers as u64 * committed < trials;
        if wrong || !self.pays() {
            self.pause(wrong);
        } else {
            self.grow(committed, trials);
        }
        let workers = if self.asks {
            self.workers.min(2)
        } else {
            self.workers
        };
        self.pace = Pace::fixed(workers);
    }

    /// Whether the workers' shares say that several paid: the more slots a window has, the more the others are to have found.
    fn pays(&self) -> bool {
        let Shares { all, by_one } = self.pace.shares();
        let all = all.min(MOST as usize) as u64;
        let others = all.saturating_sub(by_one as u64);
        let workers = if self.asks { 2 } else { self.workers as u64 };
        let (parts, of) = match self.window {
            0..=64 => (1, 12),
            65..=128 => (1, 3),
            129..=256 => (1, 2),
            _ => (2, 3),
        };
        all * (workers - 1) * parts <= others * workers * of
    }

    /// Several workers did not pay.
    fn pause(&mut self, wrong: bool) {
        self.window = USUAL;
        if 0 < self.patience && !wrong {
            self.patience -= 1;
            return;
        }
        self.asks = true;
        self.alone = self.done.max(SHORTEST);
    }

    /// Several workers paid.
    fn grow(&mut self, committed: u64, trials: u64) {
        self.patience = PATIENCE;
        if self.asks {
            self.asks = false;
            self.window = USUAL;
        } else if trials == committed && self.window <= MOST / 2 {
            self.window *= 2;
        } else if committed < trials / 3 && USUAL < self.window {
            self.window /= 2;
        }
    }
}
