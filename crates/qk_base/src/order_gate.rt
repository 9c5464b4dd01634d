//! A gate that forces an order on trials.
ghost use Rattle.std.specs.Prelude.{◌≡◌, ◌≤◌, ◌<◌, length, IfSome, IsTrue, Some, slice_get};
ghost use Rattle.qk_base.specs.Order.{all_different};

use crate::gate::Gate;
use crate::seq::Seq;
use std::marker::Model;
use std::sync::atomic::{AtomicU64, Ordering};

/// Where the count of entries stands still.
const MANY: u64 = 1 << 62;

/// A gate that lets the first entries of some numbers in by an order: the first entry of the number at place i is held until i
/// entries were let in, for at most some number of loads. Every other entry is let in at once. A tool for tests: it means nothing for
/// any answer. Contracts see it as its order and how many loads it waits.
#[derive(Drop)]
pub struct OrderGate {
    order: Seq<u32>,
    turns: u64,
    // A bit for each place whose first entry has come.
    came: AtomicU64,
    let_in: AtomicU64,
    // Not 0 once an entry was let in because its turns had run out.
    late: AtomicU64,
}

impl Model for OrderGate {
    ghost use Rattle.std.specs.Prelude.{◌≤◌, length, IsTrue};
    ghost use Rattle.qk_base.specs.Order.{Order, all_different};

    ghost Value = { Order };

    ghost view = { λ g. record { order = g.order.items; turns = g.turns } };

    ghost invariant = { λ g. (length g.order.items ≤ 64) × IsTrue (all_different g.order.items) };
}

impl OrderGate {
    /// A gate by that order. It takes no memory.
    pub fn make(order: Seq<u32>, turns: u64) -> OrderGate
        requires few { length order.items ≤ 64 }
        requires different { IsTrue (all_different order.items) }
        ensures { result ≡ record { order = order.items; turns = turns } }
    {
        OrderGate {
            order,
            turns,
            came: AtomicU64::new(0),
            let_in: AtomicU64::new(0),
            late: AtomicU64::new(0),
        }
    }

    /// Whether at least as many entries were let in as the order has numbers, none of them because its turns had run out.
    pub fn kept(&self) -> bool {
        let entries = self.let_in.load(Ordering::SeqCst);
        entries >= self.order.len() as u64 && self.late.load(Ordering::SeqCst) == 0
    }

    /// The place of a number in the order.
    fn place(&self, number: u32) -> Option<usize>
        ensures few { IfSome result (λ place. place < 64) }
        ensures stands { IfSome result (λ place. slice_get self.now.order place ≡ Some number) }
    {
        for (place, next) in self.order.as_slice().iter().enumerate() {
            if *next == number {
                return Some(place);
            }
        }
        None
    }

    /// Whether this is the first entry at a place. Each failed exchange means that another place was marked, of which there are 64.
    fn is_first(&self, place: usize) -> bool
        requires { place < 64 }
    {
        let mark = 1u64 << place;
        for _ in 0..65 {
            let came = self.came.load(Ordering::SeqCst);
            if came & mark != 0 {
                return false;
            }
            let marked = self
                .came
                .compare_exchange(came, came | mark, Ordering::SeqCst, Ordering::SeqCst);
            if marked.is_ok() {
                return true;
            }
        }
        false
    }

    /// Waits until as many entries were let in as places stand before this one.
    fn hold(&self, place: usize) {
        if place == 0 {
            return;
        }
        for _ in 0..self.turns {
            if self.let_in.load(Ordering::SeqCst) >= place as u64 {
                return;
            }
        }
        self.late.store(1, Ordering::SeqCst);
    }
}

impl Gate for OrderGate {
    fn enter(&self, number: u32) {
        if let Some(place) = self.place(number) {
            if self.is_first(place) {
                self.hold(place);
            }
        }
        if self.let_in.load(Ordering::SeqCst) < MANY {
            self.let_in.fetch_add(1, Ordering::SeqCst);
        }
    }
}
