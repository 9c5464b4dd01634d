//! Closing a table.
ghost use Rattle.std.specs.Prelude.{◌≡◌, ℕ, ◌+◌, ◌*◌, ◌<◌, ◌≤◌, ◌↔◌, List, [], length, All, IsTrue};
ghost use Rattle.qk_totals.specs.Totals.{total, EachBelow};
ghost use Rattle.qk_path.specs.Points.{Leads};
ghost use Rattle.qk_path.specs.Paths.{IsPrefix, AllPrefixes, longer};
ghost use Rattle.qk_path.specs.Views.{draws_of, full_of, Tidy};
ghost use Rattle.qk_path.specs.Walkers.{view_of, IsWalkerOf, IsDoneWhere, HasPath};

use super::{ClosedPath, PathTable};
use crate::view::{BothWalkers, PathView};
use crate::walker::Walker;
use atomic_table::Seat;
use qk_base::{Family, Seq};

// One seat with the views of all, and the longest path.
struct Gathered<F: Family> {
    seat: Seat<(), PathView<F, F::Point>>,
    path: Seq<u64>,
}

fn longer_of(first: Seq<u64>, second: Seq<u64>) -> Seq<u64>
    ensures { result.items ≡ longer first.items second.items }
{
    if first.len() <= second.len() {
        second
    } else {
        first
    }
}

fn part<F: Family>(walker: Walker<F>) -> Gathered<F>
    ensures { (result.seat ≡ walker.seat) × (result.path.items ≡ (view_of walker).path) × (result.seat.me.1 ≡ []) }
{
    let Walker {
        seat,
        path,
        done: _,
    } = walker;
    Gathered { seat, path }
}

impl<'f, F: Family> PathTable<'f, F> {
    /// One seat with the views of all.
    fn gather(&self, mut walkers: Seq<Walker<F>>) -> Gathered<F>
        requires some { 0 < length walkers.items }
        requires walkers { All (IsWalkerOf self.now.table.shared.table_id self.now.family.now self.now.root.now self.now.limit) walkers.items }
        ensures table { (result.seat.table_id ≡ self.now.table.shared.table_id) × (result.path.items ≡ result.seat.me.0.path) }
        ensures parts { result.seat.me.0.parts ≡ length walkers.items }
        ensures draws { (e x : ℕ) → draws_of e x result.seat.me.0 ≡ total (λ w. draws_of e x (view_of w)) walkers.items }
        ensures prefixes { (places : List ℕ) → IsPrefix result.seat.me.0.path places → AllPrefixes result.seat.me.0.absorbed places → All (λ w. IsPrefix (view_of w).path places) walkers.items }
        ensures whole { 0 < total (λ w. full_of (length result.seat.me.0.path) (view_of w)) walkers.items }
    {
        let shared = &self.table.shared;
        let Some(first) = walkers.pop() else {
            unreachable!()
        };
        let Gathered { seat, path } = part(first);
        let mut all = seat;
        let mut longest = path;
        while let Some(next) = walkers.pop() {
            let Gathered { seat, path } = part(next);
            shared.join_seat::<BothWalkers<F>>(&mut all, seat);
            longest = longer_of(longest, path);
        }
        Gathered {
            seat: all,
            path: longest,
        }
    }

    /// Ends the table, to which all its walkers are brought back. Each step of the path leads to a failing candidate, each walker's
    /// path is a prefix of it, and one walker's path is all of it. The draws of a level are the numbers below its claim word, each
    /// once; a walker has draws at levels up to its own, and is done at a level exactly where it drew a number there that is no candidate's.
    pub fn close(self, walkers: Seq<Walker<F>>) -> ClosedPath
        requires all { length walkers.items ≡ self.table.shared.key.walkers }
        requires walkers { All (IsWalkerOf self.table.shared.table_id self.family.now self.root.now self.limit) walkers.items }
        ensures prefixes { All (λ w. IsPrefix (view_of w).path result.path.items) walkers.items }
        ensures whole { HasPath result.path.items walkers.items }
        ensures leads { Leads (F.children self.entry.family.now) (F.failing self.entry.family.now) self.entry.root.now result.path.items }
        ensures limit { (length result.path.items ≤ self.entry.limit) × (IsTrue result.limit_met ↔ (length result.path.items ≡ self.entry.limit)) }
        ensures draws { (claims : ℕ → ℕ) × ((e : ℕ) → EachBelow (claims e) (λ x. total (λ w. draws_of e x (view_of w)) walkers.items)) }
        ensures levels { All (λ w. Tidy (view_of w)) walkers.items }
        ensures done { All (λ w. IsDoneWhere (F.children self.entry.family.now) self.entry.root.now (view_of w)) walkers.items }
    {
        let Gathered { seat, path } = self.gather(walkers);
        let PathTable {
            table,
            family: _,
            root: _,
            limit,
        } = self;
        let shut = table.close_with(seat);
        shut.free();
        let limit_met = path.len() == limit as usize;
        ClosedPath { path, limit_met }
    }
}
