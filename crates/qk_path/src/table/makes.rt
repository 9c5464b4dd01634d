//! Making a table.
ghost use Rattle.std.specs.Prelude.{◌≡◌, ℕ, ◌+◌, ◌*◌, ◌<◌, ◌≤◌, [], length, IfOk, All, Some, true};
ghost use Rattle.qk_path.specs.Views.{fresh, IsEmptyView};
ghost use Rattle.qk_path.specs.Walkers.{view_of, IsWalkerOf};

use super::PathTable;
use crate::view::{OneWalker, PathView, Start};
use crate::walker::{Walker, walking};
use atomic_table::{Seat, Table};
use qk_base::{Family, Memory, Seq};
use std::alloc::Global;

impl<'f, F: Family> PathTable<'f, F> {
    /// A table on which no step was taken, and its walkers, none of which has made a step. Nothing else of a table takes memory.
    pub fn make(
        alloc: Global,
        family: &'f F,
        root: &'f F::Point,
        walkers: u32,
        limit: u32,
    ) -> Result<(PathTable<'f, F>, Seq<Walker<F>>), Memory>
        requires root { F.failing family.now root.now ≡ true }
        requires walkers { (0 < walkers) × (walkers ≤ 64) }
        requires limit { limit ≤ 1024 }
        ensures { IfOk result (λ r. (r.0.family.now ≡ family.now) × (r.0.root.now ≡ root.now) × (r.0.limit ≡ limit) × (r.0.table.shared.key.walkers ≡ walkers) × (length r.1.items ≡ walkers)
            × All (λ w. IsWalkerOf r.0.table.shared.table_id family.now root.now limit w × IsEmptyView (view_of w)) r.1.items) }
    {
        let words = vec![in alloc; 0u64; 2 * limit as usize + 1]?;
        let start = Start {
            family,
            root,
            walkers,
            limit,
        };
        let (table, first) = Table::of_words(alloc, words.as_slice(), &start)?;
        let made = PathTable {
            table,
            family,
            root,
            limit,
        };
        let list = made.deal(alloc, first, walkers)?;
        Ok((made, list))
    }

    /// A walker with room for a whole path.
    fn one(&self, alloc: Global, seat: Seat<(), PathView<F, F::Point>>) -> Result<Walker<F>, Memory>
        requires { (seat.table_id ≡ self.now.table.shared.table_id) × (seat.me ≡ (fresh (Some (self.now.family.now, self.now.root.now)) 1, [])) }
        ensures { IfOk result (λ w. IsWalkerOf self.now.table.shared.table_id self.now.family.now self.now.root.now self.now.limit w × IsEmptyView (view_of w)) }
    {
        let mut path = Seq::make(alloc);
        path.reserve(self.limit as usize)?;
        Ok(walking::<F>(seat, path))
    }

    /// The walkers, cut one by one from the first.
    fn deal(
        &self,
        alloc: Global,
        mut first: Seat<(), PathView<F, F::Point>>,
        walkers: u32,
    ) -> Result<Seq<Walker<F>>, Memory>
        requires walkers { 0 < walkers }
        requires first { (first.table_id ≡ self.now.table.shared.table_id) × (first.me ≡ (fresh (Some (self.now.family.now, self.now.root.now)) walkers, [])) }
        ensures { IfOk result (λ v. (length v.items ≡ walkers)
            × All (λ w. IsWalkerOf self.now.table.shared.table_id self.now.family.now self.now.root.now self.now.limit w × IsEmptyView (view_of w)) v.items) }
    {
        let mut list = Seq::make(alloc);
        let shared = &self.table.shared;
        let mut left = walkers;
        while 1 < left {
            let seat = shared.split_seat::<OneWalker<F>>(&mut first);
            list.add(self.one(alloc, seat)?)?;
            left -= 1;
        }
        list.add(self.one(alloc, first)?)?;
        Ok(list)
    }
}
