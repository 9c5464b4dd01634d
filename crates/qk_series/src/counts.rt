//! How many values a type has up to a depth.
ghost use Rattle.std.specs.Prelude.{◌≡◌, ◌+◌, ◌≤◌, ◌<◌, ℕ, List, [], length, map, get_or, slice_get, IfOk};
ghost use Rattle.qk_value.specs.View.{view_type};
ghost use Rattle.qk_value.specs.Types.{list_type, made_type};
ghost use Rattle.qk_series.specs.Members.{saturated};
ghost use Rattle.qk_series.specs.Rows.{AreRows, IsRow};
ghost use Rattle.qk_series.specs.Series.{below, series, tuples, makers_of, made_values};

use crate::saturated::{product, sum};
use qk_base::Memory;
use qk_core::Core;
use qk_value::{Kinds, Maker, Ty};
use std::alloc::Global;

/// How many values the types over a table of user types have at each depth up to one, where 2^40 stands for all greater counts.
#[derive(Drop)]
pub struct Counts<'c> {
    pub(crate) kinds: &'c Kinds,
    pub(crate) rows: Vec<Vec<u64>>,
    ghost few: { length rows.items ≤ 9 },
    ghost right: { AreRows kinds.now (map (λ row. row.items) rows.items) },
}

impl<'c> Counts<'c> {
    /// The counts at each depth up to that one.
    pub fn make(alloc: Global, core: &'c Core, depth: u32) -> Result<Counts<'c>, Memory>
        requires { depth ≤ 8 }
        ensures kinds { IfOk result (λ counts. counts.kinds.now ≡ core.now.kinds) }
        ensures depths { IfOk result (λ counts. length counts.rows.items ≡ depth + 1) }
    {
        let mut counts = Counts {
            kinds: core.kinds(),
            rows: Vec::new(alloc),
        };
        for _ in 0..depth + 1 {
            counts = counts.with_next(alloc)?;
        }
        Ok(counts)
    }

    /// How many values a type has at a depth, or 2^40 where there are more. It takes no memory.
    pub fn count(&self, ty: &Ty, depth: u32) -> u64
        requires { depth < length self.now.rows.items }
        ensures { result ≡ saturated (length (series self.now.kinds.now depth (view_type ty.now))) }
    {
        self.count_at(ty, depth as usize)
    }

    // With the counts at one depth more.
    fn with_next(self, alloc: Global) -> Result<Counts<'c>, Memory>
        requires { length self.rows.items ≤ 8 }
        ensures kinds { IfOk result (λ counts. counts.kinds.now ≡ self.entry.kinds.now) }
        ensures depths { IfOk result (λ counts. length counts.rows.items ≡ length self.entry.rows.items + 1) }
    {
        let row = self.row(alloc)?;
        let Counts { kinds, mut rows } = self;
        rows.push(row)?;
        Ok(Counts { kinds, rows })
    }

    // The counts of the user types at the next depth.
    fn row(&self, alloc: Global) -> Result<Vec<u64>, Memory>
        ensures { IfOk result (λ row. IsRow self.now.kinds.now (length self.now.rows.items) row.items) }
    {
        let mut row = Vec::new(alloc);
        let kinds = self.kinds;
        for kind in 0..kinds.kinds.len() {
            row.push(self.count_kind(kind))?;
        }
        Ok(row)
    }

    // How many values a user type has at the next depth.
    fn count_kind(&self, kind: usize) -> u64
        ensures { result ≡ saturated (length (series self.now.kinds.now (length self.now.rows.items) (made_type kind))) }
    {
        let kinds = self.kinds;
        match kinds.kinds.get(kind) {
            None => 0,
            Some(found) => self.count_makers(kind, found.makers.as_slice()),
        }
    }

    // How many values makers give at the next depth.
    fn count_makers(&self, _kind: usize, makers: &[Maker]) -> u64
        ensures { result ≡ saturated (length (made_values (below self.now.kinds.now (length self.now.rows.items)) _kind 0 makers.now)) }
    {
        let mut count = 0;
        for maker in makers {
            count = sum(
                count,
                self.count_tuples(maker.fields.as_slice(), self.rows.len()),
            );
        }
        count
    }

    /// How many lists of parts fields have below a depth.
    pub(crate) fn count_tuples(&self, types: &[Ty], depth: usize) -> u64
        requires { depth ≤ length self.now.rows.items }
        ensures { result ≡ saturated (length (tuples (map (below self.now.kinds.now depth) (map view_type types.now)))) }
    {
        let mut count = 1;
        for ty in types {
            count = product(count, self.count_below(ty, depth));
        }
        count
    }

    // How many values a type has below a depth.
    fn count_below(&self, ty: &Ty, depth: usize) -> u64
        requires { depth ≤ length self.now.rows.items }
        ensures { result ≡ saturated (length (below self.now.kinds.now depth (view_type ty.now))) }
    {
        if depth == 0 {
            0
        } else {
            self.count_at(ty, depth - 1)
        }
    }

    /// How many values a type has at a depth.
    #[cycle(count)]
    pub(crate) fn count_at(&self, ty: &Ty, depth: usize) -> u64
        requires { depth < length self.now.rows.items }
        ensures { result ≡ saturated (length (series self.now.kinds.now depth (view_type ty.now))) }
    {
        match ty {
            Ty::Int => 2 * depth as u64 + 1,
            Ty::Bool => 2,
            Ty::List(item) => self.count_list(item, depth),
            Ty::Pair(first, second) => {
                product(self.count_at(first, depth), self.count_at(second, depth))
            }
            Ty::Made(kind) => self.count_made(*kind, depth),
        }
    }

    /// How many lists of items of a type there are at a depth.
    #[cycle(count)]
    pub(crate) fn count_list(&self, item: &Ty, depth: usize) -> u64
        requires { depth < length self.now.rows.items }
        ensures { result ≡ saturated (length (series self.now.kinds.now depth (list_type (view_type item.now)))) }
    {
        let mut count = 1;
        for lower in 0..depth {
            count = sum(1, product(self.count_at(item, lower), count));
        }
        count
    }

    // How many values a user type has at a depth.
    fn count_made(&self, kind: u32, depth: usize) -> u64
        requires { depth < length self.now.rows.items }
        ensures { result ≡ saturated (length (series self.now.kinds.now depth (made_type kind))) }
    {
        count_in(&self.rows[depth], kind)
    }
}

// The count of a user type in a row; there is no value of a type that is not in the table.
fn count_in(row: &[u64], kind: u32) -> u64
    ensures { result ≡ get_or row.now kind 0 }
{
    match row.get(kind as usize) {
        None => 0,
        Some(count) => *count,
    }
}
