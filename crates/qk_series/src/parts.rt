//! Which maker a value of a user type is by.
ghost use Rattle.std.specs.Prelude.{◌≡◌, ◌≤◌, ◌<◌, pos, [], length, map, get_or, IfOk};
ghost use Rattle.qk_value.specs.Data.{int, made, datas_of};
ghost use Rattle.qk_value.specs.Types.{made_type};
ghost use Rattle.qk_value.specs.View.{view_type};
ghost use Rattle.qk_series.specs.Members.{member, saturated};
ghost use Rattle.qk_series.specs.Series.{below, made_values, series, tuples};

use crate::counts::Counts;
use qk_base::Memory;
use qk_value::{Maker, Ty};

/// A maker with its fields, and the number of the list of its parts.
#[derive(Clone, Copy)]
pub(crate) struct Chosen<'k> {
    pub(crate) maker: u32,
    pub(crate) fields: &'k [Ty],
    pub(crate) k: u64,
}

impl<'c> Counts<'c> {
    /// The maker and the parts of member `k` of the values of a user type.
    pub(crate) fn choose(&self, kind: u32, depth: usize, k: u64) -> Result<Chosen<'c>, Memory>
        requires depth { depth < length self.now.rows.items }
        requires number { k < saturated (length (series self.now.kinds.now depth (made_type kind))) }
        ensures parts { IfOk result (λ c. c.k < saturated (length (tuples (map (below self.now.kinds.now depth) (map view_type c.fields.now))))) }
        ensures member { IfOk result (λ c. member self.now.kinds.now depth (made_type kind) k ≡ made kind c.maker (datas_of (get_or (tuples (map (below self.now.kinds.now depth) (map view_type c.fields.now))) c.k []))) }
    {
        let kinds = self.kinds;
        match kinds.kinds.get(kind as usize) {
            None => unreachable!(),
            Some(found) => self.choose_among(kind, found.makers.as_slice(), depth, k),
        }
    }

    // The maker and the parts of value `k` by these makers.
    fn choose_among(
        &self,
        _kind: u32,
        makers: &'c [Maker],
        depth: usize,
        k: u64,
    ) -> Result<Chosen<'c>, Memory>
        requires depth { depth < length self.now.rows.items }
        requires number { k < saturated (length (made_values (below self.now.kinds.now depth) _kind 0 makers.now)) }
        ensures parts { IfOk result (λ c. c.k < saturated (length (tuples (map (below self.now.kinds.now depth) (map view_type c.fields.now))))) }
        ensures member { IfOk result (λ c. get_or (made_values (below self.now.kinds.now depth) _kind 0 makers.now) k (int (pos 0)) ≡ made _kind c.maker (datas_of (get_or (tuples (map (below self.now.kinds.now depth) (map view_type c.fields.now))) c.k []))) }
    {
        let mut rest = k;
        for (index, maker) in makers.iter().enumerate() {
            let fields = maker.fields.as_slice();
            let count = self.count_tuples(fields, depth);
            if rest < count {
                // So many makers have no room in memory.
                let Ok(maker) = u32::try_from(index) else {
                    return Err(Memory);
                };
                return Ok(Chosen {
                    maker,
                    fields,
                    k: rest,
                });
            }
            rest -= count;
        }
        unreachable!()
    }
}
