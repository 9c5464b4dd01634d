//! The steps of a table's walkers. Each makes exactly one atomic step, takes no memory and waits for nobody.
ghost use Rattle.std.specs.Prelude.{◌≡◌, ℕ, ◌+◌, ◌*◌, ◌<◌, ◌≤◌, ◌^◌, length};
ghost use Rattle.qk_totals.specs.Totals.{times, drawn};
ghost use Rattle.qk_path.specs.Points.{width, FailsAt};
ghost use Rattle.qk_path.specs.Views.{with_draw, with_done};
ghost use Rattle.qk_path.specs.Walkers.{view_of, IsWalkerOf, Shows, Tells};

use super::{PathTable, Taken};
use crate::view::{Claims, Looks, Offers};
use crate::walker::{Walker, gain};
use qk_base::Family;

impl<'f, F: Family> PathTable<'f, F> {
    /// The family that `make` was given.
    pub fn family(&self) -> &F
        ensures { result.now ≡ self.now.family.now }
    {
        self.family
    }

    /// The root that `make` was given.
    pub fn root(&self) -> &F::Point
        ensures { result.now ≡ self.now.root.now }
    {
        self.root
    }

    /// The greatest number of steps.
    pub fn limit(&self) -> u32
        ensures { result ≡ self.now.limit }
    {
        self.limit
    }

    /// The next number of the walker's level, which no other claim there gives. It is the number of a candidate where it is below
    /// the count, and else the walker is done there.
    pub fn claim(&self, walker: &mut Walker<F>, count: u64) -> u64
        requires walker { IsWalkerOf self.now.table.shared.table_id self.now.family.now self.now.root.now self.now.limit walker.old }
        requires level { length (view_of walker.old).path < self.now.limit }
        requires count { (count ≡ width (F.children self.now.family.now) self.now.root.now (view_of walker.old).path) × (count ≤ 2 ^ 40) }
        requires ready { times (length (view_of walker.old).path) (view_of walker.old).done ≡ 0 }
        ensures walker { IsWalkerOf self.now.table.shared.table_id self.now.family.now self.now.root.now self.now.limit walker.new }
        ensures draw { result < count → view_of walker.new ≡ with_draw (view_of walker.old) result }
        ensures done { count ≤ result → view_of walker.new ≡ with_done (view_of walker.old) result }
        ensures greater { (y : ℕ) → result ≤ y → drawn (length (view_of walker.old).path) y (view_of walker.old).draws ≡ 0 }
    {
        let level = walker.path.len();
        let shared = &self.table.shared;
        let number = shared.fetch_add::<Claims<F>>(&mut walker.seat, 2 * level + 2, 1);
        if count <= number {
            walker.done = true;
        }
        number
    }

    /// The step that was taken at the walker's level, if there is one yet; the walker then knows it.
    pub fn look(&self, walker: &mut Walker<F>) -> Option<u64>
        requires walker { IsWalkerOf self.now.table.shared.table_id self.now.family.now self.now.root.now self.now.limit walker.old }
        requires level { length (view_of walker.old).path < self.now.limit }
        ensures walker { IsWalkerOf self.now.table.shared.table_id self.now.family.now self.now.root.now self.now.limit walker.new }
        ensures shows { Shows (F.children self.now.family.now) (F.failing self.now.family.now) self.now.root.now (view_of walker.old) (view_of walker.new) result }
    {
        let level = walker.path.len();
        let shared = &self.table.shared;
        let found = shared.load::<Looks<F>>(&mut walker.seat, 2 * level + 1);
        if found == 0 {
            None
        } else {
            gain(&mut walker.path, found - 1);
            walker.done = false;
            Some(found - 1)
        }
    }

    /// Takes the step to candidate `k`, unless another was taken before. In both cases the walker then knows the step.
    pub fn offer(&self, walker: &mut Walker<F>, k: u64) -> Taken
        requires walker { IsWalkerOf self.now.table.shared.table_id self.now.family.now self.now.root.now self.now.limit walker.old }
        requires level { length (view_of walker.old).path < self.now.limit }
        requires drawn { 0 < drawn (length (view_of walker.old).path) k (view_of walker.old).draws }
        requires fails { FailsAt (F.children self.now.family.now) (F.failing self.now.family.now) self.now.root.now (view_of walker.old).path k }
        requires number { k < 2 ^ 40 }
        ensures walker { IsWalkerOf self.now.table.shared.table_id self.now.family.now self.now.root.now self.now.limit walker.new }
        ensures tells { Tells (F.children self.now.family.now) (F.failing self.now.family.now) self.now.root.now k (view_of walker.old) (view_of walker.new) result }
    {
        let level = walker.path.len();
        let shared = &self.table.shared;
        let found = shared.compare_exchange::<Offers<F>>(&mut walker.seat, 2 * level + 1, 0, k + 1);
        walker.done = false;
        if found == 0 {
            gain(&mut walker.path, k);
            Taken::Mine
        } else {
            gain(&mut walker.path, found - 1);
            Taken::Other(found - 1)
        }
    }
}
