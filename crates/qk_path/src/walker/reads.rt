//! What a walker tells.
ghost use Rattle.std.specs.Prelude.{◌≡◌, ◌<◌, length, IsTrue, ◌↔◌};
ghost use Rattle.qk_totals.specs.Totals.{times};
ghost use Rattle.qk_path.specs.Walkers.{view_of};

use super::Walker;
use qk_base::Family;

impl<F: Family> Walker<F> {
    /// The number of steps that this walker knows.
    pub fn level(&self) -> u32
        ensures { result ≡ length (view_of self.now).path }
    {
        self.path.len() as u32
    }

    /// Whether this walker has drawn a number at its level that is no candidate's.
    pub fn done(&self) -> bool
        ensures { IsTrue result ↔ (0 < times (length (view_of self.now).path) (view_of self.now).done) }
    {
        self.done
    }

    /// The steps that this walker knows, each the place of a failing candidate.
    pub fn path(&self) -> &[u64]
        ensures { result.now ≡ (view_of self.now).path }
    {
        self.path.as_slice()
    }
}
