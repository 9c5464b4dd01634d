//! A walker with the path that it knows.
ghost use Rattle.std.specs.Prelude.{◌≡◌, ◌<◌, ◌≤◌, ◌+◌, ◌++◌, [], ◌∷◌, length};
ghost use Rattle.qk_path.specs.Views.{Tidy, Marked, Ended, IsEmptyView};

use crate::view::PathView;
use atomic_table::Seat;
use qk_base::{Family, Seq};

mod reads;

/// The token with which one worker takes part in a path table.
#[derive(Drop)]
pub struct Walker<F: Family> {
    pub(crate) seat: Seat<(), PathView<F, F::Point>>,
    pub(crate) path: Seq<u64>,
    pub(crate) done: bool,
    ghost no_slot: { seat.me.1 ≡ [] },
    ghost known: { path.items ≡ seat.me.0.path },
    ghost short: { length seat.me.0.path ≤ 1024 },
    ghost tidy: { Tidy seat.me.0 },
    ghost marked: { Marked done seat.me.0 },
    ghost ended: { Ended F.children seat.me.0 },
}

pub(crate) fn walking<F: Family>(seat: Seat<(), PathView<F, F::Point>>, path: Seq<u64>) -> Walker<F>
    requires { (seat.me.1 ≡ []) × IsEmptyView seat.me.0 × (path.items ≡ []) }
    ensures { (result.seat ≡ seat) × (result.path ≡ path) }
{
    Walker {
        seat,
        path,
        done: false,
    }
}

/// One more step, for which there is room.
pub(crate) fn gain(path: &mut Seq<u64>, step: u64)
    requires { 0 < path.old.spare }
    ensures items { path.new.items ≡ path.old.items ++ step ∷ [] }
    ensures spare { path.new.spare + 1 ≡ path.old.spare }
{
    if path.push(step).is_err() {
        unreachable!()
    }
}
