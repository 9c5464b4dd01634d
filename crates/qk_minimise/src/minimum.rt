//! Where a descent ends.

use qk_base::Seq;
use std::marker::Model;

/// A failing point with the way to it. A contract sees it as its plain data, without the spare room of the path.
#[derive(Drop)]
pub struct Minimum<P> {
    pub point: P,
    /// The place of the failing candidate that each step went to, counted from 0.
    pub path: Seq<u64>,
    /// How many candidates were tried, where that does not depend on the workers.
    pub tried: Option<u64>,
    /// Whether the path has as many steps as are allowed.
    pub limit_met: bool,
}

impl<P> Model for Minimum<P> {
    ghost use Rattle.qk_minimise.specs.Minimal.{Minimal, minimal_code};

    ghost Value = { Minimal P };

    ghost coded = { minimal_code P.code };

    ghost view = { λ m. record { point = m.point; path = m.path.items; tried = m.tried; limit_met = m.limit_met } };
}
