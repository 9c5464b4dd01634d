//! What a walker knows, and the rule of the table's words.
ghost use Rattle.std.specs.Prelude.{ℕ};

use atomic_table::{Join, Play, Split, TableRule};
use qk_base::Family;
use std::collections::LinkedList;
use std::marker::PhantomData;

/// What a walker knows, each list in the order of the walker's steps. No value of it is made.
pub struct PathView<F, P> {
    /// The family and the root, and none once the walker is spent.
    pub start: Option<(F, P)>,
    /// The steps that the walker knows, each the place of a candidate.
    pub path: LinkedList<u64>,
    /// The level and the number of each draw.
    pub draws: LinkedList<(u32, u64)>,
    /// The levels at which the walker is done.
    pub done: LinkedList<u32>,
    /// How many looks found no step.
    pub missed: u64,
    /// The number of walkers that this one stands for.
    pub parts: u32,
    /// The paths of the walkers that this one took in.
    pub absorbed: LinkedList<LinkedList<u64>>,
}

/// What the table is told once.
#[derive(Drop)]
pub struct Start<'f, F: Family> {
    pub family: &'f F,
    pub root: &'f F::Point,
    pub walkers: u32,
    pub limit: u32,
}

pub struct PathRule<F> {
    marker: PhantomData<F>,
}

impl<'f, F: Family> TableRule<(), PathView<F, F::Point>, Start<'f, F>> for PathRule<F> {
    ghost use Rattle.std.specs.Prelude.{Some};
    ghost use Rattle.qk_path.specs.Rule.{Kept};
    ghost use Rattle.qk_path.specs.Views.{fresh};

    ghost holds = { λ k s. Kept F.children F.failing k.family.now k.root.now k.walkers k.limit s.words s.views };

    ghost first = { λ k. fresh (Some (k.family.now, k.root.now)) k.walkers };
}

pub struct Claims<F> {
    marker: PhantomData<F>,
}

impl<F: Family> Play<(), PathView<F, F::Point>> for Claims<F> {
    ghost use Rattle.qk_path.specs.Steps.{Claimed};

    ghost then = { Claimed F.children };
}

pub struct Looks<F> {
    marker: PhantomData<F>,
}

impl<F: Family> Play<(), PathView<F, F::Point>> for Looks<F> {
    ghost use Rattle.qk_path.specs.Steps.{Looked};

    ghost then = { Looked F.children F.failing };
}

pub struct Offers<F> {
    marker: PhantomData<F>,
}

impl<F: Family> Play<(), PathView<F, F::Point>> for Offers<F> {
    ghost use Rattle.qk_path.specs.Steps.{Offered};

    ghost then = { Offered F.children F.failing };
}

pub struct OneWalker<F> {
    marker: PhantomData<F>,
}

impl<F: Family> Split<PathView<F, F::Point>> for OneWalker<F> {
    ghost use Rattle.qk_path.specs.Steps.{one_less, handed};

    ghost left = { one_less };

    ghost right = { handed };
}

pub struct BothWalkers<F> {
    marker: PhantomData<F>,
}

impl<F: Family> Join<PathView<F, F::Point>> for BothWalkers<F> {
    ghost use Rattle.qk_path.specs.Steps.{joined, spent_view};

    ghost both = { joined };

    ghost spent = { spent_view };
}
