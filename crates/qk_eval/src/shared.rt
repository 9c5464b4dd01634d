//! Values that share their parts, so that a copy costs a step and an item is put before a list in a step.
ghost use Rattle.std.specs.Prelude.{◌≡◌, ◌++◌, ◌∷◌, ◌+◌, [], IfOk, OnOk, length, min, pos};
ghost use Rattle.qk_value.specs.Data.{Data, int, bool, list, pair as pair_of, made as made_of, end, datas_of};
ghost use Rattle.qk_value.specs.Measures.{weight as weight_of, weights as weights_of, depth as depth_of, depths as depths_of};
ghost use Rattle.qk_eval.specs.Parts.{number_of, truth_of, is_list as is_list_of, parts_of, before, small, fits as fits_of};

use crate::rows::bind_first;
use qk_base::{Cause, Memory};
use qk_core::Pattern;
use std::alloc::Global;
use std::marker::Model;
use std::sync::Arc;

/// A small value: of weight 65,536 and depth 200 at most, both kept with it. A contract sees it as its plain data.
#[cycle(shared)]
pub struct Shared {
    pub(crate) node: Node,
    pub(crate) weight: u64,
    pub(crate) depth: u64,
}

#[derive(Drop)]
#[cycle(shared)]
pub(crate) enum Node {
    Int(i64),
    Bool(bool),
    Nil,
    Cons(Arc<Cell>),
    /// A row's items from that place on, and then the items of its rest.
    Row(Arc<Row>, usize),
    Pair(Arc<Cell>),
    Made {
        kind: u32,
        maker: u32,
        parts: Arc<Vec<Shared>>,
    },
}

#[derive(Drop)]
#[cycle(shared)]
pub(crate) struct Cell {
    pub(crate) first: Shared,
    pub(crate) second: Shared,
}

/// Items of one depth side by side, before a list.
#[derive(Drop)]
#[cycle(shared)]
pub(crate) struct Row {
    pub(crate) items: Vec<Shared>,
    /// The depth of each item.
    pub(crate) level: u64,
    pub(crate) rest: Shared,
}

impl Model for Shared {
    ghost use Rattle.qk_value.specs.Data.{Data};
    ghost use Rattle.qk_value.specs.Code.{data_code};

    ghost Value = { Data };

    ghost coded = { data_code };

    ghost use Rattle.std.specs.Prelude.{◌≡◌, ◌≤◌};
    ghost use Rattle.qk_value.specs.Measures.{weight as weight_of, depth as depth_of};
    ghost use Rattle.qk_eval.specs.Nodes.{data_of, IsProper};
    ghost use Rattle.qk_eval.specs.Sizes.{drop_size};

    ghost view = { λ a. data_of a.node };

    ghost invariant = { λ a. (a.weight ≡ weight_of (data_of a.node)) × (a.depth ≡ depth_of (data_of a.node)) × (a.weight ≤ 65536) × (a.depth ≤ 200) × IsProper a.node };

    ghost size = { drop_size };

    ghost use Rattle.qk_eval.specs.Falls.{falls};

    ghost size_decreases = { λ a h. falls a.node a.weight h.0 h.2 h.4 };
}

// A long list is let go by a loop, since a derived drop would call itself for each item.
impl Drop for Shared {
    #[cycle(shared)]
    fn drop(mut self) {
        loop {
            let Shared {
                node,
                weight: _,
                depth: _,
            } = self;
            match node {
                Node::Cons(cell) => match Arc::into_inner(cell) {
                    Some(Cell { first: _, second }) => self = second,
                    None => return,
                },
                Node::Row(row, _) => match Arc::into_inner(row) {
                    Some(
                        Row {
                            items: _,
                            level: _,
                            rest,
                        },
                    ) => self = rest,
                    None => return,
                },
                Node::Made {
                    kind: _,
                    maker: _,
                    parts: _,
                } => return,
                _ => return,
            }
        }
    }
}

impl Shared {
    /// A number.
    pub fn int(n: i64) -> Shared
        ensures { result ≡ int n }
    {
        Shared {
            node: Node::Int(n),
            weight: 1,
            depth: 1,
        }
    }

    /// A truth value.
    pub fn truth(b: bool) -> Shared
        ensures { result ≡ bool b }
    {
        Shared {
            node: Node::Bool(b),
            weight: 1,
            depth: 1,
        }
    }

    /// The empty list.
    pub fn nil() -> Shared
        ensures { result ≡ list end }
    {
        Shared {
            node: Node::Nil,
            weight: 1,
            depth: 1,
        }
    }

    /// The same value, in a step.
    pub fn share(&self) -> Result<Shared, Memory>
        ensures { IfOk result (λ v. v ≡ self.now) }
    {
        let weight = self.weight;
        let depth = self.depth;
        let node = match &self.node {
            Node::Int(n) => Node::Int(*n),
            Node::Bool(b) => Node::Bool(*b),
            Node::Nil => Node::Nil,
            Node::Cons(cell) => Node::Cons(cell.clone()?),
            Node::Row(row, at) => Node::Row(row.clone()?, *at),
            Node::Pair(cell) => Node::Pair(cell.clone()?),
            Node::Made { kind, maker, parts } => Node::Made {
                kind: *kind,
                maker: *maker,
                parts: parts.clone()?,
            },
        };
        Ok(Shared {
            node,
            weight,
            depth,
        })
    }

    /// How heavy it is, which is kept with it.
    pub fn weight(&self) -> u64
        ensures { result ≡ weight_of self.now }
    {
        self.weight
    }

    /// The number, or 0.
    pub fn number(&self) -> i64
        ensures { result ≡ number_of self.now }
    {
        match &self.node {
            Node::Int(n) => *n,
            _ => 0,
        }
    }

    /// Whether it is the truth value `true`.
    pub fn is_true(&self) -> bool
        ensures { result ≡ truth_of self.now }
    {
        match &self.node {
            Node::Bool(b) => *b,
            _ => false,
        }
    }

    /// Whether it is a list.
    pub fn is_list(&self) -> bool
        ensures { result ≡ is_list_of self.now }
    {
        matches!(&self.node, Node::Nil | Node::Cons(_) | Node::Row(..))
    }

    /// A list with one more item before it, in a step, unless it is too heavy or else too deep.
    pub fn cons(alloc: Global, first: Shared, rest: Shared) -> Result<Result<Shared, Cause>, Memory>
        ensures { IfOk result (λ r. r ≡ small (before first rest)) }
    {
        let second = if rest.is_list() { rest } else { Shared::nil() };
        let weight = first.weight + second.weight;
        let depth = (first.depth + 1).max(second.depth);
        if weight > 65_536 {
            return Ok(Err(Cause::Weight));
        }
        if depth > 200 {
            return Ok(Err(Cause::Depth));
        }
        let cell = Arc::new(alloc, Cell { first, second })?;
        Ok(Ok(Shared {
            node: Node::Cons(cell),
            weight,
            depth,
        }))
    }

    /// Two values, unless they are too heavy or else too deep.
    pub fn pair(
        alloc: Global,
        first: Shared,
        second: Shared,
    ) -> Result<Result<Shared, Cause>, Memory>
        ensures { IfOk result (λ r. r ≡ small (pair_of first second)) }
    {
        let weight = first.weight + second.weight + 1;
        let depth = first.depth.max(second.depth) + 1;
        if weight > 65_536 {
            return Ok(Err(Cause::Weight));
        }
        if depth > 200 {
            return Ok(Err(Cause::Depth));
        }
        let cell = Arc::new(alloc, Cell { first, second })?;
        Ok(Ok(Shared {
            node: Node::Pair(cell),
            weight,
            depth,
        }))
    }

    /// A value of a user type, unless it is too heavy or else too deep.
    pub fn made(
        alloc: Global,
        kind: u32,
        maker: u32,
        parts: Vec<Shared>,
    ) -> Result<Result<Shared, Cause>, Memory>
        ensures { IfOk result (λ r. r ≡ small (made_of kind maker (datas_of parts.items))) }
    {
        let weight = weight_all(&parts);
        let depth = depth_all(&parts);
        if weight > 65_536 {
            return Ok(Err(Cause::Weight));
        }
        if depth > 200 {
            return Ok(Err(Cause::Depth));
        }
        let parts = Arc::new(alloc, parts)?;
        Ok(Ok(Shared {
            node: Node::Made { kind, maker, parts },
            weight,
            depth,
        }))
    }

    #[tactic(auto, using(crate::proofs::SharedLaws::listed_again, crate::proofs::SharedLaws::list_again))]
    /// The parts that a pattern adds to an environment, after what is there, and how many they are.
    pub fn bind(&self, env: &mut Vec<Shared>) -> Result<usize, Memory>
        ensures count { IfOk result (λ n. n ≡ length (parts_of self.now)) }
        ensures parts { OnOk result (env.new.items ≡ env.old.items ++ parts_of self.now) }
    {
        match &self.node {
            Node::Cons(cell) => bind_two(&cell.first, &cell.second, env),
            Node::Row(row, at) => bind_first(row, *at, self.weight, env),
            Node::Pair(cell) => bind_two(&cell.first, &cell.second, env),
            Node::Made { parts, .. } => bind_all(parts, env),
            _ => Ok(0),
        }
    }

    /// Whether a pattern takes it.
    pub fn fits(&self, pattern: Pattern) -> bool
        ensures { result ≡ fits_of pattern self.now }
    {
        match &self.node {
            Node::Nil => matches!(pattern, Pattern::Nil),
            Node::Cons(_) => matches!(pattern, Pattern::Cons),
            Node::Row(..) => matches!(pattern, Pattern::Cons),
            Node::Pair(_) => matches!(pattern, Pattern::Pair),
            Node::Made { kind, maker, .. } => match pattern {
                Pattern::Maker { kind: k, maker: m } => *kind == k && *maker == m,
                _ => false,
            },
            _ => false,
        }
    }
}

fn bind_two(first: &Shared, second: &Shared, env: &mut Vec<Shared>) -> Result<usize, Memory>
    ensures count { IfOk result (λ n. n ≡ 2) }
    ensures parts { OnOk result (env.new.items ≡ env.old.items ++ first.now ∷ second.now ∷ []) }
{
    env.push(first.share()?)?;
    env.push(second.share()?)?;
    Ok(2)
}

fn bind_all(parts: &[Shared], env: &mut Vec<Shared>) -> Result<usize, Memory>
    ensures count { IfOk result (λ n. n ≡ length parts.now) }
    ensures parts { OnOk result (env.new.items ≡ env.old.items ++ parts.now) }
{
    for part in parts {
        env.push(part.share()?)?;
    }
    Ok(parts.len())
}

/// The weight of a value with these parts, or 65,537 where it is greater.
pub(crate) fn weight_all(parts: &[Shared]) -> u64
    ensures { result ≡ min (weights_of (datas_of parts.now) + 1) 65537 }
{
    let mut weight = 1;
    for part in parts {
        weight = (weight + part.weight).min(65_537);
    }
    weight
}

/// The depth of a value with these parts.
pub(crate) fn depth_all(parts: &[Shared]) -> u64
    ensures { result ≡ depths_of (datas_of parts.now) + 1 }
{
    let mut depth = 1;
    for part in parts {
        depth = (part.depth + 1).max(depth);
    }
    depth
}
