//! What a shared value is made of.
ghost use Rattle.std.specs.Prelude.{◌≡◌};
ghost use Rattle.qk_eval.specs.Forms.{data_in};

use crate::items::Items;
use crate::shared::{Node, Shared};

/// What a shared value is made of, whose parts are lent.
#[derive(Clone, Copy)]
pub enum Form<'a> {
    Int(i64),
    Bool(bool),
    List(Items<'a>),
    Pair(&'a Shared, &'a Shared),
    Made {
        kind: u32,
        maker: u32,
        parts: &'a [Shared],
    },
}

impl Shared {
    /// What the value is made of, in a step.
    pub fn form(&self) -> Form<'_>
        ensures { data_in result ≡ self.now }
    {
        match &self.node {
            Node::Int(n) => Form::Int(*n),
            Node::Bool(b) => Form::Bool(*b),
            Node::Nil | Node::Cons(_) | Node::Row(..) => Form::List(Items::Of(self)),
            Node::Pair(cell) => Form::Pair(&cell.first, &cell.second),
            Node::Made { kind, maker, parts } => Form::Made {
                kind: *kind,
                maker: *maker,
                parts: parts.as_slice(),
            },
        }
    }
}
