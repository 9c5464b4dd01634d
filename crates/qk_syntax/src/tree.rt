//! Trees of a text: numbers, names and lists, each with its place.

use qk_base::{Bytes, Place, Seq};

/// What is read of a text at a place: that of its first byte.
#[cycle(tree)]
#[derive(Drop)]
pub struct Tree {
    pub place: Place,
    pub node: Node,
}

/// A number, a name or a list of trees.
#[cycle(tree)]
#[derive(Drop)]
pub enum Node {
    Number(i64),
    Name(Bytes),
    List(Seq<Tree>),
}
