//! Expressions of a checked program.

use qk_base::Seq;
use qk_value::Ty;

/// What is done to one value.
#[derive(Clone, Copy, Debug, PartialEq, Eq)]
pub enum Op1 {
    Neg,
    Not,
    /// The length of a list.
    Length,
}

/// What is done to two values.
#[derive(Clone, Copy, Debug, PartialEq, Eq)]
pub enum Op2 {
    Add,
    Sub,
    Mul,
    /// Division towards zero.
    Div,
    /// The remainder, with the sign of the first number.
    Mod,
    Equal,
    Less,
    AtMost,
    And,
    Or,
    /// A value before a list.
    Cons,
    Append,
    Pair,
}

/// What a case of a match takes.
#[derive(Clone, Copy, Debug, PartialEq, Eq)]
pub enum Pattern {
    /// The empty list.
    Nil,
    /// A list with a first item; it adds the item and the rest to the environment.
    Cons,
    /// A pair; it adds both parts.
    Pair,
    /// A value by a maker, with the numbers of its type and of the maker there; it adds the maker's parts.
    Maker { kind: u32, maker: u32 },
}

/// A case of a match.
#[derive(Drop)]
#[cycle(expr)]
pub struct Case {
    pub pattern: Pattern,
    pub body: Expr,
}

/// An expression. A variable is its index in the environment, whose outermost binding is 0; the variables of `Let` and of a
/// pattern are added at the environment's end, in order. Cases stand in the order of the file.
#[derive(Drop)]
#[cycle(expr)]
pub enum Expr {
    Int(i64),
    Bool(bool),
    Var(u32),
    /// The empty list, of items of that type.
    Nil(Ty),
    If(Box<Expr>, Box<Expr>, Box<Expr>),
    /// What is bound, and the body that sees it.
    Let(Box<Expr>, Box<Expr>),
    Unary(Op1, Box<Expr>),
    Binary(Op2, Box<Expr>, Box<Expr>),
    Match(Box<Expr>, Seq<Case>),
    Make {
        kind: u32,
        maker: u32,
        parts: Seq<Expr>,
    },
    Call {
        function: u32,
        args: Seq<Expr>,
    },
}
