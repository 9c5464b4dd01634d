//! Generators of a checked program.

use crate::expr::Expr;
use qk_base::Seq;

/// A part of a frequency.
#[derive(Drop)]
#[cycle(gen_expr)]
pub struct Weighted {
    pub weight: u32,
    pub body: GenExpr,
}

/// A generator. Its environment is that of expressions; the variable of `Bind` is added at the environment's end.
#[derive(Drop)]
#[cycle(gen_expr)]
pub enum GenExpr {
    Int,
    Bool,
    /// The size itself.
    Size,
    /// A number between two.
    Choose(Expr, Expr),
    List(Box<GenExpr>),
    /// A list of that length.
    Vector(Expr, Box<GenExpr>),
    Pair(Box<GenExpr>, Box<GenExpr>),
    /// One of these values.
    Elements(Seq<Expr>),
    OneOf(Seq<GenExpr>),
    Frequency(Seq<Weighted>),
    /// The generator at another size.
    Resize(Expr, Box<GenExpr>),
    /// What is drawn first, and the generator that sees it.
    Bind(Box<GenExpr>, Box<GenExpr>),
    Pure(Expr),
    Make {
        kind: u32,
        maker: u32,
        parts: Seq<GenExpr>,
    },
    Call {
        generator: u32,
        args: Seq<Expr>,
    },
}
