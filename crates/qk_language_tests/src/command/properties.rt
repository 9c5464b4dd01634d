//! Properties of the counters.

use super::counter::{binary, text};
use qk_base::{Bytes, Memory, Seq};
use qk_core::{Binder, Check, Draw, Expr, GenExpr, Mark, Op2, Property, ShrinkBy};
use qk_value::Ty;
use std::alloc::Global;

fn binder(alloc: Global, draw: Draw) -> Binder {
    Binder {
        name: Bytes::make(alloc),
        ty: Ty::Int,
        draw,
        shrink: ShrinkBy::Nothing,
    }
}

// Commands of a model, and a number.
fn binders(alloc: Global, model: u32) -> Result<Seq<Binder>, Memory> {
    let mut all = Seq::make(alloc);
    all.add(binder(alloc, Draw::Commands(model)))?;
    all.add(binder(alloc, Draw::Plain(GenExpr::Int)))?;
    Ok(all)
}

fn property(alloc: Global, binders: Seq<Binder>, givens: Seq<Expr>, check: Check) -> Property {
    Property {
        name: Bytes::make(alloc),
        binders,
        givens,
        check,
        marks: Seq::make(alloc),
    }
}

/// What a property says of its commands and its number.
#[derive(Clone, Copy)]
pub(crate) enum Says {
    /// The commands of that model run.
    Runs(u32),
    /// The commands run where the number is below 0.
    Given,
    /// The number is below 0.
    Checks,
}

/// `(forall ((cs (commands M)) (x int)) ..)`.
pub(crate) fn saying(alloc: Global, says: Says) -> Result<Property, Memory> {
    match says {
        Says::Runs(model) => {
            let binders = binders(alloc, model)?;
            Ok(property(alloc, binders, Seq::make(alloc), Check::Runs(0)))
        }
        Says::Given => {
            let binders = binders(alloc, 0)?;
            let mut givens = Seq::make(alloc);
            givens.add(below_zero(alloc)?)?;
            Ok(property(alloc, binders, givens, Check::Runs(0)))
        }
        Says::Checks => {
            let binders = binders(alloc, 0)?;
            let check = Check::Expression(below_zero(alloc)?);
            Ok(property(alloc, binders, Seq::make(alloc), check))
        }
    }
}

fn below_zero(alloc: Global) -> Result<Expr, Memory> {
    binary(alloc, Op2::Less, Expr::Var(1), Expr::Int(0))
}

fn marks(alloc: Global, label: &[u8]) -> Result<Seq<Mark>, Memory> {
    let mut all = Seq::make(alloc);
    all.add(Mark::Classify(Expr::Bool(false), text(alloc, b"never")?))?;
    all.add(Mark::Collect(Expr::Var(0)))?;
    all.add(Mark::Cover(10, Expr::Bool(true), text(alloc, b"always")?))?;
    all.add(Mark::Label(text(alloc, label)?))?;
    all.add(Mark::Classify(Expr::Bool(true), text(alloc, b"ever")?))?;
    all.add(Mark::Tabulate(text(alloc, b"values")?, Expr::Var(0)))?;
    Ok(all)
}

/// A property of a list of commands that holds, with a label among its marks.
pub(crate) fn labelled(alloc: Global, label: &[u8]) -> Result<Property, Memory> {
    let mut binders = Seq::make(alloc);
    binders.add(binder(alloc, Draw::Commands(0)))?;
    let marks = marks(alloc, label)?;
    Ok(Property {
        name: Bytes::make(alloc),
        binders,
        givens: Seq::make(alloc),
        check: Check::Expression(Expr::Bool(true)),
        marks,
    })
}
