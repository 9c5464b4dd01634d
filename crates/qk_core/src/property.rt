//! Properties of a checked program.

use crate::expr::Expr;
use crate::gen_expr::GenExpr;
use qk_base::{Bytes, Seq};
use qk_value::Ty;
use std::marker::Model;

/// How a binder's value is drawn.
#[derive(Drop)]
pub enum Draw {
    Plain(GenExpr),
    /// A list of commands of the model of that number.
    Commands(u32),
}

/// How a binder's value is shrunk.
#[derive(Clone, Copy, Debug, PartialEq, Eq)]
pub enum ShrinkBy {
    /// By its type.
    Builtin,
    /// By the function of that number, which lists its candidates.
    Function(u32),
    /// Not at all.
    Nothing,
}

/// A variable of a property. Its generator sees the binders before it.
#[derive(Drop)]
pub struct Binder {
    pub name: Bytes,
    pub ty: Ty,
    pub draw: Draw,
    pub shrink: ShrinkBy,
}

impl Model for Binder {
    ghost use Rattle.qk_core.specs.Properties.{BinderData, binder_code};

    ghost Value = { BinderData };

    ghost coded = { binder_code };

    ghost use Rattle.qk_value.specs.View.{view_type};
    ghost use Rattle.qk_core.specs.PropertyView.{view_draw};

    ghost view = { λ b. record { name = b.name.items; ty = view_type b.ty; draw = view_draw b.draw; shrink = b.shrink } };
}

/// What a property says of its binders' values.
#[derive(Drop)]
pub enum Check {
    Expression(Expr),
    /// That the commands of the binder of that index run as their model says.
    Runs(u32),
}

/// What a property reports of an attempt that passes.
#[derive(Drop)]
pub enum Mark {
    Label(Bytes),
    /// A label, the text of a value.
    Collect(Expr),
    /// A class, with its name, of the attempts where the expression is true.
    Classify(Expr, Bytes),
    /// An entry of the named table, the text of a value.
    Tabulate(Bytes, Expr),
    /// A wanted percentage of the attempts where the expression is true, and its name.
    Cover(u32, Expr, Bytes),
}

/// A property: its binders, what is given, what is checked, and its marks, each in the order of the file.
#[derive(Drop)]
pub struct Property {
    pub name: Bytes,
    pub binders: Seq<Binder>,
    pub givens: Seq<Expr>,
    pub check: Check,
    pub marks: Seq<Mark>,
}

impl Model for Property {
    ghost use Rattle.std.specs.Prelude.{map};
    ghost use Rattle.qk_core.specs.Properties.{PropertyData, property_code};

    ghost Value = { PropertyData };

    ghost coded = { property_code };

    ghost use Rattle.qk_core.specs.ExprView.{view_expr};
    ghost use Rattle.qk_core.specs.PropertyView.{view_check, view_mark};

    ghost view = { λ p. record { name = p.name.items; binders = p.binders.items; givens = map view_expr p.givens.items; check = view_check p.check; marks = map view_mark p.marks.items } };
}
