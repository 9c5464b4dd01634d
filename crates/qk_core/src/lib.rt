//! Checked programs: expressions, generators, properties, and the numbered tables of a program.
#![tactic(auto)]

mod checked;
mod definitions;
mod expr;
mod gen_expr;
mod property;

pub use checked::Core;
pub use definitions::{Function, ModelDef, UserGen};
pub use expr::{Case, Expr, Op1, Op2, Pattern};
pub use gen_expr::{GenExpr, Weighted};
pub use property::{Binder, Check, Draw, Mark, Property, ShrinkBy};
