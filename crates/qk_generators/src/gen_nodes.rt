//! Generators of an expression and a generator, and of two generators.
ghost use Rattle.std.specs.Prelude.{◌≡◌, Ok, Err, IfOk, IfErr};
ghost use Rattle.qk_core.specs.ExprView.{view_expr};
ghost use Rattle.qk_core.specs.GenData.{GenData};
ghost use Rattle.qk_core.specs.GenView.{view_gen};
ghost use Rattle.qk_syntax.specs.Refusals.{IfRefusal};
ghost use Rattle.qk_generators.specs.Drawing.{of_sized as of_sized_of, vector as vector_form, resize as resize_form, drawn};
ghost use Rattle.qk_generators.specs.DrawingView.{sized_in, drawn_in};
ghost use Rattle.qk_typing.specs.TablesView.{typed_in};
ghost use Rattle.qk_value.specs.Types.{list_type};

use crate::drawn_types::Drawn;
use crate::gen_heads::Sized;
use qk_base::{Fault, Memory, Place};
use qk_core::{Expr, GenExpr};
use qk_headers::{Typed, listed};
use qk_typing::is_number;
use std::alloc::Global;

/// The generator of an expression and a generator.
pub fn of_sized(
    alloc: Global,
    place: Place,
    form: Sized,
    size: Typed,
    body: Drawn,
) -> Result<Drawn, Fault>
    ensures ok { IfOk result (λ g. of_sized_of place (sized_in form) (typed_in size) (drawn_in body) ≡ Ok (drawn_in g)) }
    ensures refused { IfErr result (λ e. IfRefusal e (λ r. of_sized_of place (sized_in form) (typed_in size) (drawn_in body) ≡ Err r)) }
{
    match form {
        Sized::Vector => vector(alloc, place, size, body),
        Sized::Resize => resized(alloc, place, size, body),
    }
}

fn vector(alloc: Global, place: Place, length: Typed, item: Drawn) -> Result<Drawn, Fault>
    ensures ok { IfOk result (λ g. of_sized_of place vector_form (typed_in length) (drawn_in item) ≡ Ok (drawn_in g)) }
    ensures refused { IfErr result (λ e. IfRefusal e (λ r. of_sized_of place vector_form (typed_in length) (drawn_in item) ≡ Err r)) }
{
    is_number(&length)?;
    Ok(vector_gen(alloc, place, length.expr, item)?)
}

fn vector_gen(alloc: Global, place: Place, length: Expr, item: Drawn) -> Result<Drawn, Memory>
    ensures { IfOk result (λ g. drawn_in g ≡ drawn place (list_type (drawn_in item).ty) (GenData.vector (view_expr length) (drawn_in item).gen)) }
{
    let ty = listed(alloc, item.ty)?;
    let inner = Box::new(alloc, item.gen_expr)?;
    Ok(Drawn {
        place,
        ty,
        gen_expr: GenExpr::Vector(length, inner),
    })
}

fn resized(alloc: Global, place: Place, size: Typed, body: Drawn) -> Result<Drawn, Fault>
    ensures ok { IfOk result (λ g. of_sized_of place resize_form (typed_in size) (drawn_in body) ≡ Ok (drawn_in g)) }
    ensures refused { IfErr result (λ e. IfRefusal e (λ r. of_sized_of place resize_form (typed_in size) (drawn_in body) ≡ Err r)) }
{
    is_number(&size)?;
    Ok(resized_gen(alloc, place, size.expr, body)?)
}

fn resized_gen(alloc: Global, place: Place, size: Expr, body: Drawn) -> Result<Drawn, Memory>
    ensures { IfOk result (λ g. drawn_in g ≡ drawn place (drawn_in body).ty (GenData.resize (view_expr size) (drawn_in body).gen)) }
{
    let inner = Box::new(alloc, body.gen_expr)?;
    Ok(Drawn {
        place,
        ty: body.ty,
        gen_expr: GenExpr::Resize(size, inner),
    })
}

/// What is drawn first, and the generator that sees it.
pub fn gen_bound(alloc: Global, place: Place, first: GenExpr, body: Drawn) -> Result<Drawn, Memory>
    ensures { IfOk result (λ g. drawn_in g ≡ drawn place (drawn_in body).ty (GenData.bind (view_gen first) (drawn_in body).gen)) }
{
    let first = Box::new(alloc, first)?;
    let inner = Box::new(alloc, body.gen_expr)?;
    Ok(Drawn {
        place,
        ty: body.ty,
        gen_expr: GenExpr::Bind(first, inner),
    })
}
