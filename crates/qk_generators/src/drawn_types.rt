//! The types that drawn values must have.
ghost use Rattle.std.specs.Prelude.{◌≡◌, Ok, Err, OnOk, IfErr, map};
ghost use Rattle.qk_syntax.specs.Refusals.{IfRefusal};
ghost use Rattle.qk_generators.specs.Drawing.{draws_type as draws_type_of, draw_types as draw_types_of, draws_agree as draws_agree_of};
ghost use Rattle.qk_generators.specs.DrawingView.{drawn_in};
ghost use Rattle.qk_value.specs.View.{view_type};

use qk_base::{Fault, Place};
use qk_core::GenExpr;
use qk_names::{WRONG_TYPE, refusal};
use qk_typing::is_same;
use qk_value::Ty;

/// A generator with the type of what it draws and its place.
#[derive(Drop)]
pub struct Drawn {
    pub place: Place,
    pub ty: Ty,
    pub gen_expr: GenExpr,
}

/// A generator of values of another type is at fault.
pub fn draws_type(ty: &Ty, part: &Drawn) -> Result<(), Fault>
    ensures ok { OnOk result (draws_type_of (view_type ty.now) (drawn_in part.now) ≡ Ok tt) }
    ensures refused { IfErr result (λ e. IfRefusal e (λ r. draws_type_of (view_type ty.now) (drawn_in part.now) ≡ Err r)) }
{
    if !is_same(ty, &part.ty) {
        return Err(refusal(WRONG_TYPE, part.place));
    }
    Ok(())
}

/// The generators draw values of these types, as far as there are both.
pub fn draw_types(types: &[Ty], parts: &[Drawn]) -> Result<(), Fault>
    ensures ok { OnOk result (draw_types_of (map view_type types.now) (map drawn_in parts.now) ≡ Ok tt) }
    ensures refused { IfErr result (λ e. IfRefusal e (λ r. draw_types_of (map view_type types.now) (map drawn_in parts.now) ≡ Err r)) }
{
    for i in 0..types.len().min(parts.len()) {
        draws_type(&types[i], &parts[i])?;
    }
    Ok(())
}

/// Each generator draws values of the type.
pub fn draws_agree(ty: &Ty, parts: &[Drawn]) -> Result<(), Fault>
    ensures ok { OnOk result (draws_agree_of (view_type ty.now) (map drawn_in parts.now) ≡ Ok tt) }
    ensures refused { IfErr result (λ e. IfRefusal e (λ r. draws_agree_of (view_type ty.now) (map drawn_in parts.now) ≡ Err r)) }
{
    for part in parts {
        draws_type(ty, part)?;
    }
    Ok(())
}
