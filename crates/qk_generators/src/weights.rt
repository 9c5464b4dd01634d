//! The parts of a frequency.
ghost use Rattle.std.specs.Prelude.{◌≡◌, Ok, Err, OnOk, IfOk, IfErr, map, sum_by, nat_lt};
ghost use Rattle.qk_core.specs.GenData.{GenData, weighteds_of};
ghost use Rattle.qk_core.specs.GenView.{view_weighted};
ghost use Rattle.qk_syntax.specs.Refusals.{IfRefusal};
ghost use Rattle.qk_syntax.specs.View.{view, views};
ghost use Rattle.qk_generators.specs.Drawing.{drawn, weight_at as weight_at_place, of_parts as of_parts_of, draws_agree as draws_agree_of};
ghost use Rattle.qk_generators.specs.DrawingView.{part_in, drawn_in};
ghost use Rattle.qk_generators.specs.GenSteps.{check_some as check_some_of, weight_of as weight_of_tree};
ghost use Rattle.qk_headers.specs.TypesOf.{parts_after};
ghost use Rattle.qk_value.specs.View.{view_type};

use crate::drawn_types::{Drawn, draws_type};
use qk_base::{Fault, Memory, Place, Seq};
use qk_core::{GenExpr, Weighted};
use qk_names::{UNKNOWN_FORM, WRONG_COUNT, WRONG_WEIGHT, refusal, reversed};
use qk_syntax::{Node, Tree};
use qk_typing::count_after_head;
use qk_value::Ty;
use std::alloc::Global;

/// The greatest weight.
const MOST_WEIGHT: i64 = 1_000_000;

/// A part of a frequency.
#[derive(Drop)]
pub struct Part {
    pub weight: u32,
    pub body: Drawn,
}

/// Some part stands after the head of a frequency.
pub fn check_some(place: Place, parts: &[Tree]) -> Result<(), Fault>
    ensures ok { OnOk result (check_some_of place (parts_after (views parts.now)) ≡ Ok tt) }
    ensures refused { IfErr result (λ e. IfRefusal e (λ r. check_some_of place (parts_after (views parts.now)) ≡ Err r)) }
{
    let count = count_after_head(parts);
    if count == 0 {
        return Err(refusal(WRONG_COUNT, place));
    }
    Ok(())
}

/// The weight that a tree is.
pub fn weight_of(tree: &Tree) -> Result<u32, Fault>
    ensures ok { IfOk result (λ n. weight_of_tree (view tree.now) ≡ Ok n) }
    ensures refused { IfErr result (λ e. IfRefusal e (λ r. weight_of_tree (view tree.now) ≡ Err r)) }
{
    match &tree.node {
        Node::Number(n) => weight_at(tree.place, *n),
        _ => Err(refusal(UNKNOWN_FORM, tree.place)),
    }
}

fn weight_at(place: Place, n: i64) -> Result<u32, Fault>
    ensures ok { IfOk result (λ w. weight_at_place place n ≡ Ok w) }
    ensures refused { IfErr result (λ e. IfRefusal e (λ r. weight_at_place place n ≡ Err r)) }
{
    if n < 0 || MOST_WEIGHT < n {
        return Err(refusal(WRONG_WEIGHT, place));
    }
    Ok(n as u32)
}

/// The generator of these parts, of which not all weights are 0.
pub fn of_parts(alloc: Global, place: Place, parts: Seq<Part>) -> Result<Drawn, Fault>
    ensures ok { IfOk result (λ g. of_parts_of place (map part_in parts.items) ≡ Ok (drawn_in g)) }
    ensures refused { IfErr result (λ e. IfRefusal e (λ r. of_parts_of place (map part_in parts.items) ≡ Err r)) }
{
    let [first, others @ ..] = parts.as_slice() else {
        return Err(refusal(WRONG_COUNT, place));
    };
    if !has_weight(parts.as_slice()) {
        return Err(refusal(WRONG_WEIGHT, place));
    }
    bodies_agree(&first.body.ty, others)?;
    let ty = first.body.ty.copy(alloc)?;
    Ok(frequency(alloc, place, ty, parts)?)
}

/// Whether some weight is not 0.
fn has_weight(parts: &[Part]) -> bool
    ensures { result ≡ nat_lt 0 (sum_by (λ a. a.weight) (map part_in parts.now)) }
{
    for part in parts {
        if 0 < part.weight {
            return true;
        }
    }
    false
}

fn bodies_agree(ty: &Ty, parts: &[Part]) -> Result<(), Fault>
    ensures ok { OnOk result (draws_agree_of (view_type ty.now) (map (λ a. a.body) (map part_in parts.now)) ≡ Ok tt) }
    ensures refused { IfErr result (λ e. IfRefusal e (λ r. draws_agree_of (view_type ty.now) (map (λ a. a.body) (map part_in parts.now)) ≡ Err r)) }
{
    for part in parts {
        draws_type(ty, &part.body)?;
    }
    Ok(())
}

fn frequency(alloc: Global, place: Place, ty: Ty, parts: Seq<Part>) -> Result<Drawn, Memory>
    ensures { IfOk result (λ g. drawn_in g ≡ drawn place (view_type ty) (GenData.frequency (weighteds_of (map (λ a. (a.weight, a.body.gen)) (map part_in parts.items))))) }
{
    let parts = weighed(alloc, parts)?;
    Ok(Drawn {
        place,
        ty,
        gen_expr: GenExpr::Frequency(parts),
    })
}

fn weighed(alloc: Global, parts: Seq<Part>) -> Result<Seq<Weighted>, Memory>
    ensures { IfOk result (λ ws. map view_weighted ws.items ≡ map (λ a. (a.weight, a.body.gen)) (map part_in parts.items)) }
{
    let mut parts = parts;
    let mut backward = Seq::make(alloc);
    while let Some(part) = parts.pop() {
        backward.add(weighted(part))?;
    }
    reversed(alloc, backward)
}

fn weighted(part: Part) -> Weighted
    ensures { view_weighted result ≡ ((part_in part).weight, (part_in part).body.gen) }
{
    let Part { weight, body } = part;
    let Drawn { gen_expr, .. } = body;
    Weighted {
        weight,
        body: gen_expr,
    }
}
