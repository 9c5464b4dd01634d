//! Generators at their parts, and the types of these.
ghost use Rattle.std.specs.Prelude.{◌≡◌, Ok, Err, OnOk, IfOk, IfErr, map};
ghost use Rattle.qk_core.specs.GenData.{GenData};
ghost use Rattle.qk_core.specs.GenView.{view_gen};
ghost use Rattle.qk_syntax.specs.Refusals.{IfRefusal};
ghost use Rattle.qk_generators.specs.Drawing.{generator_of, takes_values as takes_values_of, takes_draws as takes_draws_of, of_values as of_values_of, of_draws as of_draws_of, choose as choose_form, elements as elements_form, pure as pure_form, call as call_form, list as list_form, pair as pair_form, one_of as one_of_form, made as made_form, drawn, bare as bare_of};
ghost use Rattle.qk_generators.specs.DrawingView.{values_in, draws_in, drawn_in};
ghost use Rattle.qk_syntax.specs.View.{views};
ghost use Rattle.qk_generators.specs.GenSteps.{check_values as check_values_of, check_draws as check_draws_of};
ghost use Rattle.qk_headers.specs.Headers.{HeadersData};
ghost use Rattle.qk_headers.specs.TypesOf.{parts_after};
ghost use Rattle.qk_typing.specs.TablesView.{typed_in};
ghost use Rattle.qk_value.specs.Types.{list_type, pair_type};
ghost use Rattle.qk_value.specs.View.{view_type};

use crate::drawn_types::{Drawn, draw_types, draws_agree};
use crate::gen_heads::{OfDraws, OfValues};
use qk_base::{Fault, Memory, Place, Seq};
use qk_core::GenExpr;
use qk_headers::{Headers, Typed, Variable, listed, paired};
use qk_names::{WRONG_COUNT, one, refusal, reversed, two};
use qk_syntax::Tree;
use qk_typing::{agree, count_after_head, fields_of, fit_params, has_type, plain};
use qk_value::Ty;
use std::alloc::Global;

/// The parameters of a generator.
fn gen_params_of(headers: &Headers, generator: u32) -> &[Variable]
    ensures { result.now ≡ (generator_of headers.now generator).params }
{
    match headers.generators.get(generator as usize) {
        None => &[],
        Some(signature) => signature.params.as_slice(),
    }
}

fn gen_result_of(alloc: Global, headers: &Headers, generator: u32) -> Result<Ty, Memory>
    ensures { IfOk result (λ t. view_type t ≡ (generator_of headers.now generator).result) }
{
    match headers.generators.get(generator as usize) {
        None => Ok(Ty::Int),
        Some(signature) => signature.result.copy(alloc),
    }
}

/// As many expressions stand after the head of a list as the generator takes.
pub fn check_values(
    headers: &Headers,
    place: Place,
    form: OfValues,
    parts: &[Tree],
) -> Result<(), Fault>
    ensures ok { OnOk result (check_values_of headers.now place (values_in form) (parts_after (views parts.now)) ≡ Ok tt) }
    ensures refused { IfErr result (λ e. IfRefusal e (λ r. check_values_of headers.now place (values_in form) (parts_after (views parts.now)) ≡ Err r)) }
{
    let count = count_after_head(parts);
    if !takes_values(headers, form, count) {
        return Err(refusal(WRONG_COUNT, place));
    }
    Ok(())
}

fn takes_values(headers: &Headers, form: OfValues, count: usize) -> bool
    ensures { result ≡ takes_values_of headers.now (values_in form) count }
{
    match form {
        OfValues::Choose => count == 2,
        OfValues::Elements => 0 < count,
        OfValues::Pure => count == 1,
        OfValues::Call(generator) => count == gen_params_of(headers, generator).len(),
    }
}

/// As many generators stand after the head of a list as the generator takes.
pub fn check_draws(
    headers: &Headers,
    place: Place,
    form: OfDraws,
    parts: &[Tree],
) -> Result<(), Fault>
    ensures ok { OnOk result (check_draws_of headers.now place (draws_in form) (parts_after (views parts.now)) ≡ Ok tt) }
    ensures refused { IfErr result (λ e. IfRefusal e (λ r. check_draws_of headers.now place (draws_in form) (parts_after (views parts.now)) ≡ Err r)) }
{
    let count = count_after_head(parts);
    if !takes_draws(headers, form, count) {
        return Err(refusal(WRONG_COUNT, place));
    }
    Ok(())
}

fn takes_draws(headers: &Headers, form: OfDraws, count: usize) -> bool
    ensures { result ≡ takes_draws_of headers.now (draws_in form) count }
{
    match form {
        OfDraws::List => count == 1,
        OfDraws::Pair => count == 2,
        OfDraws::OneOf => 0 < count,
        OfDraws::Made { kind, maker } => count == fields_of(headers, kind, maker).len(),
    }
}

/// The generator of these expressions.
pub fn of_values(
    alloc: Global,
    headers: &Headers,
    place: Place,
    form: OfValues,
    parts: Seq<Typed>,
) -> Result<Drawn, Fault>
    ensures ok { IfOk result (λ g. of_values_of headers.now place (values_in form) (map typed_in parts.items) ≡ Ok (drawn_in g)) }
    ensures refused { IfErr result (λ e. IfRefusal e (λ r. of_values_of headers.now place (values_in form) (map typed_in parts.items) ≡ Err r)) }
{
    match form {
        OfValues::Choose => choose(place, parts),
        OfValues::Elements => elements(alloc, place, parts),
        OfValues::Pure => pure(place, parts),
        OfValues::Call(generator) => gen_called(alloc, headers, place, generator, parts),
    }
}

fn choose(place: Place, parts: Seq<Typed>) -> Result<Drawn, Fault>
    ensures ok { IfOk result (λ g. (h : HeadersData) → of_values_of h place choose_form (map typed_in parts.items) ≡ Ok (drawn_in g)) }
    ensures refused { IfErr result (λ e. IfRefusal e (λ r. (h : HeadersData) → of_values_of h place choose_form (map typed_in parts.items) ≡ Err r)) }
{
    let Some((least, most)) = two(parts) else {
        return Err(refusal(WRONG_COUNT, place));
    };
    has_type(&Ty::Int, &least)?;
    has_type(&Ty::Int, &most)?;
    Ok(Drawn {
        place,
        ty: Ty::Int,
        gen_expr: GenExpr::Choose(least.expr, most.expr),
    })
}

fn elements(alloc: Global, place: Place, parts: Seq<Typed>) -> Result<Drawn, Fault>
    ensures ok { IfOk result (λ g. (h : HeadersData) → of_values_of h place elements_form (map typed_in parts.items) ≡ Ok (drawn_in g)) }
    ensures refused { IfErr result (λ e. IfRefusal e (λ r. (h : HeadersData) → of_values_of h place elements_form (map typed_in parts.items) ≡ Err r)) }
{
    let [first, others @ ..] = parts.as_slice() else {
        return Err(refusal(WRONG_COUNT, place));
    };
    agree(&first.ty, others)?;
    let ty = first.ty.copy(alloc)?;
    let parts = plain(alloc, parts)?;
    Ok(Drawn {
        place,
        ty,
        gen_expr: GenExpr::Elements(parts),
    })
}

fn pure(place: Place, parts: Seq<Typed>) -> Result<Drawn, Fault>
    ensures ok { IfOk result (λ g. (h : HeadersData) → of_values_of h place pure_form (map typed_in parts.items) ≡ Ok (drawn_in g)) }
    ensures refused { IfErr result (λ e. IfRefusal e (λ r. (h : HeadersData) → of_values_of h place pure_form (map typed_in parts.items) ≡ Err r)) }
{
    match one(parts) {
        None => Err(refusal(WRONG_COUNT, place)),
        Some(Typed { ty, expr, .. }) => Ok(Drawn {
            place,
            ty,
            gen_expr: GenExpr::Pure(expr),
        }),
    }
}

fn gen_called(
    alloc: Global,
    headers: &Headers,
    place: Place,
    generator: u32,
    parts: Seq<Typed>,
) -> Result<Drawn, Fault>
    ensures ok { IfOk result (λ g. of_values_of headers.now place (call_form generator) (map typed_in parts.items) ≡ Ok (drawn_in g)) }
    ensures refused { IfErr result (λ e. IfRefusal e (λ r. of_values_of headers.now place (call_form generator) (map typed_in parts.items) ≡ Err r)) }
{
    fit_params(gen_params_of(headers, generator), parts.as_slice())?;
    let ty = gen_result_of(alloc, headers, generator)?;
    let args = plain(alloc, parts)?;
    Ok(Drawn {
        place,
        ty,
        gen_expr: GenExpr::Call { generator, args },
    })
}

/// The generator of these generators.
pub fn of_draws(
    alloc: Global,
    headers: &Headers,
    place: Place,
    form: OfDraws,
    parts: Seq<Drawn>,
) -> Result<Drawn, Fault>
    ensures ok { IfOk result (λ g. of_draws_of headers.now place (draws_in form) (map drawn_in parts.items) ≡ Ok (drawn_in g)) }
    ensures refused { IfErr result (λ e. IfRefusal e (λ r. of_draws_of headers.now place (draws_in form) (map drawn_in parts.items) ≡ Err r)) }
{
    match form {
        OfDraws::List => list_drawn(alloc, place, parts),
        OfDraws::Pair => pair_drawn(alloc, place, parts),
        OfDraws::OneOf => one_of(alloc, place, parts),
        OfDraws::Made { kind, maker } => gen_made(alloc, headers, place, kind, maker, parts),
    }
}

fn list_drawn(alloc: Global, place: Place, parts: Seq<Drawn>) -> Result<Drawn, Fault>
    ensures ok { IfOk result (λ g. (h : HeadersData) → of_draws_of h place list_form (map drawn_in parts.items) ≡ Ok (drawn_in g)) }
    ensures refused { IfErr result (λ e. IfRefusal e (λ r. (h : HeadersData) → of_draws_of h place list_form (map drawn_in parts.items) ≡ Err r)) }
{
    match one(parts) {
        None => Err(refusal(WRONG_COUNT, place)),
        Some(item) => Ok(list_gen(alloc, place, item)?),
    }
}

fn list_gen(alloc: Global, place: Place, item: Drawn) -> Result<Drawn, Memory>
    ensures { IfOk result (λ g. drawn_in g ≡ drawn place (list_type (drawn_in item).ty) (GenData.list (drawn_in item).gen)) }
{
    let ty = listed(alloc, item.ty)?;
    let inner = Box::new(alloc, item.gen_expr)?;
    Ok(Drawn {
        place,
        ty,
        gen_expr: GenExpr::List(inner),
    })
}

fn pair_drawn(alloc: Global, place: Place, parts: Seq<Drawn>) -> Result<Drawn, Fault>
    ensures ok { IfOk result (λ g. (h : HeadersData) → of_draws_of h place pair_form (map drawn_in parts.items) ≡ Ok (drawn_in g)) }
    ensures refused { IfErr result (λ e. IfRefusal e (λ r. (h : HeadersData) → of_draws_of h place pair_form (map drawn_in parts.items) ≡ Err r)) }
{
    match two(parts) {
        None => Err(refusal(WRONG_COUNT, place)),
        Some((first, second)) => Ok(pair_gen(alloc, place, first, second)?),
    }
}

fn pair_gen(alloc: Global, place: Place, first: Drawn, second: Drawn) -> Result<Drawn, Memory>
    ensures { IfOk result (λ g. drawn_in g ≡ drawn place (pair_type (drawn_in first).ty (drawn_in second).ty) (GenData.pair (drawn_in first).gen (drawn_in second).gen)) }
{
    let ty = paired(alloc, first.ty, second.ty)?;
    let left = Box::new(alloc, first.gen_expr)?;
    let right = Box::new(alloc, second.gen_expr)?;
    Ok(Drawn {
        place,
        ty,
        gen_expr: GenExpr::Pair(left, right),
    })
}

fn one_of(alloc: Global, place: Place, parts: Seq<Drawn>) -> Result<Drawn, Fault>
    ensures ok { IfOk result (λ g. (h : HeadersData) → of_draws_of h place one_of_form (map drawn_in parts.items) ≡ Ok (drawn_in g)) }
    ensures refused { IfErr result (λ e. IfRefusal e (λ r. (h : HeadersData) → of_draws_of h place one_of_form (map drawn_in parts.items) ≡ Err r)) }
{
    let [first, others @ ..] = parts.as_slice() else {
        return Err(refusal(WRONG_COUNT, place));
    };
    draws_agree(&first.ty, others)?;
    let ty = first.ty.copy(alloc)?;
    let parts = bare(alloc, parts)?;
    Ok(Drawn {
        place,
        ty,
        gen_expr: GenExpr::OneOf(parts),
    })
}

fn gen_made(
    alloc: Global,
    headers: &Headers,
    place: Place,
    kind: u32,
    maker: u32,
    parts: Seq<Drawn>,
) -> Result<Drawn, Fault>
    ensures ok { IfOk result (λ g. of_draws_of headers.now place (made_form kind maker) (map drawn_in parts.items) ≡ Ok (drawn_in g)) }
    ensures refused { IfErr result (λ e. IfRefusal e (λ r. of_draws_of headers.now place (made_form kind maker) (map drawn_in parts.items) ≡ Err r)) }
{
    draw_types(fields_of(headers, kind, maker), parts.as_slice())?;
    let parts = bare(alloc, parts)?;
    Ok(Drawn {
        place,
        ty: Ty::Made(kind),
        gen_expr: GenExpr::Make { kind, maker, parts },
    })
}

/// The generators alone.
fn bare(alloc: Global, parts: Seq<Drawn>) -> Result<Seq<GenExpr>, Memory>
    ensures { IfOk result (λ gs. map view_gen gs.items ≡ bare_of (map drawn_in parts.items)) }
{
    let mut parts = parts;
    let mut backward = Seq::make(alloc);
    while let Some(part) = parts.pop() {
        backward.add(part.gen_expr)?;
    }
    reversed(alloc, backward)
}
