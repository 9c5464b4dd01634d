//! The headers of functions and generators: their parameters and the type of their result.
ghost use Rattle.std.specs.Prelude.{◌≡◌, [], Ok, Err, OnOk, IfOk, IfErr, bytes_eq, map};
ghost use Rattle.qk_syntax.specs.PlainTrees.{list, end, more};
ghost use Rattle.qk_syntax.specs.Refusals.{IfRefusal};
ghost use Rattle.qk_syntax.specs.View.{view, views};
ghost use Rattle.qk_headers.specs.Headers.{named_parameter as named_parameter_of, parameter_at as parameter_of, parameters_at as parameters_of, parameter_list as parameter_list_of, signature_at as signature_of};
ghost use Rattle.qk_names.specs.NameTable.{names_in};
ghost use Rattle.qk_headers.specs.Scopes.{is_truth_word, new_variable as new_variable_of};
ghost use Rattle.std.specs.List.{list_any};

use crate::checking::{at_most, bind};
use crate::tables::{Signature, Variable};
use crate::types_of::type_at;
use qk_base::{Fault, Place, Seq};
use qk_names::{DOUBLED_NAME, MOST_PARTS, Names, UNKNOWN_FORM, WRONG_COUNT, refusal};
use qk_syntax::{Node, Tree};
use std::alloc::Global;

/// Whether no variable may have the name.
pub fn is_truth(word: &[u8]) -> bool
    ensures { result ≡ is_truth_word word.now }
{
    word == b"true".as_slice() || word == b"false".as_slice()
}

/// Whether one of the variables has the name.
fn is_taken(before: &[Variable], word: &[u8]) -> bool
    ensures { result ≡ list_any (bytes_eq word.now) (map (λ v. v.name) before.now) }
{
    for variable in before {
        if word == variable.name.as_slice() {
            return true;
        }
    }
    false
}

/// That a variable may have the name after these.
pub fn new_variable(before: &[Variable], place: Place, word: &[u8]) -> Result<(), Fault>
    ensures ok { OnOk result (new_variable_of (map (λ v. v.name) before.now) place word.now ≡ Ok word.now) }
    ensures refused { IfErr result (λ e. IfRefusal e (λ r. new_variable_of (map (λ v. v.name) before.now) place word.now ≡ Err r)) }
{
    if is_truth(word) || is_taken(before, word) {
        return Err(refusal(DOUBLED_NAME, place));
    }
    Ok(())
}

fn named_parameter(
    alloc: Global,
    names: &Names,
    before: &mut Seq<Variable>,
    place: Place,
    word: &[u8],
    ty: &Tree,
) -> Result<(), Fault>
    ensures ok { OnOk result (named_parameter_of (names_in names.now) before.old.items place word.now (view ty.now) ≡ Ok before.new.items) }
    ensures refused { IfErr result (λ e. IfRefusal e (λ r. named_parameter_of (names_in names.now) before.old.items place word.now (view ty.now) ≡ Err r)) }
{
    new_variable(before.as_slice(), place, word)?;
    let ty = type_at(alloc, names, ty)?;
    bind(alloc, before, word, ty)?;
    Ok(())
}

fn parameter_at(
    alloc: Global,
    names: &Names,
    before: &mut Seq<Variable>,
    tree: &Tree,
) -> Result<(), Fault>
    ensures ok { OnOk result (parameter_of (names_in names.now) before.old.items (view tree.now) ≡ Ok before.new.items) }
    ensures refused { IfErr result (λ e. IfRefusal e (λ r. parameter_of (names_in names.now) before.old.items (view tree.now) ≡ Err r)) }
{
    match &tree.node {
        Node::List(parts) => headed_parameter(alloc, names, before, tree.place, parts.as_slice()),
        _ => Err(refusal(UNKNOWN_FORM, tree.place)),
    }
}

fn headed_parameter(
    alloc: Global,
    names: &Names,
    before: &mut Seq<Variable>,
    place: Place,
    parts: &[Tree],
) -> Result<(), Fault>
    ensures ok { OnOk result (parameter_of (names_in names.now) before.old.items (list place (views parts.now)) ≡ Ok before.new.items) }
    ensures refused { IfErr result (λ e. IfRefusal e (λ r. parameter_of (names_in names.now) before.old.items (list place (views parts.now)) ≡ Err r)) }
{
    match parts {
        [name, ty] => parameter_of_two(alloc, names, before, place, name, ty),
        _ => Err(refusal(UNKNOWN_FORM, place)),
    }
}

/// A parameter with a name and a type.
fn parameter_of_two(
    alloc: Global,
    names: &Names,
    before: &mut Seq<Variable>,
    place: Place,
    name: &Tree,
    ty: &Tree,
) -> Result<(), Fault>
    ensures ok { OnOk result (parameter_of (names_in names.now) before.old.items (list place (more (view name.now) (more (view ty.now) end))) ≡ Ok before.new.items) }
    ensures refused { IfErr result (λ e. IfRefusal e (λ r. parameter_of (names_in names.now) before.old.items (list place (more (view name.now) (more (view ty.now) end))) ≡ Err r)) }
{
    match &name.node {
        Node::Name(word) => {
            named_parameter(alloc, names, before, name.place, word.as_slice(), ty)
        }
        _ => Err(refusal(UNKNOWN_FORM, place)),
    }
}

fn parameters_at(alloc: Global, names: &Names, params: &[Tree]) -> Result<Seq<Variable>, Fault>
    ensures params { IfOk result (λ ps. parameters_of (names_in names.now) [] (views params.now) ≡ Ok ps.items) }
    ensures refused { IfErr result (λ e. IfRefusal e (λ r. parameters_of (names_in names.now) [] (views params.now) ≡ Err r)) }
{
    let mut scope = Seq::make(alloc);
    for param in params {
        parameter_at(alloc, names, &mut scope, param)?;
    }
    Ok(scope)
}

fn parameter_list(
    alloc: Global,
    names: &Names,
    place: Place,
    tree: &Tree,
) -> Result<Seq<Variable>, Fault>
    ensures params { IfOk result (λ ps. parameter_list_of (names_in names.now) place (view tree.now) ≡ Ok ps.items) }
    ensures refused { IfErr result (λ e. IfRefusal e (λ r. parameter_list_of (names_in names.now) place (view tree.now) ≡ Err r)) }
{
    let Node::List(params) = &tree.node else {
        return Err(refusal(UNKNOWN_FORM, tree.place));
    };
    at_most(params.as_slice(), MOST_PARTS, place)?;
    parameters_at(alloc, names, params.as_slice())
}

/// What stands after the name of a function or a generator.
pub fn signature_at(
    alloc: Global,
    names: &Names,
    place: Place,
    parts: &[Tree],
) -> Result<Signature, Fault>
    ensures signature { IfOk result (λ s. signature_of (names_in names.now) place (views parts.now) ≡ Ok s) }
    ensures refused { IfErr result (λ e. IfRefusal e (λ r. signature_of (names_in names.now) place (views parts.now) ≡ Err r)) }
{
    let [params, ty, _body] = parts else {
        return Err(refusal(WRONG_COUNT, place));
    };
    let params = parameter_list(alloc, names, place, params)?;
    let ty = type_at(alloc, names, ty)?;
    Ok(Signature { params, result: ty })
}
