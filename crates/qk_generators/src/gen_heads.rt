//! The forms of generators by their heads.
ghost use Rattle.std.specs.Prelude.{◌≡◌, Ok, Err, IfOk, IfErr, option_map, option_and_then};
ghost use Rattle.qk_syntax.specs.Refusals.{IfRefusal};
ghost use Rattle.qk_syntax.specs.View.{view};
ghost use Rattle.qk_generators.specs.Drawing.{gen_forms, gen_form_of as form_of_head, gen_form_by as form_of_word, declared_gen as form_of_named, gen_atom as atom_of, lone_gen as lone_gen_of};
ghost use Rattle.qk_generators.specs.DrawingView.{gen_form_in, drawn_in};
ghost use Rattle.qk_generators.specs.GenHeads.{range_and_list, vector_and_pair, one_among, weighed, resized_and_bound, pure_value, gen_head_form as head_form_of};
ghost use Rattle.qk_names.specs.NameTable.{names_in};
ghost use Rattle.qk_names.specs.Reserved.{entry_of};

use crate::drawn_types::Drawn;
use qk_base::{Fault, Place};
use qk_core::GenExpr;
use qk_names::{Named, Names, UNKNOWN_FORM, refusal};
use qk_syntax::{Node, Tree};
use qk_typing::unusable;
use qk_value::Ty;

/// A generator whose parts are all expressions.
#[derive(Clone, Copy, Debug, PartialEq, Eq)]
pub enum OfValues {
    Choose,
    Elements,
    Pure,
    Call(u32),
}

/// A generator whose parts are all generators.
#[derive(Clone, Copy, Debug, PartialEq, Eq)]
pub enum OfDraws {
    List,
    Pair,
    OneOf,
    Made { kind: u32, maker: u32 },
}

/// A generator of an expression and a generator.
#[derive(Clone, Copy, Debug, PartialEq, Eq)]
pub enum Sized {
    Vector,
    Resize,
}

/// What a list is as a generator.
#[derive(Clone, Copy, Debug, PartialEq, Eq)]
pub enum GenForm {
    Values(OfValues),
    Draws(OfDraws),
    Sized(Sized),
    Frequency,
    Bind,
}

/// The form of a list at a place whose first part this is.
pub fn gen_head_form(names: &Names, place: Place, head: &Tree) -> Result<GenForm, Fault>
    ensures ok { IfOk result (λ f. head_form_of (names_in names.now) place (view head.now) ≡ Ok (gen_form_in f)) }
    ensures refused { IfErr result (λ e. IfRefusal e (λ r. head_form_of (names_in names.now) place (view head.now) ≡ Err r)) }
{
    match &head.node {
        Node::Name(word) => gen_form_of(names, place, head.place, word.as_slice()),
        _ => Err(refusal(UNKNOWN_FORM, place)),
    }
}

fn gen_form_of(names: &Names, place: Place, at: Place, word: &[u8]) -> Result<GenForm, Fault>
    ensures ok { IfOk result (λ f. form_of_head (names_in names.now) place at word.now ≡ Ok (gen_form_in f)) }
    ensures refused { IfErr result (λ e. IfRefusal e (λ r. form_of_head (names_in names.now) place at word.now ≡ Err r)) }
{
    match gen_form_by(names, word) {
        Some(form) => Ok(form),
        None => Err(unusable(names, place, at, word)),
    }
}

fn gen_form_by(names: &Names, word: &[u8]) -> Option<GenForm>
    ensures { option_map gen_form_in result ≡ form_of_word (names_in names.now) word.now (entry_of gen_forms word.now) }
{
    match reserved_gen_form(word) {
        Some(form) => Some(form),
        None => declared_gen(names.get(word)),
    }
}

fn declared_gen(named: Option<Named>) -> Option<GenForm>
    ensures { option_map gen_form_in result ≡ option_and_then form_of_named named }
{
    match named {
        Some(Named::Maker { kind, maker }) => Some(GenForm::Draws(OfDraws::Made { kind, maker })),
        Some(Named::Generator(generator)) => Some(GenForm::Values(OfValues::Call(generator))),
        _ => None,
    }
}

fn reserved_gen_form(word: &[u8]) -> Option<GenForm>
    ensures { option_map gen_form_in result ≡ entry_of gen_forms word.now }
{
    range_or_list(word)
        .or(vector_or_pair(word))
        .or(one_of_some(word))
        .or(weighed_form(word))
        .or(resized_or_bound(word))
        .or(pure_form(word))
}

fn range_or_list(word: &[u8]) -> Option<GenForm>
    ensures { option_map gen_form_in result ≡ entry_of range_and_list word.now }
{
    if word == b"choose".as_slice() {
        Some(GenForm::Values(OfValues::Choose))
    } else if word == b"list".as_slice() {
        Some(GenForm::Draws(OfDraws::List))
    } else {
        None
    }
}

fn vector_or_pair(word: &[u8]) -> Option<GenForm>
    ensures { option_map gen_form_in result ≡ entry_of vector_and_pair word.now }
{
    if word == b"vector".as_slice() {
        Some(GenForm::Sized(Sized::Vector))
    } else if word == b"pair".as_slice() {
        Some(GenForm::Draws(OfDraws::Pair))
    } else {
        None
    }
}

fn one_of_some(word: &[u8]) -> Option<GenForm>
    ensures { option_map gen_form_in result ≡ entry_of one_among word.now }
{
    if word == b"elements".as_slice() {
        Some(GenForm::Values(OfValues::Elements))
    } else if word == b"oneof".as_slice() {
        Some(GenForm::Draws(OfDraws::OneOf))
    } else {
        None
    }
}

fn weighed_form(word: &[u8]) -> Option<GenForm>
    ensures { option_map gen_form_in result ≡ entry_of weighed word.now }
{
    if word == b"frequency".as_slice() {
        Some(GenForm::Frequency)
    } else {
        None
    }
}

fn resized_or_bound(word: &[u8]) -> Option<GenForm>
    ensures { option_map gen_form_in result ≡ entry_of resized_and_bound word.now }
{
    if word == b"resize".as_slice() {
        Some(GenForm::Sized(Sized::Resize))
    } else if word == b"bind".as_slice() {
        Some(GenForm::Bind)
    } else {
        None
    }
}

fn pure_form(word: &[u8]) -> Option<GenForm>
    ensures { option_map gen_form_in result ≡ entry_of pure_value word.now }
{
    if word == b"pure".as_slice() {
        Some(GenForm::Values(OfValues::Pure))
    } else {
        None
    }
}

/// A generator that is one word.
pub fn lone_gen(names: &Names, place: Place, word: &[u8]) -> Result<Drawn, Fault>
    ensures ok { IfOk result (λ g. lone_gen_of (names_in names.now) place word.now ≡ Ok (drawn_in g)) }
    ensures refused { IfErr result (λ e. IfRefusal e (λ r. lone_gen_of (names_in names.now) place word.now ≡ Err r)) }
{
    match gen_atom(place, word) {
        Some(known) => Ok(known),
        None => Err(unusable(names, place, place, word)),
    }
}

fn gen_atom(place: Place, word: &[u8]) -> Option<Drawn>
    ensures { option_map drawn_in result ≡ atom_of place word.now }
{
    if word == b"int".as_slice() {
        Some(Drawn {
            place,
            ty: Ty::Int,
            gen_expr: GenExpr::Int,
        })
    } else if word == b"bool".as_slice() {
        Some(Drawn {
            place,
            ty: Ty::Bool,
            gen_expr: GenExpr::Bool,
        })
    } else if word == b"size".as_slice() {
        Some(Drawn {
            place,
            ty: Ty::Int,
            gen_expr: GenExpr::Size,
        })
    } else {
        None
    }
}
