//! The forms of expressions by their heads.
ghost use Rattle.std.specs.Prelude.{◌≡◌, Ok, Err, IfOk, IfErr, option_map, option_and_then};
ghost use Rattle.qk_syntax.specs.Refusals.{IfRefusal};
ghost use Rattle.qk_syntax.specs.View.{view};
ghost use Rattle.qk_base.specs.declared.fault.Fault.TheVariants as faults;
ghost use Rattle.qk_typing.specs.HeadForms.{choice_forms, number_forms, truth_forms, list_forms, whole_list_forms, part_forms, head_form as head_form_of, unusable as unusable_for};
ghost use Rattle.qk_names.specs.NameTable.{names_in};
ghost use Rattle.qk_names.specs.Names.{is_known as is_known_word};
ghost use Rattle.qk_typing.specs.Operators.{forms, operator, binary as binary_operator, form_of as form_of_head, form_by as form_of_word, declared_form as form_of_named};
ghost use Rattle.qk_typing.specs.PartsView.{form_in};
ghost use Rattle.qk_names.specs.Reserved.{entry_of};

use qk_base::{Fault, Place};
use qk_core::{Op1, Op2};
use qk_names::{Named, Names, UNKNOWN_FORM, UNKNOWN_NAME, is_reserved, refusal};
use qk_syntax::{Node, Tree};

/// An operator whose parts are all expressions.
#[derive(Clone, Copy, Debug, PartialEq, Eq)]
pub enum Operator {
    Choice,
    Unary(Op1),
    Binary(Op2),
    Maker { kind: u32, maker: u32 },
    Function(u32),
}

/// What a list is as an expression.
#[derive(Clone, Copy, Debug, PartialEq, Eq)]
pub enum Form {
    EmptyList,
    Binding,
    Matching,
    Operator(Operator),
}

/// The form of a list at a place whose first part this is.
pub fn head_form(names: &Names, place: Place, head: &Tree) -> Result<Form, Fault>
    ensures ok { IfOk result (λ f. head_form_of (names_in names.now) place (view head.now) ≡ Ok (form_in f)) }
    ensures refused { IfErr result (λ e. IfRefusal e (λ r. head_form_of (names_in names.now) place (view head.now) ≡ Err r)) }
{
    match &head.node {
        Node::Name(word) => form_of(names, place, head.place, word.as_slice()),
        _ => Err(refusal(UNKNOWN_FORM, place)),
    }
}

fn form_of(names: &Names, place: Place, at: Place, word: &[u8]) -> Result<Form, Fault>
    ensures ok { IfOk result (λ f. form_of_head (names_in names.now) place at word.now ≡ Ok (form_in f)) }
    ensures refused { IfErr result (λ e. IfRefusal e (λ r. form_of_head (names_in names.now) place at word.now ≡ Err r)) }
{
    match form_by(names, word) {
        Some(form) => Ok(form),
        None => Err(unusable(names, place, at, word)),
    }
}

fn form_by(names: &Names, word: &[u8]) -> Option<Form>
    ensures { option_map form_in result ≡ form_of_word (names_in names.now) word.now (entry_of forms word.now) }
{
    match reserved_form(word) {
        Some(form) => Some(form),
        None => declared_form(names.get(word)),
    }
}

fn declared_form(named: Option<Named>) -> Option<Form>
    ensures { option_map form_in result ≡ option_and_then form_of_named named }
{
    match named {
        Some(Named::Maker { kind, maker }) => Some(Form::Operator(Operator::Maker { kind, maker })),
        Some(Named::Function(function)) => Some(Form::Operator(Operator::Function(function))),
        _ => None,
    }
}

fn reserved_form(word: &[u8]) -> Option<Form>
    ensures { option_map form_in result ≡ entry_of forms word.now }
{
    choice_form(word)
        .or(number_form(word))
        .or(truth_form(word))
        .or(list_form(word))
        .or(whole_list_form(word))
        .or(part_form(word))
}

fn choice_form(word: &[u8]) -> Option<Form>
    ensures { option_map form_in result ≡ entry_of choice_forms word.now }
{
    if word == b"if".as_slice() {
        Some(Form::Operator(Operator::Choice))
    } else if word == b"let".as_slice() {
        Some(Form::Binding)
    } else {
        None
    }
}

fn number_form(word: &[u8]) -> Option<Form>
    ensures { option_map form_in result ≡ entry_of number_forms word.now }
{
    if word == b"+".as_slice() {
        Some(binary(Op2::Add))
    } else if word == b"-".as_slice() {
        Some(binary(Op2::Sub))
    } else if word == b"*".as_slice() {
        Some(binary(Op2::Mul))
    } else if word == b"div".as_slice() {
        Some(binary(Op2::Div))
    } else if word == b"mod".as_slice() {
        Some(binary(Op2::Mod))
    } else if word == b"neg".as_slice() {
        Some(Form::Operator(Operator::Unary(Op1::Neg)))
    } else {
        None
    }
}

fn truth_form(word: &[u8]) -> Option<Form>
    ensures { option_map form_in result ≡ entry_of truth_forms word.now }
{
    if word == b"=".as_slice() {
        Some(binary(Op2::Equal))
    } else if word == b"<".as_slice() {
        Some(binary(Op2::Less))
    } else if word == b"<=".as_slice() {
        Some(binary(Op2::AtMost))
    } else if word == b"and".as_slice() {
        Some(binary(Op2::And))
    } else if word == b"or".as_slice() {
        Some(binary(Op2::Or))
    } else if word == b"not".as_slice() {
        Some(Form::Operator(Operator::Unary(Op1::Not)))
    } else {
        None
    }
}

fn list_form(word: &[u8]) -> Option<Form>
    ensures { option_map form_in result ≡ entry_of list_forms word.now }
{
    if word == b"nil".as_slice() {
        Some(Form::EmptyList)
    } else if word == b"cons".as_slice() {
        Some(binary(Op2::Cons))
    } else {
        None
    }
}

fn whole_list_form(word: &[u8]) -> Option<Form>
    ensures { option_map form_in result ≡ entry_of whole_list_forms word.now }
{
    if word == b"append".as_slice() {
        Some(binary(Op2::Append))
    } else if word == b"length".as_slice() {
        Some(Form::Operator(Operator::Unary(Op1::Length)))
    } else {
        None
    }
}

fn part_form(word: &[u8]) -> Option<Form>
    ensures { option_map form_in result ≡ entry_of part_forms word.now }
{
    if word == b"pair".as_slice() {
        Some(binary(Op2::Pair))
    } else if word == b"match".as_slice() {
        Some(Form::Matching)
    } else {
        None
    }
}

fn binary(op: Op2) -> Form
    ensures { form_in result ≡ operator (binary_operator op) }
{
    Form::Operator(Operator::Binary(op))
}

/// Why a name has no form at a place: 20 there where it is known, else 22 where it stands.
pub fn unusable(names: &Names, place: Place, at: Place, word: &[u8]) -> Fault
    ensures { result ≡ faults.Refused (unusable_for (names_in names.now) place at word.now) }
{
    if is_known(names, word) {
        refusal(UNKNOWN_FORM, place)
    } else {
        refusal(UNKNOWN_NAME, at)
    }
}

/// Whether a name is reserved or declared.
pub fn is_known(names: &Names, word: &[u8]) -> bool
    ensures { result ≡ is_known_word (names_in names.now) word.now }
{
    is_reserved(word) || names.get(word).is_some()
}
