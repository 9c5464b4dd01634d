//! The variables that an expression sees.
ghost use Rattle.std.specs.Prelude.{◌≡◌, ◌<◌, Ok, Err, OnOk, IfOk, IfErr, IfSome, Some, length, map, take, if◌then◌else◌};
ghost use Rattle.std.specs.List.{list_any};
ghost use Rattle.std.specs.Str.{bytes_eq};
ghost use Rattle.qk_syntax.specs.Refusals.{IfRefusal};
ghost use Rattle.qk_syntax.specs.View.{view};
ghost use Rattle.qk_typing.specs.PartsView.{found_at, words_in};
ghost use Rattle.qk_headers.specs.Scopes.{variable_of, bind as bound, bind_all as all_bound, is_truth_word as is_truth, variable_at as variable_of_tree, new_variable as new_variable_of};
ghost use Rattle.qk_value.specs.View.{view_type};

use qk_base::{Bytes, Fault, Memory, Place, Seq};
use qk_headers::Variable;
use qk_names::{DOUBLED_NAME, UNKNOWN_FORM, refusal};
use qk_syntax::{Node, Tree};
use qk_value::Ty;
use std::alloc::Global;

/// The index of the innermost variable of a name.
pub fn innermost(scope: &[Variable], name: &[u8]) -> Option<usize>
    ensures found { variable_of scope.now name.now ≡ found_at scope.now result }
    ensures within { IfSome result (λ index. index < length scope.now) }
{
    let mut found = None;
    for index in 0..scope.len() {
        found = later(found, &scope[index], index, name);
    }
    found
}

/// A variable of that name before a variable, or that variable.
fn later(before: Option<usize>, variable: &Variable, index: usize, name: &[u8]) -> Option<usize>
    ensures { result ≡ (if bytes_eq variable.now.name name.now then Some index else before) }
{
    if variable.name.as_slice() == name {
        Some(index)
    } else {
        before
    }
}

/// The variables before, and one more.
pub fn bind(alloc: Global, scope: &mut Seq<Variable>, name: &[u8], ty: &Ty) -> Result<(), Memory>
    ensures { OnOk result (scope.new.items ≡ bound scope.old.items name.now (view_type ty.now)) }
{
    let name = copied(alloc, name)?;
    let ty = ty.copy(alloc)?;
    scope.add(Variable { name, ty })
}

/// The variables before, and then these, as far as there are both names and types.
pub fn bind_all(
    alloc: Global,
    scope: &mut Seq<Variable>,
    names: &[Bytes],
    types: &[Ty],
) -> Result<(), Memory>
    ensures { OnOk result (scope.new.items ≡ all_bound scope.old.items (words_in names.now) (map view_type types.now)) }
{
    for i in 0..names.len().min(types.len()) {
        bind(alloc, scope, names[i].as_slice(), &types[i])?;
    }
    Ok(())
}

/// The first variables alone.
pub fn unbind(scope: &mut Seq<Variable>, len: usize)
    ensures { scope.new.items ≡ take len scope.old.items }
{
    while scope.len() > len {
        let _ = scope.pop();
    }
}

/// The variable that a tree names, after these.
pub fn variable_at(alloc: Global, before: &[Bytes], tree: &Tree) -> Result<Bytes, Fault>
    ensures ok { IfOk result (λ w. variable_of_tree (words_in before.now) (view tree.now) ≡ Ok w.items) }
    ensures refused { IfErr result (λ e. IfRefusal e (λ r. variable_of_tree (words_in before.now) (view tree.now) ≡ Err r)) }
{
    match &tree.node {
        Node::Name(word) => new_variable(alloc, before, tree.place, word.as_slice()),
        _ => Err(refusal(UNKNOWN_FORM, tree.place)),
    }
}

fn new_variable(alloc: Global, before: &[Bytes], place: Place, word: &[u8]) -> Result<Bytes, Fault>
    ensures ok { IfOk result (λ w. new_variable_of (words_in before.now) place word.now ≡ Ok w.items) }
    ensures refused { IfErr result (λ e. IfRefusal e (λ r. new_variable_of (words_in before.now) place word.now ≡ Err r)) }
{
    if is_truth_word(word) || is_among(before, word) {
        return Err(refusal(DOUBLED_NAME, place));
    }
    Ok(copied(alloc, word)?)
}

/// Whether the word is `true` or `false`.
pub fn is_truth_word(word: &[u8]) -> bool
    ensures { result ≡ is_truth word.now }
{
    word == b"true".as_slice() || word == b"false".as_slice()
}

/// Whether the word is one of these.
pub fn is_among(words: &[Bytes], word: &[u8]) -> bool
    ensures { result ≡ list_any (bytes_eq word.now) (words_in words.now) }
{
    for other in words {
        if word == other.as_slice() {
            return true;
        }
    }
    false
}

/// The same word once more.
pub fn copied(alloc: Global, word: &[u8]) -> Result<Bytes, Memory>
    ensures { IfOk result (λ copy. copy.items ≡ word.now) }
{
    let mut copy = Bytes::make(alloc);
    copy.append(word)?;
    Ok(copy)
}
