//! Checks that are a refusal where they do not hold, and copies of what headers say.
ghost use Rattle.std.specs.Prelude.{◌≡◌, Ok, Err, OnOk, IfOk, IfErr, ◌&&◌, nat_le, nat_eq, bytes_eq, map};
ghost use Rattle.qk_syntax.specs.PlainTrees.{count};
ghost use Rattle.qk_syntax.specs.Refusals.{IfRefusal};
ghost use Rattle.qk_syntax.specs.View.{views};
ghost use Rattle.qk_names.specs.Checks.{check};
ghost use Rattle.qk_headers.specs.Scopes.{types_of, bind as bind_variable};
ghost use Rattle.qk_value.specs.Types.{same_type};
ghost use Rattle.qk_value.specs.View.{view_type};

use crate::tables::Variable;
use qk_base::{Bytes, Fault, Memory, Place, Seq};
use qk_names::{UNKNOWN_FORM, WRONG_COUNT, refusal};
use qk_syntax::Tree;
use qk_value::Ty;
use std::alloc::Global;

/// That there are at most so many trees.
pub fn at_most(trees: &[Tree], most: usize, place: Place) -> Result<(), Fault>
    ensures ok { OnOk result (check (nat_le (count (views trees.now)) most) 23 place ≡ Ok tt) }
    ensures refused { IfErr result (λ e. IfRefusal e (λ r. check (nat_le (count (views trees.now)) most) 23 place ≡ Err r)) }
{
    if trees.len() > most {
        return Err(refusal(WRONG_COUNT, place));
    }
    Ok(())
}

/// That there are 1 to so many trees.
pub fn some_at_most(trees: &[Tree], most: usize, place: Place) -> Result<(), Fault>
    ensures ok { OnOk result (check (nat_le 1 (count (views trees.now)) && nat_le (count (views trees.now)) most) 23 place ≡ Ok tt) }
    ensures refused { IfErr result (λ e. IfRefusal e (λ r. check (nat_le 1 (count (views trees.now)) && nat_le (count (views trees.now)) most) 23 place ≡ Err r)) }
{
    if trees.is_empty() {
        return Err(refusal(WRONG_COUNT, place));
    }
    at_most(trees, most, place)
}

/// That there are so many trees.
pub fn exactly(trees: &[Tree], wanted: usize, place: Place) -> Result<(), Fault>
    ensures ok { OnOk result (check (nat_eq (count (views trees.now)) wanted) 23 place ≡ Ok tt) }
    ensures refused { IfErr result (λ e. IfRefusal e (λ r. check (nat_eq (count (views trees.now)) wanted) 23 place ≡ Err r)) }
{
    if trees.len() != wanted {
        return Err(refusal(WRONG_COUNT, place));
    }
    Ok(())
}

/// That the word is the wanted one.
pub fn reads(word: &[u8], wanted: &[u8], place: Place) -> Result<(), Fault>
    ensures ok { OnOk result (check (bytes_eq word.now wanted.now) 20 place ≡ Ok tt) }
    ensures refused { IfErr result (λ e. IfRefusal e (λ r. check (bytes_eq word.now wanted.now) 20 place ≡ Err r)) }
{
    if word == wanted {
        Ok(())
    } else {
        Err(refusal(UNKNOWN_FORM, place))
    }
}

/// Whether the types are the same.
pub fn is_same(a: &Ty, b: &Ty) -> bool
    ensures { result ≡ same_type (view_type a.now) (view_type b.now) }
{
    a.equal(b)
}

/// The bytes of a word.
pub fn bytes_of(alloc: Global, word: &[u8]) -> Result<Bytes, Memory>
    ensures { IfOk result (λ bytes. bytes.items ≡ word.now) }
{
    let mut bytes = Bytes::make(alloc);
    bytes.append(word)?;
    Ok(bytes)
}

/// Adds a variable.
pub fn bind(alloc: Global, scope: &mut Seq<Variable>, name: &[u8], ty: Ty) -> Result<(), Memory>
    ensures { OnOk result (scope.new.items ≡ bind_variable scope.old.items name.now (view_type ty)) }
{
    let name = bytes_of(alloc, name)?;
    scope.add(Variable { name, ty })
}

/// An equal variable.
fn copied(alloc: Global, variable: &Variable) -> Result<Variable, Memory>
    ensures { IfOk result (λ copy. copy ≡ variable.now) }
{
    let name = bytes_of(alloc, variable.name.as_slice())?;
    let ty = variable.ty.copy(alloc)?;
    Ok(Variable { name, ty })
}

/// The parameters as the variables that a body sees.
pub fn scope_of(alloc: Global, params: &[Variable]) -> Result<Seq<Variable>, Memory>
    ensures { IfOk result (λ scope. scope.items ≡ params.now) }
{
    let mut scope = Seq::make(alloc);
    for param in params {
        scope.add(copied(alloc, param)?)?;
    }
    Ok(scope)
}

/// The types of the parameters.
pub fn param_types(alloc: Global, params: &[Variable]) -> Result<Seq<Ty>, Memory>
    ensures { IfOk result (λ types. map view_type types.items ≡ types_of params.now) }
{
    let mut types = Seq::make(alloc);
    for param in params {
        types.add(param.ty.copy(alloc)?)?;
    }
    Ok(types)
}
