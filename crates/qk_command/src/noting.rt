//! What one mark says of an attempt.
ghost use Rattle.std.specs.Prelude.{◌≡◌, ◌≤◌, IfOk, length, take};
ghost use Rattle.qk_core.specs.ExprView.{view_expr};
ghost use Rattle.qk_core.specs.PropertyView.{view_mark};
ghost use Rattle.qk_eval.specs.Meaning.{and_then, meaning, result as result_of};
ghost use Rattle.qk_command.specs.Marking.{note_of, cut as cut_text, value_text as text_of_value};
ghost use Rattle.qk_command.specs.NotesView.{note_by, note_in, noted_in};

use qk_base::{Bytes, Cause, Memory};
use qk_core::{Core, Expr, Mark};
use qk_eval::{Ending, Shared, eval_shared};
use qk_value::Kinds;
use std::alloc::Global;

/// What one mark says.
#[derive(Drop)]
pub(crate) enum Note {
    Labelled(Bytes),
    Classified(bool),
    Entered(Bytes),
    Covered(bool),
}

/// A note with the units that are left, or a crash.
#[derive(Drop)]
pub(crate) enum Noted {
    Note { note: Note, left: u32 },
    Crash(Cause),
}

/// What a mark says of a value.
#[derive(Clone, Copy, Debug, PartialEq, Eq)]
pub(crate) enum Says {
    Label,
    Class,
    Entry,
    Cover,
}

/// What a mark says of the values.
pub(crate) fn note_mark(
    alloc: Global,
    core: &Core,
    mark: &Mark,
    env: &[Shared],
    fuel: u32,
) -> Result<Noted, Memory>
    ensures { IfOk result (λ noted. noted_in noted ≡ note_of core.now.functions core.now.kinds (view_mark mark.now) env.now fuel) }
{
    match mark {
        Mark::Label(name) => {
            let note = Note::Labelled(copy(alloc, name.as_slice())?);
            Ok(Noted::Note { note, left: fuel })
        }
        Mark::Collect(expr) => note_value(alloc, core, Says::Label, expr, env, fuel),
        Mark::Classify(expr, _) => note_value(alloc, core, Says::Class, expr, env, fuel),
        Mark::Tabulate(_, expr) => note_value(alloc, core, Says::Entry, expr, env, fuel),
        Mark::Cover(_, expr, _) => note_value(alloc, core, Says::Cover, expr, env, fuel),
    }
}

fn note_value(
    alloc: Global,
    core: &Core,
    says: Says,
    expr: &Expr,
    env: &[Shared],
    fuel: u32,
) -> Result<Noted, Memory>
    ensures { IfOk result (λ noted. noted_in noted ≡ and_then (meaning core.now.functions (view_expr expr.now) env.now fuel) (λ x u. result_of (note_by says core.now.kinds x) u)) }
{
    match eval_shared(alloc, core, expr, env, fuel)? {
        Ending::Crash(cause) => Ok(Noted::Crash(cause)),
        Ending::Value { value, left } => {
            let note = note_on(alloc, core.kinds(), says, &value)?;
            Ok(Noted::Note { note, left })
        }
    }
}

fn note_on(alloc: Global, kinds: &Kinds, says: Says, value: &Shared) -> Result<Note, Memory>
    ensures { IfOk result (λ note. note_in note ≡ note_by says kinds.now value.now) }
{
    match says {
        Says::Label => Ok(Note::Labelled(text_of(alloc, kinds, value)?)),
        Says::Class => Ok(Note::Classified(value.is_true())),
        Says::Entry => Ok(Note::Entered(cut(alloc, text_of(alloc, kinds, value)?)?)),
        Says::Cover => Ok(Note::Covered(value.is_true())),
    }
}

fn text_of(alloc: Global, kinds: &Kinds, value: &Shared) -> Result<Bytes, Memory>
    ensures { IfOk result (λ text. text.items ≡ text_of_value kinds.now value.now) }
{
    let value = value.to_value(alloc)?;
    value.print(alloc, kinds)
}

fn copy(alloc: Global, text: &[u8]) -> Result<Bytes, Memory>
    ensures { IfOk result (λ copy. copy.items ≡ text.now) }
{
    let mut copy = Bytes::make(alloc);
    copy.append(text)?;
    Ok(copy)
}

/// A text of more than 64 bytes is cut to 61 and three dots.
pub(crate) fn cut(alloc: Global, text: Bytes) -> Result<Bytes, Memory>
    ensures { IfOk result (λ short. short.items ≡ cut_text text.items) }
{
    let whole = text.as_slice();
    if whole.len() > 64 {
        let mut short = copy(alloc, front(whole))?;
        short.append(b"...")?;
        return Ok(short);
    }
    Ok(text)
}

// The first 61 bytes.
fn front(text: &[u8]) -> &[u8]
    requires { 61 ≤ length text.now }
    ensures { result.now ≡ take 61 text.now }
{
    &text[..61]
}
