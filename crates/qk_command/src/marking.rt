//! The marks of an attempt that passes.
ghost use Rattle.std.specs.Prelude.{◌≡◌, ◌++◌, ◌∷◌, [], List, IfOk, OnOk, map};
ghost use Rattle.qk_core.specs.PropertyView.{view_mark};
ghost use Rattle.qk_command.specs.Judging.{verdict_on};
ghost use Rattle.qk_command.specs.Marking.{Note as PlainNote, notes_of, marked};
ghost use Rattle.qk_command.specs.NotesView.{StandsFor, note_in, judged_in, separator};
ghost use Rattle.qk_command.specs.Steps.{goes_on, with_value};

use crate::noting::{Note, Noted, cut, note_mark};
use qk_base::{Bytes, Cause, Marks, Memory, Seq};
use qk_core::{Core, Mark};
use qk_eval::Shared;
use std::alloc::Global;

/// What the marks say so far: the joined texts of labels, whether there is one, and the rest in the order of the clauses.
#[derive(Drop)]
pub(crate) struct Notes {
    label: Bytes,
    labelled: bool,
    classes: Seq<bool>,
    entries: Seq<Bytes>,
    covers: Seq<bool>,
}

impl Notes {
    /// Nothing.
    fn make(alloc: Global) -> Notes
        ensures { StandsFor result [] }
    {
        Notes {
            label: Bytes::make(alloc),
            labelled: false,
            classes: Seq::make(alloc),
            entries: Seq::make(alloc),
            covers: Seq::make(alloc),
        }
    }

    /// One more note.
    #[tactic(auto, using(crate::proofs::Notes::class_added, crate::proofs::Notes::entry_added, crate::proofs::Notes::cover_added))]
    fn add(&mut self, note: Note) -> Result<(), Memory>
        ensures { OnOk result ((ns : List PlainNote) → StandsFor self.old ns → StandsFor self.new (ns ++ note_in note ∷ [])) }
    {
        match note {
            Note::Labelled(text) => self.add_text(text.as_slice()),
            Note::Classified(holds) => {
                self.classes.add(holds)?;
                Ok(())
            }
            Note::Entered(text) => {
                self.entries.add(text)?;
                Ok(())
            }
            Note::Covered(holds) => {
                self.covers.add(holds)?;
                Ok(())
            }
        }
    }

    // One more text of a label.
    fn add_text(&mut self, text: &[u8]) -> Result<(), Memory>
        ensures { OnOk result ((ns : List PlainNote) → StandsFor self.old ns → StandsFor self.new (ns ++ PlainNote.labelled text.now ∷ [])) }
    {
        separate(&mut self.label, self.labelled)?;
        self.label.append(text)?;
        self.labelled = true;
        Ok(())
    }

    /// The marks, with the joined label cut.
    fn into_marks(self, alloc: Global) -> Result<Marks, Memory>
        ensures { IfOk result (λ marks. (ns : List PlainNote) → StandsFor self ns → marks ≡ marked ns) }
    {
        let label = cut(alloc, self.label)?;
        Ok(Marks {
            label,
            classes: self.classes,
            entries: self.entries,
            covers: self.covers,
        })
    }
}

// A comma after what is there, if anything is.
fn separate(label: &mut Bytes, labelled: bool) -> Result<(), Memory>
    ensures { OnOk result (label.new.items ≡ label.old.items ++ separator labelled) }
{
    if labelled {
        return label.append(b", ");
    }
    Ok(())
}

/// What all marks come to: the marks of an attempt that passes, or a crash.
pub(crate) fn mark_all(
    alloc: Global,
    core: &Core,
    marks: &[Mark],
    env: &[Shared],
    fuel: u32,
) -> Result<Result<Marks, Cause>, Memory>
    ensures { IfOk result (λ made. judged_in made ≡ verdict_on (with_value (notes_of core.now.functions core.now.kinds (map view_mark marks.now) env.now fuel) goes_on)) }
{
    let mut notes = Notes::make(alloc);
    let mut left = fuel;
    for one in marks {
        match note_mark(alloc, core, one, env, left)? {
            Noted::Crash(cause) => return Ok(Err(cause)),
            Noted::Note { note, left: rest } => {
                notes.add(note)?;
                left = rest;
            }
        }
    }
    Ok(Ok(notes.into_marks(alloc)?))
}
