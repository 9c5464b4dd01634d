//! The clauses that are marks.
ghost use Rattle.std.specs.Prelude.{◌≡◌, List, Ok, Err, OnOk, IfErr};
ghost use Rattle.qk_core.specs.Properties.{BinderData};
ghost use Rattle.qk_core.specs.PropertyView.{view_mark};
ghost use Rattle.qk_syntax.specs.Refusals.{IfRefusal};
ghost use Rattle.qk_syntax.specs.View.{views};
ghost use Rattle.qk_clauses.specs.BoundView.{Sees, KeepsBound};
ghost use Rattle.qk_clauses.specs.Clauses.{with_mark, clause_parts as clause_of_parts, labels, collects, classifies, tabulates, covers};
ghost use Rattle.qk_clauses.specs.ClausesView.{clauses_in};
ghost use Rattle.qk_typing.specs.Operators.{Tables as TablesData};
ghost use Rattle.qk_typing.specs.TablesView.{tables_in};

use crate::binders::Bound;
use crate::clause_heads::Clauses;
use crate::clause_values::{any_name, class_at, percent_at, value_at};
use qk_base::{Fault, Memory, Place};
use qk_core::Mark;
use qk_headers::Tables;
use qk_names::{WRONG_COUNT, refusal};
use qk_syntax::Tree;
use std::alloc::Global;

fn add_mark(before: &mut Clauses, mark: Mark) -> Result<(), Memory>
    ensures { OnOk result (clauses_in before.new ≡ with_mark (clauses_in before.old) (view_mark mark)) }
{
    before.marks.add(mark)
}

/// The name is a label of every attempt.
pub fn label_clause(
    alloc: Global,
    before: &mut Clauses,
    place: Place,
    parts: &[Tree],
) -> Result<(), Fault>
    ensures ok { OnOk result ((d : TablesData) (bs : List BinderData) → clause_of_parts d bs (clauses_in before.old) place labels (views parts.now) ≡ Ok (clauses_in before.new)) }
    ensures refused { IfErr result (λ e. IfRefusal e (λ r. (d : TablesData) (bs : List BinderData) → clause_of_parts d bs (clauses_in before.old) place labels (views parts.now) ≡ Err r)) }
{
    let [name] = parts else {
        return Err(refusal(WRONG_COUNT, place));
    };
    let name = any_name(alloc, name)?;
    add_mark(before, Mark::Label(name))?;
    Ok(())
}

/// The text of the value is a label.
pub fn collect_clause(
    alloc: Global,
    tables: &Tables,
    bound: &mut Bound,
    before: &mut Clauses,
    place: Place,
    parts: &[Tree],
) -> Result<(), Fault>
    requires { Sees bound.old }
    ensures ok { OnOk result (clause_of_parts (tables_in tables.now) bound.old.binders.items (clauses_in before.old) place collects (views parts.now) ≡ Ok (clauses_in before.new)) }
    ensures bound { OnOk result (KeepsBound bound.old bound.new) }
    ensures refused { IfErr result (λ e. IfRefusal e (λ r. clause_of_parts (tables_in tables.now) bound.old.binders.items (clauses_in before.old) place collects (views parts.now) ≡ Err r)) }
{
    let [e] = parts else {
        return Err(refusal(WRONG_COUNT, place));
    };
    let e = value_at(alloc, tables, bound, e)?;
    add_mark(before, Mark::Collect(e.expr))?;
    Ok(())
}

/// The attempts where the expression is true are a class of that name.
pub fn classify_clause(
    alloc: Global,
    tables: &Tables,
    bound: &mut Bound,
    before: &mut Clauses,
    place: Place,
    parts: &[Tree],
) -> Result<(), Fault>
    requires { Sees bound.old }
    ensures ok { OnOk result (clause_of_parts (tables_in tables.now) bound.old.binders.items (clauses_in before.old) place classifies (views parts.now) ≡ Ok (clauses_in before.new)) }
    ensures bound { OnOk result (KeepsBound bound.old bound.new) }
    ensures refused { IfErr result (λ e. IfRefusal e (λ r. clause_of_parts (tables_in tables.now) bound.old.binders.items (clauses_in before.old) place classifies (views parts.now) ≡ Err r)) }
{
    let [e, name] = parts else {
        return Err(refusal(WRONG_COUNT, place));
    };
    let class = class_at(alloc, tables, bound, e, name)?;
    add_mark(before, Mark::Classify(class.truth, class.name))?;
    Ok(())
}

/// The text of the value is an entry of the named table.
pub fn tabulate_clause(
    alloc: Global,
    tables: &Tables,
    bound: &mut Bound,
    before: &mut Clauses,
    place: Place,
    parts: &[Tree],
) -> Result<(), Fault>
    requires { Sees bound.old }
    ensures ok { OnOk result (clause_of_parts (tables_in tables.now) bound.old.binders.items (clauses_in before.old) place tabulates (views parts.now) ≡ Ok (clauses_in before.new)) }
    ensures bound { OnOk result (KeepsBound bound.old bound.new) }
    ensures refused { IfErr result (λ e. IfRefusal e (λ r. clause_of_parts (tables_in tables.now) bound.old.binders.items (clauses_in before.old) place tabulates (views parts.now) ≡ Err r)) }
{
    let [name, e] = parts else {
        return Err(refusal(WRONG_COUNT, place));
    };
    let name = any_name(alloc, name)?;
    let e = value_at(alloc, tables, bound, e)?;
    add_mark(before, Mark::Tabulate(name, e.expr))?;
    Ok(())
}

/// So many of a hundred attempts are wanted in a class.
pub fn cover_clause(
    alloc: Global,
    tables: &Tables,
    bound: &mut Bound,
    before: &mut Clauses,
    place: Place,
    parts: &[Tree],
) -> Result<(), Fault>
    requires { Sees bound.old }
    ensures ok { OnOk result (clause_of_parts (tables_in tables.now) bound.old.binders.items (clauses_in before.old) place covers (views parts.now) ≡ Ok (clauses_in before.new)) }
    ensures bound { OnOk result (KeepsBound bound.old bound.new) }
    ensures refused { IfErr result (λ e. IfRefusal e (λ r. clause_of_parts (tables_in tables.now) bound.old.binders.items (clauses_in before.old) place covers (views parts.now) ≡ Err r)) }
{
    let [percent, e, name] = parts else {
        return Err(refusal(WRONG_COUNT, place));
    };
    let percent = percent_at(percent)?;
    let class = class_at(alloc, tables, bound, e, name)?;
    add_mark(before, Mark::Cover(percent, class.truth, class.name))?;
    Ok(())
}
