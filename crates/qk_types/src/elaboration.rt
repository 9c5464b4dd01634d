//! The checked program that trees stand for, or the first check that does not hold.
ghost use Rattle.std.specs.Prelude.{◌≡◌, ◌≤◌, Ok, Err, IfOk, IfErr, length};
ghost use Rattle.qk_syntax.specs.Refusals.{IfRefusal};
ghost use Rattle.qk_syntax.specs.View.{views};
ghost use Rattle.qk_types.specs.DraftView.{draft_in, size_of};
ghost use Rattle.qk_types.specs.Elaboration.{elaborated};

use crate::bodies::{Draft, bodies_of};
use qk_base::{Fault, Seq};
use qk_core::Core;
use qk_headers::{Headers, Tables, headers_of};
use qk_names::names_of;
use qk_syntax::Tree;
use std::alloc::Global;

/// The checked program of a file's trees, or the first fault by the written order of checks: of all names, then of all headers,
/// then of all bodies. A file has at most 1,000 items.
pub fn elaborate(alloc: Global, trees: &Seq<Tree>) -> Result<Core, Fault>
    requires { length trees.now.items ≤ 1000 }
    ensures program { IfOk result (λ core. elaborated (views trees.now.items) ≡ Ok core) }
    ensures refused { IfErr result (λ e. IfRefusal e (λ r. elaborated (views trees.now.items) ≡ Err r)) }
{
    let items = trees.as_slice();
    let names = names_of(alloc, items)?;
    let headers = headers_of(alloc, &names, items)?;
    let tables = Tables { names, headers };
    let draft = bodies_of(alloc, &tables, items)?;
    Ok(core_of(tables.headers, draft))
}

/// The program of these kinds and bodies.
fn core_of(headers: Headers, draft: Draft) -> Core
    requires { size_of draft ≤ 1000 }
    ensures { result ≡ draft_in headers.kinds draft }
{
    let Draft {
        functions,
        generators,
        models,
        properties,
    } = draft;
    Core::of_tables(headers.kinds, functions, generators, models, properties)
}
