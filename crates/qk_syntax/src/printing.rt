//! From trees to their canonical text.
ghost use Rattle.std.specs.Prelude.{◌≡◌, ◌++◌, ◌∷◌, [], IfOk, OnOk};
ghost use Rattle.qk_syntax.specs.Canonical.{canonical, canonical_tree, canonical_parts, Readable};
ghost use Rattle.qk_syntax.specs.PlainTrees.{PlainTrees, bares};
ghost use Rattle.qk_syntax.specs.Spelling.{Spells};
ghost use Rattle.qk_syntax.specs.View.{view, views};

use crate::tree::{Node, Tree};
use qk_base::{Bytes, Memory, Seq};
use std::alloc::Global;

/// The canonical text of trees: numbers in shortest decimal, one space between the parts of a list, a line feed after each tree.
pub fn print(alloc: Global, trees: &Seq<Tree>) -> Result<Bytes, Memory>
    requires { Readable (views trees.now.items) }
    ensures canonical { IfOk result (λ text. text.items ≡ canonical (views trees.now.items)) }
    ensures read_again { IfOk result (λ text. (again : PlainTrees) × Spells text.items again × (bares again ≡ bares (views trees.now.items))) }
{
    let mut text = Bytes::make(alloc);
    put_lines(alloc, trees.as_slice(), &mut text)?;
    Ok(text)
}

/// Each tree and a line feed after it.
pub fn put_lines(alloc: Global, trees: &[Tree], out: &mut Bytes) -> Result<(), Memory>
    ensures { OnOk result (out.new.items ≡ out.old.items ++ canonical (views trees.now)) }
{
    for tree in trees {
        put_tree(alloc, tree, out)?;
        out.append(b"\n")?;
    }
    Ok(())
}

#[cycle(print)]
fn put_tree(alloc: Global, tree: &Tree, out: &mut Bytes) -> Result<(), Memory>
    ensures { OnOk result (out.new.items ≡ out.old.items ++ canonical_tree (view tree.now)) }
{
    match &tree.node {
        Node::Number(n) => {
            let digits = format!(in alloc; "{n}")?;
            out.append(digits.as_bytes())
        }
        Node::Name(name) => out.append(name.as_slice()),
        Node::List(trees) => {
            out.append(b"(")?;
            put_parts(alloc, trees.as_slice(), out)?;
            out.append(b")")?;
            Ok(())
        }
    }
}

#[cycle(print)]
fn put_parts(alloc: Global, trees: &[Tree], out: &mut Bytes) -> Result<(), Memory>
    ensures { OnOk result (out.new.items ≡ out.old.items ++ canonical_parts (views trees.now)) }
{
    for (index, tree) in trees.iter().enumerate() {
        if index != 0 {
            out.append(b" ")?;
        }
        put_tree(alloc, tree, out)?;
    }
    Ok(())
}
