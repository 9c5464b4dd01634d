//! Texts with what is read of them, worked out by hand.
ghost use Rattle.std.specs.Prelude.{◌≡◌, IfOk};
ghost use Rattle.qk_syntax.specs.PlainTrees.{list, more, end};
ghost use Rattle.qk_syntax.specs.View.{views};

use crate::printing::put_lines;
use crate::{Node, Tree, print, read};
use qk_base::{Bytes, Fault, Memory, Place, Seq};
use std::alloc::Global;

/// The canonical text of what is read, or the refusal as a report prints it.
fn reply(alloc: Global, bytes: &[u8]) -> Result<Bytes, Memory> {
    let mut out = Bytes::make(alloc);
    match read(alloc, bytes) {
        Ok(trees) => put_lines(alloc, trees.as_slice(), &mut out)?,
        Err(Fault::Memory) => return Err(Memory),
        Err(Fault::Refused(r)) => {
            let text = format!(in alloc;
                "refused {} at {}:{}",
                r.code, r.place.line, r.place.column
            )?;
            out.append(text.as_bytes())?;
        }
    }
    Ok(out)
}

/// A front, a piece as often as told, and an end.
fn repeated(
    alloc: Global,
    front: &[u8],
    piece: &[u8],
    times: u32,
    end: &[u8],
) -> Result<Bytes, Memory> {
    let mut out = Bytes::make(alloc);
    out.append(front)?;
    for _ in 0..times {
        out.append(piece)?;
    }
    out.append(end)?;
    Ok(out)
}

#[test]
fn short_texts(rt: HostRuntime) -> Result<(), Memory> {
    let alloc = rt.alloc();
    let cases: [(&[u8], &[u8]); 32] = [
        (b"", b""),
        (b"( a -007 ; c\n b)", b"(a -7 b)\n"),
        (b"(prop a))", b"refused 3 at 1:9"),
        (b"(prop a", b"refused 4 at 1:1"),
        (b"9223372036854775807", b"9223372036854775807\n"),
        (b" 9223372036854775808", b"refused 6 at 1:2"),
        (b"-9223372036854775808", b"-9223372036854775808\n"),
        (b"-9223372036854775809", b"refused 6 at 1:1"),
        (b"00000000000000000000000000012", b"12\n"),
        (b"99999999999999999999999999x", b"refused 5 at 1:1"),
        (b"-0", b"0\n"),
        (b"-", b"-\n"),
        (b"--5 +5 a-b", b"--5\n+5\na-b\n"),
        (b"12a", b"refused 5 at 1:1"),
        (b"-1-", b"refused 5 at 1:1"),
        (b"12a\x80", b"refused 5 at 1:1"),
        (b"\x80", b"refused 2 at 1:1"),
        (b")\"", b"refused 3 at 1:1"),
        (b"a\"b", b"refused 2 at 1:2"),
        (b"; \x80 \" )\na;b", b"a\n"),
        (b"(a;)", b"refused 4 at 1:1"),
        (b"(a;)\n)", b"(a)\n"),
        (b"\ta\r\nb\r", b"a\nb\n"),
        (b"a\n\x80 )", b"refused 2 at 2:1"),
        (b"a\n) \x80", b"refused 3 at 2:1"),
        (b"a b\n\n\t\xc3\xa9", b"refused 2 at 3:2"),
        (b";\xc3\xa9\xc3\xa9\n;\xc3\xa9\r)\n)", b"refused 3 at 3:1"),
        (b"(\xc3", b"refused 2 at 1:2"),
        (b"(1 (2 (3", b"refused 4 at 1:7"),
        (b"((a)(b", b"refused 4 at 1:5"),
        (b"(()()((x)))7", b"(() () ((x)))\n7\n"),
        (b"\"(", b"refused 2 at 1:1"),
    ];
    for (text, want) in cases {
        assert_eq!(rt; reply(alloc, text)?.as_slice(), want);
    }
    Ok(())
}

#[test]
fn texts_at_the_limits(rt: HostRuntime) -> Result<(), Memory> {
    let alloc = rt.alloc();
    let cases: [(&[u8], u32, &[u8], &[u8]); 14] = [
        (b" ", 1048576, b"", b""),
        (b" ", 1048576, b" ", b"refused 1 at 1:1"),
        (b"\x80", 1048577, b"", b"refused 1 at 1:1"),
        (b"(", 200, b"", b"refused 4 at 1:200"),
        (b"(", 201, b"", b"refused 8 at 1:201"),
        (b"(", 200, b"a", b"refused 4 at 1:200"),
        (b"0 ", 1001, b"", b"refused 9 at 1:2001"),
        (b"0 ", 1000, b"(", b"refused 9 at 1:2001"),
        (b"0 ", 1000, b")", b"refused 3 at 1:2001"),
        (b"0 ", 1000, b"12a", b"refused 5 at 1:2001"),
        (b"(0)", 1000, b"x", b"refused 9 at 1:3001"),
        (b"a", 64, b"(", b"refused 4 at 1:65"),
        (b"a", 65, b"", b"refused 7 at 1:1"),
        (b"0", 1048576, b"", b"0\n"),
    ];
    for (piece, times, end, want) in cases {
        let text = repeated(alloc, b"", piece, times, end)?;
        assert_eq!(rt; reply(alloc, text.as_slice())?.as_slice(), want);
    }
    let most = repeated(alloc, b"", b"0\n", 1000, b";1")?;
    let lines = repeated(alloc, b"", b"0\n", 1000, b"")?;
    assert_eq!(rt; reply(alloc, most.as_slice())?.as_slice(), lines.as_slice());
    Ok(())
}

#[test]
fn deepest_lists(rt: HostRuntime) -> Result<(), Memory> {
    let alloc = rt.alloc();
    let ends = repeated(alloc, b"", b")", 200, b"\n")?;
    let text = repeated(alloc, b"", b"(", 200, ends.as_slice())?;
    assert_eq!(rt; reply(alloc, text.as_slice())?.as_slice(), text.as_slice());
    Ok(())
}

#[test]
fn a_megabyte(rt: HostRuntime) -> Result<(), Memory> {
    let alloc = rt.alloc();
    let text = repeated(alloc, b"(7\n", b"a 7\n", 262143, b")")?;
    assert_eq!(rt; text.len(), 1048576);
    match read(alloc, text.as_slice()) {
        Ok(trees) => {
            let inside = match trees.get(0) {
                Some(tree) => match &tree.node {
                    Node::List(parts) => parts.len(),
                    _ => 0,
                },
                None => 0,
            };
            assert_eq!(rt; inside, 524287);
        }
        Err(_) => assert_eq!(rt; 0, 1),
    }
    Ok(())
}

/// The trees of the text `()`.
fn empty_list(alloc: Global) -> Result<Seq<Tree>, Memory>
    ensures { IfOk result (λ trees. views trees.items ≡ more (list (record { line = 1; column = 1 }) end) end) }
{
    let mut trees = Seq::make(alloc);
    trees.add(Tree {
        place: Place { line: 1, column: 1 },
        node: Node::List(Seq::make(alloc)),
    })?;
    Ok(trees)
}

#[test]
fn prints_a_list(rt: HostRuntime) -> Result<(), Memory> {
    let alloc = rt.alloc();
    let trees = empty_list(alloc)?;
    assert_eq!(rt; print(alloc, &trees)?.as_slice(), b"()\n".as_slice());
    Ok(())
}

#[test]
fn places_of_parts(rt: HostRuntime) -> Result<(), Memory> {
    let alloc = rt.alloc();
    let mut found = Place { line: 0, column: 0 };
    if let Ok(trees) = read(alloc, b"; x\n  (ab\n\t-1)") {
        if let Some(tree) = trees.get(0) {
            if let Node::List(parts) = &tree.node {
                if let Some(part) = parts.get(1) {
                    found = part.place;
                }
            }
        }
    }
    assert_eq!(rt; found, Place { line: 3, column: 2 });
    Ok(())
}
