//! Texts that stand for a program, and texts that stand for none.
ghost use Rattle.std.specs.Prelude.{◌≤◌, length};

use qk_base::{Fault, Memory, Seq};
use qk_syntax::{Tree, read};
use qk_types::elaborate;
use qk_wellformed::program_of;
use std::alloc::Global;

fn is_found<T: Drop>(found: Result<T, Fault>) -> Result<bool, Memory> {
    match found {
        Ok(_) => Ok(true),
        Err(Fault::Refused(_)) => Ok(false),
        Err(Fault::Memory) => Err(Memory),
    }
}

// Whether the trees stand for a program, and whether the checks in their order let them through.
fn are_found(alloc: Global, trees: &Seq<Tree>) -> Result<(bool, bool), Memory>
    requires { length trees.now.items ≤ 1000 }
{
    let stands = is_found(program_of(alloc, trees))?;
    Ok((stands, is_found(elaborate(alloc, trees))?))
}

#[test]
fn programs_found(rt: HostRuntime) -> Result<(), Memory> {
    let alloc = rt.alloc();
    let cases: [(&[u8], bool); 6] = [
        (b"", false),
        (b"(prop p (forall ((x int)) (check (= x x))))", true),
        (b"(prop p (forall ((x int)) (check x)))", false),
        (
            b"(prop p (forall ((x int)) (check true) (given true)))",
            false,
        ),
        (
            b"(fun f ((x Int)) (List Int) (nil Int)) (prop p (forall ((x int (shrink-with f))) (given true) (check true) (cover 5 true c)))",
            true,
        ),
        (
            b"(gen g ((s Bool)) Int int) (fun pre ((s Bool) (c Int)) Bool s) (fun step ((r Int) (c Int)) Int r) (fun post ((s Bool) (c Int) (r Int)) Bool s) (model m (command Int g) (abstract Bool true pre pre) (system Int 0 step post)) (prop p (forall ((x (commands m))) (check-runs x)))",
            true,
        ),
    ];
    for (text, want) in cases {
        let trees = match read(alloc, text) {
            Ok(trees) if trees.len() <= 1000 => trees,
            _ => panic!(rt; "not read"),
        };
        assert_eq!(rt; are_found(alloc, &trees)?, (want, want));
    }
    Ok(())
}
