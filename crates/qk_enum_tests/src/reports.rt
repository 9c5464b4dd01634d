//! Reports for one worker and for eight.

use crate::runs::says;
use std::process::Abort;
use std::test::Fail;
use std::thread::Threads;

const SUM: &str = "(prop a (forall ((x int) (y int)) (check (not (= (+ x y) 3)))))";

const SHORT: &str = "(prop a (forall ((xs (list bool))) (check (<= (length xs) 2))))";

// A tree, which has 1, 2 and 13 values at the depths 0, 1 and 2.
const TREES: &str =
    "(type T (Leaf) (Node T Int T)) (prop t (forall ((t (pure (Leaf)))) (check true)))";

// A type that leads back to itself in all of its makers has no values.
const NOTHING: &str =
    "(type T (A T)) (fun t ((n Int)) T (t n)) (prop n (forall ((x (pure (t 0)))) (check false)))";

const MANY: &str =
    "(prop m (forall ((a int) (b int) (c int) (d int) (e int) (f int) (g int) (h int) (i int) (j int)) (check true)))";

const GIVEN: &str = "(prop g (forall ((x int)) (given (< 0 x)) (check (< x 3))))";

const TWO: &str =
    "(prop p (forall ((b bool)) (check true))) (prop q (forall ((b bool)) (check b)))";

const SPINS: &str =
    "(fun spin ((n Int)) Int (spin n)) (prop s (forall ((x int)) (check (= (spin x) 0))))";

// Each generator is left aside: all values of the type are cases.
const CHOOSES: &str = "(prop c (forall ((x (choose 5 5))) (check (= x 5))))";

// Words, a file, the status and the report.
const ROWS: [(&str, &str, u8, &str); 17] = [
    (
        "--depth 2 f",
        SUM,
        1,
        "a: failed at case 8, 0 discarded\ncause: false\n  x = 1\n  y = 2\nproperties: 1, passed 0, failed 1\n",
    ),
    (
        "--depth 2 f",
        SHORT,
        0,
        "a: held in all 7 cases, 0 discarded\nproperties: 1, passed 1, failed 0\n",
    ),
    (
        "--depth 2 --cases 5 f",
        SHORT,
        0,
        "a: held in the first 5 cases, 0 discarded\nproperties: 1, passed 1, failed 0\n",
    ),
    (
        "--depth=2 --cases=7 f",
        SHORT,
        0,
        "a: held in all 7 cases, 0 discarded\nproperties: 1, passed 1, failed 0\n",
    ),
    (
        "--depth 3 f",
        SHORT,
        1,
        "a: failed at case 3, 0 discarded\ncause: false\n  xs = [false, false, false]\nproperties: 1, passed 0, failed 1\n",
    ),
    (
        "--depth 0 f",
        TREES,
        0,
        "t: held in all 1 cases, 0 discarded\nproperties: 1, passed 1, failed 0\n",
    ),
    (
        "--depth 1 f",
        TREES,
        0,
        "t: held in all 2 cases, 0 discarded\nproperties: 1, passed 1, failed 0\n",
    ),
    (
        "--depth 2 f",
        TREES,
        0,
        "t: held in all 13 cases, 0 discarded\nproperties: 1, passed 1, failed 0\n",
    ),
    (
        "--depth 8 f",
        NOTHING,
        0,
        "n: held in all 0 cases, 0 discarded\nproperties: 1, passed 1, failed 0\n",
    ),
    (
        "--depth 8 --cases 5000 f",
        MANY,
        0,
        "m: held in the first 5000 cases, 0 discarded\nproperties: 1, passed 1, failed 0\n",
    ),
    (
        "--depth 8 --cases 5000 f",
        TREES,
        0,
        "t: held in the first 5000 cases, 0 discarded\nproperties: 1, passed 1, failed 0\n",
    ),
    (
        "f",
        GIVEN,
        1,
        "g: failed at case 5, 3 discarded\ncause: false\n  x = 3\nproperties: 1, passed 0, failed 1\n",
    ),
    (
        "f --depth 2",
        GIVEN,
        0,
        "g: held in all 5 cases, 3 discarded\nproperties: 1, passed 1, failed 0\n",
    ),
    (
        "f",
        TWO,
        1,
        "p: held in all 2 cases, 0 discarded\nq: failed at case 0, 0 discarded\ncause: false\n  b = false\nproperties: 2, passed 1, failed 1\n",
    ),
    (
        "f --fuel=10",
        SPINS,
        1,
        "s: failed at case 0, 0 discarded\ncause: out of fuel\n  x = 0\nproperties: 1, passed 0, failed 1\n",
    ),
    (
        "f",
        CHOOSES,
        1,
        "c: failed at case 0, 0 discarded\ncause: false\n  x = 0\nproperties: 1, passed 0, failed 1\n",
    ),
    (
        "f",
        "(prop a (forall ((x 5)) (check true)))",
        3,
        "refused 20 at 1:21\n",
    ),
];

#[test]
fn reports_of_one_worker_and_of_eight(rt: HostRuntime) -> Result<(), Fail> {
    for (words, file, status, text) in ROWS {
        says(&rt, words, file, status, text)?;
        for workers in ["1", "8"] {
            let more = format!(in rt.alloc(); "--workers {workers} {words}")?;
            says(&rt, more.as_str(), file, status, text)?;
        }
    }
    Ok(())
}

// A type whose only value is of weight 69,905, with a binder before it and one behind it.
const HEAVY: &str = "(type A (A0))
(type B (B0 A A A A A A A A A A A A A A A A))
(type C (C0 B B B B B B B B B B B B B B B B))
(type D (D0 C C C C C C C C C C C C C C C C))
(type E (E0 D D D D D D D D D D D D D D D D))
(fun e ((n Int)) E (e n))
";

// A type with a value at each depth, of which those from number 4 on are deeper than 200.
fn deep<R: AllocGlobal>(rt: &R) -> Result<String, Fail> {
    let mut nest = String::from_str(rt.alloc(), "T")?;
    for _ in 0..50 {
        nest = format!(in rt.alloc(); "(Pair A {nest})")?;
    }
    Ok(format!(in rt.alloc(); "(type T (L) (N {nest}))\n")?)
}

fn fails_while_drawing<R: Threads + Sync + Abort + AllocGlobal>(
    rt: &R,
    binders: &str,
    report: &str,
) -> Result<(), Fail> {
    let deep = deep(rt)?;
    let file = format!(in rt.alloc(); "{HEAVY}{deep}(prop h (forall ({binders}) (check true)))")?;
    let text = format!(in rt.alloc(); "h: failed at {report}properties: 1, passed 0, failed 1\n")?;
    says(
        rt,
        "--depth 8 --workers 1 f",
        file.as_str(),
        1,
        text.as_str(),
    )?;
    says(
        rt,
        "--depth 8 --workers 8 f",
        file.as_str(),
        1,
        text.as_str(),
    )
}

#[test]
fn values_that_are_too_large(rt: HostRuntime) -> Result<(), Fail> {
    let heavy = "case 0, 0 discarded\ncause: value too large while drawing\n";
    let deep = "case 4, 0 discarded\ncause: value too deep while drawing\n";
    let after = "case 4, 0 discarded\ncause: value too deep while drawing\n  b = false\n";
    fails_while_drawing(&rt, "(x (pure (e 0)))", heavy)?;
    fails_while_drawing(&rt, "(t (pure (L)))", deep)?;
    fails_while_drawing(&rt, "(b bool) (t (pure (L)))", after)?;
    fails_while_drawing(&rt, "(x (pure (e 0))) (t (pure (L)))", heavy)?;
    fails_while_drawing(
        &rt,
        "(t (pure (L))) (x (pure (e 0)))",
        "case 0, 0 discarded\ncause: value too large while drawing\n  t = L\n",
    )
}
