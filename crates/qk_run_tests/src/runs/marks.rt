//! Labels, classes, tables and covers of whole runs.

use super::{Row, all_say, says};
use std::alloc::Global;
use std::test::Fail;

const COVERS: &str = "(prop a (forall ((x (choose 0 0))) (check (< x 0))))
(prop b (forall ((x (choose 0 0))) (check true) (cover 50 (= x 1) one)))";

const COVERS_REPORT: &str = "a: failed after 1 test, 0 discarded
cause: false
attempt: 0, size 0
shrinks: 0, tried 0
  x = 0
path: -
replay: q1:0:0:0:0:100000:-
b: passed 100 tests, 0 discarded
cover one: 0 of 100, wanted 50%, not met
properties: 2, passed 1, failed 1, gave up 0
";

const MARKS: &str = "(prop a (forall ((x size)) (check true)
  (classify (< x 50) small) (tabulate parity (mod x 2)) (label seen) (classify (< x 0) none) (cover 60 (< x 50) small)))";

const MARKS_REPORT: &str = "a: passed 100 tests, 0 discarded
labels:
      100 100% seen
classes:
       50  50% small
table parity:
       50  50% 0
       50  50% 1
cover small: 50 of 100, wanted 60%, not met
properties: 1, passed 1, failed 0, gave up 0
";

const RUNS: [Row; 3] = [
    ("f", COVERS, 1, COVERS_REPORT),
    ("f", MARKS, 0, MARKS_REPORT),
    (
        "--success 1 --ratio 1 f",
        "(prop a (forall ((x int)) (given false) (check true)))",
        1,
        "a: gave up after 0 tests, 1 discarded\nproperties: 1, passed 0, failed 0, gave up 1\n",
    ),
];

#[test]
fn marks_of_every_kind(rt: HostRuntime) -> Result<(), Fail> {
    all_say(&rt, &RUNS)
}

// Two rounds of the sizes 0 to 99, and then 0, 2, 4 and so on: even numbers came up three times, odd ones twice.
#[test]
fn sizes_of_250_tests(rt: HostRuntime) -> Result<(), Fail> {
    let mut text = String::from_str(rt.alloc(), "a: passed 250 tests, 0 discarded\nlabels:\n")?;
    text.push_str(rows(rt.alloc(), "        3   1% ", EVEN)?.as_str())?;
    text.push_str(rows(rt.alloc(), "        2   0% ", ODD)?.as_str())?;
    text.push_str("properties: 1, passed 1, failed 0, gave up 0\n")?;
    says(
        &rt,
        "--success 250 f",
        "(prop a (forall ((x size)) (check true) (collect x)))",
        0,
        text.as_str(),
    )
}

// The texts of the even and of the odd numbers below 100 in the order of their bytes.
const EVEN: &str =
    "0 10 12 14 16 18 2 20 22 24 26 28 30 32 34 36 38 4 40 42 44 46 48 50 52 54 56 58 6 60 62 64 66 68 70 72 74 76 78 8 80 82 84 86 88 90 92 94 96 98";

const ODD: &str =
    "1 11 13 15 17 19 21 23 25 27 29 3 31 33 35 37 39 41 43 45 47 49 5 51 53 55 57 59 61 63 65 67 69 7 71 73 75 77 79 81 83 85 87 89 9 91 93 95 97 99";

fn rows(alloc: Global, count: &str, texts: &str) -> Result<String, Fail> {
    let mut lines = String::new(alloc);
    for text in texts.split(' ') {
        lines.push_str(count)?;
        lines.push_str(text)?;
        lines.push('\n')?;
    }
    Ok(lines)
}

// Each odd size is discarded ten times, then the size is the next one.
#[test]
fn even_sizes(rt: HostRuntime) -> Result<(), Fail> {
    let mut text = String::from_str(rt.alloc(), "a: passed 100 tests, 500 discarded\nlabels:\n")?;
    text.push_str(rows(rt.alloc(), "        2   2% ", TWICE)?.as_str())?;
    text.push_str(
        "        1   1% 0\n        1   1% 100\nproperties: 1, passed 1, failed 0, gave up 0\n",
    )?;
    says(
        &rt,
        "f",
        "(prop a (forall ((x size)) (given (= (mod x 2) 0)) (check true) (collect x)))",
        0,
        text.as_str(),
    )
}

const TWICE: &str =
    "10 12 14 16 18 2 20 22 24 26 28 30 32 34 36 38 4 40 42 44 46 48 50 52 54 56 58 6 60 62 64 66 68 70 72 74 76 78 8 80 82 84 86 88 90 92 94 96 98";
