//! The generated file.

use super::{Row, all_say};
use std::test::Fail;

const EIGHT: &str = "generated: 8
attempts: 1404
properties: 8, passed 4, failed 4, gave up 0
";

const ONE: &str = "generated: 1
attempts: 100
properties: 1, passed 1, failed 0, gave up 0
";

// Two whole rounds of four: 100 attempts, 600, 1 and 1 each; the flags that shrink or tell of work decide nothing.
const GENERATED: [Row; 5] = [
    ("--generate 8", "", 1, EIGHT),
    ("--generate=8 --greedy", "", 1, EIGHT),
    ("--generate 8 --work", "", 1, EIGHT),
    ("--generate 1", "", 0, ONE),
    ("--generate 1001", "", 2, "usage: quicker [options] FILE\n"),
];

#[test]
fn generated_files(rt: HostRuntime) -> Result<(), Fail> {
    all_say(&rt, &GENERATED)
}
