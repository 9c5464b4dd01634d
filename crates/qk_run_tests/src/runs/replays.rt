//! Replay tokens.

use super::{Row, all_say};
use std::test::Fail;

const EIGHT: &str = "(prop a (forall ((x (choose 8 8))) (check (< x 5))))";

const REPLAYED: &str = "a: replayed
cause: false
attempt: 0, size 0
shrinks: 2
  x = 5
path: 2.2
replay: q1:0:0:0:0:100000:2.2
";

// Words, the file, the status and the text.
const REPLAYS: [Row; 12] = [
    ("--replay q1:0:0:0:0:100000:2.2 f", EIGHT, 1, REPLAYED),
    (
        "f --replay=q1:0:0:0:0:100000:2.2 --greedy",
        EIGHT,
        1,
        REPLAYED,
    ),
    (
        "--seed 7 --success 3 f --replay=q1:0:0:0:0:100000:2.2",
        EIGHT,
        1,
        REPLAYED,
    ),
    ("--replay q1:0:0:0:0:100000:1 f", EIGHT, 2, "refused 40\n"),
    ("--replay q1:0:0:0:0:100000:4 f", EIGHT, 2, "refused 40\n"),
    (
        "--replay q1:0:0:0:0:100000:2.2.0 f",
        EIGHT,
        2,
        "refused 40\n",
    ),
    ("--replay q1:1:0:0:0:100000:- f", EIGHT, 2, "refused 41\n"),
    ("--replay q1:0:0 g", EIGHT, 2, "refused 40\n"),
    ("--replay q1:1:0:0:0:100000:- g", EIGHT, 4, ""),
    (
        "--replay q1:1:0:0:0:100000:- f",
        "(prop a)",
        3,
        "refused 23 at 1:1\n",
    ),
    (
        "--replay q1:0:0:0:0:100000:- f",
        "(gen g () Int (g)) (prop a (forall ((x (g))) (check true)))",
        1,
        "a: replayed\ncause: out of fuel while drawing\nattempt: 0, size 0\nshrinks: 0\npath: -\nreplay: q1:0:0:0:0:100000:-\n",
    ),
    (
        "--replay q1:0:0:0:0:100000:0 f",
        "(gen g () Int (g)) (prop a (forall ((x (g))) (check true)))",
        2,
        "refused 40\n",
    ),
];

#[test]
fn replays(rt: HostRuntime) -> Result<(), Fail> {
    all_say(&rt, &REPLAYS)
}
