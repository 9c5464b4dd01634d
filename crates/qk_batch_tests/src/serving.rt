//! Jobs that are fed one after another, and answered by many takers.

use qk_base::{Bytes, LoadFault, Memory};
use qk_pool::{Feed, Task, serve};
use std::alloc::Global;
use std::test::Fail;

// The input of a number is the number, as one byte. One number may fail.
#[derive(Drop)]
struct Numbers {
    alloc: Global,
    failing: u32,
    faults: u64,
}

impl Feed for Numbers {
    ghost use Rattle.std.specs.Prelude.{None, []};

    ghost faults = { λ feed n. feed.faults };

    ghost inputs = { λ feed n. None };

    ghost made = { λ feed. [] };

    fn next(&mut self, number: u32) -> Result<Bytes, LoadFault> {
        if number == self.failing {
            self.faults = self.faults.saturating_add(1);
            return Err(LoadFault::Failed);
        }
        let mut bytes = Bytes::make(self.alloc);
        bytes.add((number % 256) as u8)?;
        Ok(bytes)
    }
}

// The answer is the number before its input.
struct Pair;

impl Task for Pair {
    ghost use Rattle.std.specs.Prelude.{⊤};

    type Answer = (u32, u8);

    ghost ready = { λ task. ⊤ };

    ghost answers = { λ task number input answer. ⊤ };

    fn perform(&self, number: u32, input: &Bytes) -> Result<(u32, u8), Memory> {
        Ok((number, input.get(0).copied().unwrap_or(77)))
    }
}

// How many jobs, how many takers, and the number that fails.
const ROWS: [(u32, u32, u32); 9] = [
    (1, 1, 999),
    (1, 64, 999),
    (100, 1, 999),
    (100, 2, 999),
    (256, 5, 999),
    (256, 64, 999),
    (100, 3, 0),
    (100, 3, 99),
    (100, 1, 50),
];

#[test]
fn each_answer_in_its_place(rt: HostRuntime) -> Result<(), Fail> {
    for (count, takers, failing) in ROWS {
        let mut feed = Numbers {
            alloc: rt.alloc(),
            failing,
            faults: 0,
        };
        let told = serve(&rt, rt.alloc(), &Pair, &mut feed, count, takers);
        match told {
            Err(fault) => {
                assert_eq!(rt; fault, LoadFault::Failed);
                assert_eq!(rt; feed.faults, 1, "{count} {takers} {failing}");
                assert!(rt; failing < count, "{count} {takers} {failing}");
            }
            Ok(answers) => {
                assert!(rt; failing >= count, "{count} {takers} {failing}");
                assert_eq!(rt; answers.len(), count as usize);
                for (index, answer) in answers.as_slice().iter().enumerate() {
                    assert_eq!(rt; answer.0 as usize, index);
                    assert_eq!(rt; answer.1 as usize, index);
                }
            }
        }
    }
    Ok(())
}
