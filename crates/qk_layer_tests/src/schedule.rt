//! The calls of a course that allocate, where there is memory.

use qk_base::{Bytes, Marks, Outcome, Seq, Verdict};
use qk_schedule::{Course, Limits, QuickCourse};
use std::test::Fail;

#[test]
fn covers_of_a_pass_are_counted(rt: HostRuntime) -> Result<(), Fail> {
    let limits = Limits {
        success: 100,
        ratio: 10,
        max_size: 100,
        covers: 2,
    };
    let course = QuickCourse::make(limits);
    let mut state = course.start(rt.alloc())?;
    assert_eq!(rt; state.covers.as_slice(), [0, 0].as_slice());
    let mut covers = Seq::make(rt.alloc());
    covers.add(true)?;
    covers.add(false)?;
    let marks = Marks {
        label: Bytes::make(rt.alloc()),
        classes: Seq::make(rt.alloc()),
        entries: Seq::make(rt.alloc()),
        covers,
    };
    let verdict = Verdict::Pass;
    course.step(&mut state, &Outcome { verdict, marks });
    assert_eq!(rt; state.covers.as_slice(), [1, 0].as_slice());
    assert_eq!(rt; state.successes, 1);
    assert_eq!(rt; course.size(&state), 1);
    Ok(())
}
