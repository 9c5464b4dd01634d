//! The answers in their places.
ghost use Rattle.std.specs.Prelude.{◌≡◌, ℕ, ◌+◌, ◌<◌, ◌≤◌, ◌⊎◌, true, false, [], ◌∷◌, length, IfOk};
ghost use Rattle.qk_scan.specs.Each.{Each};
ghost use Rattle.qk_scan.specs.Work.{answered};
ghost use Rattle.qk_scan.specs.Slots.{AreRight, IsFilled};
ghost use Rattle.qk_scan.specs.Prefix.{prefix_to_hit, answers_from};

use crate::found::Found;
use crate::jobs::Jobs;
use qk_base::{Memory, Seq};
use std::alloc::Global;

/// A slot for each job, without an answer.
pub fn empty_slots<J: Jobs>(alloc: Global, jobs: &J) -> Result<Vec<Option<J::Answer>>, Memory>
    ensures { IfOk result (λ v. (length v.items ≡ J.total jobs.now) × AreRight (J.answer_at jobs.now) v.items) }
{
    let count = jobs.count();
    let mut slots = Vec::with_capacity(alloc, count as usize)?;
    let mut made = 0;
    while made < count {
        if slots.push(None).is_err() {
            return Err(Memory);
        }
        made += 1;
    }
    Ok(slots)
}

/// Puts an answer into the slot of its number.
fn put_one<J: Jobs>(jobs: &J, slots: &mut Vec<Option<J::Answer>>, number: u32, answer: J::Answer)
    requires right { AreRight (J.answer_at jobs.now) slots.old.items }
    requires truth { answer ≡ J.answer_at jobs.now number }
    ensures right { AreRight (J.answer_at jobs.now) slots.new.items }
    ensures len { length slots.new.items ≡ length slots.old.items }
    ensures stays { (n : ℕ) → IsFilled slots.old.items n → IsFilled slots.new.items n }
    ensures here { number < length slots.old.items → IsFilled slots.new.items number }
{
    let _ = jobs;
    let at = number as usize;
    if at >= slots.len() {
        return;
    }
    slots[at] = Some(answer);
}

/// Puts each answer into the slot of its number.
pub fn put_all<J: Jobs>(
    jobs: &J,
    mut found: Seq<Found<J::Answer>>,
    slots: &mut Vec<Option<J::Answer>>,
)
    requires right { AreRight (J.answer_at jobs.now) slots.old.items }
    requires truth { Each (λ f. f.answer ≡ J.answer_at jobs.now f.number) found.items }
    ensures right { AreRight (J.answer_at jobs.now) slots.new.items }
    ensures len { length slots.new.items ≡ length slots.old.items }
    ensures stays { (n : ℕ) → IsFilled slots.old.items n → IsFilled slots.new.items n }
    ensures filled { (n : ℕ) → n < length slots.new.items → 0 < answered n found.items → IsFilled slots.new.items n }
{
    while let Some(next) = found.pop() {
        let Found { number, answer } = next;
        put_one(jobs, slots, number, answer);
    }
}

/// The answers up to the bound, in order.
pub fn collect<J: Jobs>(
    jobs: &J,
    bound: u32,
    mut slots: Vec<Option<J::Answer>>,
    mut found: Seq<J::Answer>,
) -> Result<Seq<J::Answer>, Memory>
    requires slots { (length slots.items ≡ J.total jobs.now) × AreRight (J.answer_at jobs.now) slots.items }
    requires filled { (n : ℕ) → n < J.total jobs.now → n ≤ bound → IsFilled slots.items n }
    requires misses { (n : ℕ) → n < bound → J.hits jobs.now (J.answer_at jobs.now n) ≡ false }
    requires bound { (bound ≡ J.total jobs.now) ⊎ (J.hits jobs.now (J.answer_at jobs.now bound) ≡ true) }
    requires found { found.items ≡ [] }
    ensures { IfOk result (λ v. v.items ≡ prefix_to_hit (J.hits jobs.now) (answers_from (J.answer_at jobs.now) 0 (J.total jobs.now))) }
{
    let count = jobs.count();
    let mut index = 0;
    while index < count {
        let Some(answer) = slots[index as usize].take() else {
            unreachable!()
        };
        found.add(answer)?;
        if index == bound {
            return Ok(found);
        }
        index += 1;
    }
    Ok(found)
}
