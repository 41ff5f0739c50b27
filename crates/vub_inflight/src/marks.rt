ghost use Rattle.std.specs.Prelude.{◌≡◌, ◌<◌, ◌≤◌, ◌+◌, ◌^◌, ◌==◌, false, IfOk, length};
ghost use Rattle.vub_inflight.specs.Order.{flying_from, has_twins, heads_of, is_spent, marks_of, next_after};

use crate::mark::Mark;
use crate::resumed::Heads;
use crate::slot::Slot;
use std::alloc::Global;
use vub_base::OutOfMemory;

/// The heads in flight with their counters, in the order of the table.
#[tactic(auto, using(crate::proofs::Reading::flying_end))]
fn flying(alloc: Global, slots: &[Slot]) -> Result<Vec<Mark>, OutOfMemory>
    requires { length slots.now < 2 ^ 16 }
    ensures { IfOk result (λ m. m.items ≡ flying_from 0 slots.now) }
{
    let mut marks = Vec::new(alloc);
    for head in 0..slots.len() {
        let slot = slots[head];
        if slot.in_flight {
            marks.push(Mark {
                counter: slot.counter,
                head: head as u16,
            })?;
        }
    }
    Ok(marks)
}

/// The heads in flight with their counters, in the order of these.
pub(crate) fn sorted_marks(alloc: Global, slots: &[Slot]) -> Result<Vec<Mark>, OutOfMemory>
    requires { length slots.now < 2 ^ 16 }
    ensures { IfOk result (λ m. m.items ≡ marks_of slots.now) }
{
    let mut marks = flying(alloc, slots)?;
    marks.sort_unstable();
    Ok(marks)
}

/// Whether two of the marks, which stand in order, have one counter.
pub(crate) fn twins(marks: &[Mark]) -> bool
    ensures { result ≡ has_twins marks.now }
{
    for i in 1..marks.len() {
        if marks[i - 1].counter == marks[i].counter {
            return true;
        }
    }
    false
}

/// Whether one of the counters is the greatest, 2^64 - 1.
pub(crate) fn spent(marks: &[Mark]) -> bool
    ensures { result ≡ is_spent marks.now }
{
    marks.iter().any(|m| m.counter == u64::MAX)
}

/// The counter after the greatest of marks that stand in order.
pub(crate) fn counter_after(marks: &[Mark]) -> u64
    requires { is_spent marks.now ≡ false }
    ensures { result ≡ next_after marks.now }
{
    if marks.is_empty() {
        return 0;
    }
    marks[marks.len() - 1].counter + 1
}

/// The heads of the marks.
pub(crate) fn heads(alloc: Global, marks: &[Mark]) -> Result<Heads, OutOfMemory>
    ensures { IfOk result (λ h. h ≡ heads_of marks.now) }
{
    let items: Vec<u16> = marks.iter().map(|m| m.head).collect(alloc)?;
    Ok(Heads::from_vec(items))
}
