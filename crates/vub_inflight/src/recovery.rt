ghost use Rattle.std.specs.Prelude.{◌≡◌, ◌⊎◌, ◌<◌, ◌+◌, false, IfOk, IsSome, length};
ghost use Rattle.vub_inflight.specs.Order.{is_spent, marks_of};
ghost use Rattle.vub_inflight.specs.Recover.{IsOrNoMemory, live_slots, recover_from, recovered, resumed_of};

use crate::bytes::{FRONT_LEN, SLOT_LEN, VERSION, flags_are_bits, read_slots, word};
use crate::error::RecoverError;
use crate::mark::Mark;
use crate::marks::{counter_after, heads, sorted_marks, spent, twins};
use crate::resumed::Resumed;
use crate::ring::{InflightRing, resume};
use crate::slot::{IDLE, Slot};
use std::alloc::Global;
use vub_base::OutOfMemory;
use vub_mem::{DirtyLog, GuestMemory};
use vub_queue::Queue;

/// The slots without that of the last head, where its use was published and not settled.
fn live(mut slots: Vec<Slot>, last: u16, used: u16, index: u16) -> Vec<Slot>
    requires { last < length slots.items }
    ensures { result.items ≡ live_slots slots.items last used index }
{
    if index != used {
        slots[last as usize] = IDLE;
    }
    slots
}

/// Goes on from what a record says of its last head, its used index and its slots.
fn recover_slots<L: DirtyLog>(
    alloc: Global,
    queue: Queue,
    memory: &GuestMemory<L>,
    last: u16,
    used: u16,
    slots: Vec<Slot>,
) -> Result<Resumed, RecoverError>
    requires addresses { IsSome queue.addresses }
    requires slots { length slots.items ≡ queue.size }
    ensures { IsOrNoMemory result (recover_from queue memory.now.guest last used slots.items) }
{
    if last >= queue.size() {
        return Err(RecoverError::Head);
    }
    let marks = sorted_marks(alloc, &slots)?;
    if twins(&marks) {
        return Err(RecoverError::Counter);
    }
    let Ok(index) = queue.used_idx(memory) else {
        return Err(RecoverError::Outside);
    };
    if index != used && index != used.wrapping_add(1) {
        return Err(RecoverError::UsedMoved);
    }
    let slots = live(slots, last, used, index);
    let marks = sorted_marks(alloc, &slots)?;
    if spent(&marks) {
        return Err(RecoverError::CounterSpent);
    }
    let resumed = resume(alloc, queue, last, index, slots, &marks)?;
    Ok(resumed)
}

/// The ring that goes on after a cut, from its record and guest memory, and the heads of the entries that are to be
/// served again, in the order in which they were taken. The queue is set up as the one that was cut: its size is the
/// same, and its addresses are set. Its numbers are not read, but set: next used is the used index in memory, and next
/// available is as many beyond it as entries are to be served again.
///
/// Where the used index in memory is one after that of the record, the last head was published before the cut, and is
/// not served again. The features and the ignored bytes of the record are not read.
///
/// # Errors
/// The first test of [`RecoverError`], in its order, that fails; want of memory.
#[tactic(auto, using(crate::proofs::Runs::length_slots_in), unfolding(crate::specs::Recover::recovered))]
pub fn recover<L: DirtyLog>(
    alloc: Global,
    bytes: &[u8],
    queue: Queue,
    memory: &GuestMemory<L>,
) -> Result<Resumed, RecoverError>
    requires { IsSome queue.addresses }
    ensures { IsOrNoMemory result (recovered bytes.now queue memory.now.guest) }
{
    let size = queue.size();
    if bytes.len() != FRONT_LEN + SLOT_LEN * size as usize {
        return Err(RecoverError::Length);
    }
    if word(bytes, 8) != VERSION {
        return Err(RecoverError::Version);
    }
    if word(bytes, 10) != size {
        return Err(RecoverError::Size);
    }
    let rest = bytes.split_at(FRONT_LEN).1;
    if !flags_are_bits(rest, size) {
        return Err(RecoverError::Flag);
    }
    let slots = read_slots(alloc, rest, size)?;
    recover_slots(
        alloc,
        queue,
        memory,
        word(bytes, 12),
        word(bytes, 14),
        slots,
    )
}
