ghost use Rattle.std.specs.Prelude.{◌≡◌, ◌+◌, ◌<◌, ◌++◌, true, length};
ghost use Rattle.std.specs.Int.{w32, to_le_bytes};
ghost use Rattle.vub_mem.specs.Marks.{MarksAll, page_marks, marks_of};
ghost use Rattle.vub_mem.specs.Place.{covers, write_at};
ghost use Rattle.vub_queue.specs.Put.{used_covers, used_marks, write_used};

use crate::layout::used_element_place;
use crate::queue::Queue;
use vub_mem::{DirtyLog, GuestMemory};

/// The bytes of a used element.
fn element_bytes(head: u16, len: u32) -> [u8; 8]
    ensures { result ≡ to_le_bytes w32 head ++ to_le_bytes w32 len }
{
    let a = (head as u32).to_le_bytes();
    let b = len.to_le_bytes();
    [a[0], a[1], a[2], a[3], b[0], b[1], b[2], b[3]]
}

/// Whether the element and the index word of the next use are covered.
#[tactic(auto, unfolding(crate::specs::Put::used_covers))]
pub(crate) fn use_is_covered<L: DirtyLog>(memory: &GuestMemory<L>, queue: &Queue) -> bool
    ensures { result ≡ used_covers memory.now.guest.regions queue.now }
{
    let at = queue.placed();
    let slot = queue.next_used() % queue.size();
    memory
        .locate(at.used, used_element_place(slot), 8)
        .is_some()
        && memory.locate(at.used, 2, 2).is_some()
}

/// Writes bytes of a covered range that lies `offset` behind `base`.
fn write_behind<L: DirtyLog>(memory: &mut GuestMemory<L>, base: u64, offset: u64, bytes: &[u8])
    requires some { 0 < length bytes.now }
    requires covered { covers memory.old.guest.regions (base + offset) (length bytes.now) ≡ true }
    ensures guest { memory.new.guest ≡ write_at memory.old.guest (base + offset) bytes.now }
    ensures regions { memory.new.guest.regions ≡ memory.old.guest.regions }
    ensures logs { MarksAll (page_marks L.byte_len L.marks) memory.old.logs
        (marks_of memory.old.guest.regions (base + offset) (length bytes.now)) memory.new.logs }
{
    let Some(at) = memory.locate(base, offset, bytes.len() as u64) else {
        unreachable!()
    };
    memory.write_covered(at, bytes);
}

/// Writes the element of the next use, and then the index word.
#[tactic(auto, unfolding(crate::specs::Put::used_covers, crate::specs::Put::write_used))]
pub(crate) fn write_use<L: DirtyLog>(
    memory: &mut GuestMemory<L>,
    queue: &Queue,
    head: u16,
    len: u32,
)
    requires { used_covers memory.old.guest.regions queue.now ≡ true }
    ensures regions { memory.new.guest.regions ≡ memory.old.guest.regions }
    ensures guest { memory.new.guest ≡ write_used memory.old.guest queue.now head len }
    ensures logs { MarksAll (page_marks L.byte_len L.marks) memory.old.logs
        (used_marks memory.old.guest.regions queue.now) memory.new.logs }
{
    let at = queue.placed();
    let slot = queue.next_used() % queue.size();
    let index = queue.next_used().wrapping_add(1);
    write_behind(
        memory,
        at.used,
        used_element_place(slot),
        &element_bytes(head, len),
    );
    write_behind(memory, at.used, 2, &index.to_le_bytes());
}
