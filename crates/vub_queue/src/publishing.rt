ghost use Rattle.std.specs.Prelude.{◌≡◌, ℕ, [], if◌then◌else◌};
ghost use Rattle.std.specs.Int.{w16, to_le_bytes};
ghost use Rattle.vub_mem.specs.Marks.{MarksAll, page_marks, marks_of};
ghost use Rattle.vub_mem.specs.Place.{write_at};
ghost use Rattle.vub_queue.specs.Layout.{avail_event_at};
ghost use Rattle.vub_queue.specs.Take.{Costs, HasRoom, Looks, Taken, event_covers, guest_taken, marks_taken};

use crate::damage::Damage;
use crate::layout::used_element_place;
use crate::queue::Queue;
use crate::took::Took;
use vub_mem::{DirtyLog, GuestMemory};

/// Writes the number of the next entry to avail_event, where that is covered.
fn publish<L: DirtyLog>(queue: &Queue, memory: &mut GuestMemory<L>) -> bool
    ensures value { result ≡ event_covers memory.old.guest queue.now }
    ensures guest { memory.new.guest ≡ (if event_covers memory.old.guest queue.now
        then write_at memory.old.guest (avail_event_at queue.now) (to_le_bytes w16 queue.now.next_avail)
        else memory.old.guest) }
    ensures regions { memory.new.guest.regions ≡ memory.old.guest.regions }
    ensures logs { MarksAll (page_marks L.byte_len L.marks) memory.old.logs
        (if event_covers memory.old.guest queue.now
        then marks_of memory.old.guest.regions (avail_event_at queue.now) 2 else []) memory.new.logs }
{
    let at = queue.placed();
    match memory.locate(at.used, used_element_place(queue.size()), 2) {
        None => false,
        Some(word) => {
            memory.write_covered(word, &queue.next_avail().to_le_bytes());
            true
        }
    }
}

/// What a take answers after it looked: where nothing is left and notifications go by index, the number of the next
/// entry is published.
pub(crate) fn finish<L: DirtyLog>(queue: &Queue, memory: &mut GuestMemory<L>, looked: Took) -> Took
    requires { Looks memory.old.guest queue.now looked }
    ensures taken { Taken memory.old.guest queue.now result }
    ensures room { HasRoom looked → HasRoom result }
    ensures costs { (old new : ℕ) → Costs memory.old.guest queue.now old new looked
        → Costs memory.old.guest queue.now old new result }
    ensures guest { memory.new.guest ≡ guest_taken memory.old.guest queue.now result }
    ensures regions { memory.new.guest.regions ≡ memory.old.guest.regions }
    ensures logs { MarksAll (page_marks L.byte_len L.marks) memory.old.logs
        (marks_taken memory.old.guest.regions queue.now result) memory.new.logs }
{
    match looked {
        Took::Entry(chain) => Took::Entry(chain),
        Took::Damaged(damage) => Took::Damaged(damage),
        Took::None => {
            if !queue.event_idx_enabled() {
                Took::None
            } else if publish(queue, memory) {
                Took::None
            } else {
                Took::Damaged(Damage::RingOutside)
            }
        }
    }
}
