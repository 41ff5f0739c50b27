ghost use Rattle.std.specs.Prelude.{◌≡◌};
ghost use Rattle.vub_queue.specs.Take.{head_of};

use crate::damage::Damage;
use crate::layout::avail_slot_place;
use crate::queue::Queue;
use vub_mem::{DirtyLog, GuestMemory};

/// What the available ring says comes next.
#[derive(Clone, Copy)]
pub enum Head {
    Empty,
    At(u16),
    Broken(Damage),
}

/// Reads what the available ring says comes next.
#[tactic(auto, unfolding(crate::specs::Take::head_of))]
pub(crate) fn next_head<L: DirtyLog>(memory: &GuestMemory<L>, queue: &Queue) -> Head
    ensures { result ≡ head_of memory.now.guest queue.now }
{
    let at = queue.placed();
    let Some(index) = memory.locate(at.avail, 2, 2) else {
        return Head::Broken(Damage::RingOutside);
    };
    let left = memory.u16_at(index).wrapping_sub(queue.next_avail());
    if left > queue.size() {
        return Head::Broken(Damage::IndexAhead);
    }
    if left == 0 {
        return Head::Empty;
    }
    let slot = queue.next_avail() % queue.size();
    match memory.locate(at.avail, avail_slot_place(slot), 2) {
        None => Head::Broken(Damage::RingOutside),
        Some(word) => Head::At(memory.u16_at(word)),
    }
}
