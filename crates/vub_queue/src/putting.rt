ghost use Rattle.std.specs.Prelude.{◌≡◌, ◌≤◌, ◌<◌, ◌^◌, true, IsSome, OnOk, OnErr, length, sum_by};
ghost use Rattle.vub_mem.specs.Marks.{MarksAll, page_marks};
ghost use Rattle.vub_queue.specs.Notification.{ring_told, used_event_covers, wants_notification};
ghost use Rattle.vub_queue.specs.Put.{put_answer, put_guest, put_marks, reply_marks, ring_used, room_covers, used_covers, write_reply};

use crate::chain::Chain;
use crate::notification::{is_wanted, used_event_is_covered};
use crate::queue::Queue;
use crate::segment::{Segment, split};
use crate::using::{use_is_covered, write_use};
use thiserror::Error;
use vub_mem::{DirtyLog, GuestMemory};

/// Why a reply can't be put.
#[derive(Clone, Copy, Debug, PartialEq, Eq, Error)]
pub enum PutFault {
    /// A byte that the reply would fill is not in guest memory.
    #[error("reply reaches outside guest memory")]
    RoomOutside,
    /// The used element, the index word or used_event is not in guest memory.
    #[error("word of a ring is outside guest memory")]
    RingOutside,
}

/// Whether the bytes of the segments that the reply fills are covered.
fn room_is_covered<L: DirtyLog>(memory: &GuestMemory<L>, segments: &[Segment], reply: &[u8]) -> bool
    ensures { result ≡ room_covers memory.now.guest.regions segments.now reply.now }
{
    let mut rest = reply;
    for segment in segments {
        let (piece, behind) = split(rest, segment.len);
        if !memory.covers(segment.addr, piece.len() as u64) {
            return false;
        }
        rest = behind;
    }
    true
}

/// Writes the reply over the segments in order.
fn write_room<L: DirtyLog>(memory: &mut GuestMemory<L>, segments: &[Segment], reply: &[u8])
    requires { room_covers memory.old.guest.regions segments.now reply.now ≡ true }
    ensures guest { memory.new.guest ≡ write_reply memory.old.guest segments.now reply.now }
    ensures regions { memory.new.guest.regions ≡ memory.old.guest.regions }
    ensures logs { MarksAll (page_marks L.byte_len L.marks) memory.old.logs
        (reply_marks memory.old.guest.regions segments.now reply.now) memory.new.logs }
{
    let mut rest = reply;
    for segment in segments {
        let (piece, behind) = split(rest, segment.len);
        memory.write_covered(segment.addr, piece);
        rest = behind;
    }
}

/// Writes the reply, the element and the index word.
#[tactic(auto, unfolding(crate::specs::Put::put_guest))]
fn write_all<L: DirtyLog>(memory: &mut GuestMemory<L>, queue: &Queue, chain: &Chain, reply: &[u8])
    requires room { room_covers memory.old.guest.regions chain.now.segments reply.now ≡ true }
    requires ring { used_covers memory.old.guest.regions queue.now ≡ true }
    requires short { length reply.now < 2 ^ 32 }
    ensures regions { memory.new.guest.regions ≡ memory.old.guest.regions }
    ensures guest { memory.new.guest ≡ put_guest memory.old.guest queue.now chain.now reply.now }
    ensures logs { MarksAll (page_marks L.byte_len L.marks) memory.old.logs
        (put_marks memory.old.guest.regions queue.now chain.now reply.now) memory.new.logs }
{
    write_room(memory, chain.segments.as_slice(), reply);
    write_use(memory, queue, chain.head, reply.len() as u32);
}

/// Puts the reply to an entry (virtio 1.2, 2.7.8): writes it over the entry's segments in order, then the used element
/// (head, length of the reply), then the index word, and answers whether the driver wants to be notified (as
/// [`Queue::needs_notification`] does, over the memory as it is then).
///
/// RoomOutside where a byte that the reply fills is not covered, and then RingOutside where the element, the index word
/// or, with notifications by index, used_event is not. A refused put writes nothing. It takes no memory. The addresses
/// are to be set, the reply no longer than the room, and the room that of the segments, as in each entry of a take.
#[tactic(auto, unfolding(crate::specs::Put::put_answer))]
pub fn put<L: DirtyLog>(
    queue: &mut Queue,
    memory: &mut GuestMemory<L>,
    chain: &Chain,
    reply: &[u8],
) -> Result<bool, PutFault>
    requires addresses { IsSome queue.old.addresses }
    requires fits { length reply.now ≤ chain.now.room }
    requires room { chain.now.room ≡ sum_by (λ s. s.len) chain.now.segments }
    ensures answer { result ≡ put_answer memory.old.guest.regions queue.old chain.now reply.now
        (wants_notification memory.new.guest (ring_used queue.old)) }
    ensures put { OnOk result (memory.new.guest ≡ put_guest memory.old.guest queue.old chain.now reply.now) }
    ensures queue { OnOk result (queue.new ≡ ring_told (ring_used queue.old)) }
    ensures regions { memory.new.guest.regions ≡ memory.old.guest.regions }
    ensures logs { OnOk result (MarksAll (page_marks L.byte_len L.marks) memory.old.logs
        (put_marks memory.old.guest.regions queue.old chain.now reply.now) memory.new.logs) }
    ensures memory { OnErr result (memory.new ≡ memory.old) }
    ensures same { OnErr result (queue.new ≡ queue.old) }
{
    // read for its range: the reply's length has 32 bits
    let _room = chain.room;
    if !room_is_covered(memory, chain.segments.as_slice(), reply) {
        return Err(PutFault::RoomOutside);
    }
    if !use_is_covered(memory, queue) {
        return Err(PutFault::RingOutside);
    }
    if !used_event_is_covered(memory, queue) {
        return Err(PutFault::RingOutside);
    }
    write_all(memory, queue, chain, reply);
    queue.step_used();
    let wanted = is_wanted(memory, queue);
    queue.tell();
    Ok(wanted)
}
