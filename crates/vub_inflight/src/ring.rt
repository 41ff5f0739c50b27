ghost use Rattle.std.specs.Prelude.{◌≡◌, ◌<◌, ◌≤◌, ◌+◌, ◌==◌, true, false, length, IfOk, OnOk, OnErr, IsSome, slice_set};
ghost use Rattle.vub_mem.specs.Marks.{MarksAll, page_marks};
ghost use Rattle.vub_queue.specs.Take.{Costs, HasRoom, Taken, guest_taken, marks_taken, ring_taken};
ghost use Rattle.vub_inflight.specs.Order.{is_spent, marks_of};
ghost use Rattle.vub_inflight.specs.Recover.{resumed_of};
ghost use Rattle.vub_inflight.specs.Steps.{HeadIsBelow};

use crate::bytes::append_slot;
use crate::mark::Mark;
use crate::marks::{counter_after, heads};
use crate::next_entry::NextEntry;
use crate::resumed::Resumed;
use crate::slot::{IDLE, Slot};
use crate::stage::Stage;
use std::alloc::Global;
use std::marker::Model;
use std::sync::ledger::Ledger;
use vub_base::{Bytes, OutOfMemory, Steps};
use vub_mem::{DirtyLog, GuestMemory};
use vub_queue::{Chain, PutFault, Queue, Took, put, take};

/// A split virtqueue with its record. Only the record and guest memory outlast a cut.
#[derive(Debug, Drop)]
pub struct InflightRing {
    queue: Queue,
    last: u16,
    used: u16,
    slots: Vec<Slot>,
    next: u64,
    stage: Stage,
}

impl Model for InflightRing {
    ghost use Rattle.vub_inflight.specs.State.{State};

    ghost Value = { State };

    ghost use Rattle.vub_inflight.specs.View.{state_of, IsSound};

    ghost view = { state_of };

    ghost invariant = { IsSound };
}

/// Takes the next entry, whose head is a descriptor of the table.
#[tactic(auto, using(crate::proofs::Heads::took_below))]
fn take_entry<L: DirtyLog, K: Ledger>(
    alloc: Global,
    queue: &mut Queue,
    memory: &mut GuestMemory<L>,
    steps: &mut Steps<K>,
) -> Result<Took, OutOfMemory>
    requires { IsSome queue.old.addresses }
    ensures taken { IfOk result (Taken memory.old.guest queue.old) }
    ensures queue { IfOk result (λ t. queue.new ≡ ring_taken queue.old t) }
    ensures guest { IfOk result (λ t. memory.new.guest ≡ guest_taken memory.old.guest queue.old t) }
    ensures head { IfOk result (HeadIsBelow queue.old.size) }
    ensures room { IfOk result HasRoom }
    ensures most { steps.new ≤ steps.old + queue.old.size }
    ensures err { OnErr result (queue.new ≡ queue.old) }
    ensures same { OnErr result (memory.new ≡ memory.old) }
{
    take(alloc, queue, memory, steps)
}

/// The ring that goes on with these slots, whose marks are these.
#[tactic(auto, using(crate::proofs::MarkLaws::length_marks_of))]
pub(crate) fn resume(
    alloc: Global,
    queue: Queue,
    last: u16,
    index: u16,
    slots: Vec<Slot>,
    marks: &[Mark],
) -> Result<Resumed, OutOfMemory>
    requires addresses { IsSome queue.addresses }
    requires slots { length slots.items ≡ queue.size }
    requires last { last < queue.size }
    requires marks { marks.now ≡ marks_of slots.items }
    requires spent { is_spent marks.now ≡ false }
    ensures { IfOk result (λ r. r ≡ resumed_of queue last index slots.items) }
{
    let again = heads(alloc, marks)?;
    let next = counter_after(marks);
    let mut queue = queue;
    queue.set_next_used(index);
    queue.set_next_avail(index.wrapping_add(marks.len() as u16));
    let ring = InflightRing {
        queue,
        last,
        used: index,
        slots,
        next,
        stage: Stage::Settled,
    };
    Ok(Resumed { ring, again })
}

impl InflightRing {
    ghost use Rattle.vub_inflight.specs.State.{in_flight};
    ghost use Rattle.vub_inflight.specs.Steps.{new_state, MayTake, Takes, EntryHasRoom, MayMark, state_marked};
    ghost use Rattle.vub_inflight.specs.Steps.{MayPublish, Publishes, state_cleared, state_settled, MayPut, Finishes};
    ghost use Rattle.vub_inflight.specs.Bytes.{record_of};
    ghost use Rattle.vub_inflight.specs.declared.stage.Stage.{Stage};

    /// A ring with nothing open, over a queue whose addresses are set and whose next available and next used are one
    /// number. That number is to be the used index in guest memory, so that the ring can go on after a cut.
    ///
    /// # Errors
    /// Want of memory.
    pub fn new(alloc: Global, queue: Queue) -> Result<InflightRing, OutOfMemory>
        requires addresses { IsSome queue.addresses }
        requires equal { queue.next_avail ≡ queue.next_used }
        ensures { IfOk result (λ r. r ≡ new_state queue) }
    {
        let used = queue.next_used();
        let slots = vec![in alloc; IDLE; queue.size() as usize]?;
        Ok(InflightRing {
            queue,
            last: 0,
            used,
            slots,
            next: 0,
            stage: Stage::Settled,
        })
    }

    /// The queue, whose addresses are set. After [`crate::recover`] it is asked by [`vub_queue::chain_at`] for the
    /// chain of each head that is to be served again.
    pub fn queue(&self) -> &Queue
        ensures value { result.now ≡ self.now.ring }
        ensures addresses { IsSome self.now.ring.addresses }
    {
        &self.queue
    }

    /// How far the use of the entry that was marked last has come, so that a caller knows which call may come next.
    pub fn stage(&self) -> Stage
        ensures { result ≡ self.now.stage }
    {
        self.stage
    }

    /// The counter of the next entry that is taken. It is below 2^64 - 1 where one may be.
    pub fn next_counter(&self) -> u64
        ensures { result ≡ self.now.next }
    {
        self.next
    }

    /// Whether the entry with this head was taken and its use not cleared. No head outside the table is in flight.
    pub fn is_in_flight(&self, head: u16) -> bool
        ensures { result ≡ in_flight self.now head }
    {
        match self.slots.get(head as usize) {
            None => false,
            Some(slot) => slot.in_flight,
        }
    }

    /// Takes the next entry as [`vub_queue::take`] does, and keeps in the record that it is in flight, with the next
    /// counter. Where the head of the next entry is in flight it answers Doubled and changes nothing but the counter of
    /// steps: the entry can be taken once that head is cleared. A driver that makes a head available as soon as it is
    /// published can cause it between [`InflightRing::publish`] and [`InflightRing::clear`], without fault.
    ///
    /// No head may be cleared and not settled, and a counter is to be left: the next one is below 2^64 - 1.
    ///
    /// # Errors
    /// Want of memory, which changes neither the ring nor the memory; the counter of steps may have risen.
    pub fn take_step<L: DirtyLog, K: Ledger>(
        &mut self,
        alloc: Global,
        memory: &mut GuestMemory<L>,
        steps: &mut Steps<K>,
    ) -> Result<NextEntry, OutOfMemory>
        requires { MayTake self.old }
        ensures step { IfOk result (λ a. Takes self.old memory.old.guest a self.new memory.new.guest) }
        ensures room { IfOk result EntryHasRoom }
        ensures most { steps.new ≤ steps.old + self.old.ring.size }
        ensures err { OnErr result (self.new ≡ self.old) }
        ensures same { OnErr result (memory.new ≡ memory.old) }
    {
        let before = self.queue.next_avail();
        match take_entry(alloc, &mut self.queue, memory, steps)? {
            Took::None => Ok(NextEntry::None),
            Took::Damaged(damage) => Ok(NextEntry::Damaged(damage)),
            Took::Entry(chain) => {
                let head = chain.head;
                if self.slots[head as usize].in_flight {
                    self.queue.set_next_avail(before);
                    return Ok(NextEntry::Doubled(head));
                }
                self.slots[head as usize] = Slot {
                    in_flight: true,
                    counter: self.next,
                };
                self.next += 1;
                Ok(NextEntry::Entry(chain))
            }
        }
    }

    /// Marks the head that is used next (last_batch_head). It is in flight, and no use is half done.
    pub fn mark_head(&mut self, head: u16)
        requires { MayMark self.old head }
        ensures { self.new ≡ state_marked self.old head }
    {
        self.last = head;
        self.stage = Stage::Marked(head);
    }

    /// Puts the reply to the entry whose head was marked last, as [`vub_queue::put`] does, and answers whether the
    /// driver wants to be notified. From here on a cut does not bring the entry back. The reply is no longer than the
    /// room, and the room is that of the segments, as in each entry of a take.
    ///
    /// # Errors
    /// Those of the put. A refused reply changes nothing: the head stays in flight and marked.
    pub fn publish<L: DirtyLog>(
        &mut self,
        memory: &mut GuestMemory<L>,
        chain: &Chain,
        reply: &[u8],
    ) -> Result<bool, PutFault>
        requires { MayPublish self.old chain.now reply.now }
        ensures { Publishes self.old memory.old.guest chain.now reply.now result self.new memory.new.guest }
    {
        match put(&mut self.queue, memory, chain, reply) {
            Err(fault) => Err(fault),
            Ok(wanted) => {
                self.stage = Stage::Published(chain.head);
                Ok(wanted)
            }
        }
    }

    /// Clears the flag of the head that was published last.
    pub fn clear(&mut self, head: u16)
        requires { self.old.stage ≡ Stage.Published head }
        ensures { self.new ≡ state_cleared self.old head }
    {
        self.slots[head as usize] = IDLE;
        self.stage = Stage::Cleared;
    }

    /// Settles the use whose flag was cleared last: the record's used index is next used (used_idx).
    pub fn settle(&mut self)
        requires { self.old.stage ≡ Stage.Cleared }
        ensures { self.new ≡ state_settled self.old }
    {
        self.used = self.queue.next_used();
        self.stage = Stage::Settled;
    }

    /// Uses an entry at once: marks its head, publishes the reply, clears the flag and settles, for a device that keeps
    /// no record between these calls. The head is in flight, and no use is half done.
    ///
    /// # Errors
    /// Those of the put. A refused reply leaves the memory as it was, and the head in flight and marked.
    pub fn finish<L: DirtyLog>(
        &mut self,
        memory: &mut GuestMemory<L>,
        chain: &Chain,
        reply: &[u8],
    ) -> Result<bool, PutFault>
        requires mark { MayMark self.old chain.now.head }
        requires put { MayPut chain.now reply.now }
        ensures { Finishes self.old memory.old.guest chain.now reply.now result self.new memory.new.guest }
    {
        self.mark_head(chain.head);
        match self.publish(memory, chain, reply) {
            Err(fault) => Err(fault),
            Ok(wanted) => {
                self.clear(chain.head);
                self.settle();
                Ok(wanted)
            }
        }
    }

    /// The record: 16 bytes, and 16 for each descriptor of the queue (vhost-user: QueueRegionSplit), little-endian. The
    /// features and the bytes that are ignored are 0, and so is the counter of a head that is not in flight.
    ///
    /// # Errors
    /// Want of memory.
    #[tactic(auto, unfolding(crate::specs::Bytes::record_of))]
    pub fn record(&self, alloc: Global) -> Result<Bytes, OutOfMemory>
        ensures { IfOk result (λ b. b ≡ record_of self.now) }
    {
        let size = self.queue.size().to_le_bytes();
        let last = self.last.to_le_bytes();
        let used = self.used.to_le_bytes();
        let mut bytes = Vec::new(alloc);
        bytes.extend_from_slice(&[
            0, 0, 0, 0, 0, 0, 0, 0, 1, 0, size[0], size[1], last[0], last[1], used[0], used[1],
        ])?;
        for slot in &self.slots {
            append_slot(&mut bytes, *slot)?;
        }
        Ok(Bytes::from_vec(bytes))
    }
}
