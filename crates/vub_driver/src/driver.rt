ghost use Rattle.std.specs.Prelude.{◌≡◌, ◌⊎◌, ◌-◌, ◌^◌, ◌<◌, ◌≤◌, Ok, Err, Some, length, IfOk, IfErr, IfSome};
ghost use Rattle.vub_driver.specs.Calls.{Submits, collect_answer, is_too_large, needs_signal, new_state};
ghost use Rattle.vub_driver.specs.Calls.{state_collected};
ghost use Rattle.vub_driver.specs.Calls.{submit_covers, submit_guest};
ghost use Rattle.vub_driver.specs.Layouts.{new_fault};
ghost use Rattle.vub_driver.specs.Writings.{all_written, writes_of};
ghost use Rattle.vub_mem.specs.Memory.{Guest};

use crate::checks::fault_of;
use crate::done::Done;
use crate::error::DriverError;
use crate::layout::Layout;
use crate::places::{
    avail_event_at, avail_index_at, avail_slot_at, descriptors_at, index_of, place, request_at,
    used_element_at, used_index_at,
};
use crate::writing::{Submission, write_request, writes_of};
use std::alloc::Global;
use std::marker::Model;
use vub_base::OutOfMemory;
use vub_mem::GuestMemory;

/// The driver's side of a ring. A contract sees its layout, how many requests were submitted and replies collected, the
/// room of the request at each place, and the available index at the last test for a signal.
#[derive(Debug, Drop)]
pub struct Driver {
    layout: Layout,
    event_idx: bool,
    submitted: u64,
    collected: u64,
    rooms: Vec<u32>,
    tested: u16,
}

impl Model for Driver {
    ghost use Rattle.vub_driver.specs.State.{State};

    ghost Value = { State };

    ghost use Rattle.vub_driver.specs.View.{state_of, IsSound};

    ghost view = { state_of };

    ghost invariant = { IsSound };
}

/// Whether a request or its room is above the slot, or both together above 2^32 - 1.
fn is_too_large(layout: &Layout, len: usize, room: u32) -> bool
    ensures { result ≡ is_too_large layout.now len room }
{
    let slot = layout.slot as usize;
    len > slot || room > layout.slot || len > u32::MAX as usize - room as usize
}

/// Whether all that a submit of so many bytes writes and reads is in guest memory.
#[tactic(auto, unfolding(crate::specs::Calls::submit_covers))]
fn submit_is_covered(driver: &Driver, memory: &GuestMemory<()>, len: u64) -> bool
    ensures { result ≡ submit_covers memory.now.guest.regions driver.now len }
{
    let layout = &driver.layout;
    let number = driver.submitted;
    memory.covers(request_at(layout, number), len)
        && memory.covers(descriptors_at(layout, number), 32)
        && memory.covers(avail_slot_at(layout, number), 2)
        && memory.covers(avail_index_at(layout), 2)
        && (!driver.event_idx || memory.covers(avail_event_at(layout), 2))
}

/// Whether the device asked for a signal of the request that was just written.
#[tactic(auto, unfolding(crate::specs::Calls::needs_signal))]
fn needs_signal(driver: &Driver, memory: &GuestMemory<()>) -> bool
    requires { driver.now.submitted < 2 ^ 64 - 1 }
    ensures { result ≡ needs_signal driver.now memory.now.guest }
{
    if !driver.event_idx {
        return true;
    }
    let event = memory.u16_at(avail_event_at(&driver.layout));
    let new = index_of(driver.submitted + 1);
    new.wrapping_sub(event).wrapping_sub(1) < new.wrapping_sub(driver.tested)
}

impl Driver {
    /// A driver of a ring that lies where the layout says. With `event_idx` signals are asked for by index
    /// (VIRTIO_F_EVENT_IDX). The memory of the ring is to be zero, as that of a new device is.
    ///
    /// # Errors
    /// `Size`, `Misaligned` and `Overlap`, tested in this order; want of memory.
    pub fn new(alloc: Global, layout: Layout, event_idx: bool) -> Result<Driver, DriverError>
        ensures refused { IfSome (new_fault layout) (λ e. result ≡ Err e) }
        ensures only { IfErr result (λ e. (new_fault layout ≡ Some e) ⊎ (e ≡ DriverError.OutOfMemory)) }
        ensures ok { IfOk result (λ d. d ≡ new_state layout event_idx) }
    {
        if let Some(fault) = fault_of(&layout) {
            return Err(fault);
        }
        let Ok(rooms) = vec![in alloc; 0; (layout.size / 2) as usize] else {
            return Err(DriverError::OutOfMemory);
        };
        Ok(Driver {
            layout,
            event_idx,
            submitted: 0,
            collected: 0,
            rooms,
            tested: 0,
        })
    }

    /// How many requests were submitted.
    pub fn submitted(&self) -> u64
        ensures { result ≡ self.now.submitted }
    {
        self.submitted
    }

    /// How many replies were collected.
    pub fn collected(&self) -> u64
        ensures value { result ≡ self.now.collected }
        ensures order { result ≤ self.now.submitted }
    {
        self.collected
    }

    /// Makes a request available with so much room for its reply, and answers whether the device is to be signalled:
    /// always without EVENT_IDX, and else as the device asked. Fewer than 2^64 - 1 requests were submitted.
    ///
    /// # Errors
    /// `Full` exactly where half of the size is outstanding; then `TooLarge`; then `Outside`. A refused call changes
    /// nothing. It takes no memory.
    #[tactic(auto, unfolding(crate::specs::Calls::submit_fault, crate::specs::Calls::submit_covers))]
    pub fn submit(
        &mut self,
        memory: &mut GuestMemory<()>,
        request: &[u8],
        room: u32,
    ) -> Result<bool, DriverError>
        requires { self.old.submitted < 2 ^ 64 - 1 }
        ensures { Submits self.old memory.old.guest request.now room result self.new memory.new.guest }
    {
        let layout = self.layout;
        if self.submitted - self.collected == u64::from(layout.size / 2) {
            return Err(DriverError::Full);
        }
        if is_too_large(&layout, request.len(), room) {
            return Err(DriverError::TooLarge);
        }
        if !submit_is_covered(self, memory, request.len() as u64) {
            return Err(DriverError::Outside);
        }
        write_request(memory, &layout, self.submitted, request, room);
        let signal = needs_signal(self, memory);
        let at = place(&layout, self.submitted) as usize;
        self.rooms[at] = room;
        self.submitted += 1;
        self.tested = index_of(self.submitted);
        Ok(signal)
    }

    /// What a submit of this request writes into guest memory, for a guest that makes the writes itself, one after the
    /// other in the order of the fields. Fewer than 2^64 - 1 requests were submitted, and the request has fewer than
    /// 2^32 bytes.
    ///
    /// # Errors
    /// Want of memory.
    #[tactic(auto, unfolding(crate::specs::Calls::submit_guest))]
    pub fn writes(
        &self,
        alloc: Global,
        request: &[u8],
        room: u32,
    ) -> Result<Submission, OutOfMemory>
        requires number { self.now.submitted < 2 ^ 64 - 1 }
        requires short { length request.now < 2 ^ 32 }
        ensures value { IfOk result (λ w. w ≡ writes_of self.now.layout self.now.submitted request.now room) }
        ensures made { IfOk result (λ w. (g : Guest) →
            submit_guest self.now.layout g self.now.submitted request.now room ≡ all_written g w) }
    {
        writes_of(alloc, &self.layout, self.submitted, request, room)
    }

    /// Takes the reply to the oldest outstanding request, if there is one; none exactly where the used index is the
    /// count of those that were collected, modulo 65536.
    ///
    /// # Errors
    /// In this order: `Outside` of the used index; `UsedAhead`; `Outside` of the used element; `BadId`; `BadLength`;
    /// `Outside` of the reply; want of memory. A refused call changes nothing.
    #[tactic(auto, unfolding(crate::specs::Calls::collect_answer))]
    pub fn collect(
        &mut self,
        alloc: Global,
        memory: &GuestMemory<()>,
    ) -> Result<Option<Done>, DriverError>
        ensures answer { (result ≡ collect_answer self.old memory.now.guest) ⊎ (result ≡ Err DriverError.OutOfMemory) }
        ensures state { self.new ≡ state_collected self.old result }
    {
        let layout = self.layout;
        let index = used_index_at(&layout);
        if !memory.covers(index, 2) {
            return Err(DriverError::Outside);
        }
        let new = memory.u16_at(index).wrapping_sub(index_of(self.collected));
        if new == 0 {
            return Ok(None);
        }
        if self.submitted - self.collected < u64::from(new) {
            return Err(DriverError::UsedAhead);
        }
        let element = used_element_at(&layout, self.collected);
        if !memory.covers(element, 8) {
            return Err(DriverError::Outside);
        }
        let at = place(&layout, self.collected);
        if memory.u32_at(element) != 2 * u32::from(at) {
            return Err(DriverError::BadId);
        }
        let len = memory.u32_at(element + 4);
        if self.rooms[at as usize] < len {
            return Err(DriverError::BadLength);
        }
        let start = request_at(&layout, self.collected) + u64::from(layout.slot);
        if !memory.covers(start, u64::from(len)) {
            return Err(DriverError::Outside);
        }
        let Ok(reply) = memory.read_covered(alloc, start, u64::from(len)) else {
            return Err(DriverError::OutOfMemory);
        };
        let number = self.collected;
        self.collected += 1;
        Ok(Some(Done { number, reply }))
    }
}
