//! The writes of a request.
ghost use Rattle.std.specs.Prelude.{◌≡◌, ◌-◌, ◌^◌, ◌<◌, true, length, IfOk};
ghost use Rattle.vub_mem.specs.Place.{covers};
ghost use Rattle.vub_driver.specs.Calls.{chain_bytes, submit_guest};
ghost use Rattle.vub_driver.specs.Places.{avail_index_at, avail_slot_at, descriptors_at, request_at};
ghost use Rattle.vub_driver.specs.View.{IsFit};
ghost use Rattle.vub_driver.specs.Writings.{writes_of};

use crate::layout::Layout;
use crate::places::{avail_index_at, avail_slot_at, descriptors_at, index_of, place, request_at};
use std::alloc::Global;
use vub_base::{Bytes, OutOfMemory};
use vub_mem::GuestMemory;

/// Bytes that a driver writes into guest memory.
#[derive(Debug, Drop)]
pub struct Write {
    /// The guest address of the first of them.
    pub at: u64,
    pub bytes: Bytes,
}

/// What a driver writes for a request, in the order of the fields.
#[derive(Debug, Drop)]
pub struct Submission {
    /// The bytes of the request.
    pub request: Write,
    /// Its two descriptors, one behind the other.
    pub descriptors: Write,
    /// Its slot of the available ring.
    pub slot: Write,
    /// The index of the available ring.
    pub index: Write,
}

/// The two descriptors of a request, in their 32 bytes (virtio 1.2, 2.7.5).
#[tactic(auto, unfolding(crate::specs::Calls::chain_bytes))]
fn chain_bytes(layout: &Layout, number: u64, len: u32, room: u32) -> [u8; 32]
    requires { IsFit layout.now }
    ensures { result ≡ chain_bytes layout.now number len room }
{
    let at = request_at(layout, number);
    let a = at.to_le_bytes();
    let l = len.to_le_bytes();
    let n = (2 * place(layout, number) + 1).to_le_bytes();
    let b = (at + u64::from(layout.slot)).to_le_bytes();
    let r = room.to_le_bytes();
    [
        a[0], a[1], a[2], a[3], a[4], a[5], a[6], a[7], l[0], l[1], l[2], l[3], 1, 0, n[0], n[1],
        b[0], b[1], b[2], b[3], b[4], b[5], b[6], b[7], r[0], r[1], r[2], r[3], 2, 0, 0, 0,
    ]
}

/// Writes a request: its bytes, its descriptors, its slot, and the index last.
#[tactic(auto, unfolding(crate::specs::Calls::submit_guest))]
pub(crate) fn write_request(
    memory: &mut GuestMemory<()>,
    layout: &Layout,
    number: u64,
    request: &[u8],
    room: u32,
)
    requires fit { IsFit layout.now }
    requires number { number < 2 ^ 64 - 1 }
    requires short { length request.now < 2 ^ 32 }
    requires request { covers memory.old.guest.regions (request_at layout.now number) (length request.now) ≡ true }
    requires chain { covers memory.old.guest.regions (descriptors_at layout.now number) 32 ≡ true }
    requires slot { covers memory.old.guest.regions (avail_slot_at layout.now number) 2 ≡ true }
    requires index { covers memory.old.guest.regions (avail_index_at layout.now) 2 ≡ true }
    ensures guest { memory.new.guest ≡ submit_guest layout.now memory.old.guest number request.now room }
    ensures regions { memory.new.guest.regions ≡ memory.old.guest.regions }
{
    let chain = chain_bytes(layout, number, request.len() as u32, room);
    let head = (2 * place(layout, number)).to_le_bytes();
    let index = index_of(number + 1).to_le_bytes();
    memory.write_covered(request_at(layout, number), request);
    memory.write_covered(descriptors_at(layout, number), &chain);
    memory.write_covered(avail_slot_at(layout, number), &head);
    memory.write_covered(avail_index_at(layout), &index);
}

/// A write of these bytes at an address.
fn write_at(alloc: Global, at: u64, bytes: &[u8]) -> Result<Write, OutOfMemory>
    ensures { IfOk result (λ w. w ≡ record { at = at; bytes = bytes.now }) }
{
    let bytes = Bytes::from_slice(alloc, bytes)?;
    Ok(Write { at, bytes })
}

/// What is written for a request.
///
/// # Errors
/// Want of memory.
pub(crate) fn writes_of(
    alloc: Global,
    layout: &Layout,
    number: u64,
    request: &[u8],
    room: u32,
) -> Result<Submission, OutOfMemory>
    requires fit { IsFit layout.now }
    requires number { number < 2 ^ 64 - 1 }
    requires short { length request.now < 2 ^ 32 }
    ensures { IfOk result (λ w. w ≡ writes_of layout.now number request.now room) }
{
    let chain = chain_bytes(layout, number, request.len() as u32, room);
    let head = (2 * place(layout, number)).to_le_bytes();
    let index = index_of(number + 1).to_le_bytes();
    let request = write_at(alloc, request_at(layout, number), request)?;
    let descriptors = write_at(alloc, descriptors_at(layout, number), &chain)?;
    let slot = write_at(alloc, avail_slot_at(layout, number), &head)?;
    let index = write_at(alloc, avail_index_at(layout), &index)?;
    Ok(Submission {
        request,
        descriptors,
        slot,
        index,
    })
}
