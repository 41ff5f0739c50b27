ghost use Rattle.std.specs.Prelude.{◌≡◌, ◌<◌, ◌≤◌, ◌+◌, ◌*◌, ◌==◌, ◌++◌, IfOk, OnOk, length};
ghost use Rattle.vub_inflight.specs.Bytes.{counter_in, flags_fit, slot_bytes, slot_in, slots_in, word_in};

use crate::slot::{IDLE, Slot};
use std::alloc::Global;
use vub_base::OutOfMemory;

/// How many bytes stand before the slots of a record.
pub(crate) const FRONT_LEN: usize = 16;

/// How many bytes a slot has.
pub(crate) const SLOT_LEN: usize = 16;

/// The version of the records that are written and read.
pub(crate) const VERSION: u16 = 1;

/// The little-endian word at a place.
pub(crate) fn word(bytes: &[u8], at: usize) -> u16
    requires { at + 1 < length bytes.now }
    ensures { result ≡ word_in bytes.now at }
{
    u16::from_le_bytes([bytes[at], bytes[at + 1]])
}

/// The counter of the slot that these bytes begin with.
fn counter(bytes: &[u8]) -> u64
    requires { 16 ≤ length bytes.now }
    ensures { result ≡ counter_in bytes.now }
{
    u64::from_le_bytes([
        bytes[8], bytes[9], bytes[10], bytes[11], bytes[12], bytes[13], bytes[14], bytes[15],
    ])
}

/// The slot that these bytes begin with.
fn slot(bytes: &[u8]) -> Slot
    requires { 16 ≤ length bytes.now }
    ensures { result ≡ slot_in bytes.now }
{
    if bytes[0] == 1 {
        Slot {
            in_flight: true,
            counter: counter(bytes),
        }
    } else {
        IDLE
    }
}

/// Whether no in-flight byte is above 1.
pub(crate) fn flags_are_bits(bytes: &[u8], size: u16) -> bool
    requires { length bytes.now ≡ 16 * size }
    ensures { result ≡ flags_fit size bytes.now }
{
    let mut rest = bytes;
    for _i in 0..size {
        if rest[0] > 1 {
            return false;
        }
        rest = rest.split_at(SLOT_LEN).1;
    }
    true
}

/// The slots that the bytes hold.
pub(crate) fn read_slots(alloc: Global, bytes: &[u8], size: u16) -> Result<Vec<Slot>, OutOfMemory>
    requires { length bytes.now ≡ 16 * size }
    ensures { IfOk result (λ s. s.items ≡ slots_in size bytes.now) }
{
    let mut slots = Vec::new(alloc);
    let mut rest = bytes;
    for _i in 0..size {
        slots.push(slot(rest))?;
        rest = rest.split_at(SLOT_LEN).1;
    }
    Ok(slots)
}

/// Appends the bytes of a slot.
pub(crate) fn append_slot(bytes: &mut Vec<u8>, slot: Slot) -> Result<(), OutOfMemory>
    ensures { OnOk result (bytes.new.items ≡ bytes.old.items ++ slot_bytes slot) }
{
    let flag = if slot.in_flight { 1 } else { 0 };
    let c = if slot.in_flight { slot.counter } else { 0 }.to_le_bytes();
    bytes.extend_from_slice(&[
        flag, 0, 0, 0, 0, 0, 0, 0, c[0], c[1], c[2], c[3], c[4], c[5], c[6], c[7],
    ])?;
    Ok(())
}
