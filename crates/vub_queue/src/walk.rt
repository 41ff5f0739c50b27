ghost use Rattle.std.specs.Prelude.{◌≡◌, ◌+◌, ◌*◌, ◌<◌, ◌≤◌, ◌^◌, IfOk, IfErr, OnOk, OnErr, Some, length};
ghost use Rattle.vub_mem.specs.Place.{bytes_at};
ghost use Rattle.vub_queue.specs.Chain.{descriptor_at};
ghost use Rattle.vub_queue.specs.Walk.{CostsAsWalk, Fits, Walks, fault_of, reads_at};

use crate::damage::Damage;
use crate::descriptor::Descriptor;
use crate::layout::{VIRTQ_DESC_F_INDIRECT, VIRTQ_DESC_F_NEXT};
use std::alloc::Global;
use std::sync::ledger::Ledger;
use vub_base::{OutOfMemory, Steps};
use vub_mem::{DirtyLog, GuestMemory};

/// What the descriptors of a head are: its whole chain, or the first test that one of them fails.
#[derive(Drop)]
pub enum Walk {
    Whole(Vec<Descriptor>),
    Failed(Damage),
}

/// Reads one descriptor, all of it at once, which is one step.
#[tactic(auto, unfolding(crate::specs::Chain::descriptor_at))]
fn read_descriptor<L: DirtyLog, K: Ledger>(
    memory: &GuestMemory<L>,
    addr: u64,
    steps: &mut Steps<K>,
) -> Descriptor
    requires { addr + 16 < 2 ^ 64 }
    ensures value { result ≡ descriptor_at memory.now.guest addr }
    ensures cost { steps.new ≡ steps.old + 1 }
{
    steps.tick();
    Descriptor {
        addr: memory.u64_at(addr),
        len: memory.u32_at(addr + 8),
        flags: memory.u16_at(addr + 12),
        next: memory.u16_at(addr + 14),
    }
}

/// The descriptor with this number, or the first test that it fails, after `read` descriptors whose lengths add to
/// `sum`.
#[tactic(auto, unfolding(crate::specs::Walk::fault_of))]
fn next_descriptor<L: DirtyLog, K: Ledger>(
    memory: &GuestMemory<L>,
    table: u64,
    size: u16,
    read: usize,
    sum: u64,
    number: u16,
    steps: &mut Steps<K>,
) -> Result<Descriptor, Damage>
    requires sum { sum ≤ 4294967295 }
    requires read { read ≤ size }
    ensures ok { IfOk result (Fits memory.now.guest (record { base = table; size = size }) read sum number) }
    ensures err { IfErr result (λ damage. fault_of memory.now.guest (record { base = table; size = size }) read sum
        number ≡ Some damage) }
    ensures cost { OnOk result (steps.new ≡ steps.old + 1) }
    ensures reads { IfErr result (λ damage. steps.new + read ≡ steps.old + reads_at size read damage) }
    ensures most { OnErr result (steps.new + read ≤ steps.old + size) }
{
    if read >= size as usize {
        return Err(Damage::TooLong);
    }
    if number >= size {
        return Err(Damage::BadNumber);
    }
    let Some(at) = memory.locate(table, 16 * number as u64, 16) else {
        return Err(Damage::RingOutside);
    };
    let descriptor = read_descriptor(memory, at, steps);
    if descriptor.flags & VIRTQ_DESC_F_INDIRECT != 0 {
        return Err(Damage::Indirect);
    }
    if sum + descriptor.len as u64 > 4294967295 {
        return Err(Damage::TooBig);
    }
    if !memory.covers(descriptor.addr, descriptor.len as u64) {
        return Err(Damage::SegmentOutside);
    }
    Ok(descriptor)
}

/// Reads the chain of the head from a table of `size` descriptors, or finds the first test that one of them fails.
pub(crate) fn read_chain<L: DirtyLog, K: Ledger>(
    alloc: Global,
    memory: &GuestMemory<L>,
    table: u64,
    size: u16,
    head: u16,
    steps: &mut Steps<K>,
) -> Result<Walk, OutOfMemory>
    ensures walked { IfOk result (Walks memory.now.guest (record { base = table; size = size }) head) }
    ensures cost { IfOk result (CostsAsWalk memory.now.guest (record { base = table; size = size }) head steps.old
        steps.new) }
    ensures most { steps.new ≤ steps.old + size }
{
    let mut list = Vec::new(alloc);
    let mut number = head;
    let mut sum = 0;
    'walk: loop {
        match next_descriptor(memory, table, size, list.len(), sum, number, steps) {
            Err(damage) => return Ok(Walk::Failed(damage)),
            Ok(descriptor) => {
                list.push(descriptor)?;
                sum += descriptor.len as u64;
                if descriptor.flags & VIRTQ_DESC_F_NEXT == 0 {
                    return Ok(Walk::Whole(list));
                }
                number = descriptor.next;
            }
        }
    }
}
