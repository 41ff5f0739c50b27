//! The guest of a live run: a content for each queue, with its ring, its chains and their bytes, and the requests by
//! which a front end starts the queues.
ghost use Rattle.std.specs.Prelude.{◌≡◌, ◌<◌, ◌≤◌, ◌^◌};

use std::alloc::{AllocError, Global};
use vub_base::{Bytes, Listed, OutOfMemory};
use vub_proto::{FixedDevice, Part, Request};

/// The size of each queue, in descriptors.
const SIZE: u16 = 256;

/// The number of chains of each queue, each of two descriptors.
const CHAINS: u16 = 128;

/// The number of bytes of each content.
const LENGTH: u64 = 0x8000;

/// Where the available ring, the used ring, the requests and the replies begin in each content; the descriptor table
/// begins at 0.
const AVAILABLE: u64 = 0x1000;

const USED: u64 = 0x2000;

const REQUESTS: u64 = 0x3000;

const REPLIES: u64 = 0x4000;

/// Where the index of the used ring lies in each content.
pub(crate) const USED_INDEX: u64 = 0x2002;

/// The flags of a descriptor with a following one, and of one that the device writes (virtio 1.2, section 2.7.5).
const NEXT: u16 = 1;

const WRITE: u16 = 2;

/// The guest address, and that of the front end, at which the content of a queue begins.
fn start_of(queue: u32) -> u64
    ensures { result < 2 ^ 48 }
{
    0x10_0000 + queue as u64 * LENGTH
}

/// A device of so many queues, each with a worker of its own and an exit object.
///
/// # Errors
/// Want of memory.
pub fn live_device(alloc: Global, queues: u32) -> Result<FixedDevice, OutOfMemory> {
    let mut masks = Vec::new(alloc);
    let mut exits = Vec::new(alloc);
    for queue in 0..queues {
        masks.push(1u64.wrapping_shl(queue))?;
        exits.push(Some(queue))?;
    }
    Ok(FixedDevice {
        queues: queues as usize,
        max: SIZE as usize,
        features: 0,
        protocol: 0,
        masks: Listed::from_vec(masks),
        exits: Listed::from_vec(exits),
        refusals: 0,
    })
}

/// Adds a descriptor of 8 bytes.
fn push_descriptor(
    bytes: &mut Vec<u8>,
    addr: u64,
    flags: u16,
    next: u16,
) -> Result<(), AllocError> {
    bytes.extend_from_slice(&addr.to_le_bytes())?;
    bytes.extend_from_slice(&8u32.to_le_bytes())?;
    bytes.extend_from_slice(&flags.to_le_bytes())?;
    bytes.extend_from_slice(&next.to_le_bytes())?;
    Ok(())
}

/// Adds the two descriptors of a chain: 8 bytes to read, and 8 to write.
fn push_chain(bytes: &mut Vec<u8>, start: u64, chain: u16) -> Result<(), AllocError>
    requires start { start < 2 ^ 48 }
    requires chain { chain < 128 }
{
    let at = 8 * chain as u64;
    push_descriptor(bytes, start + REQUESTS + at, NEXT, 2 * chain + 1)?;
    push_descriptor(bytes, start + REPLIES + at, WRITE, 0)
}

/// Adds the available ring: entry n has chain n modulo 128.
fn push_available(bytes: &mut Vec<u8>, entries: u16) -> Result<(), AllocError> {
    bytes.extend_from_slice(&0u16.to_le_bytes())?;
    bytes.extend_from_slice(&entries.to_le_bytes())?;
    for slot in 0..SIZE {
        let head = 2 * (slot % CHAINS);
        bytes.extend_from_slice(&head.to_le_bytes())?;
    }
    Ok(())
}

/// The content of a queue: 128 chains, each with 8 bytes to read and 8 to write, and so many entries that are
/// published, at most 256.
///
/// # Errors
/// Want of memory.
pub fn queue_content(alloc: Global, queue: u32, entries: u16) -> Result<Bytes, OutOfMemory> {
    let mut bytes = Vec::new(alloc);
    let start = start_of(queue);
    for chain in 0..CHAINS {
        push_chain(&mut bytes, start, chain)?;
    }
    bytes.resize(AVAILABLE as usize, 0)?;
    push_available(&mut bytes, entries)?;
    bytes.resize(REQUESTS as usize, 0)?;
    for chain in 0..CHAINS {
        bytes.extend_from_slice(&(chain as u64).to_le_bytes())?;
    }
    bytes.resize(LENGTH as usize, 0)?;
    Ok(Bytes::from_vec(bytes))
}

/// Adds the requests for guest memory: the session gets an owner and no features, which leaves the queues enabled, and
/// these contents, by queue.
///
/// # Errors
/// Want of memory.
pub fn push_table(
    alloc: Global,
    requests: &mut Vec<Request>,
    contents: &[u32],
) -> Result<(), OutOfMemory> {
    let mut parts = Vec::new(alloc);
    let mut queue = 0u32;
    for _ in contents {
        let start = start_of(queue);
        parts.push(Part {
            start,
            len: LENGTH,
            user: start,
            offset: 0,
        })?;
        queue = queue.saturating_add(1);
    }
    requests.push(Request::SetOwner)?;
    requests.push(Request::SetFeatures(0))?;
    requests.push(Request::SetMemTable {
        parts: Listed::from_vec(parts),
        contents: Listed::from_slice(alloc, contents)?,
        postcopy: None,
    })?;
    Ok(())
}

/// Adds the requests by which a queue is started, with these events.
///
/// # Errors
/// Want of memory.
pub fn push_queue(
    requests: &mut Vec<Request>,
    queue: u32,
    kick: u32,
    call: u32,
) -> Result<(), OutOfMemory> {
    let start = start_of(queue);
    requests.push(Request::SetVringNum {
        queue,
        size: SIZE as u64,
    })?;
    requests.push(Request::SetVringAddr {
        queue,
        flags: 0,
        desc: start,
        used: start + USED,
        avail: start + AVAILABLE,
        log: 0,
    })?;
    requests.push(Request::SetVringBase { queue, base: 0 })?;
    requests.push(Request::SetVringCall {
        queue,
        event: Some(call),
    })?;
    requests.push(Request::SetVringKick {
        queue,
        event: Some(kick),
    })?;
    Ok(())
}
