//! The machine that the device runs in: guest memory with one queue in it, and a guest that leaves messages.
ghost use Rattle.std.specs.Prelude.{◌<◌, ◌≤◌, length};

use bibplush::{
    Bytes, FixedDevice, GivenRegion, GivenRing, Guest, Info, Listed, Object, OutOfMemory, Request,
    Setup,
};
use std::alloc::{AllocError, Global};

/// The objects of the set-up, by their numbers: guest memory, and the two events of the queue.
const MEMORY: u32 = 0;

const KICK: u32 = 1;

const CALL: u32 = 2;

/// The parties of a schedule, by their numbers: the guest, control, and the first worker.
const GUEST: u32 = 0;

const CONTROL: u32 = 1;

const WORKER: u32 = 2;

/// Guest memory: its first address, and its length in bytes.
const START: u64 = 0x10_0000;

const LENGTH: usize = 0x1_0000;

/// What stands in guest memory, by offset: the queue's three areas, the messages and the room for the replies.
const DESCRIPTORS: u64 = 0;

const AVAILABLE: u64 = 0x1000;

const USED: u64 = 0x2000;

const MESSAGES: u64 = 0x3000;

const REPLIES: u64 = 0x4000;

/// The queue's size in descriptors, of which each entry has two.
const SIZE: u16 = 16;

/// The most bytes of a message, and the room for each reply.
const ROOM: u16 = 64;

/// Flags of a descriptor (virtio 1.2, section 2.7.5): there is a next one; the device writes.
const NEXT: u16 = 1;

const WRITE: u16 = 2;

/// A device of one queue, served by one worker.
pub fn device(alloc: Global) -> Result<FixedDevice, OutOfMemory> {
    Ok(FixedDevice {
        queues: 1,
        max: 256,
        features: 0,
        protocol: 0,
        masks: Listed::from_slice(alloc, &[1])?,
        exits: Listed::new(alloc),
        refusals: 0,
    })
}

/// Appends a descriptor: where its bytes stand in guest memory and how many they are, its flags and the next one.
fn push_descriptor(
    table: &mut Vec<u8>,
    offset: u64,
    len: u16,
    flags: u16,
    next: u16,
) -> Result<(), AllocError>
    requires { offset < 65536 }
{
    table.extend_from_slice(&(START + offset).to_le_bytes())?;
    table.extend_from_slice(&u32::from(len).to_le_bytes())?;
    table.extend_from_slice(&flags.to_le_bytes())?;
    table.extend_from_slice(&next.to_le_bytes())?;
    Ok(())
}

/// The two descriptors of an entry: its message, and the room for its reply.
fn descriptors(alloc: Global, entry: u16, len: u16) -> Result<Bytes, OutOfMemory>
    requires { entry < 8 }
{
    let place = u64::from(ROOM * entry);
    let mut table = Vec::new(alloc);
    push_descriptor(&mut table, MESSAGES + place, len, NEXT, 2 * entry + 1)?;
    push_descriptor(&mut table, REPLIES + place, ROOM, WRITE, 0)?;
    Ok(Bytes::from_vec(table))
}

/// The guest's store of these bytes in its memory.
fn store(offset: u64, bytes: Bytes) -> Guest {
    Guest::Store {
        object: MEMORY,
        offset,
        bytes,
    }
}

/// Appends what the guest does to publish a message: it stores the bytes, the entry's two descriptors, its number in
/// the available ring, and then the available index; and it signals the kick.
fn push_message(
    alloc: Global,
    guest: &mut Listed<Guest>,
    entry: u16,
    message: &[u8],
) -> Result<(), OutOfMemory>
    requires entry { entry < 8 }
    requires fits { length message.now ≤ 64 }
{
    let number = u64::from(entry);
    let head = (2 * entry).to_le_bytes();
    let index = (entry + 1).to_le_bytes();
    let table = descriptors(alloc, entry, message.len() as u16)?;
    let message = Bytes::from_slice(alloc, message)?;
    guest.push(store(MESSAGES + u64::from(ROOM) * number, message))?;
    guest.push(store(DESCRIPTORS + 32 * number, table))?;
    guest.push(store(AVAILABLE + 4 + 2 * number, Bytes::from_slice(alloc, &head)?))?;
    guest.push(store(AVAILABLE + 2, Bytes::from_slice(alloc, &index)?))?;
    guest.push(Guest::Signal { object: KICK })
}

/// The queue as it stands at first: its addresses, kick and call are set, and no entry was published.
fn ring() -> GivenRing {
    GivenRing {
        queue: 0,
        size: SIZE,
        info: Some(Info {
            desc: START + DESCRIPTORS,
            avail: START + AVAILABLE,
            used: START + USED,
        }),
        base: 0,
        next_used: 0,
        kick: Some(KICK),
        call: Some(CALL),
        ready: true,
        enabled: true,
    }
}

/// The set-up: a guest that leaves three messages, and a front end that stops the queue when it comes to its turn.
pub fn set_up(alloc: Global) -> Result<Setup, OutOfMemory> {
    let memory = Bytes::from_vec(vec![in alloc; 0; LENGTH]?);
    let objects = vec![in alloc;
        Object::Content(memory),
        Object::Event { flags: 0 },
        Object::Event { flags: 0 },
    ]?;
    let region = GivenRegion {
        start: START,
        len: LENGTH as u64,
        user: START,
        offset: 0,
        object: MEMORY,
    };
    let mut guest = Listed::new(alloc);
    push_message(alloc, &mut guest, 0, b"bread")?;
    push_message(alloc, &mut guest, 1, b"butter")?;
    push_message(alloc, &mut guest, 2, b"jam")?;
    Ok(Setup {
        objects: Listed::from_vec(objects),
        regions: Listed::from_slice(alloc, &[region])?,
        rings: Listed::from_slice(alloc, &[ring()])?,
        requests: Listed::from_vec(vec![in alloc; Request::GetVringBase { queue: 0 }]?),
        guest,
    })
}

/// The schedule: the guest has its turns, then the worker, then control.
pub fn schedule(alloc: Global) -> Result<Vec<u32>, AllocError> {
    let mut turns = Vec::new(alloc);
    turns.extend_from_slice(&[GUEST; 15])?;
    turns.extend_from_slice(&[WORKER; 24])?;
    turns.extend_from_slice(&[CONTROL; 12])?;
    Ok(turns)
}
