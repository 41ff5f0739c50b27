ghost use Rattle.std.specs.Prelude.{◌≡◌, IfOk, IsSome};

use crate::inflight_device::{Taken, advance, finish, take};
use std::alloc::Global;
use std::test::Fail;
use vub_base::Bytes;
use vub_inflight::{InflightRing, RecoverError, Resumed, Stage, recover};
use vub_mem::{GuestMemory, Region};
use vub_queue::Queue;

const AVAIL: u64 = 0x1000;

const USED: u64 = 0x2000;

/// A chain of one descriptor: 16 writable bytes at 0x3000.
const DESCRIPTOR: [u8; 16] = [0, 0x30, 0, 0, 0, 0, 0, 0, 16, 0, 0, 0, 2, 0, 0, 0];

/// Writes bytes at a place where they fit.
fn put(bytes: &mut Bytes, at: usize, what: &[u8]) {
    if what.len() <= bytes.len() && at <= bytes.len() - what.len() {
        bytes.overwrite(at, what);
    }
}

/// A content of 16384 bytes. Descriptors 0 and 2 have 16 writable bytes each, and the available ring holds head 0 and
/// this one.
fn content(alloc: Global, second: u8) -> Result<Bytes, Fail> {
    let mut bytes = Bytes::from_vec(vec![in alloc; 0; 0x4000]?);
    put(&mut bytes, 0, &DESCRIPTOR);
    put(&mut bytes, 32, &DESCRIPTOR);
    put(&mut bytes, 0x1002, &[2, 0, 0, 0, second]);
    Ok(bytes)
}

/// Guest memory with that content behind these regions (start, length, offset).
fn guest_memory(
    alloc: Global,
    second: u8,
    regions: &[(u64, u64, u64)],
) -> Result<GuestMemory<()>, Fail> {
    let mut memory = GuestMemory::new(alloc);
    memory.put_object(alloc, 0, content(alloc, second)?)?;
    let mut table = Vec::new(alloc);
    for (start, len, offset) in regions {
        table.push(Region {
            start: *start,
            len: *len,
            object: 0,
            offset: *offset,
            log: None,
        })?;
    }
    memory.replace_table(table)?;
    Ok(memory)
}

/// One region over all of the content.
const WHOLE: [(u64, u64, u64); 1] = [(0, 0x4000, 0)];

/// Two regions, of which the second begins between the two bytes of the used index word and shows the first one again.
const TWICE: [(u64, u64, u64); 2] = [(0, 0x2003, 0), (0x2003, 0x1ffd, 0x2002)];

/// Four descriptors at 0.
fn queue() -> Result<Queue, Fail>
    ensures addresses { IfOk result (λ q. IsSome q.addresses) }
    ensures equal { IfOk result (λ q. q.next_avail ≡ q.next_used) }
{
    let mut queue = Queue::new(4)?;
    queue.set_info(0, AVAIL, USED)?;
    Ok(queue)
}

fn new_ring(alloc: Global) -> Result<InflightRing, Fail> {
    let ring = InflightRing::new(alloc, queue()?)?;
    Ok(ring)
}

/// The record of a ring that took heads 0 and 2 and made so many calls of the use of head 0.
fn record_after(alloc: Global, memory: &mut GuestMemory<()>, calls: u16) -> Result<Bytes, Fail> {
    let mut ring = new_ring(alloc)?;
    for head in [0, 2] {
        if take(alloc, &mut ring, memory)? != Taken::Entry(head) {
            Err("another entry")?;
        }
    }
    for _call in 0..calls {
        if !advance(alloc, &mut ring, memory, 0)? {
            Err("call refused")?;
        }
    }
    let record = ring.record(alloc)?;
    Ok(record)
}

fn resumed(alloc: Global, record: &[u8], memory: &GuestMemory<()>) -> Result<Resumed, Fail> {
    let resumed = recover(alloc, record, queue()?, memory)?;
    Ok(resumed)
}

/// Why recovering is refused.
fn refusal(
    alloc: Global,
    record: &[u8],
    memory: &GuestMemory<()>,
) -> Result<Option<RecoverError>, Fail> {
    Ok(recover(alloc, record, queue()?, memory).err())
}

/// Serves again what is to be, and answers the record that is then left.
fn record_served(
    alloc: Global,
    resumed: Resumed,
    memory: &mut GuestMemory<()>,
) -> Result<Bytes, Fail> {
    let Resumed { mut ring, again } = resumed;
    for head in again.as_slice() {
        if !finish(alloc, &mut ring, memory, *head)? {
            Err("reply refused")?;
        }
    }
    let record = ring.record(alloc)?;
    Ok(record)
}

/// After how many calls of the use of head 0 a ring is cut that took heads 0 and 2, and what recovering is to give: the
/// heads that are served again, and next used.
const CUTS: [(u16, &[u16], u16); 5] = [
    (0, &[0, 2], 0),
    (1, &[0, 2], 0),
    (2, &[2], 1),
    (3, &[2], 1),
    (4, &[2], 1),
];

#[test]
fn a_ring_that_was_cut_goes_on(rt: HostRuntime) -> Result<(), Fail> {
    for (calls, again, used) in CUTS {
        let mut memory = guest_memory(rt.alloc(), 2, &WHOLE)?;
        let record = record_after(rt.alloc(), &mut memory, calls)?;
        let first = resumed(rt.alloc(), record.as_slice(), &memory)?;
        assert_eq!(rt; first.again.as_slice(), again, "after {calls}");
        assert_eq!(rt; first.ring.queue().next_used(), used, "after {calls}");
        assert_eq!(rt; first.ring.queue().next_avail(), 2, "after {calls}");
        let record = record_served(rt.alloc(), first, &mut memory)?;
        let second = resumed(rt.alloc(), record.as_slice(), &memory)?;
        assert!(rt; second.again.is_empty(), "after {calls}");
        assert_eq!(rt; second.ring.queue().next_used(), 2, "after {calls}");
    }
    Ok(())
}

/// The record after head 0 was published, as heads 0 and 2 are in flight.
const RECORD: [u8; 80] = [
    0, 0, 0, 0, 0, 0, 0, 0, 1, 0, 4, 0, 0, 0, 0, 0, // front
    1, 0, 0, 0, 0, 0, 0, 0, 0, 0, 0, 0, 0, 0, 0, 0, // head 0
    0, 0, 0, 0, 0, 0, 0, 0, 0, 0, 0, 0, 0, 0, 0, 0, // head 1
    1, 0, 0, 0, 0, 0, 0, 0, 1, 0, 0, 0, 0, 0, 0, 0, // head 2
    0, 0, 0, 0, 0, 0, 0, 0, 0, 0, 0, 0, 0, 0, 0, 0, // head 3
];

#[test]
fn records_have_their_layout(rt: HostRuntime) -> Result<(), Fail> {
    let mut memory = guest_memory(rt.alloc(), 2, &WHOLE)?;
    let record = record_after(rt.alloc(), &mut memory, 2)?;
    assert_eq!(rt; record.as_slice(), RECORD.as_slice());
    assert_eq!(rt; memory.read_u16(USED + 2)?, 1);
    Ok(())
}

#[test]
fn a_head_in_flight_is_not_taken_again(rt: HostRuntime) -> Result<(), Fail> {
    let mut memory = guest_memory(rt.alloc(), 0, &WHOLE)?;
    let mut ring = new_ring(rt.alloc())?;
    for taken in [Taken::Entry(0), Taken::Doubled(0)] {
        assert_eq!(rt; take(rt.alloc(), &mut ring, &mut memory)?, taken);
        assert_eq!(rt; ring.next_counter(), 1);
    }
    assert!(rt; finish(rt.alloc(), &mut ring, &mut memory, 0)?);
    assert_eq!(rt; ring.stage(), Stage::Settled);
    assert!(rt; !ring.is_in_flight(0));
    assert_eq!(rt; take(rt.alloc(), &mut ring, &mut memory)?, Taken::Entry(0));
    Ok(())
}

/// What is written over the record of a ring that published nothing, and the test that it then fails.
const REFUSALS: [(usize, &[u8], RecoverError); 7] = [
    (8, &[2], RecoverError::Version),
    (10, &[8], RecoverError::Size),
    (64, &[2], RecoverError::Flag),
    (12, &[4], RecoverError::Head),
    (56, &[0], RecoverError::Counter),
    (14, &[5], RecoverError::UsedMoved),
    (56, &[255; 8], RecoverError::CounterSpent),
];

#[test]
fn other_records_are_refused(rt: HostRuntime) -> Result<(), Fail> {
    let mut memory = guest_memory(rt.alloc(), 2, &WHOLE)?;
    for (at, patch, error) in REFUSALS {
        let mut record = record_after(rt.alloc(), &mut memory, 0)?;
        put(&mut record, at, patch);
        assert_eq!(rt;
            refusal(rt.alloc(), record.as_slice(), &memory)?,
            Some(error)
        );
    }
    assert_eq!(rt;
        refusal(rt.alloc(), &[0; 15], &memory)?,
        Some(RecoverError::Length)
    );
    let record = record_after(rt.alloc(), &mut memory, 0)?;
    let below = guest_memory(rt.alloc(), 2, &[(0, USED, 0)])?;
    assert_eq!(rt;
        refusal(rt.alloc(), record.as_slice(), &below)?,
        Some(RecoverError::Outside)
    );
    Ok(())
}

/// Where the two bytes of the used index word show one byte, the index that a publish writes is not read back, and the
/// entry that was published comes back: so the law asks that they lie at two places.
#[test]
fn a_word_that_shows_one_byte_twice_loses_its_index(rt: HostRuntime) -> Result<(), Fail> {
    let mut memory = guest_memory(rt.alloc(), 2, &TWICE)?;
    let record = record_after(rt.alloc(), &mut memory, 2)?;
    let resumed = resumed(rt.alloc(), record.as_slice(), &memory)?;
    assert_eq!(rt; memory.read_u16(USED + 2)?, 0);
    assert_eq!(rt; resumed.again.as_slice(), [0, 2].as_slice());
    Ok(())
}

#[test]
fn refusals_are_sentences(rt: HostRuntime) -> Result<(), Fail> {
    let alloc = rt.alloc();
    for (error, text) in [
        (
            RecoverError::Length,
            "length of a record does not fit the queue",
        ),
        (RecoverError::Version, "version of a record is not 1"),
        (RecoverError::Size, "record is of a queue of another size"),
        (RecoverError::Flag, "in-flight byte is above 1"),
        (
            RecoverError::Head,
            "last head is no descriptor of the table",
        ),
        (
            RecoverError::Counter,
            "two heads in flight have one counter",
        ),
        (RecoverError::Outside, "used index is outside guest memory"),
        (RecoverError::UsedMoved, "used index moved by more than one"),
        (
            RecoverError::CounterSpent,
            "counter in flight is the greatest",
        ),
        (RecoverError::OutOfMemory, "out of memory"),
    ] {
        assert_eq!(rt; format!(in alloc; "{error}")?.as_str(), text);
    }
    Ok(())
}
