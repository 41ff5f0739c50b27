use crate::driver_device::{Served, serve};
use std::alloc::Global;
use std::test::Fail;
use vub_base::Bytes;
use vub_driver::{Done, Driver, DriverError, Layout};
use vub_mem::{GuestMemory, Region};
use vub_queue::Queue;

const LAYOUT: Layout = Layout {
    size: 8,
    desc: 0x100000,
    avail: 0x101000,
    used: 0x102000,
    buffers: 0x110000,
    slot: 16,
};

/// Zero bytes in one region.
fn memory(alloc: Global) -> Result<GuestMemory<()>, Fail> {
    let bytes = vec![in alloc; 0; 0x100000]?;
    let mut memory = GuestMemory::new(alloc);
    memory.put_object(alloc, 0, Bytes::from_vec(bytes))?;
    let mut table = Vec::new(alloc);
    table.push(Region {
        start: 0x100000,
        len: 0x100000,
        object: 0,
        offset: 0,
        log: None,
    })?;
    memory.replace_table(table)?;
    Ok(memory)
}

fn queue(event_idx: bool) -> Result<Queue, Fail> {
    let mut queue = Queue::new(8)?;
    queue.set_event_idx(event_idx);
    queue.set_info(LAYOUT.desc, LAYOUT.avail, LAYOUT.used)?;
    Ok(queue)
}

/// What a call answers, in few words: a signal, a reply's number and first byte, or a refusal.
#[derive(Clone, Copy, Debug, PartialEq, Eq)]
enum Answer {
    Signal(bool),
    Reply(u64, u8),
    Nothing,
    Refused(DriverError),
    Served(Served),
    Written,
}

/// A call of driver or device, or a store by whoever holds the memory.
#[derive(Clone, Copy)]
enum Call {
    Submit(&'static [u8], u32),
    Serve,
    Collect,
    Store(u64, u8),
}

fn submit(
    driver: &mut Driver,
    memory: &mut GuestMemory<()>,
    request: &[u8],
    room: u32,
) -> Result<Answer, Fail> {
    if driver.submitted() == u64::MAX {
        Err("no number is left")?;
    }
    match driver.submit(memory, request, room) {
        Ok(signal) => Ok(Answer::Signal(signal)),
        Err(fault) => Ok(Answer::Refused(fault)),
    }
}

fn first_of(done: &Done) -> Answer {
    let first = done.reply.as_slice().first().copied().unwrap_or(0);
    Answer::Reply(done.number, first)
}

fn collect(alloc: Global, driver: &mut Driver, memory: &GuestMemory<()>) -> Answer {
    match driver.collect(alloc, memory) {
        Ok(Some(done)) => first_of(&done),
        Ok(None) => Answer::Nothing,
        Err(fault) => Answer::Refused(fault),
    }
}

fn store(memory: &mut GuestMemory<()>, at: u64, byte: u8) -> Result<Answer, Fail> {
    memory.write(at, &[byte])?;
    Ok(Answer::Written)
}

fn play(
    alloc: Global,
    driver: &mut Driver,
    queue: &mut Queue,
    memory: &mut GuestMemory<()>,
    call: Call,
) -> Result<Answer, Fail> {
    match call {
        Call::Submit(request, room) => submit(driver, memory, request, room),
        Call::Serve => Ok(Answer::Served(serve(alloc, queue, memory)?)),
        Call::Collect => Ok(collect(alloc, driver, memory)),
        Call::Store(at, byte) => store(memory, at, byte),
    }
}

/// With EVENT_IDX. The driver never writes used_event, so only the first use asks for a notification. The last stores
/// put other ids, lengths and indexes where the device has none.
const TALK: [(Call, Answer); 25] = [
    (Call::Collect, Answer::Nothing),
    (Call::Submit(b"a", 16), Answer::Signal(true)),
    (Call::Submit(b"bb", 16), Answer::Signal(false)),
    (Call::Submit(b"", 0), Answer::Signal(false)),
    (Call::Submit(b"dddd", 1), Answer::Signal(false)),
    (Call::Submit(b"e", 17), Answer::Refused(DriverError::Full)),
    (Call::Serve, Answer::Served(Served::Put(true))),
    (Call::Serve, Answer::Served(Served::Put(false))),
    (Call::Serve, Answer::Served(Served::Put(false))),
    (Call::Serve, Answer::Served(Served::Put(false))),
    (Call::Serve, Answer::Served(Served::Nothing)),
    (Call::Collect, Answer::Reply(0, b'a')),
    (
        Call::Submit(b"12345678901234567", 16),
        Answer::Refused(DriverError::TooLarge),
    ),
    (
        Call::Submit(b"e", 17),
        Answer::Refused(DriverError::TooLarge),
    ),
    (Call::Submit(b"e", 16), Answer::Signal(true)),
    (Call::Collect, Answer::Reply(1, b'b')),
    (Call::Collect, Answer::Reply(2, 0)),
    (Call::Store(0x10201c, 0), Answer::Written),
    (Call::Collect, Answer::Refused(DriverError::BadId)),
    (Call::Store(0x10201c, 6), Answer::Written),
    (Call::Store(0x102020, 2), Answer::Written),
    (Call::Collect, Answer::Refused(DriverError::BadLength)),
    (Call::Store(0x102002, 6), Answer::Written),
    (Call::Collect, Answer::Refused(DriverError::UsedAhead)),
    (Call::Serve, Answer::Served(Served::Put(false))),
];

#[test]
fn driver_and_device_talk(rt: HostRuntime) -> Result<(), Fail> {
    let mut memory = memory(rt.alloc())?;
    let mut driver = Driver::new(rt.alloc(), LAYOUT, true)?;
    let mut queue = queue(true)?;
    for (at, (call, answer)) in TALK.iter().enumerate() {
        let given = play(rt.alloc(), &mut driver, &mut queue, &mut memory, *call)?;
        assert_eq!(rt; given, *answer, "call {at}");
    }
    assert_eq!(rt; driver.submitted(), 5);
    assert_eq!(rt; driver.collected(), 3);
    Ok(())
}

/// An element of another head, as the first of all.
#[test]
fn an_element_of_another_head_is_refused(rt: HostRuntime) -> Result<(), Fail> {
    let mut memory = memory(rt.alloc())?;
    let mut driver = Driver::new(rt.alloc(), LAYOUT, false)?;
    assert_eq!(rt;
        submit(&mut driver, &mut memory, b"a", 1)?,
        Answer::Signal(true)
    );
    store(&mut memory, 0x102004, 3)?;
    store(&mut memory, 0x102002, 1)?;
    assert_eq!(rt;
        collect(rt.alloc(), &mut driver, &memory),
        Answer::Refused(DriverError::BadId)
    );
    Ok(())
}

/// Layouts, and why they are refused.
const LAYOUTS: [(Layout, Option<DriverError>); 9] = [
    (LAYOUT, None),
    (Layout { size: 1, ..LAYOUT }, Some(DriverError::Size)),
    (Layout { size: 6, ..LAYOUT }, Some(DriverError::Size)),
    (
        Layout {
            desc: 0x100008,
            used: 2,
            ..LAYOUT
        },
        Some(DriverError::Misaligned),
    ),
    (
        Layout {
            slot: 0x10000000,
            ..LAYOUT
        },
        None,
    ),
    (
        Layout {
            slot: 0x10000000,
            buffers: 0,
            ..LAYOUT
        },
        Some(DriverError::Overlap),
    ),
    (
        Layout {
            slot: 0,
            buffers: 0x101003,
            ..LAYOUT
        },
        None,
    ),
    (
        Layout {
            slot: 1,
            buffers: 0xfffffffffffffff7,
            ..LAYOUT
        },
        None,
    ),
    (
        Layout {
            slot: 1,
            buffers: 0xfffffffffffffff8,
            ..LAYOUT
        },
        Some(DriverError::Overlap),
    ),
];

#[test]
fn layouts_are_tested_in_order(rt: HostRuntime) {
    for (at, (layout, fault)) in LAYOUTS.iter().enumerate() {
        let refused = Driver::new(rt.alloc(), *layout, true).err();
        assert_eq!(rt; refused, *fault, "layout {at}");
    }
}

#[test]
fn what_is_outside_is_refused(rt: HostRuntime) -> Result<(), Fail> {
    let mut memory = memory(rt.alloc())?;
    let far = Layout {
        buffers: 0x200000,
        ..LAYOUT
    };
    let mut driver = Driver::new(rt.alloc(), far, true)?;
    assert_eq!(rt;
        submit(&mut driver, &mut memory, b"a", 1)?,
        Answer::Refused(DriverError::Outside)
    );
    assert_eq!(rt; collect(rt.alloc(), &mut driver, &memory), Answer::Nothing);
    Ok(())
}

#[test]
fn refusals_are_sentences(rt: HostRuntime) -> Result<(), Fail> {
    let alloc = rt.alloc();
    for (error, text) in [
        (DriverError::Size, "size is no power of two from 2 to 32768"),
        (DriverError::Misaligned, "part of a ring is misaligned"),
        (DriverError::Overlap, "parts of a ring overlap"),
        (
            DriverError::Full,
            "as many requests are outstanding as the ring holds",
        ),
        (DriverError::TooLarge, "request or room is too large"),
        (
            DriverError::Outside,
            "part of a ring is outside guest memory",
        ),
        (
            DriverError::UsedAhead,
            "more elements were used than requests are outstanding",
        ),
        (
            DriverError::BadId,
            "used element is not of the oldest request",
        ),
        (
            DriverError::BadLength,
            "used element is longer than the room",
        ),
        (DriverError::OutOfMemory, "out of memory"),
    ] {
        assert_eq!(rt; format!(in alloc; "{error}")?.as_str(), text);
    }
    Ok(())
}
