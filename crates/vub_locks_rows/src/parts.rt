//! Parts under locks answer as the parts that one owner holds.
ghost use Rattle.std.specs.Prelude.{◌≡◌, sum_by};

use crate::shown::{expect, show};
use std::alloc::{AllocError, Global};
use std::sync::atomic::{AtomicBool, Ordering};
use std::sync::{Arc, Wait};
use std::test::Fail;
use std::thread;
use vub_attend::ObjectParts;
use vub_base::{Bytes, Listed, OutOfMemory};
use vub_event::{EventSet, MemHost};
use vub_live::queue_content;
use vub_locks::{LockedParts, NoGate, OpenParts, QuietHost, RingBook, SharedParts};
use vub_mem::{GuestMemory, Region};
use vub_model::{Constants, Entry, RingOp, RingSaid, TableOp};
use vub_proto::{Backend, DeviceOp, Echo, FixedDevice};
use vub_queue::QueueError;
use vub_vring::{
    HostOp, OwnedParts, Parts, PendOp, Pending, Store, TableRing, TableRingSaid, VringState,
};

/// The greatest size of the rings.
const MAX: u16 = 256;

/// The length of the content of a queue, which is a region of guest memory.
const LENGTH: u64 = 0x8000;

/// Where the content of a queue lies in guest memory.
const FIRST: Region = Region {
    start: 0x10_0000,
    len: LENGTH,
    object: 0,
    offset: 0,
    log: None,
};

/// The same of the second queue.
const SECOND: Region = Region {
    start: 0x10_8000,
    len: LENGTH,
    object: 1,
    offset: 0,
    log: None,
};

/// An entry that was taken and not used.
#[derive(Drop)]
struct Taken {
    entry: Entry,
    ghost room: { entry.chain.room ≡ sum_by (λ s. s.len) entry.chain.segments },
}

/// What a party has in hand.
#[derive(Drop)]
struct Hand {
    taken: Option<Taken>,
    reply: Bytes,
}

// Each of these makes one call, and adds what it answers.

fn ring<P: Parts>(
    alloc: Global,
    lines: &mut String,
    parts: &mut P,
    queue: u32,
    op: RingOp,
) -> Result<(), AllocError> {
    let said = parts.ring(alloc, queue, op);
    show(alloc, lines, &said)
}

fn info<P: Parts>(
    alloc: Global,
    lines: &mut String,
    parts: &mut P,
    queue: u32,
    start: u64,
) -> Result<(), AllocError> {
    let op = TableRing::Info {
        desc: start,
        avail: start.saturating_add(0x1000),
        used: start.saturating_add(0x2000),
    };
    let said = parts.ring_table(alloc, queue, op);
    show(alloc, lines, &said)
}

fn take<P: Parts>(
    alloc: Global,
    lines: &mut String,
    parts: &mut P,
    hand: &mut Hand,
    queue: u32,
) -> Result<(), AllocError> {
    let said = parts.ring_table(alloc, queue, TableRing::Take);
    show(alloc, lines, &said)?;
    if let Ok(
        TableRingSaid::Taken {
            epoch,
            number,
            chain,
        },
    ) = said
    {
        hand.taken = Some(Taken {
            entry: Entry {
                queue,
                epoch,
                number,
                chain,
            },
        });
    }
    Ok(())
}

fn kick<P: Parts>(
    alloc: Global,
    lines: &mut String,
    parts: &mut P,
    queue: u32,
    object: u32,
) -> Result<(), AllocError> {
    let said = parts.ring_host(alloc, queue, object);
    show(alloc, lines, &said)
}

fn serve<P: Parts>(
    alloc: Global,
    lines: &mut String,
    parts: &mut P,
    hand: &mut Hand,
) -> Result<(), AllocError> {
    if let Some(taken) = &hand.taken {
        let said = parts.service(alloc, &taken.entry);
        show(alloc, lines, &said)?;
        if let Ok(reply) = said {
            hand.reply = reply;
        }
    }
    Ok(())
}

/// Uses an entry with this reply.
fn put_taken<P: Parts>(
    alloc: Global,
    lines: &mut String,
    parts: &mut P,
    taken: &Taken,
    reply: &[u8],
) -> Result<(), AllocError> {
    if reply.len() > taken.entry.chain.room as usize {
        return lines.push_str("too long\n");
    }
    let said = parts.put(alloc, &taken.entry, reply);
    show(alloc, lines, &said)
}

fn put<P: Parts>(
    alloc: Global,
    lines: &mut String,
    parts: &mut P,
    hand: &mut Hand,
) -> Result<(), AllocError> {
    if let Some(taken) = &hand.taken {
        put_taken(alloc, lines, parts, taken, hand.reply.as_slice())?;
    }
    Ok(())
}

fn host<P: Parts>(
    alloc: Global,
    lines: &mut String,
    parts: &mut P,
    op: HostOp,
) -> Result<(), AllocError> {
    let said = parts.host(alloc, op);
    show(alloc, lines, &said)
}

fn pend<P: Parts>(
    alloc: Global,
    lines: &mut String,
    parts: &mut P,
    worker: u32,
    op: PendOp,
) -> Result<(), AllocError> {
    let said = parts.pend(alloc, worker, op);
    show(alloc, lines, &said)
}

fn table<P: Parts>(
    alloc: Global,
    lines: &mut String,
    parts: &mut P,
    op: TableOp,
) -> Result<(), AllocError> {
    let said = parts.table(alloc, op);
    show(alloc, lines, &said)
}

fn log<P: Parts>(
    alloc: Global,
    lines: &mut String,
    parts: &mut P,
    object: u32,
    tracks: bool,
) -> Result<(), AllocError> {
    let said = parts.set_log(object, 0, 64, tracks);
    show(alloc, lines, &said)
}

fn device<P: Parts>(
    alloc: Global,
    lines: &mut String,
    parts: &mut P,
    op: DeviceOp,
) -> Result<(), AllocError> {
    let said = parts.device(alloc, op);
    show(alloc, lines, &said)?;
    show(alloc, lines, &parts.refusals())
}

fn constants<P: Parts>(alloc: Global, lines: &mut String, parts: &mut P) -> Result<(), AllocError> {
    let said = parts.constants(alloc);
    show(alloc, lines, &said)?;
    show(alloc, lines, &parts.faults())
}

/// Whether the objects with this number are there.
fn known<P: ObjectParts>(
    alloc: Global,
    lines: &mut String,
    parts: &P,
    object: u32,
) -> Result<(), AllocError> {
    let there = (
        parts.has_event(object),
        parts.has_content(object),
        parts.has_log(object),
    );
    show(alloc, lines, &there)
}

/// Both queues' contents become guest memory.
fn replace<P: Parts>(alloc: Global, lines: &mut String, parts: &mut P) -> Result<(), AllocError> {
    match Listed::from_slice(alloc, &[FIRST, SECOND]) {
        Ok(regions) => table(alloc, lines, parts, TableOp::Replace(regions)),
        Err(_) => Err(AllocError),
    }
}

/// The calls that make a ring ready, those that are refused among them.
fn call_of_openings<P: ObjectParts>(
    alloc: Global,
    lines: &mut String,
    parts: &mut P,
    number: u32,
) -> Result<(), AllocError> {
    match number {
        0 => ring(alloc, lines, parts, 0, RingOp::SetSize(256)),
        1 => ring(alloc, lines, parts, 1, RingOp::SetSize(100)),
        2 => ring(alloc, lines, parts, 7, RingOp::GetBase),
        3 => replace(alloc, lines, parts),
        4 => table(alloc, lines, parts, TableOp::Insert(SECOND)),
        5 => info(alloc, lines, parts, 0, 0x10_0000),
        6 => info(alloc, lines, parts, 1, 0x20_0000),
        7 => info(alloc, lines, parts, 9, 0x10_0000),
        8 => ring(alloc, lines, parts, 0, RingOp::SetKick(Some(0))),
        9 => ring(alloc, lines, parts, 0, RingOp::SetCall(Some(1))),
        10 => ring(alloc, lines, parts, 0, RingOp::SetReady(true)),
        11 => ring(alloc, lines, parts, 0, RingOp::SetEnabled(true)),
        12 => ring(alloc, lines, parts, 0, RingOp::SetBase(0)),
        _ => ring(alloc, lines, parts, 1, RingOp::SetErr(Some(2))),
    }
}

/// The calls by which entries are taken and used, the second with its region gone.
fn call_of_entries<P: ObjectParts>(
    alloc: Global,
    lines: &mut String,
    parts: &mut P,
    hand: &mut Hand,
    number: u32,
) -> Result<(), AllocError> {
    match number {
        14 => host(alloc, lines, parts, HostOp::Signal(0, 2)),
        15 => kick(alloc, lines, parts, 0, 0),
        16 => kick(alloc, lines, parts, 0, 1),
        17 => kick(alloc, lines, parts, 9, 0),
        18 => take(alloc, lines, parts, hand, 0),
        19 => take(alloc, lines, parts, hand, 0),
        20 => take(alloc, lines, parts, hand, 9),
        21 => serve(alloc, lines, parts, hand),
        22 => put(alloc, lines, parts, hand),
        23 => take(alloc, lines, parts, hand, 0),
        24 => serve(alloc, lines, parts, hand),
        25 => {
            let op = TableOp::Remove {
                start: FIRST.start,
                len: LENGTH,
            };
            table(alloc, lines, parts, op)
        }
        26 => put(alloc, lines, parts, hand),
        _ => ring(alloc, lines, parts, 0, RingOp::SetReady(false)),
    }
}

/// The calls of the host, of pending sets and of the device.
fn call_of_others<P: ObjectParts>(
    alloc: Global,
    lines: &mut String,
    parts: &mut P,
    number: u32,
) -> Result<(), AllocError> {
    match number {
        28 => host(alloc, lines, parts, HostOp::CreateEvent(1)),
        29 => host(alloc, lines, parts, HostOp::CreateList),
        30 => host(alloc, lines, parts, HostOp::Add(0, 2, EventSet::IN, 7)),
        31 => host(alloc, lines, parts, HostOp::Signal(2, 9)),
        32 => host(alloc, lines, parts, HostOp::Listen(0, 9, 7)),
        33 => pend(alloc, lines, parts, 0, PendOp::Insert(3)),
        34 => pend(alloc, lines, parts, 0, PendOp::Insert(70)),
        35 => pend(alloc, lines, parts, 1, PendOp::Insert(5)),
        36 => pend(alloc, lines, parts, 0, PendOp::Remove(3)),
        37 => pend(alloc, lines, parts, 9, PendOp::TakeAll),
        38 => device(alloc, lines, parts, DeviceOp::StopVring(1)),
        39 => device(alloc, lines, parts, DeviceOp::CheckDeviceState),
        40 => device(alloc, lines, parts, DeviceOp::SetGpuSocket(3)),
        41 => log(alloc, lines, parts, 0, false),
        42 => log(alloc, lines, parts, 4, true),
        43 => constants(alloc, lines, parts),
        _ => constants(alloc, lines, parts),
    }
}

/// How many calls there are.
const CALLS: u32 = 45;

/// The call with this number.
fn call<P: ObjectParts>(
    alloc: Global,
    lines: &mut String,
    parts: &mut P,
    hand: &mut Hand,
    number: u32,
) -> Result<(), AllocError> {
    if number < 14 {
        call_of_openings(alloc, lines, parts, number)
    } else if number < 28 {
        call_of_entries(alloc, lines, parts, hand, number)
    } else {
        call_of_others(alloc, lines, parts, number)
    }
}

/// What can be read without a change: the next entries of the rings, the ready member of the list, the objects.
fn look<P: ObjectParts>(
    alloc: Global,
    lines: &mut String,
    parts: &mut P,
) -> Result<(), AllocError> {
    ring(alloc, lines, parts, 0, RingOp::GetBase)?;
    ring(alloc, lines, parts, 1, RingOp::GetBase)?;
    host(alloc, lines, parts, HostOp::Ready(0))?;
    known(alloc, lines, &*parts, 1)?;
    known(alloc, lines, &*parts, 3)
}

/// What is left of counts and pending sets.
fn drain<P: ObjectParts>(
    alloc: Global,
    lines: &mut String,
    parts: &mut P,
) -> Result<(), AllocError> {
    for object in 0..4 {
        host(alloc, lines, parts, HostOp::Consume(object))?;
    }
    for worker in 0..2 {
        pend(alloc, lines, parts, worker, PendOp::TakeAll)?;
    }
    Ok(())
}

/// Makes a call, and looks at what it left.
fn step<P: ObjectParts>(
    alloc: Global,
    lines: &mut String,
    parts: &mut P,
    hand: &mut Hand,
    number: u32,
) -> Result<(), AllocError> {
    call(alloc, lines, parts, hand, number)?;
    look(alloc, lines, parts)
}

// The same opening for both forms: two queues, each with a content, and two workers; three events, and a list.

fn device_of(alloc: Global) -> FixedDevice {
    FixedDevice {
        queues: 2,
        max: MAX as usize,
        features: 0,
        protocol: 0,
        masks: Listed::new(alloc),
        exits: Listed::new(alloc),
        refusals: 0,
    }
}

fn constants_of(alloc: Global) -> Result<Constants, OutOfMemory> {
    Ok(Constants {
        queues: 2,
        max: MAX as usize,
        features: 0,
        protocol: 0,
        tracks: false,
        masks: Listed::from_slice(alloc, &[1u64, 2])?,
        exits: Listed::from_slice(alloc, &[None, Some(2u32)])?,
    })
}

fn hand_of(alloc: Global) -> Hand {
    Hand {
        taken: None,
        reply: Bytes::new(alloc),
    }
}

fn store_of(alloc: Global) -> Result<Store, Fail> {
    let rings = vec![in alloc; VringState::new(MAX)?, VringState::new(MAX)?]?;
    let pending = vec![in alloc; Pending::new(alloc), Pending::new(alloc)]?;
    Ok(Store {
        memory: GuestMemory::new(alloc),
        rings,
        host: MemHost::new(alloc),
        pending,
    })
}

/// A book of a ring of which nothing was taken.
fn book(alloc: Global) -> Result<RingBook, QueueError> {
    let ring = VringState::new(MAX)?;
    Ok(RingBook::new(alloc, ring))
}

/// The parts that threads share.
type EchoParts = SharedParts<FixedDevice, Echo, NoGate>;

fn shared_of(alloc: Global) -> Result<EchoParts, Fail> {
    let rings = vec![in alloc; book(alloc)?, book(alloc)?]?;
    let parts = SharedParts::new(
        alloc,
        OpenParts {
            memory: GuestMemory::new(alloc),
            rings,
            host: QuietHost::new(MemHost::new(alloc)),
            workers: 2,
            device: device_of(alloc),
            service: Echo,
            constants: constants_of(alloc)?,
            gate: NoGate,
        },
    )?;
    Ok(parts)
}

/// Makes the events and the list.
fn furnish<P: Parts>(alloc: Global, lines: &mut String, parts: &mut P) -> Result<(), AllocError> {
    for _ in 0..3 {
        host(alloc, lines, parts, HostOp::CreateEvent(0))?;
    }
    host(alloc, lines, parts, HostOp::CreateList)
}

/// Gives guest memory the contents of both queues.
fn fill_owned(alloc: Global, store: &mut Store) -> Result<(), Fail> {
    let mut memory = GuestMemory::new(alloc);
    memory.put_object(alloc, 0, queue_content(alloc, 0, 3)?)?;
    memory.put_object(alloc, 1, queue_content(alloc, 1, 1)?)?;
    store.memory = memory;
    Ok(())
}

/// The same of parts that are shared.
fn fill_shared<R: Wait>(rt: &R, alloc: Global, shared: &EchoParts) -> Result<bool, Fail> {
    let first = shared.add_content(rt, alloc, queue_content(alloc, 0, 3)?)?;
    let second = shared.add_content(rt, alloc, queue_content(alloc, 1, 1)?)?;
    Ok(first == 0 && second == 1)
}

/// Whether a content is these bytes.
fn is_content<R: Wait>(
    rt: &R,
    alloc: Global,
    shared: &EchoParts,
    object: u32,
    bytes: &[u8],
) -> Result<bool, OutOfMemory> {
    match shared.read_content(rt, alloc, object, 0, LENGTH as u32)? {
        Some(content) => Ok(content.as_slice() == bytes),
        None => Ok(false),
    }
}

/// Whether the contents of the shared parts are those of the owned ones.
fn are_alike<R: Wait>(
    rt: &R,
    alloc: Global,
    shared: &EchoParts,
    store: &Store,
) -> Result<bool, OutOfMemory> {
    Ok(
        is_content(rt, alloc, shared, 0, store.memory.content(0))?
            && is_content(rt, alloc, shared, 1, store.memory.content(1))?,
    )
}

/// What one form of the parts said, and the entry that it has in hand.
#[derive(Drop)]
struct Said {
    lines: String,
    hand: Hand,
}

fn nothing_said(alloc: Global) -> Said {
    Said {
        lines: String::new(alloc),
        hand: hand_of(alloc),
    }
}

/// The parts of one owner, which echo.
type OwnEcho<'a> = OwnedParts<'a, FixedDevice, Echo>;

/// A thread's way to the shared parts.
type LockedEcho<R> = LockedParts<R, FixedDevice, Echo, NoGate>;

/// Whether a call of both forms says the same, and leaves the same bytes.
fn is_alike<R: Wait + Copy>(
    rt: &R,
    alloc: Global,
    shared: &EchoParts,
    owned: (&mut OwnEcho<'_>, &mut Said),
    locked: (&mut LockedEcho<R>, &mut Said),
    number: u32,
) -> Result<bool, Fail> {
    let (own_parts, expected) = owned;
    let (parts, found) = locked;
    step(
        alloc,
        &mut expected.lines,
        own_parts,
        &mut expected.hand,
        number,
    )?;
    step(alloc, &mut found.lines, parts, &mut found.hand, number)?;
    let said = found.lines.as_str() == expected.lines.as_str();
    Ok(said && are_alike(rt, alloc, shared, &*own_parts.store)?)
}

/// The first call at which both forms differ.
fn first_difference<R: Wait + Copy>(
    rt: &R,
    alloc: Global,
    shared: &EchoParts,
    owned: (&mut OwnEcho<'_>, &mut Said),
    locked: (&mut LockedEcho<R>, &mut Said),
) -> Result<Option<u32>, Fail> {
    let (own_parts, expected) = owned;
    let (parts, found) = locked;
    furnish(alloc, &mut expected.lines, own_parts)?;
    furnish(alloc, &mut found.lines, parts)?;
    for number in 0..CALLS {
        if !is_alike(
            rt,
            alloc,
            shared,
            (own_parts, expected),
            (parts, found),
            number,
        )? {
            return Ok(Some(number));
        }
    }
    drain(alloc, &mut expected.lines, own_parts)?;
    drain(alloc, &mut found.lines, parts)?;
    Ok(None)
}

/// Plays the list of calls over both forms, and gives what each said and the first call at which they differ.
fn play_both<R: Wait + Copy>(
    rt: R,
    alloc: Global,
    expected: &mut Said,
    found: &mut Said,
) -> Result<Option<u32>, Fail> {
    let mut store = store_of(alloc)?;
    fill_owned(alloc, &mut store)?;
    let mut device = device_of(alloc);
    let mut service = Echo;
    let constants = constants_of(alloc)?;
    let mut owned = OwnedParts {
        store: &mut store,
        device: &mut device,
        service: &mut service,
        constants: &constants,
    };
    let shared = Arc::new(alloc, shared_of(alloc)?)?;
    expect(fill_shared(&rt, alloc, &*shared)?, "numbers of contents")?;
    let mut locked = LockedParts::new(rt, alloc, Arc::try_clone(&shared)?);
    first_difference(
        &rt,
        alloc,
        &*shared,
        (&mut owned, expected),
        (&mut locked, found),
    )
}

#[test]
fn locked_as_owned(rt: HostRuntime) -> Result<(), Fail> {
    let alloc: Global = rt.alloc();
    let mut expected = nothing_said(alloc);
    let mut found = nothing_said(alloc);
    assert_eq!(rt; play_both(rt, alloc, &mut expected, &mut found)?, None);
    assert!(rt; found.lines.as_str() == expected.lines.as_str());
    for said in ["Ok(Taken {", "Ok(Held(RoomOutside))", "Ok(Refused("] {
        assert!(rt; found.lines.as_str().contains(said), "{said}");
    }
    Ok(())
}

/// Makes a ring of the parts ready, and takes its first entry.
fn begin<P: ObjectParts>(alloc: Global, parts: &mut P, hand: &mut Hand) -> Result<(), Fail> {
    let mut lines = String::new(alloc);
    furnish(alloc, &mut lines, parts)?;
    for number in 0..14 {
        call(alloc, &mut lines, parts, hand, number)?;
    }
    take(alloc, &mut lines, parts, hand, 0)?;
    serve(alloc, &mut lines, parts, hand)?;
    Ok(())
}

/// Says that a stop begins, and makes the ring not ready. Whether that was done.
fn stop<P: Parts>(alloc: Global, parts: &mut P, begins: &AtomicBool) -> bool {
    begins.store(true, Ordering::SeqCst);
    match parts.ring(alloc, 0, RingOp::SetReady(false)) {
        Ok(RingSaid::Done) => true,
        _ => false,
    }
}

/// Looks for a flag for long.
fn look_for(flag: &AtomicBool) -> bool {
    for _ in 0..1_000_000_000u32 {
        if flag.load(Ordering::SeqCst) {
            return true;
        }
    }
    false
}

/// Uses the entry in hand, and adds what was said.
fn end<P: Parts>(alloc: Global, parts: &mut P, hand: &mut Hand) -> Result<String, AllocError> {
    let mut lines = String::new(alloc);
    put(alloc, &mut lines, parts, hand)?;
    Ok(lines)
}

/// What the kick of the ring says: the ring is not ready any more.
fn kick_said<P: Parts>(alloc: Global, parts: &mut P) -> Result<String, AllocError> {
    let mut lines = String::new(alloc);
    kick(alloc, &mut lines, parts, 0, 0)?;
    Ok(lines)
}

/// Whether one entry is used on the first queue.
fn is_used<R: Wait>(rt: &R, alloc: Global, shared: &EchoParts) -> Result<bool, OutOfMemory> {
    match shared.read_content(rt, alloc, 0, 0x2002, 2)? {
        Some(index) => Ok(index.as_slice() == [1, 0].as_slice()),
        None => Ok(false),
    }
}

#[test]
fn a_stop_waits_for_the_entry_in_flight(rt: HostRuntime) -> Result<(), Fail> {
    let alloc: Global = rt.alloc();
    let shared = Arc::new(alloc, shared_of(alloc)?)?;
    expect(fill_shared(&rt, alloc, &*shared)?, "numbers of contents")?;
    let mut first = LockedParts::new(rt, alloc, Arc::try_clone(&shared)?);
    let mut second = LockedParts::new(rt, alloc, Arc::try_clone(&shared)?);
    let mut hand = hand_of(alloc);
    begin(alloc, &mut first, &mut hand)?;
    let begins = Arc::new(alloc, AtomicBool::new(false))?;
    let theirs = Arc::try_clone(&begins)?;
    let Ok(stopping) = thread::spawn(&rt, move || stop(alloc, &mut second, &*theirs)) else {
        return Err(Fail::new("no thread"));
    };
    let seen = look_for(&*begins);
    let used = end(alloc, &mut first, &mut hand)?;
    let stopped = stopping.join(&rt);
    assert!(rt; seen && stopped);
    assert_eq!(rt; used.as_str(), "Ok(Done)\n");
    assert!(rt; is_used(&rt, alloc, &*shared)?);
    assert_eq!(rt; kick_said(alloc, &mut first)?.as_str(), "Ok(Quiet)\n");
    Ok(())
}
