//! Rings under locks answer as the ring that lies under them.
use crate::shown::show;
use std::alloc::{AllocError, Global};
use std::test::Fail;
use vub_base::Bytes;
use vub_event::{Host, HostError, MemHost};
use vub_log::PlainLog;
use vub_mem::{GuestMemory, Region};
use vub_queue::QueueError;
use vub_ring::VringState;
use vub_vrings::{GuestMemoryAtomic, VringMutex, VringRwLock, VringT};

/// How many calls there are.
const CALLS: u32 = 28;

/// The greatest size of the rings.
const MAX: u16 = 8;

/// What a ring is used with: guest memory of a page, and a host of two events, a kick and a call.
#[derive(Drop)]
struct Around {
    memory: GuestMemory<PlainLog>,
    host: MemHost,
}

fn surroundings(alloc: Global) -> Result<Around, Fail> {
    let mut memory = GuestMemory::new(alloc);
    memory.put_object(alloc, 0, Bytes::from_vec(vec![in alloc; 0; 4096]?))?;
    let region = Region {
        start: 0x1000,
        len: 4096,
        object: 0,
        offset: 0,
        log: None,
    };
    memory.replace_table(vec![in alloc; region]?)?;
    let mut host = MemHost::new(alloc);
    host.create_event(alloc, 0)?;
    host.create_event(alloc, 0)?;
    host.signal(0, 3)?;
    Ok(Around { memory, host })
}

// The calls of a ring without addresses are refused here, as they are of a ring that is shared.

fn used_index(ring: &VringState, memory: &GuestMemory<PlainLog>) -> Result<u16, QueueError> {
    if ring.get_queue().addresses().is_none() {
        return Err(QueueError::Outside);
    }
    ring.queue_used_idx(memory)
}

fn use_entry(
    ring: &mut VringState,
    memory: &mut GuestMemory<PlainLog>,
    head: u16,
    len: u32,
) -> Result<(), QueueError> {
    if ring.get_queue().addresses().is_none() {
        return Err(QueueError::Outside);
    }
    ring.add_used(memory, head, len)
}

fn ask(ring: &mut VringState, memory: &mut GuestMemory<PlainLog>) -> Result<bool, QueueError> {
    if ring.get_queue().addresses().is_none() {
        return Err(QueueError::Outside);
    }
    ring.enable_notification(memory)
}

fn decline(ring: &mut VringState, memory: &mut GuestMemory<PlainLog>) -> Result<(), QueueError> {
    if ring.get_queue().addresses().is_none() {
        return Err(QueueError::Outside);
    }
    ring.disable_notification(memory)
}

fn is_asked(ring: &mut VringState, memory: &GuestMemory<PlainLog>) -> Result<bool, QueueError> {
    if ring.get_queue().addresses().is_none() {
        return Err(QueueError::Outside);
    }
    ring.needs_notification(memory)
}

/// The setter with this number.
fn set(ring: &mut VringState, number: u32) {
    match number {
        0 => ring.set_queue_size(4),
        1 => ring.set_queue_size(3),
        2 => ring.set_queue_next_avail(0x20),
        3 => ring.set_queue_next_used(0x1f),
        4 => ring.set_queue_event_idx(true),
        5 => ring.set_queue_event_idx(false),
        6 => ring.set_queue_ready(true),
        7 => ring.set_enabled(true),
        8 => ring.set_kick(Some(0)),
        9 => ring.set_call(Some(1)),
        10 => ring.set_err(Some(2)),
        _ => ring.set_queue_next_avail(7),
    }
}

/// The same of a ring that is shared.
fn set_shared<V: VringT>(ring: &V, number: u32) {
    match number {
        0 => ring.set_queue_size(4),
        1 => ring.set_queue_size(3),
        2 => ring.set_queue_next_avail(0x20),
        3 => ring.set_queue_next_used(0x1f),
        4 => ring.set_queue_event_idx(true),
        5 => ring.set_queue_event_idx(false),
        6 => ring.set_queue_ready(true),
        7 => ring.set_enabled(true),
        8 => ring.set_kick(Some(0)),
        9 => ring.set_call(Some(1)),
        10 => ring.set_err(Some(2)),
        _ => ring.set_queue_next_avail(7),
    }
}

/// The call with this number, on the ring and what is around it.
fn call(
    alloc: Global,
    lines: &mut String,
    ring: &mut VringState,
    around: &mut Around,
    number: u32,
) -> Result<(), AllocError> {
    match number {
        12 => show(alloc, lines, &ring.queue_next_avail()),
        13 => show(alloc, lines, &used_index(ring, &around.memory)),
        14 => show(alloc, lines, &ring.set_queue_info(0x1008, 0x1100, 0x1200)),
        15 => show(alloc, lines, &ring.set_queue_info(0x1000, 0x1100, 0x1200)),
        16 => show(alloc, lines, &used_index(ring, &around.memory)),
        17 => show(alloc, lines, &use_entry(ring, &mut around.memory, 2, 9)),
        18 => show(alloc, lines, &use_entry(ring, &mut around.memory, 8, 9)),
        19 => show(alloc, lines, &used_index(ring, &around.memory)),
        20 => show(alloc, lines, &is_asked(ring, &around.memory)),
        21 => show(alloc, lines, &decline(ring, &mut around.memory)),
        22 => show(alloc, lines, &ask(ring, &mut around.memory)),
        23 => show(alloc, lines, &ring.read_kick(&mut around.host)),
        24 => show(alloc, lines, &ring.signal_used_queue(&mut around.host)),
        25 => show(alloc, lines, &ring.set_queue_info(0x9000, 0x9100, 0x9200)),
        26 => show(alloc, lines, &use_entry(ring, &mut around.memory, 2, 9)),
        27 => show(alloc, lines, &ask(ring, &mut around.memory)),
        _ => {
            set(ring, number);
            Ok(())
        }
    }
}

/// The same of a ring that is shared.
fn call_shared<V: VringT>(
    alloc: Global,
    lines: &mut String,
    ring: &V,
    around: &mut Around,
    number: u32,
) -> Result<(), AllocError> {
    match number {
        12 => show(alloc, lines, &ring.queue_next_avail()),
        13 => show(alloc, lines, &ring.queue_used_idx(&around.memory)),
        14 => show(alloc, lines, &ring.set_queue_info(0x1008, 0x1100, 0x1200)),
        15 => show(alloc, lines, &ring.set_queue_info(0x1000, 0x1100, 0x1200)),
        16 => show(alloc, lines, &ring.queue_used_idx(&around.memory)),
        17 => show(alloc, lines, &ring.add_used(&mut around.memory, 2, 9)),
        18 => show(alloc, lines, &ring.add_used(&mut around.memory, 8, 9)),
        19 => show(alloc, lines, &ring.queue_used_idx(&around.memory)),
        20 => show(alloc, lines, &ring.needs_notification(&around.memory)),
        21 => show(alloc, lines, &ring.disable_notification(&mut around.memory)),
        22 => show(alloc, lines, &ring.enable_notification(&mut around.memory)),
        23 => show(alloc, lines, &ring.read_kick(&mut around.host)),
        24 => show(alloc, lines, &ring.signal_used_queue(&mut around.host)),
        25 => show(alloc, lines, &ring.set_queue_info(0x9000, 0x9100, 0x9200)),
        26 => show(alloc, lines, &ring.add_used(&mut around.memory, 2, 9)),
        27 => show(alloc, lines, &ring.enable_notification(&mut around.memory)),
        _ => {
            set_shared(ring, number);
            Ok(())
        }
    }
}

/// What is around a ring, after the calls.
fn look(alloc: Global, lines: &mut String, around: &mut Around) -> Result<(), AllocError> {
    show(alloc, lines, &around.memory.content(0))?;
    let kick = around.host.consume(0);
    show(alloc, lines, &kick)?;
    let call = around.host.consume(1);
    show(alloc, lines, &call)
}

/// What a ring answers, with the ring after each call, and what is left around it.
fn expected(alloc: Global) -> Result<String, Fail> {
    let mut lines = String::new(alloc);
    let mut around = surroundings(alloc)?;
    let mut ring = VringState::new(MAX)?;
    for number in 0..CALLS {
        call(alloc, &mut lines, &mut ring, &mut around, number)?;
        show(alloc, &mut lines, &ring)?;
    }
    look(alloc, &mut lines, &mut around)?;
    Ok(lines)
}

#[test]
fn a_ring_under_a_mutex_is_its_ring(rt: HostRuntime) -> Result<(), Fail> {
    let alloc: Global = rt.alloc();
    let mut lines = String::new(alloc);
    let mut around = surroundings(alloc)?;
    let ring = VringMutex::new(rt, MAX)?;
    for number in 0..CALLS {
        call_shared(alloc, &mut lines, &ring, &mut around, number)?;
        show(alloc, &mut lines, ring.get_ref().state())?;
    }
    look(alloc, &mut lines, &mut around)?;
    assert!(rt; lines.as_str() == expected(alloc)?.as_str());
    Ok(())
}

#[test]
fn a_ring_under_a_reader_writer_lock_is_its_ring(rt: HostRuntime) -> Result<(), Fail> {
    let alloc: Global = rt.alloc();
    let mut lines = String::new(alloc);
    let mut around = surroundings(alloc)?;
    let ring = VringRwLock::new(rt, MAX)?;
    for number in 0..CALLS {
        call_shared(alloc, &mut lines, &ring, &mut around, number)?;
        show(alloc, &mut lines, ring.get_ref().state())?;
    }
    look(alloc, &mut lines, &mut around)?;
    assert!(rt; lines.as_str() == expected(alloc)?.as_str());
    Ok(())
}

/// What a change through the guards leaves.
fn is_changed(ring: &VringState) -> bool {
    ring.is_enabled() && ring.get_kick() == Some(5)
}

#[test]
fn a_ring_is_changed_through_its_guards(rt: HostRuntime) -> Result<(), Fail> {
    let mutex = VringMutex::new(rt, MAX)?;
    {
        let mut held = mutex.get_mut();
        held.state_mut().set_enabled(true);
        held.state_mut().set_kick(Some(5));
    }
    assert!(rt; is_changed(mutex.get_ref().state()));
    let lock = VringRwLock::new(rt, MAX)?;
    {
        let mut held = lock.get_mut();
        held.state_mut().set_enabled(true);
        held.state_mut().set_kick(Some(5));
        assert!(rt; is_changed(held.state()));
    }
    assert!(rt; is_changed(lock.get_ref().state()));
    Ok(())
}

#[test]
fn guest_memory_under_a_lock_is_shared(rt: HostRuntime) -> Result<(), Fail> {
    let alloc: Global = rt.alloc();
    let Around { memory, .. } = surroundings(alloc)?;
    let one = GuestMemoryAtomic::new(rt, alloc, memory)?;
    let other = one.try_clone()?;
    one.lock().memory_mut().write_u16(0x1010, 0x1234)?;
    assert_eq!(rt; other.lock().memory().read_u16(0x1010)?, 0x1234);
    Ok(())
}
