use crate::numbers_said::numbers_said;
use crate::ring_booked::Booked;
use std::alloc::Global;
use std::test::Fail;
use vub_base::Bytes;
use vub_event::{Host, HostError, MemHost};
use vub_mem::{GuestMemory, Region};
use vub_model::{Entry, RingOp, RingSaid};
use vub_queue::QueueError;
use vub_ring::{
    KickSaid, PartsError, PendOp, Pending, PutSaid, TableRing, TableRingSaid, VringState,
    play_kick, play_pend, play_put, play_ring, play_table,
};

const START: u64 = 0x10000;

const DESC: u64 = 0x10000;

const AVAIL: u64 = 0x11000;

const USED: u64 = 0x12000;

fn refusal_of(max: u16) -> Option<QueueError> {
    match VringState::new(max) {
        Ok(_) => None,
        Err(error) => Some(error),
    }
}

#[test]
fn ring_is_set_up(rt: HostRuntime) -> Result<(), Fail> {
    let mut ring = VringState::new(0x1000)?;
    ring.set_queue_next_avail(0x20);
    ring.set_queue_size(0x200);
    assert_eq!(rt; ring.queue_next_avail(), 0x20);
    assert_eq!(rt; ring.get_queue().size(), 0x200);
    ring.set_queue_size(0x300);
    assert_eq!(rt; ring.get_queue().size(), 0x200);
    ring.get_queue_mut().set_ready(true);
    assert!(rt; ring.get_queue().ready());
    assert_eq!(rt; refusal_of(3), Some(QueueError::InvalidMaxSize));
    Ok(())
}

/// A kick to be read: whether it is set, how often it was signalled, whether the ring is enabled; and the answer.
#[derive(Clone, Copy)]
struct KickCase {
    set: bool,
    signals: u64,
    enabled: bool,
    want: bool,
}

const KICKS: [KickCase; 4] = [
    KickCase {
        set: false,
        signals: 0,
        enabled: true,
        want: true,
    },
    KickCase {
        set: true,
        signals: 3,
        enabled: true,
        want: true,
    },
    KickCase {
        set: true,
        signals: 0,
        enabled: true,
        want: true,
    },
    KickCase {
        set: true,
        signals: 1,
        enabled: false,
        want: false,
    },
];

#[test]
fn kick_is_read(rt: HostRuntime) -> Result<(), Fail> {
    let alloc = rt.alloc();
    for case in KICKS.iter() {
        let mut host = MemHost::new(alloc);
        let object = host.create_event(alloc, 0)?;
        let mut ring = VringState::new(8)?;
        if case.set {
            ring.set_kick(Some(object));
        }
        ring.set_enabled(case.enabled);
        host.signal(object, case.signals)?;
        assert_eq!(rt; ring.read_kick(&mut host)?, case.want);
        assert_eq!(rt; host.consume(object), Err(HostError::WouldBlock));
    }
    Ok(())
}

#[test]
fn failing_host_is_told_of(rt: HostRuntime) -> Result<(), Fail> {
    let alloc = rt.alloc();
    let mut host = MemHost::failing(alloc, vec![in alloc; 1, 2]?)?;
    let object = host.create_event(alloc, 0)?;
    let mut ring = VringState::new(8)?;
    ring.set_kick(Some(object));
    ring.set_call(Some(object));
    assert_eq!(rt; ring.read_kick(&mut host), Err(HostError::Failed));
    assert_eq!(rt; ring.signal_used_queue(&mut host), Err(HostError::Failed));
    ring.signal_used_queue(&mut host)?;
    assert_eq!(rt; host.consume(object)?, 1);
    Ok(())
}

/// An op on a ring from which an entry was taken and not used yet, and what it says.
const OPS: [(RingOp, RingSaid); 10] = [
    (RingOp::SetReady(false), RingSaid::Waits),
    (RingOp::SetReady(true), RingSaid::Done),
    (RingOp::SetSize(4), RingSaid::Waits),
    (
        RingOp::SetInfo {
            desc: DESC,
            avail: AVAIL,
            used: USED,
            next_used: None,
        },
        RingSaid::Waits,
    ),
    (RingOp::SetBase(9), RingSaid::Waits),
    (RingOp::SetEnabled(false), RingSaid::Done),
    (RingOp::SetKick(None), RingSaid::Done),
    (RingOp::GetBase, RingSaid::Base(8)),
    (RingOp::Put, RingSaid::Done),
    (RingOp::SetBase(9), RingSaid::Done),
];

#[test]
fn ops_wait_for_the_entry_in_flight(rt: HostRuntime) -> Result<(), Fail> {
    let mut ring = VringState::new(8)?;
    assert_eq!(rt; ring.apply(RingOp::SetBase(7)), RingSaid::Done);
    assert_eq!(rt; ring.apply(RingOp::Taken), RingSaid::Done);
    for (op, want) in OPS.iter() {
        assert_eq!(rt; ring.apply(*op), *want);
    }
    assert_eq!(rt; ring.next_number(), 9);
    assert_eq!(rt; ring.get_epoch(), 2);
    Ok(())
}

fn store(bytes: &mut Vec<u8>, at: usize, what: &[u8]) {
    for i in 0..what.len() {
        let place = at.wrapping_add(i);
        if place < bytes.len() {
            bytes[place] = what[i];
        }
    }
}

/// One region of 0x4000 bytes with a ring of 8 descriptors and one entry, whose chain asks "hello" and has room for 16.
fn memory_of(alloc: Global) -> Result<GuestMemory<()>, Fail> {
    let mut bytes = vec![in alloc; 0; 0x4000]?;
    store(
        &mut bytes,
        0,
        &[0, 0x30, 1, 0, 0, 0, 0, 0, 5, 0, 0, 0, 1, 0, 1, 0],
    );
    store(
        &mut bytes,
        16,
        &[0, 0x38, 1, 0, 0, 0, 0, 0, 16, 0, 0, 0, 2, 0, 0, 0],
    );
    store(&mut bytes, 0x1002, &[1, 0]);
    store(&mut bytes, 0x3000, b"hello");
    let mut memory = GuestMemory::new(alloc);
    memory.put_object(alloc, 0, Bytes::from_vec(bytes))?;
    memory.replace_table(vec![in alloc;
        Region {
            start: START,
            len: 0x4000,
            object: 0,
            offset: 0,
            log: None
        },
    ]?)?;
    Ok(memory)
}

/// A ring over that memory, with kick 0 and call 1.
fn ring_of() -> Result<VringState, Fail> {
    let mut ring = VringState::new(8)?;
    ring.set_queue_info(DESC, AVAIL, USED)?;
    ring.set_kick(Some(0));
    ring.set_call(Some(1));
    ring.set_queue_ready(true);
    ring.set_enabled(true);
    Ok(ring)
}

/// A host with a kick, which is signalled, and a call.
fn host_of(alloc: Global) -> Result<MemHost, Fail> {
    let mut host = MemHost::new(alloc);
    host.create_event(alloc, 0)?;
    host.create_event(alloc, 0)?;
    host.signal(0, 1)?;
    Ok(host)
}

/// Takes the next entry and uses it with this reply, if there is one and the reply fits.
fn use_next(
    alloc: Global,
    ring: &mut Booked,
    memory: &mut GuestMemory<()>,
    host: &mut MemHost,
    reply: &[u8],
) -> Result<Option<PutSaid>, PartsError> {
    match play_table(alloc, ring, memory, TableRing::Take)? {
        TableRingSaid::Taken {
            epoch,
            number,
            chain,
        } => {
            if reply.len() > chain.room as usize {
                return Ok(None);
            }
            let entry = Entry {
                queue: 0,
                epoch,
                number,
                chain,
            };
            Ok(Some(play_put(alloc, ring, memory, host, &entry, reply)?))
        }
        _ => Ok(None),
    }
}

#[test]
fn entry_is_played_from_kick_to_use(rt: HostRuntime) -> Result<(), Fail> {
    let alloc = rt.alloc();
    let mut memory = memory_of(alloc)?;
    let mut host = host_of(alloc)?;
    let mut ring = Booked {
        state: ring_of()?,
        room: 4,
    };
    assert_eq!(rt; play_kick(alloc, &mut ring, &mut host, 0)?, KickSaid::Serve);
    assert_eq!(rt;
        play_ring(alloc, &mut ring, RingOp::SetEnabled(true))?,
        RingSaid::Done
    );
    let said = use_next(alloc, &mut ring, &mut memory, &mut host, b"hi")?;
    assert_eq!(rt; said, Some(PutSaid::Done));
    assert_eq!(rt; memory.content(0).get(0x3800).copied(), Some(b'h'));
    assert_eq!(rt; host.consume(1)?, 1);
    Ok(())
}

#[test]
fn use_without_room_for_an_op_writes_nothing(rt: HostRuntime) -> Result<(), Fail> {
    let alloc = rt.alloc();
    let mut memory = memory_of(alloc)?;
    let mut host = host_of(alloc)?;
    let mut ring = Booked {
        state: ring_of()?,
        room: 0,
    };
    assert_eq!(rt;
        play_ring(alloc, &mut ring, RingOp::SetEventIdx(true)),
        Err(PartsError::OutOfMemory)
    );
    ring.room = 1;
    assert_eq!(rt;
        use_next(alloc, &mut ring, &mut memory, &mut host, b"hi"),
        Err(PartsError::OutOfMemory)
    );
    assert_eq!(rt; memory.content(0).get(0x2002).copied(), Some(0));
    Ok(())
}

#[test]
fn pending_set_is_played(rt: HostRuntime) -> Result<(), Fail> {
    let alloc = rt.alloc();
    let mut pending = Pending::new(alloc);
    for number in [5, 63, 3, 9, 64, 3] {
        play_pend(alloc, &mut pending, PendOp::Insert(number))?;
    }
    play_pend(alloc, &mut pending, PendOp::Remove(9))?;
    let said = play_pend(alloc, &mut pending, PendOp::TakeAll)?;
    assert_eq!(rt;
        numbers_said(said),
        [Some(3), Some(5), Some(63), Some(64), None]
    );
    let said = play_pend(alloc, &mut pending, PendOp::TakeAll)?;
    assert_eq!(rt; numbers_said(said), [None; 5]);
    Ok(())
}
