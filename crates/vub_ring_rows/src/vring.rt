use crate::numbers_said::numbers_said;
use crate::vring_silent::SilentParts;
use std::alloc::Global;
use std::test::Fail;
use vub_base::{Bytes, Listed, OutOfMemory};
use vub_event::{EventSet, Host, HostError, MemHost, Member};
use vub_log::PlainLog;
use vub_mem::{GuestMemory, Region};
use vub_model::{Constants, Entry, Guest, RingOp, RingSaid, TableOp, VringEpollError};
use vub_proto::{DeviceOp, DeviceSaid, FixedDevice, Service};
use vub_queue::PutFault;
use vub_vring::{
    HostOp, HostSaid, KickSaid, OwnedParts, Parts, PartsError, PendOp, Pending, PutSaid, Store,
    TableRing, TableRingSaid, TableSaid, VringState, open_worker,
};

const START: u64 = 0x10000;

const DESC: u64 = 0x10000;

const AVAIL: u64 = 0x11000;

const USED: u64 = 0x12000;

/// Replies with the first bytes of the request.
#[derive(Debug, Drop)]
struct Echo {
    asked: u8,
}

impl Service for Echo {
    ghost use Rattle.std.specs.Prelude.{take};

    ghost reply_of = { λ _ request room. take room request };

    ghost after = { λ v _ _. v };

    fn serve(&mut self, alloc: Global, request: &[u8], room: u32) -> Result<Bytes, OutOfMemory> {
        let room = room as usize;
        if request.len() <= room {
            Bytes::from_slice(alloc, request)
        } else {
            Bytes::from_slice(alloc, &request[..room])
        }
    }
}

fn store(bytes: &mut Vec<u8>, at: usize, what: &[u8]) {
    for i in 0..what.len() {
        let place = at.wrapping_add(i);
        if place < bytes.len() {
            bytes[place] = what[i];
        }
    }
}

/// One region of 0x4000 bytes with a ring of 8 descriptors and one entry, whose chain asks "hello" and has room for 16.
fn memory_of(alloc: Global) -> Result<GuestMemory<PlainLog>, Fail> {
    let mut bytes = vec![in alloc; 0; 0x4000]?;
    store(
        &mut bytes,
        0,
        &[0, 0x30, 1, 0, 0, 0, 0, 0, 5, 0, 0, 0, 1, 0, 1, 0],
    );
    store(
        &mut bytes,
        16,
        &[0, 0x38, 1, 0, 0, 0, 0, 0, 16, 0, 0, 0, 2, 0, 0, 0],
    );
    store(&mut bytes, 0x1002, &[1, 0]);
    store(&mut bytes, 0x3000, b"hello");
    let mut memory = GuestMemory::new(alloc);
    memory.put_object(alloc, 0, Bytes::from_vec(bytes))?;
    memory.replace_table(vec![in alloc;
        Region {
            start: START,
            len: 0x4000,
            object: 0,
            offset: 0,
            log: None
        },
    ]?)?;
    Ok(memory)
}

/// A ring over that memory, with kick 0 and call 1.
fn ring_of() -> Result<VringState, Fail> {
    let mut ring = VringState::new(8)?;
    ring.set_queue_info(DESC, AVAIL, USED)?;
    ring.set_kick(Some(0));
    ring.set_call(Some(1));
    ring.set_queue_ready(true);
    ring.set_enabled(true);
    Ok(ring)
}

fn store_of(alloc: Global) -> Result<Store, Fail> {
    let mut host = MemHost::new(alloc);
    host.create_event(alloc, 0)?;
    host.create_event(alloc, 0)?;
    let mut rings = Vec::new(alloc);
    rings.push(ring_of()?)?;
    let mut pending = Vec::new(alloc);
    pending.push(Pending::new(alloc))?;
    Ok(Store {
        memory: memory_of(alloc)?,
        rings,
        host,
        pending,
    })
}

fn constants_of(alloc: Global) -> Result<Constants, Fail> {
    Ok(Constants {
        queues: 1,
        max: 8,
        features: 0,
        protocol: 0,
        tracks: false,
        masks: Listed::from_vec(vec![in alloc; 1]?),
        exits: Listed::from_vec(vec![in alloc; None]?),
    })
}

fn device_of(alloc: Global) -> FixedDevice {
    FixedDevice {
        queues: 1,
        max: 8,
        features: 0,
        protocol: 0,
        masks: Listed::new(alloc),
        exits: Listed::new(alloc),
        refusals: 0,
    }
}

/// Takes the next entry of queue 0, asks the service, and uses it with the reply.
fn serve_one<P: Parts>(alloc: Global, parts: &mut P) -> Result<PutSaid, PartsError> {
    match parts.ring_table(alloc, 0, TableRing::Take)? {
        TableRingSaid::Taken {
            epoch,
            number,
            chain,
        } => {
            let entry = Entry {
                queue: 0,
                epoch,
                number,
                chain,
            };
            let reply = parts.service(alloc, &entry)?;
            parts.put(alloc, &entry, reply.as_slice())
        }
        _ => Ok(PutSaid::Held(PutFault::RoomOutside)),
    }
}

#[test]
fn owned_parts_serve_an_entry(rt: HostRuntime) -> Result<(), Fail> {
    let alloc = rt.alloc();
    let mut store = store_of(alloc)?;
    let mut device = device_of(alloc);
    let mut service = Echo { asked: 0 };
    let constants = constants_of(alloc)?;
    {
        let mut parts = OwnedParts {
            store: &mut store,
            device: &mut device,
            service: &mut service,
            constants: &constants,
        };
        assert_eq!(rt; serve_one(alloc, &mut parts)?, PutSaid::Done);
        assert_eq!(rt; parts.faults(), 0);
    }
    assert_eq!(rt; store.host.consume(1)?, 1);
    Ok(())
}

#[test]
fn silent_parts_serve_an_entry(rt: HostRuntime) -> Result<(), Fail> {
    let alloc = rt.alloc();
    let mut store = store_of(alloc)?;
    let mut device = device_of(alloc);
    let mut service = Echo { asked: 0 };
    let constants = constants_of(alloc)?;
    {
        let mut parts = SilentParts {
            inner: OwnedParts {
                store: &mut store,
                device: &mut device,
                service: &mut service,
                constants: &constants,
            },
        };
        assert_eq!(rt; serve_one(alloc, &mut parts)?, PutSaid::Done);
        assert_eq!(rt; parts.ring_host(alloc, 0, 0)?, KickSaid::Serve);
        assert_eq!(rt; parts.ring(alloc, 0, RingOp::GetBase)?, RingSaid::Base(1));
        assert_eq!(rt; parts.constants(alloc)?.queues, 1);
    }
    Ok(())
}

#[test]
fn parts_keep_what_is_pending(rt: HostRuntime) -> Result<(), Fail> {
    let alloc = rt.alloc();
    let mut store = store_of(alloc)?;
    let mut device = device_of(alloc);
    let mut service = Echo { asked: 0 };
    let constants = constants_of(alloc)?;
    let mut parts = OwnedParts {
        store: &mut store,
        device: &mut device,
        service: &mut service,
        constants: &constants,
    };
    for number in [5, 3, 9, 3] {
        parts.pend(alloc, 0, PendOp::Insert(number))?;
    }
    parts.pend(alloc, 0, PendOp::Remove(9))?;
    let said = parts.pend(alloc, 0, PendOp::TakeAll)?;
    assert_eq!(rt; numbers_said(said), [Some(3), Some(5), None, None, None]);
    Ok(())
}

#[test]
fn parts_call_the_device(rt: HostRuntime) -> Result<(), Fail> {
    let alloc = rt.alloc();
    let mut store = store_of(alloc)?;
    let mut device = device_of(alloc);
    let mut service = Echo { asked: 0 };
    let constants = constants_of(alloc)?;
    let mut parts = OwnedParts {
        store: &mut store,
        device: &mut device,
        service: &mut service,
        constants: &constants,
    };
    let heard = parts.device(
        alloc,
        DeviceOp::HandleEvent {
            token: 2,
            worker: 0,
        },
    )?;
    assert!(rt; matches!(heard, DeviceSaid::Done));
    assert_eq!(rt; parts.refusals(), 0);
    let checked = parts.device(alloc, DeviceOp::CheckDeviceState)?;
    assert!(rt; matches!(checked, DeviceSaid::Refused(95)));
    assert_eq!(rt; parts.refusals(), 1);
    Ok(())
}

#[test]
fn parts_change_memory_and_addresses(rt: HostRuntime) -> Result<(), Fail> {
    let alloc = rt.alloc();
    let mut store = store_of(alloc)?;
    let mut device = device_of(alloc);
    let mut service = Echo { asked: 0 };
    let constants = constants_of(alloc)?;
    let mut parts = OwnedParts {
        store: &mut store,
        device: &mut device,
        service: &mut service,
        constants: &constants,
    };
    let info = TableRing::Info {
        desc: DESC,
        avail: AVAIL,
        used: USED,
    };
    assert!(rt; matches!(parts.ring_table(alloc, 0, info)?, TableRingSaid::Done));
    let remove = TableOp::Remove {
        start: START,
        len: 0x4000,
    };
    let left = match parts.table(alloc, remove)? {
        TableSaid::Regions(regions) => Ok(regions.len()),
        TableSaid::Memory(refusal) => Err(refusal),
    };
    assert_eq!(rt; left, Ok(0));
    assert!(rt; matches!(parts.ring_table(alloc, 0, info)?, TableRingSaid::Outside));
    Ok(())
}

/// A call of the host, and what it says.
const CALLS: [(HostOp, HostSaid); 8] = [
    (HostOp::CreateEvent(0), HostSaid::Number(2)),
    (HostOp::CreateEvent(2), HostSaid::Refused(HostError::EINVAL)),
    (HostOp::CreateList, HostSaid::Number(0)),
    (HostOp::Signal(2, 4), HostSaid::Done),
    (HostOp::Ready(0), HostSaid::Ready(None)),
    (HostOp::Consume(2), HostSaid::Count(4)),
    (HostOp::Consume(2), HostSaid::Refused(HostError::WouldBlock)),
    (HostOp::Claim(2, 0), HostSaid::Done),
];

#[test]
fn parts_call_the_host(rt: HostRuntime) -> Result<(), Fail> {
    let alloc = rt.alloc();
    let mut store = store_of(alloc)?;
    let mut device = device_of(alloc);
    let mut service = Echo { asked: 0 };
    let constants = constants_of(alloc)?;
    let mut parts = OwnedParts {
        store: &mut store,
        device: &mut device,
        service: &mut service,
        constants: &constants,
    };
    for (op, want) in CALLS.iter() {
        assert_eq!(rt; parts.host(alloc, *op)?, *want);
    }
    Ok(())
}

#[test]
fn guest_acts(rt: HostRuntime) -> Result<(), Fail> {
    let alloc = rt.alloc();
    let mut store = store_of(alloc)?;
    let inside = Guest::Store {
        object: 0,
        offset: 0x3fff,
        bytes: Bytes::from_slice(alloc, b"x")?,
    };
    store.act::<Echo>(&inside);
    let past = Guest::Store {
        object: 0,
        offset: 0x3fff,
        bytes: Bytes::from_slice(alloc, b"yy")?,
    };
    store.act::<Echo>(&past);
    store.act::<Echo>(&Guest::Signal { object: 0 });
    assert_eq!(rt; store.memory.content(0).last().copied(), Some(b'x'));
    assert_eq!(rt; store.host.consume(0)?, 1);
    Ok(())
}

/// Which call of the host is to fail, and what opening a worker answers.
const OPENINGS: [(u64, Option<VringEpollError>); 5] = [
    (1, Some(VringEpollError::EpollCreateFd)),
    (2, Some(VringEpollError::RegisterExitEvent)),
    (3, Some(VringEpollError::NewEventConsumerNotifier)),
    (4, Some(VringEpollError::RegisterVringEnabledEvent)),
    (5, None),
];

/// A store of nothing but a host with one event, which fails the call of this number.
fn failing_store(alloc: Global, call: u64) -> Result<Store, Fail> {
    let mut host = MemHost::failing(alloc, vec![in alloc; call]?)?;
    host.create_event(alloc, 0)?;
    Ok(Store {
        memory: GuestMemory::new(alloc),
        rings: Vec::new(alloc),
        host,
        pending: Vec::new(alloc),
    })
}

/// Why worker 0, whose exit object is event 0, can't be opened.
fn opening_error(alloc: Global, store: &mut Store) -> Result<Option<VringEpollError>, Fail> {
    let mut device = device_of(alloc);
    let mut service = Echo { asked: 0 };
    let constants = Constants {
        queues: 3,
        max: 8,
        features: 0,
        protocol: 0,
        tracks: false,
        masks: Listed::from_vec(vec![in alloc; 7]?),
        exits: Listed::from_vec(vec![in alloc; Some(0)]?),
    };
    let mut parts = OwnedParts {
        store,
        device: &mut device,
        service: &mut service,
        constants: &constants,
    };
    match open_worker(alloc, &mut parts, 0) {
        Ok(_) => Ok(None),
        Err(error) => Ok(Some(error)),
    }
}

#[test]
fn worker_is_opened(rt: HostRuntime) -> Result<(), Fail> {
    let alloc = rt.alloc();
    for (call, want) in OPENINGS.iter() {
        let mut store = failing_store(alloc, *call)?;
        assert_eq!(rt; opening_error(alloc, &mut store)?, *want);
    }
    let mut store = failing_store(alloc, 9)?;
    assert_eq!(rt; opening_error(alloc, &mut store)?, None);
    let set = EventSet::IN;
    let members = [
        Member {
            object: 0,
            set,
            token: 3,
        },
        Member {
            object: 1,
            set,
            token: 3,
        },
    ];
    assert_eq!(rt; store.host.members(0), members.as_slice());
    Ok(())
}
