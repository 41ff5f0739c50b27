ghost use Rattle.std.specs.Prelude.{[], None};

use std::alloc::Global;
use std::process::Abort;
use std::sync::Wait;
use std::test::Fail;
use vub_base::{Bytes, Listed, OutOfMemory};
use vub_event::{EventSet, Host, HostError, MemHost, Ready};
use vub_loop::{ListenerFault, Turned, VringEpollHandler};
use vub_mem::GuestMemory;
use vub_model::{
    Constants, Entry, Opened, Phase, Play, RingOp, RingSaid, StopCause, TableOp, VringEpollError,
};
use vub_proto::{DeviceOp, DeviceSaid, FixedDevice, ListenerError, Service};
use vub_queue::{Chain, Segments};
use vub_vring::{
    HostOp, HostSaid, KickSaid, LogSaid, OwnedParts, Parts, PartsError, PendOp, PendSaid, Pending,
    PutSaid, Store, TableRing, TableRingSaid, TableSaid, VringState, play_device,
};

/// A service whose replies are empty.
#[derive(Drop)]
struct Quiet {}

impl Service for Quiet {
    ghost reply_of = { λ _ _ _. [] };

    ghost after = { λ v _ _. v };

    fn serve(&mut self, alloc: Global, _request: &[u8], _room: u32) -> Result<Bytes, OutOfMemory> {
        Ok(Bytes::new(alloc))
    }
}

/// Parts that tell nothing, with one ring.
#[derive(Drop)]
struct Silent {
    /// What the next poll gives.
    ready: Option<Ready>,
    /// How many entries are left.
    left: u32,
    device: FixedDevice,
}

impl Parts for Silent {
    type Service = Quiet;

    type Device = FixedDevice;

    ghost state = { λ p. record {
      shared = None;
      device = None;
      faults = 0;
      refusals = p.device.refusals;
      NeverFails = Unit {0};
      loan = [];
      constants = None;
    } };

    fn faults(&self) -> u64 {
        0
    }

    fn refusals(&self) -> u64 {
        self.device.refusals
    }

    fn ring(&mut self, _alloc: Global, _queue: u32, _op: RingOp) -> Result<RingSaid, PartsError> {
        Ok(RingSaid::Done)
    }

    fn ring_table(
        &mut self,
        alloc: Global,
        _queue: u32,
        _op: TableRing,
    ) -> Result<TableRingSaid, PartsError> {
        if self.left == 0 {
            return Ok(TableRingSaid::Nothing);
        }
        self.left -= 1;
        let chain = Chain {
            head: 0,
            request: Bytes::new(alloc),
            segments: Segments::from_vec(Vec::new(alloc)),
            room: 0,
        };
        Ok(TableRingSaid::Taken {
            epoch: 0,
            number: 0,
            chain,
        })
    }

    fn ring_host(
        &mut self,
        _alloc: Global,
        _queue: u32,
        _object: u32,
    ) -> Result<KickSaid, PartsError> {
        Ok(KickSaid::Serve)
    }

    fn put(
        &mut self,
        _alloc: Global,
        _entry: &Entry,
        _reply: &[u8],
    ) -> Result<PutSaid, PartsError> {
        Ok(PutSaid::Done)
    }

    fn host(&mut self, _alloc: Global, op: HostOp) -> Result<HostSaid, PartsError> {
        match op {
            HostOp::Ready(_) => Ok(HostSaid::Ready(self.ready.take())),
            HostOp::Consume(_) => Ok(HostSaid::Count(1)),
            HostOp::ConsumeAs(_, _, _) => Ok(HostSaid::Member(true)),
            _ => Ok(HostSaid::Done),
        }
    }

    fn pend(&mut self, alloc: Global, _worker: u32, _op: PendOp) -> Result<PendSaid, PartsError> {
        Ok(PendSaid::All(Pending::new(alloc)))
    }

    fn service(&mut self, alloc: Global, _entry: &Entry) -> Result<Bytes, PartsError> {
        Ok(Bytes::new(alloc))
    }

    fn table(&mut self, alloc: Global, _op: TableOp) -> Result<TableSaid, PartsError> {
        Ok(TableSaid::Regions(Listed::new(alloc)))
    }

    fn set_log(
        &mut self,
        _object: u32,
        _offset: u64,
        _size: u64,
        _tracks: bool,
    ) -> Result<LogSaid, PartsError> {
        Ok(LogSaid::Done)
    }

    fn device(&mut self, alloc: Global, op: DeviceOp) -> Result<DeviceSaid, PartsError> {
        play_device(alloc, &mut self.device, op)
    }

    fn wait_ready(&mut self, _list: u32) {}

    fn constants(&mut self, alloc: Global) -> Result<Constants, OutOfMemory> {
        one_worker(alloc)
    }
}

/// One queue, one worker.
fn one_worker(alloc: Global) -> Result<Constants, OutOfMemory> {
    one_worker_with(alloc, None)
}

/// One queue, one worker with this exit object.
fn one_worker_with(alloc: Global, exit: Option<u32>) -> Result<Constants, OutOfMemory> {
    let mut masks = Listed::new(alloc);
    masks.push(1)?;
    let mut exits = Listed::new(alloc);
    exits.push(exit)?;
    Ok(Constants {
        queues: 1,
        max: 256,
        features: 0,
        protocol: 0,
        tracks: false,
        masks,
        exits,
    })
}

/// A device of one queue.
fn one_queue(alloc: Global) -> Result<FixedDevice, OutOfMemory> {
    let constants = one_worker(alloc)?;
    Ok(FixedDevice {
        queues: 1,
        max: 256,
        features: 0,
        protocol: 0,
        masks: constants.masks,
        exits: constants.exits,
        refusals: 0,
    })
}

const OPENED: Opened = Opened {
    worker: 0,
    list: 0,
    bell: 0,
    exit: None,
};

/// A poll that gives this object with this token.
fn report(object: u32, token: u64) -> Option<Ready> {
    Some(Ready {
        object,
        events: 1,
        token,
    })
}

/// Parts whose next poll gives this member, with so many entries left.
fn with_report(alloc: Global, ready: Option<Ready>, left: u32) -> Result<Silent, OutOfMemory> {
    Ok(Silent {
        ready,
        left,
        device: one_queue(alloc)?,
    })
}

/// What a turn came to, without what it carries.
#[derive(Clone, Copy, Debug, PartialEq, Eq)]
enum Came {
    Pass,
    Failed,
    Poll(u32),
    Event,
    Sweep,
    Hear,
    Take,
    Serve,
    Put,
}

fn came_to(turned: &Turned) -> Came {
    match turned {
        Turned::Played(Play::Poll { object }) => Came::Poll(*object),
        Turned::Played(Play::Event) => Came::Event,
        Turned::Played(Play::Sweep) => Came::Sweep,
        Turned::Played(Play::Hear(_)) => Came::Hear,
        Turned::Played(Play::Take) => Came::Take,
        Turned::Played(Play::Serve) => Came::Serve,
        Turned::Played(Play::Put) => Came::Put,
        Turned::Failed => Came::Failed,
        _ => Came::Pass,
    }
}

/// Opens the worker, and plays these turns.
fn after<P: Parts>(
    rt: &impl Abort,
    alloc: Global,
    parts: &mut P,
    turns: &[Came],
) -> Result<VringEpollHandler, Fail> {
    let mut worker = VringEpollHandler::over(alloc, parts, OPENED)?;
    for turn in turns {
        let turned = worker.turn(alloc, parts)?;
        assert_eq!(rt; came_to(&turned), *turn);
    }
    Ok(worker)
}

/// A report of a poll, how many entries are left, and the turns that follow.
type Case = (Option<Ready>, u32, [Came; 5]);

#[test]
fn turns_over_parts_that_tell_nothing(rt: HostRuntime) -> Result<(), Fail> {
    let alloc = rt.alloc();
    let cases: [Case; 3] = [
        (
            report(7, 0),
            1,
            [
                Came::Poll(7),
                Came::Event,
                Came::Take,
                Came::Serve,
                Came::Put,
            ],
        ),
        (
            report(7, 0),
            0,
            [
                Came::Poll(7),
                Came::Event,
                Came::Take,
                Came::Pass,
                Came::Pass,
            ],
        ),
        (
            report(7, 2),
            0,
            [
                Came::Poll(7),
                Came::Event,
                Came::Hear,
                Came::Pass,
                Came::Pass,
            ],
        ),
    ];
    for (ready, left, turns) in cases {
        let mut parts = with_report(alloc, ready, left)?;
        let mut worker = after(&rt, alloc, &mut parts, &turns)?;
        assert_eq!(rt; worker.take_finished().is_some(), left > 0);
        assert_eq!(rt; worker.opened(), OPENED);
    }
    Ok(())
}

/// Makes the step that is so named.
fn make<P: Parts>(
    alloc: Global,
    worker: &mut VringEpollHandler,
    parts: &mut P,
    step: Came,
) -> Result<bool, VringEpollError> {
    match step {
        Came::Poll(_) => worker.poll_step(alloc, parts),
        Came::Event => worker.event_step(alloc, parts),
        Came::Sweep => worker.sweep_step(alloc, parts),
        Came::Hear => worker.hear_step(alloc, parts),
        Came::Take => worker.take_step(alloc, parts),
        Came::Serve => worker.serve_step(alloc, parts),
        Came::Put => worker.put_step(alloc, parts),
        Came::Pass => Ok(false),
        Came::Failed => Ok(false),
    }
}

#[test]
fn each_step_by_itself(rt: HostRuntime) -> Result<(), Fail> {
    let alloc = rt.alloc();
    let mut parts = with_report(alloc, report(7, 0), 1)?;
    let constants = one_worker(alloc)?;
    let mut worker = VringEpollHandler::from_constants(alloc, &constants, OPENED)?;
    let steps = [
        (Came::Poll(7), true),
        (Came::Sweep, false),
        (Came::Event, true),
        (Came::Hear, false),
        (Came::Take, true),
        (Came::Serve, true),
        (Came::Put, true),
    ];
    for (step, made) in steps {
        assert_eq!(rt; make(alloc, &mut worker, &mut parts, step)?, made);
    }
    Ok(())
}

/// A host with an interest list, whose bell was rung.
fn rung_host(alloc: Global) -> Result<MemHost, HostError> {
    let mut host = MemHost::new(alloc);
    let bell = host.create_event(alloc, 0)?;
    let list = host.create_list(alloc)?;
    host.add(alloc, list, bell, EventSet::IN, 1)?;
    host.signal(bell, 1)?;
    Ok(host)
}

/// A host whose call of this number fails. Its object 0 was signalled, and is the member of list 0 with this token.
fn failing_host(alloc: Global, call: u64, token: u64) -> Result<MemHost, HostError> {
    let mut calls = Vec::new(alloc);
    calls.push(call)?;
    let mut host = MemHost::failing(alloc, calls)?;
    let object = host.create_event(alloc, 0)?;
    let list = host.create_list(alloc)?;
    host.add(alloc, list, object, EventSet::IN, token)?;
    host.signal(object, 1)?;
    Ok(host)
}

/// A store with one ring of which nothing is given, whose queue is pending.
fn store_over(alloc: Global, host: MemHost) -> Result<Store, Fail> {
    let mut rings = Vec::new(alloc);
    rings.push(VringState::new(256)?)?;
    let mut numbers = Pending::new(alloc);
    numbers.insert(0)?;
    let mut pending = Vec::new(alloc);
    pending.push(numbers)?;
    Ok(Store {
        memory: GuestMemory::new(alloc),
        rings,
        host,
        pending,
    })
}

/// Opens the worker over parts that tell what they hold, plays these turns, and hands the worker back.
fn after_over_store(
    rt: &impl Abort,
    alloc: Global,
    store: &mut Store,
    turns: &[Came],
) -> Result<VringEpollHandler, Fail> {
    let constants = one_worker(alloc)?;
    let mut device = one_queue(alloc)?;
    let mut service = Quiet {};
    let mut parts = OwnedParts {
        store,
        device: &mut device,
        service: &mut service,
        constants: &constants,
    };
    after(rt, alloc, &mut parts, turns)
}

#[test]
fn a_pending_queue_is_looked_at(rt: HostRuntime) -> Result<(), Fail> {
    let alloc = rt.alloc();
    let mut store = store_over(alloc, rung_host(alloc)?)?;
    let swept = [
        Came::Poll(0),
        Came::Event,
        Came::Sweep,
        Came::Take,
        Came::Pass,
    ];
    let worker = after_over_store(&rt, alloc, &mut store, &swept)?;
    assert!(rt; matches!(worker.phase(), Phase::Idle));
    Ok(())
}

/// A call of the host that fails, the token of the member that is ready (0 the kick, 1 the bell, 2 a listener), the
/// turns that follow, and the error that stops the worker.
const FAULTS: [(u64, u64, [Came; 2], VringEpollError); 4] = [
    (4, 0, [Came::Failed, Came::Pass], VringEpollError::EpollWait),
    (
        5,
        0,
        [Came::Poll(0), Came::Event],
        VringEpollError::HandleEventReadKick,
    ),
    (
        5,
        1,
        [Came::Poll(0), Came::Event],
        VringEpollError::HandleVringEnabledEventConsume,
    ),
    (
        5,
        2,
        [Came::Poll(0), Came::Event],
        VringEpollError::HandleEventReadKick,
    ),
];

fn stop_of(worker: &VringEpollHandler) -> Option<StopCause> {
    match worker.phase() {
        Phase::Stopped(cause) => Some(*cause),
        _ => None,
    }
}

#[test]
fn a_host_that_fails_stops_the_worker(rt: HostRuntime) -> Result<(), Fail> {
    let alloc = rt.alloc();
    for (call, token, turns, error) in FAULTS.iter() {
        let mut store = store_over(alloc, failing_host(alloc, *call, *token)?)?;
        match store.rings.first_mut() {
            Some(ring) => ring.set_kick(Some(0)),
            None => return Err(Fail::new("no ring")),
        }
        let worker = after_over_store(&rt, alloc, &mut store, turns)?;
        assert_eq!(rt; stop_of(&worker), Some(StopCause::Fault(*error)));
        assert_eq!(rt; store.host.faults(), 1);
    }
    Ok(())
}

#[test]
fn all_entries_are_served_in_one_call(rt: HostRuntime) -> Result<(), Fail> {
    let alloc = rt.alloc();
    let mut parts = with_report(alloc, report(7, 0), 3)?;
    let mut worker = after(&rt, alloc, &mut parts, &[Came::Poll(7), Came::Event])?;
    worker.handle_event(&rt, alloc, &mut parts)?;
    assert!(rt; matches!(worker.phase(), Phase::Idle));
    assert_eq!(rt; parts.left, 0);
    Ok(())
}

/// A host with an exit object, 0, and an event for a listener, 1.
fn host_with_events(alloc: Global) -> Result<MemHost, HostError> {
    let mut host = MemHost::new(alloc);
    let _exit = host.create_event(alloc, 0)?;
    let _event = host.create_event(alloc, 0)?;
    Ok(host)
}

/// Adds the listener under these tokens, takes it off again, and lets the worker run until it is told to end.
fn listen_and_end<R: Wait + Abort, P: Parts>(
    rt: &R,
    alloc: Global,
    worker: &mut VringEpollHandler,
    parts: &mut P,
) -> Result<(), Fail> {
    let added = [
        (1, Err(ListenerFault::Listener(ListenerError::EINVAL))),
        (2, Ok(())),
        (
            3,
            Err(ListenerFault::Listener(ListenerError::AlreadyExists)),
        ),
    ];
    for (token, answer) in added {
        let said = worker.register_listener(alloc, parts, 1, EventSet::IN, token);
        assert_eq!(rt; said, answer);
    }
    let taken_off = [
        Ok(()),
        Err(ListenerFault::Listener(ListenerError::NotFound)),
    ];
    for answer in taken_off {
        let said = worker.unregister_listener(alloc, parts, 1, EventSet::IN, 2);
        assert_eq!(rt; said, answer);
    }
    worker.send_exit_event(alloc, parts);
    worker.run(rt, alloc, parts)?;
    Ok(())
}

#[test]
fn a_worker_is_opened_and_runs_to_its_end(rt: HostRuntime) -> Result<(), Fail> {
    let alloc = rt.alloc();
    let mut store = store_over(alloc, host_with_events(alloc)?)?;
    let constants = one_worker_with(alloc, Some(0))?;
    let mut device = one_queue(alloc)?;
    let mut service = Quiet {};
    let mut parts = OwnedParts {
        store: &mut store,
        device: &mut device,
        service: &mut service,
        constants: &constants,
    };
    let mut worker = VringEpollHandler::new(alloc, &mut parts, 0)?;
    listen_and_end(&rt, alloc, &mut worker, &mut parts)
}
