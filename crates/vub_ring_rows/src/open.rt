use std::alloc::Global;
use std::process::Abort;
use std::test::Fail;
use vub_base::{Bytes, Listed, OutOfMemory};
use vub_mem::Region;
use vub_model::{
    Constants, DriveFault, GivenRegion, GivenRing, Guest, Info, Object, Setup, SetupFault,
};
use vub_open::{read_constants, validate};
use vub_proto::{FixedDevice, Request};

/// An object of a case: an event, a content of this many zeros, or a log of this many bytes.
#[derive(Clone, Copy)]
enum Part {
    Event,
    Content(usize),
    Log(u32),
}

/// An action of a case: a signal, a store of this many zeros, or a harvest of a word.
#[derive(Clone, Copy)]
enum Action {
    Signal(u32),
    Store(u32, u64, usize),
    Harvest(u32, u64),
}

/// A request of a case, which names these objects.
#[derive(Clone, Copy)]
enum Ask {
    Features,
    Table(&'static [u32]),
    Kick(u32),
    NoCall,
    Socket(u32),
    Log(u32),
    /// A worker and an event.
    Listen(u32, u32),
}

/// A set-up for a device, and the fault for which it is refused.
#[derive(Clone, Copy)]
struct Case {
    name: &'static str,
    queues: usize,
    max: usize,
    masks: usize,
    exits: &'static [Option<u32>],
    objects: &'static [Part],
    regions: &'static [GivenRegion],
    rings: &'static [GivenRing],
    requests: &'static [Ask],
    guest: &'static [Action],
    fault: Option<SetupFault>,
}

const REGION: GivenRegion = GivenRegion {
    start: 4096,
    len: 64,
    user: 0,
    offset: 0,
    object: 3,
};

const INFO: Info = Info {
    desc: 4096,
    avail: 4098,
    used: 4100,
};

const RING: GivenRing = GivenRing {
    queue: 0,
    size: 8,
    info: Some(INFO),
    base: 0,
    next_used: 0,
    kick: Some(0),
    call: Some(2),
    ready: true,
    enabled: true,
};

/// A second ring beside `RING`.
const OTHER: GivenRing = GivenRing {
    queue: 1,
    size: 8,
    info: None,
    base: 0,
    next_used: 0,
    kick: Some(2),
    call: None,
    ready: true,
    enabled: true,
};

/// Objects 0 to 2 are events, 3 is a content of 64 bytes; object 1 ends worker 0.
const SOUND: Case = Case {
    name: "sound",
    queues: 2,
    max: 8,
    masks: 1,
    exits: &[Some(1)],
    objects: &[Part::Event, Part::Event, Part::Event, Part::Content(64)],
    regions: &[REGION],
    rings: &[RING, OTHER],
    requests: &[Ask::Features, Ask::Kick(2)],
    guest: &[Action::Signal(0), Action::Store(3, 60, 4)],
    fault: None,
};

/// Faults of the device's constants.
fn device_cases() -> [Case; 9] {
    [
        SOUND,
        Case {
            name: "64 queues, 64 masks, the greatest size",
            queues: 64,
            masks: 64,
            max: 32768,
            ..SOUND
        },
        Case {
            name: "too many queues come first",
            queues: 65,
            masks: 65,
            max: 0,
            exits: &[Some(3)],
            fault: Some(SetupFault::Queues),
            ..SOUND
        },
        Case {
            name: "too many masks come second",
            masks: 65,
            max: 0,
            exits: &[Some(3)],
            fault: Some(SetupFault::Workers),
            ..SOUND
        },
        Case {
            name: "greatest size 0",
            max: 0,
            exits: &[Some(3)],
            fault: Some(SetupFault::QueueSize),
            ..SOUND
        },
        Case {
            name: "greatest size 24",
            max: 24,
            fault: Some(SetupFault::QueueSize),
            ..SOUND
        },
        Case {
            name: "greatest size 65536",
            max: 65536,
            fault: Some(SetupFault::QueueSize),
            ..SOUND
        },
        Case {
            name: "an exit object is a content, another is missing",
            exits: &[None, Some(3), Some(4)],
            regions: &[GivenRegion {
                object: 0,
                ..REGION
            }],
            fault: Some(SetupFault::Exit(1)),
            ..SOUND
        },
        Case {
            name: "an exit object is missing",
            exits: &[Some(1), Some(4)],
            fault: Some(SetupFault::Exit(1)),
            ..SOUND
        },
    ]
}

/// Faults of the region table.
fn region_cases() -> [Case; 6] {
    [
        Case {
            name: "no region at all",
            regions: &[],
            ..SOUND
        },
        Case {
            name: "a region of an event behind one past its content",
            regions: &[
                GivenRegion { len: 65, ..REGION },
                GivenRegion {
                    object: 0,
                    ..REGION
                },
            ],
            fault: Some(SetupFault::Region(1)),
            ..SOUND
        },
        Case {
            name: "a region of a missing object",
            regions: &[GivenRegion {
                object: 4,
                ..REGION
            }],
            rings: &[GivenRing { queue: 2, ..RING }],
            fault: Some(SetupFault::Region(0)),
            ..SOUND
        },
        Case {
            name: "the second region passes its content",
            regions: &[
                REGION,
                GivenRegion {
                    start: 8192,
                    offset: 1,
                    ..REGION
                },
            ],
            rings: &[GivenRing { queue: 2, ..RING }],
            fault: Some(SetupFault::Region(0)),
            ..SOUND
        },
        Case {
            name: "regions that meet",
            regions: &[
                REGION,
                GivenRegion {
                    start: 4159,
                    ..REGION
                },
            ],
            fault: Some(SetupFault::Region(0)),
            ..SOUND
        },
        Case {
            name: "regions side by side",
            regions: &[
                REGION,
                GivenRegion {
                    start: 4160,
                    ..REGION
                },
            ],
            ..SOUND
        },
    ]
}

/// A case with these rings and an action that is not possible.
const fn ring_case(
    name: &'static str,
    rings: &'static [GivenRing],
    fault: Option<SetupFault>,
) -> Case {
    Case {
        name,
        rings,
        guest: &[],
        fault,
        ..SOUND
    }
}

/// Faults of a ring that stands behind a sound one.
fn ring_cases() -> [Case; 13] {
    let second = Some(SetupFault::Ring(1));
    [
        ring_case("no ring at all", &[], None),
        ring_case(
            "a queue past the count",
            &[RING, GivenRing { queue: 2, ..OTHER }],
            second,
        ),
        ring_case(
            "a queue given twice",
            &[RING, GivenRing { queue: 0, ..OTHER }],
            second,
        ),
        ring_case("size 0", &[RING, GivenRing { size: 0, ..OTHER }], second),
        ring_case("size 6", &[RING, GivenRing { size: 6, ..OTHER }], second),
        ring_case(
            "a size above the greatest",
            &[RING, GivenRing { size: 16, ..OTHER }],
            second,
        ),
        ring_case(
            "a descriptor table out of place",
            &[
                RING,
                GivenRing {
                    info: Some(Info { desc: 4104, ..INFO }),
                    ..OTHER
                },
            ],
            second,
        ),
        ring_case(
            "an available ring out of place",
            &[
                RING,
                GivenRing {
                    info: Some(Info {
                        avail: 4097,
                        ..INFO
                    }),
                    ..OTHER
                },
            ],
            second,
        ),
        ring_case(
            "a used ring out of place",
            &[
                RING,
                GivenRing {
                    info: Some(Info { used: 4098, ..INFO }),
                    ..OTHER
                },
            ],
            second,
        ),
        ring_case(
            "a kick that is a content",
            &[
                RING,
                GivenRing {
                    kick: Some(3),
                    ..OTHER
                },
            ],
            second,
        ),
        ring_case(
            "a call that is missing",
            &[
                RING,
                GivenRing {
                    call: Some(4),
                    ..OTHER
                },
            ],
            second,
        ),
        ring_case(
            "a kick that is the kick of an earlier ring",
            &[
                RING,
                GivenRing {
                    kick: Some(0),
                    ..OTHER
                },
            ],
            second,
        ),
        ring_case(
            "a kick that is an exit object",
            &[
                RING,
                GivenRing {
                    kick: Some(1),
                    ..OTHER
                },
            ],
            second,
        ),
    ]
}

/// A case with these requests.
const fn request_case(
    name: &'static str,
    requests: &'static [Ask],
    fault: Option<SetupFault>,
) -> Case {
    Case {
        name,
        requests,
        fault,
        ..SOUND
    }
}

/// Faults of the requests.
fn request_cases() -> [Case; 10] {
    let second = Some(SetupFault::Request(1));
    [
        request_case(
            "no event, a socket of any object, a listener",
            &[
                Ask::NoCall,
                Ask::Socket(3),
                Ask::Listen(0, 2),
                Ask::Table(&[3, 3]),
            ],
            None,
        ),
        request_case(
            "a kick that is a content",
            &[Ask::NoCall, Ask::Kick(3)],
            second,
        ),
        request_case(
            "a kick that is missing",
            &[Ask::NoCall, Ask::Kick(4)],
            second,
        ),
        request_case(
            "a table of an event",
            &[Ask::Table(&[]), Ask::Table(&[3, 0])],
            second,
        ),
        request_case(
            "a missing socket",
            &[Ask::Socket(0), Ask::Socket(4)],
            second,
        ),
        request_case("a log", &[Ask::Features, Ask::Log(3)], second),
        request_case(
            "a listener of no worker",
            &[Ask::Listen(0, 0), Ask::Listen(1, 0)],
            second,
        ),
        request_case(
            "a listener of a content",
            &[Ask::Listen(0, 0), Ask::Listen(0, 3)],
            second,
        ),
        Case {
            name: "a faulty ring comes first",
            rings: &[GivenRing { size: 16, ..RING }],
            requests: &[Ask::Kick(4)],
            fault: Some(SetupFault::Ring(0)),
            ..SOUND
        },
        Case {
            name: "a faulty action comes behind",
            requests: &[Ask::Kick(4)],
            guest: &[Action::Signal(4)],
            fault: Some(SetupFault::Request(0)),
            ..SOUND
        },
    ]
}

/// A case with these actions.
const fn guest_case(
    name: &'static str,
    guest: &'static [Action],
    fault: Option<SetupFault>,
) -> Case {
    Case {
        name,
        guest,
        fault,
        ..SOUND
    }
}

/// Faults of the guest's actions.
fn guest_cases() -> [Case; 14] {
    let second = Some(SetupFault::Guest(1));
    [
        guest_case("no action at all", &[], None),
        guest_case(
            "a signal of a content",
            &[Action::Signal(0), Action::Signal(3)],
            second,
        ),
        guest_case(
            "a signal of a missing object",
            &[Action::Signal(0), Action::Signal(4)],
            second,
        ),
        guest_case(
            "a store in an event",
            &[Action::Signal(0), Action::Store(0, 0, 0)],
            second,
        ),
        guest_case(
            "a store in a missing object",
            &[Action::Signal(0), Action::Store(4, 0, 0)],
            second,
        ),
        guest_case(
            "a store past its content",
            &[Action::Signal(0), Action::Store(3, 61, 4)],
            second,
        ),
        guest_case(
            "a store of nothing past its content",
            &[Action::Signal(0), Action::Store(3, 65, 0)],
            second,
        ),
        guest_case(
            "a store past the last offset",
            &[Action::Signal(0), Action::Store(3, u64::MAX, 1)],
            second,
        ),
        Case {
            name: "a faulty ring comes first",
            rings: &[GivenRing { size: 16, ..RING }],
            guest: &[Action::Signal(4)],
            fault: Some(SetupFault::Ring(0)),
            ..SOUND
        },
        Case {
            name: "the last word of a log, and that log by a request",
            objects: &[
                Part::Event,
                Part::Event,
                Part::Event,
                Part::Content(64),
                Part::Log(34),
            ],
            requests: &[Ask::Log(4)],
            guest: &[Action::Harvest(4, 8)],
            ..SOUND
        },
        Case {
            name: "a word past its log",
            objects: &[
                Part::Event,
                Part::Event,
                Part::Event,
                Part::Content(64),
                Part::Log(32),
            ],
            guest: &[Action::Harvest(4, 7), Action::Harvest(4, 8)],
            fault: second,
            ..SOUND
        },
        guest_case(
            "a harvest of a content",
            &[Action::Signal(0), Action::Harvest(3, 0)],
            second,
        ),
        Case {
            name: "a faulty action comes before an empty log",
            objects: &[
                Part::Event,
                Part::Event,
                Part::Event,
                Part::Content(64),
                Part::Log(0),
            ],
            guest: &[Action::Signal(0), Action::Harvest(4, 0)],
            fault: second,
            ..SOUND
        },
        Case {
            name: "an empty log",
            objects: &[
                Part::Event,
                Part::Event,
                Part::Event,
                Part::Content(64),
                Part::Log(0),
            ],
            fault: Some(SetupFault::Log(4)),
            ..SOUND
        },
    ]
}

fn zeros(alloc: Global, len: usize) -> Result<Bytes, OutOfMemory> {
    let octets = vec![in alloc; 0u8; len]?;
    Ok(Bytes::from_vec(octets))
}

fn object_of(alloc: Global, part: Part) -> Result<Object, OutOfMemory> {
    match part {
        Part::Event => Ok(Object::Event { flags: 0 }),
        Part::Content(len) => Ok(Object::Content(zeros(alloc, len)?)),
        Part::Log(len) => Ok(Object::Log { len }),
    }
}

fn action_of(alloc: Global, action: Action) -> Result<Guest, OutOfMemory> {
    match action {
        Action::Signal(object) => Ok(Guest::Signal { object }),
        Action::Harvest(object, word) => Ok(Guest::Harvest { object, word }),
        Action::Store(object, offset, len) => {
            let bytes = zeros(alloc, len)?;
            Ok(Guest::Store {
                object,
                offset,
                bytes,
            })
        }
    }
}

fn request_of(alloc: Global, ask: Ask) -> Result<Request, OutOfMemory> {
    Ok(match ask {
        Ask::Features => Request::GetFeatures,
        Ask::Table(contents) => Request::SetMemTable {
            parts: Listed::new(alloc),
            contents: Listed::from_vec(Vec::from_slice(alloc, contents)?),
            postcopy: None,
        },
        Ask::Kick(event) => Request::SetVringKick {
            queue: 0,
            event: Some(event),
        },
        Ask::NoCall => Request::SetVringCall {
            queue: 0,
            event: None,
        },
        Ask::Socket(object) => Request::SetGpuSocket { object },
        Ask::Log(object) => Request::SetLogBase {
            size: 1,
            offset: 0,
            object,
        },
        Ask::Listen(worker, event) => Request::RegisterListener {
            worker,
            event,
            set: 1,
            token: 9,
        },
    })
}

fn setup_of(alloc: Global, case: &Case) -> Result<Setup, OutOfMemory> {
    let mut objects = Listed::new(alloc);
    for part in case.objects {
        objects.push(object_of(alloc, *part)?)?;
    }
    let mut requests = Listed::new(alloc);
    for ask in case.requests {
        requests.push(request_of(alloc, *ask)?)?;
    }
    let mut guest = Listed::new(alloc);
    for action in case.guest {
        guest.push(action_of(alloc, *action)?)?;
    }
    let regions = Vec::from_slice(alloc, case.regions)?;
    let rings = Vec::from_slice(alloc, case.rings)?;
    Ok(Setup {
        objects,
        regions: Listed::from_vec(regions),
        rings: Listed::from_vec(rings),
        requests,
        guest,
    })
}

fn constants_of(alloc: Global, case: &Case) -> Result<Constants, OutOfMemory> {
    let masks = vec![in alloc; 1u64; case.masks]?;
    let exits = Vec::from_slice(alloc, case.exits)?;
    Ok(Constants {
        queues: case.queues,
        max: case.max,
        features: 0,
        protocol: 0,
        tracks: false,
        masks: Listed::from_vec(masks),
        exits: Listed::from_vec(exits),
    })
}

/// The fault for which the set-up is refused, if it is.
fn fault(
    alloc: Global,
    setup: &Setup,
    constants: &Constants,
) -> Result<Option<SetupFault>, DriveFault> {
    match validate(alloc, setup, constants) {
        Ok(_) => Ok(None),
        Err(DriveFault::Setup(fault)) => Ok(Some(fault)),
        Err(refused) => Err(refused),
    }
}

fn test_cases(rt: &impl Abort, alloc: Global, cases: &[Case]) -> Result<(), Fail> {
    for case in cases {
        let setup = setup_of(alloc, case)?;
        let constants = constants_of(alloc, case)?;
        let name = case.name;
        assert_eq!(rt; fault(alloc, &setup, &constants)?, case.fault, "{name}");
    }
    Ok(())
}

#[test]
fn the_first_fault_of_a_device_is_told(rt: HostRuntime) -> Result<(), Fail> {
    test_cases(&rt, rt.alloc(), &device_cases())
}

#[test]
fn the_first_fault_of_a_table_is_told(rt: HostRuntime) -> Result<(), Fail> {
    test_cases(&rt, rt.alloc(), &region_cases())
}

#[test]
fn the_first_faulty_ring_is_told(rt: HostRuntime) -> Result<(), Fail> {
    test_cases(&rt, rt.alloc(), &ring_cases())
}

#[test]
fn the_first_faulty_request_is_told(rt: HostRuntime) -> Result<(), Fail> {
    test_cases(&rt, rt.alloc(), &request_cases())
}

#[test]
fn the_first_faulty_action_is_told(rt: HostRuntime) -> Result<(), Fail> {
    test_cases(&rt, rt.alloc(), &guest_cases())
}

/// The sound set-up with `count` signals, of which that at place `missing` names an object that is not there.
fn long_setup(alloc: Global, count: usize, missing: usize) -> Result<Setup, OutOfMemory> {
    let mut setup = setup_of(alloc, &SOUND)?;
    let mut guest = Vec::with_capacity(alloc, count)?;
    for place in 0..count {
        let object = if place == missing { 4 } else { 0 };
        guest.push(Guest::Signal { object })?;
    }
    setup.guest = Listed::from_vec(guest);
    Ok(setup)
}

#[test]
fn a_guest_has_1048576_actions_at_most(rt: HostRuntime) -> Result<(), Fail> {
    let alloc = rt.alloc();
    let constants = constants_of(alloc, &SOUND)?;
    for (count, missing, answer) in [
        (1048576, 1048576, None),
        (1048577, 1048577, Some(SetupFault::Guest(1048576))),
        (1048577, 1048576, Some(SetupFault::Guest(1048576))),
        (1048577, 1048575, Some(SetupFault::Guest(1048575))),
    ] {
        let setup = long_setup(alloc, count, missing)?;
        assert_eq!(rt; fault(alloc, &setup, &constants)?, answer);
    }
    Ok(())
}

#[test]
fn a_sound_set_up_has_its_memory(rt: HostRuntime) -> Result<(), Fail> {
    let alloc = rt.alloc();
    let setup = setup_of(alloc, &SOUND)?;
    let constants = constants_of(alloc, &SOUND)?;
    let memory = validate(alloc, &setup, &constants)?;
    let region = Region {
        start: 4096,
        len: 64,
        object: 3,
        offset: 0,
        log: None,
    };
    assert_eq!(rt; memory.regions(), [region].as_slice());
    assert_eq!(rt; memory.content(3).len(), 64);
    assert!(rt; !memory.has_object(0));
    Ok(())
}

/// A device of 66 workers, whose worker 65 has exit object 9.
fn wide_device(alloc: Global) -> Result<FixedDevice, OutOfMemory> {
    let mut exits = vec![in alloc; None; 66]?;
    exits[65] = Some(9);
    Ok(FixedDevice {
        queues: 3,
        max: 256,
        features: 5,
        protocol: 6,
        masks: Listed::from_vec(vec![in alloc; 7u64; 66]?),
        exits: Listed::from_vec(exits),
        refusals: 0,
    })
}

#[test]
fn each_worker_is_asked_for_its_exit_object(rt: HostRuntime) -> Result<(), Fail> {
    let alloc = rt.alloc();
    let constants = read_constants(alloc, &wide_device(alloc)?)?;
    assert_eq!(rt; constants.queues, 3);
    assert_eq!(rt; constants.max, 256);
    assert_eq!(rt; constants.features, 5);
    assert_eq!(rt; constants.protocol, 6);
    assert_eq!(rt; constants.masks.as_slice(), [7u64; 66].as_slice());
    let exits = constants.exits.as_slice();
    assert_eq!(rt; exits.len(), 66);
    assert_eq!(rt; exits[64], None);
    assert_eq!(rt; exits[65], Some(9));
    Ok(())
}
