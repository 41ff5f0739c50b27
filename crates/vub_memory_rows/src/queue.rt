ghost use Rattle.std.specs.Prelude.{IsSome, IfOk};

use crate::queue_echo::{Echoed, echo_uncounted, is_too_long_uncounted, take_uncounted};
use std::alloc::Global;
use std::test::Fail;
use vub_base::Bytes;
use vub_mem::{GuestMemory, Region};
use vub_queue::{Damage, PutFault, Queue, QueueError, RingPart, Took, put};

// Where the parts of the ring lie, if a case does not say otherwise.
const DESC: u64 = 0x100000;

const AVAIL: u64 = 0x101000;

const USED: u64 = 0x102000;

/// What a take is to answer: an entry has this many bytes of "hello", and this room.
#[derive(Clone, Copy)]
enum Want {
    Entry(usize, u32),
    Nothing,
    Damaged(Damage),
}

/// A ring of a driver, with its first two descriptors (address, length, flags, next), and what a take is to answer.
#[derive(Clone, Copy)]
struct Case {
    name: &'static str,
    size: u16,
    next: u16,
    desc: u64,
    avail: u64,
    first: (u64, u32, u16, u16),
    second: (u64, u32, u16, u16),
    index: u16,
    slots: [u8; 16],
    want: Want,
}

/// One entry, whose chain asks "hello" and has room for 16.
const HELLO: Case = Case {
    name: "one segment of each kind",
    size: 8,
    next: 0,
    desc: DESC,
    avail: AVAIL,
    first: (0x103000, 5, 1, 1),
    second: (0x104000, 16, 2, 0),
    index: 1,
    slots: [0; 16],
    want: Want::Entry(5, 16),
};

/// The bytes of a descriptor.
fn descriptor_bytes((addr, len, flags, next): (u64, u32, u16, u16)) -> [u8; 16] {
    let a = addr.to_le_bytes();
    let l = len.to_le_bytes();
    let f = flags.to_le_bytes();
    let n = next.to_le_bytes();
    [
        a[0], a[1], a[2], a[3], a[4], a[5], a[6], a[7], l[0], l[1], l[2], l[3], f[0], f[1], n[0],
        n[1],
    ]
}

fn store(bytes: &mut Vec<u8>, at: usize, what: &[u8]) {
    for i in 0..what.len() {
        let place = at.wrapping_add(i);
        if place < bytes.len() {
            bytes[place] = what[i];
        }
    }
}

/// The bytes of the first object, with the ring of the case, "hello" at 12288 and "hel" at the end.
fn first_object(alloc: Global, case: &Case, used_event: u8) -> Result<Bytes, Fail> {
    let mut bytes = vec![in alloc; 0; 0xc000]?;
    store(&mut bytes, 0, &descriptor_bytes(case.first));
    store(&mut bytes, 16, &descriptor_bytes(case.second));
    store(&mut bytes, 4098, &case.index.to_le_bytes());
    store(&mut bytes, 4100, &case.slots);
    store(&mut bytes, 4116, &[used_event]);
    store(&mut bytes, 12288, b"hello");
    store(&mut bytes, 0xbffd, b"hel");
    Ok(Bytes::from_vec(bytes))
}

/// The bytes of the second object: "lo", and 1 as its last word.
fn second_object(alloc: Global) -> Result<Bytes, Fail> {
    let mut bytes = vec![in alloc; 0; 0x4000]?;
    store(&mut bytes, 0, b"lo");
    store(&mut bytes, 0x3ffe, &[1]);
    Ok(Bytes::from_vec(bytes))
}

/// Addresses 0x100000 to 0x10c000 show the first object, and from there to 0x110000 the second.
fn memory(alloc: Global, case: &Case, used_event: u8) -> Result<GuestMemory<()>, Fail> {
    let first = first_object(alloc, case, used_event)?;
    let second = second_object(alloc)?;
    let mut memory = GuestMemory::new(alloc);
    memory.put_object(alloc, 0, first)?;
    memory.put_object(alloc, 1, second)?;
    memory.replace_table(table(alloc, 0x4000)?)?;
    Ok(memory)
}

/// The two regions, of which the second has this length.
fn table(alloc: Global, len: u64) -> Result<Vec<Region>, Fail> {
    let mut table = Vec::new(alloc);
    table.push(Region {
        start: 0x100000,
        len: 0xc000,
        object: 0,
        offset: 0,
        log: None,
    })?;
    table.push(Region {
        start: 0x10c000,
        len,
        object: 1,
        offset: 0,
        log: None,
    })?;
    Ok(table)
}

/// A queue of eight slots at the usual place.
fn queue() -> Result<Queue, Fail>
    ensures { IfOk result (λ q. IsSome q.addresses) }
{
    let mut queue = Queue::new(8)?;
    queue.set_info(DESC, AVAIL, USED)?;
    Ok(queue)
}

/// Whether the take answers this.
fn is_wanted(want: Want, took: &Took) -> bool {
    match took {
        Took::Entry(chain) => match want {
            Want::Entry(len, room) => {
                chain.request.len() == len
                    && chain.room == room
                    && b"hello".starts_with(chain.request.as_slice())
            }
            _ => false,
        },
        Took::None => match want {
            Want::Nothing => true,
            _ => false,
        },
        Took::Damaged(found) => match want {
            Want::Damaged(damage) => *found == damage,
            _ => false,
        },
    }
}

/// Whether a take answers as the case says, and next available goes on by one at an entry alone.
fn takes(alloc: Global, case: &Case) -> Result<bool, Fail> {
    let mut memory = memory(alloc, case, 0)?;
    let mut queue = Queue::new(case.size)?;
    queue.set_info(case.desc, case.avail, USED)?;
    queue.set_next_avail(case.next);
    let took = take_uncounted(alloc, &mut queue, &mut memory)?;
    let next = match &took {
        Took::Entry(_) => case.next.wrapping_add(1),
        _ => case.next,
    };
    Ok(is_wanted(case.want, &took) && queue.next_avail() == next)
}

const CASES: [Case; 20] = [
    HELLO,
    Case {
        name: "a ring of two, of which the chain has both",
        size: 2,
        ..HELLO
    },
    Case {
        name: "a writable segment before a readable one",
        first: (0x104000, 16, 3, 1),
        second: (0x103000, 5, 0, 0),
        ..HELLO
    },
    Case {
        name: "a segment over two regions",
        first: (0x10bffd, 5, 0, 0),
        want: Want::Entry(5, 0),
        ..HELLO
    },
    Case {
        name: "a segment of no bytes outside",
        first: (0xffffffffffffffff, 0, 0, 0),
        want: Want::Entry(0, 0),
        ..HELLO
    },
    Case {
        name: "a ring of one",
        size: 1,
        first: (0x103000, 5, 0, 0),
        want: Want::Entry(5, 0),
        ..HELLO
    },
    Case {
        name: "the index goes on from 65535 to 0, with slot 7",
        next: 65535,
        index: 0,
        slots: [9, 0, 9, 0, 9, 0, 9, 0, 9, 0, 9, 0, 9, 0, 0, 0],
        ..HELLO
    },
    Case {
        name: "an empty ring",
        index: 0,
        want: Want::Nothing,
        ..HELLO
    },
    Case {
        name: "the index word is past 2^64",
        avail: 0xfffffffffffffffe,
        want: Want::Damaged(Damage::RingOutside),
        ..HELLO
    },
    Case {
        name: "an index one more than the size ahead",
        index: 9,
        want: Want::Damaged(Damage::IndexAhead),
        ..HELLO
    },
    Case {
        name: "the same past 65535",
        next: 65535,
        index: 8,
        want: Want::Damaged(Damage::IndexAhead),
        ..HELLO
    },
    Case {
        name: "the slot word is outside, the index word is not",
        avail: 0x10fffc,
        want: Want::Damaged(Damage::RingOutside),
        ..HELLO
    },
    Case {
        name: "a head that is too large, before it is looked for",
        desc: 0xfffffffffffffff0,
        slots: [8; 16],
        want: Want::Damaged(Damage::BadNumber),
        ..HELLO
    },
    Case {
        name: "a descriptor past 2^64",
        desc: 0xfffffffffffffff0,
        slots: [1, 0, 0, 0, 0, 0, 0, 0, 0, 0, 0, 0, 0, 0, 0, 0],
        want: Want::Damaged(Damage::RingOutside),
        ..HELLO
    },
    Case {
        name: "a ring of one whose descriptor goes on, before its number",
        size: 1,
        first: (0x103000, 5, 1, 9),
        want: Want::Damaged(Damage::TooLong),
        ..HELLO
    },
    Case {
        name: "a next number that is too large",
        first: (0x103000, 5, 1, 8),
        want: Want::Damaged(Damage::BadNumber),
        ..HELLO
    },
    Case {
        name: "INDIRECT before the sum and the segment",
        second: (0, 4294967295, 4, 0),
        want: Want::Damaged(Damage::Indirect),
        ..HELLO
    },
    Case {
        name: "a sum of 4294967296, before the segment",
        second: (0, 4294967291, 0, 0),
        want: Want::Damaged(Damage::TooBig),
        ..HELLO
    },
    Case {
        name: "a sum of 4294967295, whose segment is outside",
        second: (0, 4294967290, 0, 0),
        want: Want::Damaged(Damage::SegmentOutside),
        ..HELLO
    },
    Case {
        name: "a segment past the last address",
        first: (0xffffffffffffffff, 2, 0, 0),
        want: Want::Damaged(Damage::SegmentOutside),
        ..HELLO
    },
];

#[test]
fn takes_as_the_cases_say(rt: HostRuntime) -> Result<(), Fail> {
    for case in &CASES {
        assert!(rt; takes(rt.alloc(), case)?, "{}", case.name);
    }
    Ok(())
}

#[test]
fn takes_as_many_as_the_index_says(rt: HostRuntime) -> Result<(), Fail> {
    let alloc = rt.alloc();
    let mut memory = memory(alloc, &Case { index: 8, ..HELLO }, 0)?;
    let mut queue = queue()?;
    for n in 0..9 {
        // setting them again leaves the numbers, and shows the condition of the call in each turn
        queue.set_info(DESC, AVAIL, USED)?;
        let took = take_uncounted(alloc, &mut queue, &mut memory)?;
        let want = if n < 8 { HELLO.want } else { Want::Nothing };
        assert!(rt; is_wanted(want, &took), "take {n}");
    }
    assert_eq!(rt; queue.next_avail(), 8);
    Ok(())
}

#[test]
fn a_loop_costs_eight_steps(rt: HostRuntime) -> Result<(), Fail> {
    let alloc = rt.alloc();
    let case = Case {
        first: (0x103000, 5, 1, 0),
        ..HELLO
    };
    let mut memory = memory(alloc, &case, 0)?;
    let mut queue = queue()?;
    // a clause of the call says that this costs as many steps as the ring has descriptors
    assert!(rt; is_too_long_uncounted(alloc, &mut queue, &mut memory)?);
    Ok(())
}

#[test]
fn echoes(rt: HostRuntime) -> Result<(), Fail> {
    let alloc = rt.alloc();
    let mut memory = memory(alloc, &HELLO, 0)?;
    let mut queue = queue()?;
    assert_eq!(rt; queue.avail_idx(&memory)?, 1);
    assert_eq!(rt;
        echo_uncounted(alloc, &mut queue, &mut memory)?,
        Echoed::Put(true)
    );
    assert_eq!(rt;
        memory.read(alloc, 0x104000, 6)?.as_slice(),
        b"hello\0".as_slice()
    );
    assert_eq!(rt;
        memory.read(alloc, USED, 14)?.as_slice(),
        [0, 0, 1, 0, 0, 0, 0, 0, 5, 0, 0, 0, 0, 0].as_slice()
    );
    assert_eq!(rt; queue.next_used(), 1);
    Ok(())
}

#[test]
fn notifies_by_index(rt: HostRuntime) -> Result<(), Fail> {
    let alloc = rt.alloc();
    for (used_event, wanted) in [(0, true), (5, false)] {
        let mut memory = memory(alloc, &HELLO, used_event)?;
        let mut queue = queue()?;
        queue.set_event_idx(true);
        assert_eq!(rt;
            echo_uncounted(alloc, &mut queue, &mut memory)?,
            Echoed::Put(wanted)
        );
        assert_eq!(rt; memory.read_u16(0x102044)?, 0);
        assert_eq!(rt;
            echo_uncounted(alloc, &mut queue, &mut memory)?,
            Echoed::Nothing
        );
        assert_eq!(rt; memory.read_u16(0x102044)?, 1);
    }
    Ok(())
}

#[test]
fn refuses_a_put_outside(rt: HostRuntime) -> Result<(), Fail> {
    let alloc = rt.alloc();
    let case = Case {
        first: (0x10c000, 16, 2, 0),
        ..HELLO
    };
    let mut memory = memory(alloc, &case, 0)?;
    let mut queue = queue()?;
    match take_uncounted(alloc, &mut queue, &mut memory)? {
        Took::Entry(chain) => {
            if chain.room >= 4 {
                memory.replace_table(table(alloc, 3)?)?;
                assert_eq!(rt;
                    put(&mut queue, &mut memory, &chain, b"four"),
                    Err(PutFault::RoomOutside)
                );
                assert_eq!(rt; put(&mut queue, &mut memory, &chain, b"one"), Ok(true));
            }
            assert_eq!(rt; queue.used_idx(&memory)?, 1);
        }
        _ => Err("no entry")?,
    }
    Ok(())
}

#[test]
fn settings_are_tested(rt: HostRuntime) -> Result<(), Fail> {
    for max in [0, 3, 6, 65535] {
        assert_eq!(rt;
            Queue::new(max).err(),
            Some(QueueError::InvalidMaxSize),
            "at {max}"
        );
    }
    assert_eq!(rt; Queue::new(32768)?.max_size(), 32768);
    let mut queue = Queue::new(256)?;
    for size in [0, 3, 512] {
        assert_eq!(rt;
            queue.set_size(size),
            Err(QueueError::InvalidSize),
            "at {size}"
        );
    }
    queue.set_size(8)?;
    assert_eq!(rt; queue.size(), 8);
    for (desc, avail, used, part) in [
        (0x100008, 0x101001, 0x102002, RingPart::Desc),
        (0x100010, 0x101001, 0x102002, RingPart::Avail),
        (0x100010, 0x101002, 0x102002, RingPart::Used),
    ] {
        assert_eq!(rt;
            queue.set_info(desc, avail, used),
            Err(QueueError::Misaligned(part))
        );
        assert_eq!(rt; queue.desc_table(), None);
    }
    queue.set_info(0x100010, 0x101002, 0x102004)?;
    assert_eq!(rt; queue.desc_table(), Some(0x100010));
    assert_eq!(rt; queue.avail_ring(), Some(0x101002));
    assert_eq!(rt; queue.used_ring(), Some(0x102004));
    queue.set_ready(true);
    queue.set_next_used(7);
    assert!(rt; queue.ready());
    assert!(rt; !queue.event_idx_enabled());
    assert_eq!(rt; queue.next_used(), 7);
    Ok(())
}

#[test]
fn counts_what_was_used_since_told(rt: HostRuntime) -> Result<(), Fail> {
    let alloc = rt.alloc();
    for (used_event, wanted) in [(0, true), (1, true), (2, false)] {
        let mut memory = memory(alloc, &HELLO, used_event)?;
        let mut queue = queue()?;
        queue.set_event_idx(true);
        assert_eq!(rt;
            queue.add_used(&mut memory, 8, 0),
            Err(QueueError::InvalidDescriptorIndex)
        );
        queue.add_used(&mut memory, 7, 16)?;
        queue.add_used(&mut memory, 6, 0)?;
        assert_eq!(rt; queue.used_idx(&memory)?, 2);
        assert_eq!(rt;
            queue.needs_notification(&memory)?,
            wanted,
            "at {used_event}"
        );
        assert!(rt; !queue.needs_notification(&memory)?);
        assert!(rt; queue.enable_notification(&mut memory)?);
        queue.set_event_idx(false);
        assert!(rt; queue.needs_notification(&memory)?);
        queue.disable_notification(&mut memory)?;
        assert_eq!(rt; memory.read_u16(USED)?, 1);
        assert!(rt; queue.enable_notification(&mut memory)?);
        assert_eq!(rt; memory.read_u16(USED)?, 0);
    }
    Ok(())
}

#[test]
fn errors_have_texts(rt: HostRuntime) -> Result<(), Fail> {
    let alloc = rt.alloc();
    let text = format!(in alloc; "{}", QueueError::Misaligned(RingPart::Avail))?;
    assert_eq!(rt; text.as_str(), "available ring is misaligned");
    let text = format!(in alloc; "{}", PutFault::RoomOutside)?;
    assert_eq!(rt; text.as_str(), "reply reaches outside guest memory");
    Ok(())
}
