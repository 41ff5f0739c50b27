//! A host under a lock answers as the host that lies under it.
use crate::shown::show;
use std::alloc::{AllocError, Global};
use std::test::Fail;
use vub_event::{EventSet, Host, MemHost};
use vub_locks::{QuietHost, SharedHost};

/// How many calls there are.
const CALLS: u32 = 40;

/// Calls on objects: they are made, signalled and read.
fn call_of_objects<H: Host>(
    alloc: Global,
    lines: &mut String,
    host: &mut H,
    number: u32,
) -> Result<(), AllocError> {
    match number {
        0 => show(alloc, lines, &host.create_event(alloc, 0)),
        1 => show(alloc, lines, &host.create_event(alloc, 1)),
        2 => show(alloc, lines, &host.create_event(alloc, 2)),
        3 => show(alloc, lines, &host.create_event(alloc, 0x800)),
        4 => show(alloc, lines, &host.signal(0, 55)),
        5 => show(alloc, lines, &host.signal(1, 2)),
        6 => show(alloc, lines, &host.signal(0, u64::MAX)),
        7 => show(alloc, lines, &host.signal(9, 1)),
        8 => show(alloc, lines, &host.consume(1)),
        9 => show(alloc, lines, &host.consume(2)),
        10 => show(alloc, lines, &host.consume(9)),
        _ => show(alloc, lines, &host.faults()),
    }
}

/// Calls on lists: they are made, and objects join and leave.
fn call_of_lists<H: Host>(
    alloc: Global,
    lines: &mut String,
    host: &mut H,
    number: u32,
) -> Result<(), AllocError> {
    match number {
        12 => show(alloc, lines, &host.create_list(alloc)),
        13 => show(alloc, lines, &host.create_list(alloc)),
        14 => show(alloc, lines, &host.add(alloc, 0, 0, EventSet::IN, 7)),
        15 => show(alloc, lines, &host.add(alloc, 0, 0, EventSet::IN, 8)),
        16 => show(alloc, lines, &host.add(alloc, 1, 1, EventSet::OUT, 9)),
        17 => show(alloc, lines, &host.modify(0, 0, EventSet::IN, 10)),
        18 => show(alloc, lines, &host.modify(0, 1, EventSet::IN, 10)),
        19 => show(alloc, lines, &host.ready(0)),
        20 => show(alloc, lines, &host.ready(5)),
        21 => show(alloc, lines, &host.ready_many(alloc, 0, 4)),
        22 => show(alloc, lines, &host.ready_many(alloc, 1, 4)),
        23 => show(alloc, lines, &host.delete(1, 1)),
        24 => show(alloc, lines, &host.delete(1, 1)),
        _ => show(alloc, lines, &host.faults()),
    }
}

/// Calls on listeners, claims and ends.
fn call_of_claims<H: Host>(
    alloc: Global,
    lines: &mut String,
    host: &mut H,
    number: u32,
) -> Result<(), AllocError> {
    match number {
        26 => show(alloc, lines, &host.listen(alloc, 1, 1, 70)),
        27 => show(alloc, lines, &host.listen(alloc, 1, 1, 71)),
        28 => show(alloc, lines, &host.consume_as(1, 1, 70)),
        29 => show(alloc, lines, &host.consume_as(1, 1, 71)),
        30 => show(alloc, lines, &host.unlisten(1, 1, 80)),
        31 => show(alloc, lines, &host.unlisten(1, 1, 60)),
        32 => show(alloc, lines, &host.claim(0, 3)),
        33 => show(alloc, lines, &host.claim(0, 4)),
        34 => show(alloc, lines, &host.release(0)),
        35 => show(alloc, lines, &host.claim(0, 4)),
        36 => show(alloc, lines, &host.hang_up(0)),
        37 => show(alloc, lines, &host.release(1)),
        38 => show(alloc, lines, &host.close(2)),
        39 => show(alloc, lines, &host.hang_up(1)),
        _ => show(alloc, lines, &host.close(3)),
    }
}

/// The call with this number.
fn call<H: Host>(
    alloc: Global,
    lines: &mut String,
    host: &mut H,
    number: u32,
) -> Result<(), AllocError> {
    if number < 12 {
        call_of_objects(alloc, lines, host, number)
    } else if number < 26 {
        call_of_lists(alloc, lines, host, number)
    } else {
        call_of_claims(alloc, lines, host, number)
    }
}

/// What can be read without a change: the ready members of both lists.
fn look<H: Host>(alloc: Global, lines: &mut String, host: &mut H) -> Result<(), AllocError> {
    for list in 0..2 {
        let ready = host.ready_many(alloc, list, 8);
        show(alloc, lines, &ready)?;
    }
    Ok(())
}

/// What is left of the counts.
fn drain<H: Host>(alloc: Global, lines: &mut String, host: &mut H) -> Result<(), AllocError> {
    for object in 0..5 {
        let count = host.consume(object);
        show(alloc, lines, &count)?;
    }
    Ok(())
}

/// What the host answers to all calls, with a look after each, and what is left then.
fn answers<H: Host>(alloc: Global, host: &mut H) -> Result<String, AllocError> {
    let mut lines = String::new(alloc);
    for number in 0..=CALLS {
        call(alloc, &mut lines, host, number)?;
        look(alloc, &mut lines, host)?;
    }
    drain(alloc, &mut lines, host)?;
    Ok(lines)
}

#[test]
fn a_shared_host_answers_as_its_host(rt: HostRuntime) -> Result<(), Fail> {
    let alloc: Global = rt.alloc();
    let mut own = MemHost::new(alloc);
    let shared = SharedHost::new(rt, alloc, QuietHost::new(MemHost::new(alloc)))?;
    let mut other = shared.try_clone()?;
    let expected = answers(alloc, &mut own)?;
    let found = answers(alloc, &mut other)?;
    assert!(rt; found.as_str() == expected.as_str());
    assert!(rt; found.as_str().len() > 1000);
    Ok(())
}
