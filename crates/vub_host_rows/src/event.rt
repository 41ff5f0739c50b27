ghost use Rattle.std.specs.Prelude.{◌≡◌, ◌+◌, ◌<◌, ◌≤◌};

use std::alloc::Global;
use std::marker::Brand;
use std::process::Abort;
use std::sync::ledger::{Blank, Ledger};
use std::test::Fail;
use vub_base::Steps;
use vub_event::laws::{add_then_delete, add_twice, write_then_read, writes_then_read};
use vub_event::{EventSet, Host, HostError, MemHost, Ready};

/// A call of a host. Those on an interest list are on list 0.
#[derive(Clone, Copy, Debug)]
enum Call {
    CreateEvent(u32),
    CreateList,
    Signal(u32, u64),
    Consume(u32),
    Claim(u32, u32),
    Release(u32),
    HangUp(u32),
    Close(u32),
    Add(u32, EventSet, u64),
    Modify(u32, EventSet, u64),
    Delete(u32),
    Listen(u32, u64),
    Unlisten(u32, u64),
    ConsumeAs(u32, u64),
    Ready,
    ReadyMany(usize),
}

/// What a call says.
#[derive(Clone, Copy, Debug, PartialEq, Eq)]
enum Said {
    Done,
    Number(u64),
    Found(Ready),
    Nothing,
}

fn done(answer: Result<(), HostError>) -> Result<Said, HostError> {
    match answer {
        Ok(()) => Ok(Said::Done),
        Err(refusal) => Err(refusal),
    }
}

/// Makes a call that is on no list.
fn said_of_object<H: Host>(alloc: Global, host: &mut H, call: Call) -> Result<Said, HostError> {
    match call {
        Call::CreateEvent(flags) => Ok(Said::Number(u64::from(host.create_event(alloc, flags)?))),
        Call::CreateList => Ok(Said::Number(u64::from(host.create_list(alloc)?))),
        Call::Signal(object, value) => done(host.signal(object, value)),
        Call::Consume(object) => Ok(Said::Number(host.consume(object)?)),
        Call::Claim(object, queue) => done(host.claim(object, queue)),
        Call::Release(object) => {
            host.release(object);
            Ok(Said::Done)
        }
        Call::HangUp(object) => {
            host.hang_up(object);
            Ok(Said::Done)
        }
        Call::Close(object) => {
            host.close(object);
            Ok(Said::Done)
        }
        _ => Ok(Said::Nothing),
    }
}

/// Makes a call that is on a list.
fn said_of_list<H: Host>(alloc: Global, host: &mut H, call: Call) -> Result<Said, HostError> {
    match call {
        Call::Add(object, set, token) => done(host.add(alloc, 0, object, set, token)),
        Call::Modify(object, set, token) => done(host.modify(0, object, set, token)),
        Call::Delete(object) => done(host.delete(0, object)),
        Call::Listen(object, token) => done(host.listen(alloc, 0, object, token)),
        Call::Unlisten(object, above) => done(host.unlisten(0, object, above)),
        Call::ConsumeAs(object, token) => {
            let taken = host.consume_as(0, object, token)?;
            Ok(Said::Number(u64::from(taken)))
        }
        Call::Ready => match host.ready(0)? {
            Some(ready) => Ok(Said::Found(ready)),
            None => Ok(Said::Nothing),
        },
        Call::ReadyMany(most) => {
            let ready = host.ready_many(alloc, 0, most)?;
            Ok(Said::Number(ready.len() as u64))
        }
        _ => Ok(Said::Nothing),
    }
}

fn made<H: Host>(alloc: Global, host: &mut H, call: Call) -> Result<Said, HostError> {
    match call {
        Call::CreateEvent(_) | Call::CreateList | Call::Signal(_, _) | Call::Consume(_) => {
            said_of_object(alloc, host, call)
        }
        Call::Claim(_, _) | Call::Release(_) | Call::HangUp(_) | Call::Close(_) => {
            said_of_object(alloc, host, call)
        }
        _ => said_of_list(alloc, host, call),
    }
}

/// A call and what it says.
#[derive(Clone, Copy)]
struct Row(Call, Result<Said, HostError>);

const DONE: Result<Said, HostError> = Ok(Said::Done);

const COUNTERS: [Row; 12] = [
    Row(Call::CreateEvent(0), Ok(Said::Number(0))),
    Row(Call::Signal(0, 55), DONE),
    Row(Call::Consume(0), Ok(Said::Number(55))),
    Row(Call::Consume(0), Err(HostError::WouldBlock)),
    Row(Call::Signal(0, u64::MAX - 1), DONE),
    Row(Call::Signal(0, 1), Err(HostError::WouldBlock)),
    Row(Call::Signal(0, u64::MAX), Err(HostError::EINVAL)),
    Row(Call::CreateEvent(1), Ok(Said::Number(1))),
    Row(Call::Signal(1, 2), DONE),
    Row(Call::Consume(1), Ok(Said::Number(1))),
    Row(Call::Consume(1), Ok(Said::Number(1))),
    Row(Call::Consume(1), Err(HostError::WouldBlock)),
];

const MEMBERS: [Row; 7] = [
    Row(Call::CreateList, Ok(Said::Number(0))),
    Row(Call::CreateEvent(0), Ok(Said::Number(0))),
    Row(Call::Add(0, EventSet::IN, 7), DONE),
    Row(Call::Add(0, EventSet::IN, 7), Err(HostError::EEXIST)),
    Row(Call::Delete(0), DONE),
    Row(Call::Delete(0), Err(HostError::ENOENT)),
    Row(
        Call::Add(0, EventSet::EDGE_TRIGGERED, 7),
        Err(HostError::EINVAL),
    ),
];

const SECOND: Ready = Ready {
    object: 1,
    events: 4,
    token: 11,
};

const HUNG_UP: Ready = Ready {
    object: 0,
    events: 0x10,
    token: 20,
};

const LEAST_READY: [Row; 13] = [
    Row(Call::CreateList, Ok(Said::Number(0))),
    Row(Call::CreateEvent(0), Ok(Said::Number(0))),
    Row(Call::CreateEvent(0), Ok(Said::Number(1))),
    Row(Call::CreateEvent(0), Ok(Said::Number(2))),
    Row(Call::Add(0, EventSet::OUT, 10), DONE),
    Row(Call::Add(1, EventSet::OUT, 11), DONE),
    Row(Call::Add(2, EventSet::OUT, 12), DONE),
    Row(Call::Modify(0, EventSet::IN, 20), DONE),
    Row(Call::Ready, Ok(Said::Found(SECOND))),
    Row(Call::HangUp(0), DONE),
    Row(Call::Close(1), DONE),
    Row(Call::ReadyMany(8), Ok(Said::Number(2))),
    Row(Call::Ready, Ok(Said::Found(HUNG_UP))),
];

const CLAIMS: [Row; 17] = [
    Row(Call::CreateList, Ok(Said::Number(0))),
    Row(Call::CreateEvent(0), Ok(Said::Number(0))),
    Row(Call::CreateEvent(0), Ok(Said::Number(1))),
    Row(Call::Claim(0, 3), DONE),
    Row(Call::Claim(0, 3), DONE),
    Row(Call::Claim(0, 4), Err(HostError::Held)),
    Row(Call::Listen(0, 9), Err(HostError::EEXIST)),
    Row(Call::Release(0), DONE),
    Row(Call::Listen(0, 9), DONE),
    Row(Call::Claim(0, 3), Err(HostError::Held)),
    Row(Call::Signal(0, 5), DONE),
    Row(Call::ConsumeAs(0, 8), Ok(Said::Number(0))),
    Row(Call::ConsumeAs(1, 9), Ok(Said::Number(0))),
    Row(Call::ConsumeAs(0, 9), Ok(Said::Number(1))),
    Row(Call::Consume(0), Err(HostError::WouldBlock)),
    Row(Call::Unlisten(0, 9), Err(HostError::ENOENT)),
    Row(Call::Unlisten(0, 8), DONE),
];

/// The calls of each table, made of a new host one after the other.
const TABLES: [&[Row]; 4] = [&COUNTERS, &MEMBERS, &LEAST_READY, &CLAIMS];

#[test]
fn each_call_has_its_answer(rt: HostRuntime) -> Result<(), Fail> {
    for table in TABLES {
        let mut host = MemHost::new(rt.alloc());
        for Row(call, answer) in table {
            assert_eq!(rt; made(rt.alloc(), &mut host, *call), *answer, "{call:?}");
        }
    }
    Ok(())
}

#[test]
fn a_law_adds_and_deletes(rt: HostRuntime) -> Result<(), Fail> {
    let alloc = rt.alloc();
    let mut host = MemHost::new(alloc);
    let list = host.create_list(alloc)?;
    let object = host.create_event(alloc, 0)?;
    add_then_delete(&mut host, alloc, list, object, EventSet::IN, 7)?;
    assert_eq!(rt; host.members(list).len(), 0);
    let second = add_twice(&mut host, alloc, list, object, EventSet::IN, 7)?;
    assert_eq!(rt; second, Err(HostError::EEXIST));
    Ok(())
}

/// Values that are written to a counter of these flags, and what is read then.
const WRITES: [(u32, &[u64], u64); 3] = [
    (0, &[3, u64::MAX, 0, u64::MAX - 3, 4], 7),
    (0, &[5], 5),
    (1, &[2, 2], 1),
];

#[test]
fn a_law_writes_and_reads(rt: HostRuntime) -> Result<(), Fail> {
    for (flags, values, read) in WRITES {
        let mut host = MemHost::new(rt.alloc());
        let object = host.create_event(rt.alloc(), flags)?;
        assert_eq!(rt; writes_then_read(&mut host, object, values)?, read);
    }
    let mut host = MemHost::new(rt.alloc());
    let object = host.create_event(rt.alloc(), 0)?;
    assert_eq!(rt; write_then_read(&mut host, object, 5)?, 5);
    Ok(())
}

#[test]
fn laws_leave_what_was_done_before_a_fault(rt: HostRuntime) -> Result<(), Fail> {
    let alloc = rt.alloc();
    let fails = Vec::from_slice(alloc, &[3, 6])?;
    let mut host = MemHost::failing(alloc, fails)?;
    let list = host.create_list(alloc)?;
    let object = host.create_event(alloc, 0)?;
    let deleted = add_then_delete(&mut host, alloc, list, object, EventSet::IN, 7);
    assert_eq!(rt; deleted, Err(HostError::Failed));
    assert_eq!(rt; host.members(list).len(), 1);
    let read = writes_then_read(&mut host, object, &[1, 2, 4]);
    assert_eq!(rt; read, Err(HostError::Failed));
    assert_eq!(rt; host.consume(object)?, 3);
    Ok(())
}

/// Calls of a prepared host. None of them needs another one to have been made.
const CALLS: [Call; 13] = [
    Call::CreateEvent(0),
    Call::CreateList,
    Call::Signal(0, 1),
    Call::Consume(0),
    Call::Add(1, EventSet::IN, 5),
    Call::Modify(0, EventSet::IN, 6),
    Call::Delete(0),
    Call::Listen(2, 5),
    Call::Unlisten(3, 1),
    Call::ConsumeAs(0, 5),
    Call::Ready,
    Call::ReadyMany(1),
    Call::Claim(4, 0),
];

/// What the call answers, as its number; 0 for Ok.
fn number_of(alloc: Global, host: &mut MemHost, call: Call) -> u8 {
    match made(alloc, host, call) {
        Ok(_) => 0,
        Err(refusal) => refusal.number(),
    }
}

/// The calls that prepare a host.
const PREPARATION: [Call; 9] = [
    Call::CreateList,
    Call::CreateEvent(0),
    Call::CreateEvent(0),
    Call::CreateEvent(0),
    Call::CreateEvent(0),
    Call::CreateEvent(0),
    Call::Signal(0, 2),
    Call::Add(0, EventSet::IN, 5),
    Call::Add(3, EventSet::IN, 5),
];

/// How many calls prepare a host.
const PREPARING: u64 = 9;

/// A host with five objects, of which object 0 has a count of 2, and one list, of which objects 0 and 3 are members.
fn prepared(alloc: Global, fails: &[u64]) -> Result<MemHost, HostError> {
    let mut host = MemHost::failing(alloc, Vec::from_slice(alloc, fails)?)?;
    for call in PREPARATION {
        made(alloc, &mut host, call)?;
    }
    Ok(host)
}

#[test]
fn each_call_fails_where_it_is_to_fail(rt: HostRuntime) -> Result<(), Fail> {
    for call in CALLS {
        let mut sound = prepared(rt.alloc(), &[])?;
        assert_eq!(rt; number_of(rt.alloc(), &mut sound, call), 0);
        assert_eq!(rt; sound.faults(), 0);
        let mut host = prepared(rt.alloc(), &[PREPARING, PREPARING + 2])?;
        for answer in [7, 0, 7] {
            assert_eq!(rt; number_of(rt.alloc(), &mut host, call), answer, "{call:?}");
        }
        assert_eq!(rt; host.faults(), 2);
    }
    Ok(())
}

#[test]
fn each_fault_number_fails_one_call(rt: HostRuntime) -> Result<(), Fail> {
    for fault in 0..CALLS.len() {
        let mut host = prepared(rt.alloc(), &[PREPARING + fault as u64])?;
        for (number, call) in CALLS.iter().enumerate() {
            let answer = if number == fault { 7 } else { 0 };
            assert_eq!(rt; number_of(rt.alloc(), &mut host, *call), answer);
        }
        assert_eq!(rt; host.faults(), 1);
    }
    Ok(())
}

#[test]
fn refusals_have_numbers_and_texts(rt: HostRuntime) -> Result<(), Fail> {
    let alloc = rt.alloc();
    for (refusal, number, text) in [
        (HostError::WouldBlock, 1, "operation would block"),
        (HostError::EINVAL, 2, "invalid argument"),
        (HostError::EEXIST, 3, "object is registered already"),
        (HostError::ENOENT, 4, "object is not registered"),
        (HostError::EBADF, 5, "bad object or list number"),
        (HostError::ENOBUFS, 6, "no buffer space available"),
        (HostError::Failed, 7, "host failed"),
        (HostError::Held, 8, "object is held"),
        (HostError::OutOfMemory, 9, "out of memory"),
    ] {
        assert_eq!(rt; refusal.number(), number);
        let shown = format!(in alloc; "{refusal}")?;
        assert_eq!(rt; shown.as_str(), text);
    }
    Ok(())
}

/// Makes one more object, which is ready in the list, and asks for a ready one where it is number 9999. Of 10000 objects
/// this costs at most four steps.
#[tactic(auto, unfolding(vub_event::specs::HostCalls::create_event_after, vub_event::specs::HostCalls::add_after, vub_event::specs::HostCalls::signal_after))]
fn ready_of_ten_thousand<K: Ledger>(
    alloc: Global,
    host: &mut MemHost,
    list: u32,
    steps: &mut Steps<K>,
) -> Result<Option<Ready>, HostError>
    ensures { steps.new ≤ steps.old + 4 }
{
    let object = host.create_event(alloc, 0)?;
    if object != 9999 {
        return Ok(None);
    }
    host.add(alloc, list, object, EventSet::IN, 7)?;
    host.signal(object, 1)?;
    host.ready_counted(list, steps)
}

fn ready_with<K: Ledger>(
    alloc: Global,
    host: &mut MemHost,
    list: u32,
    blank: Blank,
) -> Result<Option<Ready>, HostError>
    requires name { blank.name ≡ K.name }
    requires parts { blank.parts ≡ K.parts }
    requires some { 0 < K.parts }
{
    let mut steps = Steps::<K>::new(blank);
    ready_of_ten_thousand(alloc, host, list, &mut steps)
}

fn ready_last(alloc: Global, host: &mut MemHost, list: u32) -> Result<Option<Ready>, HostError> {
    ready_with::<Brand>(alloc, host, list, Blank::new(1))
}

/// Makes 9999 objects, of which each hundredth is a member of the list, and none is ready.
fn make_many(alloc: Global, host: &mut MemHost, list: u32) -> Result<(), HostError> {
    for _made in 0..9999u32 {
        let object = host.create_event(alloc, 0)?;
        if object % 100 == 0 {
            host.add(alloc, list, object, EventSet::IN, 0)?;
        }
    }
    Ok(())
}

#[test]
fn the_last_of_ten_thousand_objects_is_found(rt: HostRuntime) -> Result<(), Fail> {
    let alloc = rt.alloc();
    let mut host = MemHost::new(alloc);
    let list = host.create_list(alloc)?;
    make_many(alloc, &mut host, list)?;
    assert_eq!(rt; host.ready(list)?, None);
    let last = Ready {
        object: 9999,
        events: 1,
        token: 7,
    };
    assert_eq!(rt; ready_last(alloc, &mut host, list)?, Some(last));
    host.signal(6400, 1)?;
    let earlier = Ready {
        object: 6400,
        events: 1,
        token: 0,
    };
    assert_eq!(rt; host.ready(list)?, Some(earlier));
    host.consume(6400)?;
    assert_eq!(rt; host.ready(list)?, Some(last));
    host.close(9999);
    assert_eq!(rt; host.ready(list)?, None);
    Ok(())
}
