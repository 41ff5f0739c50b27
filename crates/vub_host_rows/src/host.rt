use crate::shown::show;
use log::sink::Memory;
use std::alloc::Global;
use std::process::Abort;
use std::test::Fail;
use std::time::Duration;
use vub_host::{
    ControlOperation, Epoll, EpollContext, EpollEvent, EpollEvents, EventFd, EventSet, Host,
    HostError, MemHost, PollContext, PollEvents, PollToken, WatchingEvents, errno, errno_of,
    timeout_millis,
};

#[test]
fn timeouts_are_in_milliseconds(rt: HostRuntime) {
    for (timeout, millis) in [
        (Duration::from_millis(1_500), 1_500),
        (Duration::from_secs(3_000_000), i32::MAX),
        (Duration::from_secs(9_223_372_036_854_775_807), -1),
    ] {
        assert_eq!(rt; timeout_millis(timeout), millis);
    }
}

#[test]
fn list_refuses_a_second_member(rt: HostRuntime) -> Result<(), Fail> {
    let mut host = MemHost::new(rt.alloc());
    let epoll = Epoll::new(rt.alloc(), &mut host)?;
    let object = host.create_event(rt.alloc(), 0)?;
    let event = EpollEvent::new(EventSet::OUT, 3);
    let edge = EpollEvent::new(EventSet::EDGE_TRIGGERED, 1);
    for (operation, event, answer) in [
        (ControlOperation::Add, edge, Err(HostError::EINVAL)),
        (ControlOperation::Add, event, Ok(())),
        (ControlOperation::Add, event, Err(HostError::EEXIST)),
        (ControlOperation::Modify, event, Ok(())),
        (ControlOperation::Delete, event, Ok(())),
        (ControlOperation::Delete, event, Err(HostError::ENOENT)),
    ] {
        assert_eq!(rt;
            epoll.ctl(rt.alloc(), &mut host, operation, object, event),
            answer
        );
    }
    Ok(())
}

#[test]
fn list_reports_what_is_ready(rt: HostRuntime) -> Result<(), Fail> {
    let mut host = MemHost::new(rt.alloc());
    let epoll = Epoll::new(rt.alloc(), &mut host)?;
    let object = host.create_event(rt.alloc(), 0)?;
    let event = EpollEvent::new(EventSet::OUT, 3);
    epoll.ctl(rt.alloc(), &mut host, ControlOperation::Add, object, event)?;
    let mut events = [EpollEvent::default(); 2];
    assert_eq!(rt; epoll.wait(rt.alloc(), &mut host, &mut events)?, 1);
    assert_eq!(rt; events[0].events(), 4);
    assert_eq!(rt; events[0].raw_data(), 3);
    Ok(())
}

/// An event of these bits and data.
fn event_of(bits: u32, data: u64) -> EpollEvent {
    EpollEvent::from_raw(bits, data)
}

#[test]
fn event_has_bits_and_data(rt: HostRuntime) -> Result<(), Fail> {
    assert!(rt; event_of(0x20, 0).event_set().is_none());
    assert_eq!(rt; event_of(0x10, 0).event_set(), Some(EventSet::HANG_UP));
    assert_eq!(rt; event_of(0, 0xffff_ffff_ffff_fffe).fd(), -2);
    let shown = format!(in rt.alloc(); "{:?}", EpollEvent::default())?;
    assert_eq!(rt; shown.as_str(), "{ events: 0, data: 0 }");
    Ok(())
}

#[test]
fn event_tells_what_it_reports(rt: HostRuntime) -> Result<(), Fail> {
    let events = [event_of(0x1d, 0x10)];
    let polled: PollEvents<u32> = PollEvents::new(&events);
    let owned = polled.to_owned(rt.alloc())?;
    let mut count = 0u32;
    for event in owned.as_ref().iter() {
        assert_eq!(rt; event.token(), 0x10);
        assert_eq!(rt; event.raw_events(), 0x1d);
        assert!(rt; event.readable() && event.writable());
        assert!(rt; event.hungup() && event.has_error());
        count = count.saturating_add(1);
    }
    assert_eq!(rt; count, 1);
    Ok(())
}

#[test]
fn all_events_are_gone_over(rt: HostRuntime) {
    // one that has no bit, one to be read, one hung up
    let events = [event_of(0, 1), event_of(1, 2), event_of(0x10, 3)];
    let polled: PollEvents<u32> = PollEvents::new(&events);
    assert_eq!(rt; polled.iter().count(), 3);
    assert_eq!(rt; polled.iter_readable().count(), 1);
    assert_eq!(rt; polled.iter_hungup().count(), 1);
}

#[test]
fn lists_have_numbers(rt: HostRuntime) -> Result<(), Fail> {
    let alloc = rt.alloc();
    let mut host = MemHost::new(alloc);
    assert_eq!(rt; Epoll::new(alloc, &mut host)?.list(), 0);
    assert_eq!(rt; EpollContext::<u8>::new(alloc, &mut host)?.list(), 1);
    assert_eq!(rt; PollContext::<u8>::new(alloc, &mut host)?.list(), 2);
    Ok(())
}

/// What `Debug` shows of a value of each type.
const SHOWN: &str = "\
Epoll { list: 0 }
EpollContext { list: 1, tokens: PhantomData<_> }
PollContext { context: EpollContext { list: 2, tokens: PhantomData<_> }, events: EpollEvents [{ events: 1, data: 7 }], \
checks: true, hangups: 0, members: 1 }
PollEvents { events: EpollEvents [{ events: 1, data: 7 }], tokens: PhantomData<_> }
PollEventIter { mask: None, events: [{ events: 1, data: 7 }], tokens: PhantomData<_> }
PollEventsOwned { events: [{ events: 1, data: 7 }], tokens: PhantomData<_> }
Some(PollEvent { event: { events: 1, data: 7 }, tokens: PhantomData<_> })
EpollEvents []
{ events: 1, data: 7 }
WatchingEvents(5)
Delete
";

#[test]
fn types_are_shown(rt: HostRuntime) -> Result<(), Fail> {
    let alloc = rt.alloc();
    let mut host = counters(alloc, 1)?;
    let log = Memory::new(alloc);
    let epoll = Epoll::new(alloc, &mut host)?;
    let context: EpollContext<u8> = EpollContext::new(alloc, &mut host)?;
    let mut poll: PollContext<u8> = PollContext::new(alloc, &mut host)?;
    poll.add(alloc, &mut host, 0, 7)?;
    let polled = poll.wait(alloc, &mut host, &log)?;
    let mut shown = String::new(alloc);
    show(alloc, &mut shown, &epoll)?;
    show(alloc, &mut shown, &context)?;
    show(alloc, &mut shown, &poll)?;
    show(alloc, &mut shown, &polled)?;
    show(alloc, &mut shown, &polled.iter())?;
    show(alloc, &mut shown, &polled.to_owned(alloc)?)?;
    show(alloc, &mut shown, &polled.iter().next())?;
    show(alloc, &mut shown, &EpollEvents::new())?;
    show(alloc, &mut shown, &EpollEvent::from_raw(1, 7))?;
    show(alloc, &mut shown, &WatchingEvents::new(5))?;
    show(alloc, &mut shown, &ControlOperation::Delete)?;
    assert_eq!(rt; shown.as_str(), SHOWN);
    Ok(())
}

#[test]
fn refusals_have_the_numbers_of_linux(rt: HostRuntime) {
    for (refusal, number) in [
        (HostError::WouldBlock, Some(11)),
        (HostError::EINVAL, Some(22)),
        (HostError::EEXIST, Some(17)),
        (HostError::ENOENT, Some(2)),
        (HostError::EBADF, Some(9)),
        (HostError::ENOBUFS, Some(105)),
        (HostError::Failed, None),
        (HostError::Held, None),
        (HostError::OutOfMemory, Some(12)),
    ] {
        assert_eq!(rt; errno_of(refusal), number.map(errno::Error::new));
    }
    for (operation, number) in [
        (ControlOperation::Add, 1),
        (ControlOperation::Delete, 2),
        (ControlOperation::Modify, 3),
    ] {
        assert_eq!(rt; operation as i32, number);
    }
}

/// A token of eight bytes that differ.
fn raw_token() -> u64 {
    0x1122_3344_5566_7788
}

#[test]
fn tokens_are_cut_to_their_bits(rt: HostRuntime) {
    let raw = raw_token();
    assert_eq!(rt; u64::from_raw_token(raw), raw);
    assert_eq!(rt; usize::from_raw_token(raw).as_raw_token(), raw);
    assert_eq!(rt; u32::from_raw_token(raw).as_raw_token(), 0x5566_7788);
    assert_eq!(rt; u16::from_raw_token(raw).as_raw_token(), 0x7788);
    assert_eq!(rt; u8::from_raw_token(raw).as_raw_token(), 0x88);
    assert_eq!(rt; <()>::from_raw_token(raw).as_raw_token(), 0);
}

/// A host with so many counters, each at 1.
fn counters(alloc: Global, count: u32) -> Result<MemHost, HostError> {
    let mut host = MemHost::new(alloc);
    for _counter in 0..count {
        let counter = EventFd::new(alloc, &mut host, 0)?;
        counter.write(&mut host, 1)?;
    }
    Ok(host)
}

/// The bits and the token of each of these events.
fn told(alloc: Global, polled: PollEvents<u8>) -> Result<Vec<(u32, u8)>, Fail> {
    let mut told = Vec::new(alloc);
    for event in polled.iter() {
        told.push((event.raw_events(), event.token()))?;
    }
    Ok(told)
}

#[test]
fn context_names_its_objects(rt: HostRuntime) -> Result<(), Fail> {
    let alloc = rt.alloc();
    let mut host = counters(alloc, 2)?;
    let context: EpollContext<u8> = EpollContext::new(alloc, &mut host)?;
    context.add(alloc, &mut host, 0, 7)?;
    let write = WatchingEvents::empty().set_write();
    context.add_fd_with_events(alloc, &mut host, 1, write, 8)?;
    let mut events = EpollEvents::default();
    let polled = context.wait(alloc, &mut host, &mut events)?;
    assert_eq!(rt;
        told(alloc, polled)?.as_slice(),
        [(1, 7), (4, 8)].as_slice()
    );
    context.modify(&mut host, 1, write.set_read(), 9)?;
    context.delete(&mut host, 0)?;
    let polled = context.wait_timeout(alloc, &mut host, &mut events, Duration::ZERO)?;
    assert_eq!(rt; told(alloc, polled)?.as_slice(), [(5, 9)].as_slice());
    Ok(())
}

#[test]
fn poll_context_changes_its_members(rt: HostRuntime) -> Result<(), Fail> {
    let alloc = rt.alloc();
    let log = Memory::new(alloc);
    let mut host = counters(alloc, 2)?;
    let mut context: PollContext<u8> = PollContext::new(alloc, &mut host)?;
    context.add(alloc, &mut host, 0, 7)?;
    let write = WatchingEvents::new(4);
    context.add_fd_with_events(alloc, &mut host, 1, write, 8)?;
    let polled = context.wait(alloc, &mut host, &log)?;
    assert_eq!(rt;
        told(alloc, polled)?.as_slice(),
        [(1, 7), (4, 8)].as_slice()
    );
    context.modify(&mut host, 1, write.set_read(), 9)?;
    context.delete(&mut host, 0)?;
    assert_eq!(rt; context.delete(&mut host, 0), Err(HostError::ENOENT));
    let polled = context.wait_timeout(alloc, &mut host, &log, Duration::ZERO)?;
    assert_eq!(rt; told(alloc, polled)?.as_slice(), [(5, 9)].as_slice());
    Ok(())
}

#[test]
fn wait_answers_at_most_sixteen_events(rt: HostRuntime) -> Result<(), Fail> {
    let alloc = rt.alloc();
    let mut host = counters(alloc, 33)?;
    let context: EpollContext<u32> = EpollContext::new(alloc, &mut host)?;
    for object in 0..33 {
        context.add(alloc, &mut host, object, object)?;
    }
    let mut events = EpollEvents::new();
    for count in [16, 16, 1, 0] {
        let polled = context.wait(alloc, &mut host, &mut events)?;
        assert!(rt; polled.iter_hungup().next().is_none());
        let mut read = Vec::new(alloc);
        for event in polled.iter_readable() {
            EventFd::from_object(event.token()).read(&mut host)?;
            read.push(event.token())?;
        }
        assert_eq!(rt; read.len(), count);
    }
    Ok(())
}

#[test]
fn refused_wait_changes_nothing(rt: HostRuntime) -> Result<(), Fail> {
    let alloc = rt.alloc();
    let log = Memory::new(alloc);
    // the calls: a counter and its write, a list and its member, and three waits
    let mut host = MemHost::failing(alloc, Vec::from_slice(alloc, &[5])?)?;
    EventFd::new(alloc, &mut host, 0)?.write(&mut host, 1)?;
    let context: EpollContext<u8> = EpollContext::new(alloc, &mut host)?;
    context.add(alloc, &mut host, 0, 7)?;
    let mut events = EpollEvents::new();
    let polled = context.wait(alloc, &mut host, &mut events)?;
    assert_eq!(rt; told(alloc, polled)?.as_slice(), [(1, 7)].as_slice());
    let refused = context.wait_timeout(alloc, &mut host, &mut events, Duration::ZERO);
    assert_eq!(rt; refused.map(|_polled| ()), Err(HostError::Failed));
    assert_eq!(rt; events.as_slice().len(), 1);
    assert_eq!(rt; events.as_slice()[0].raw_data(), 7);
    let mut host = MemHost::failing(alloc, Vec::from_slice(alloc, &[4])?)?;
    EventFd::new(alloc, &mut host, 0)?.write(&mut host, 1)?;
    let mut poll: PollContext<u8> = PollContext::new(alloc, &mut host)?;
    poll.add(alloc, &mut host, 0, 7)?;
    host.hang_up(0);
    let refused = poll.wait(alloc, &mut host, &log);
    assert_eq!(rt; refused.map(|_polled| ()), Err(HostError::Failed));
    // the refused wait counts no hang-up, so that of the next one is the first, and does not pass the one member
    poll.wait(alloc, &mut host, &log)?;
    assert_eq!(rt; log.into_lines().len(), 0);
    Ok(())
}

#[test]
fn busy_loop_is_warned_of_once(rt: HostRuntime) -> Result<(), Fail> {
    // one member: hang-ups are counted from the third wait on, and pass 1 at the fourth
    for (waits, warnings) in [(3, 0), (4, 1), (7, 1)] {
        let mut host = counters(rt.alloc(), 1)?;
        let log = Memory::new(rt.alloc());
        let mut context: PollContext<u8> = PollContext::new(rt.alloc(), &mut host)?;
        context.add(rt.alloc(), &mut host, 0, 7)?;
        host.hang_up(0);
        for wait in 0..waits {
            context.set_check_for_hangup(wait > 1);
            let _polled = context.wait(rt.alloc(), &mut host, &log)?;
        }
        let lines = log.into_lines();
        assert_eq!(rt; lines.len(), warnings);
        for line in lines.as_slice() {
            let text = "busy poll wait loop with hungup FDs detected";
            assert!(rt; line.as_str().contains(text));
        }
    }
    Ok(())
}
