use crate::shown::show;
use std::process::Abort;
use std::test::Fail;
use std::time::Duration;
use vub_base::{Bytes, Listed};
use vub_counter::{
    EFD_CLOEXEC, EFD_NONBLOCK, EFD_SEMAPHORE, EventConsumer, EventFd, EventFlag, EventNotifier,
    IntoIovec, MemSocket, Message, ScmSocket, TimerFd, new_event_consumer_and_notifier,
};
use vub_event::{Host, HostError, MemHost};

#[test]
fn counter_is_shared_by_its_clones(rt: HostRuntime) -> Result<(), Fail> {
    let mut host = MemHost::new(rt.alloc());
    let counter = EventFd::new(rt.alloc(), &mut host, 0)?;
    counter.write(&mut host, 55)?;
    assert_eq!(rt; counter.try_clone()?.read(&mut host)?, 55);
    let same = EventFd::from_object(counter.object());
    assert_eq!(rt; same.read(&mut host), Err(HostError::WouldBlock));
    same.write(&mut host, u64::MAX - 1)?;
    assert_eq!(rt; same.write(&mut host, 1), Err(HostError::WouldBlock));
    assert_eq!(rt;
        EventFd::new(rt.alloc(), &mut host, 2).map(|made| made.object()),
        Err(HostError::EINVAL)
    );
    Ok(())
}

/// The flags that an event may have, all together.
fn all_flags() -> i32 {
    EFD_SEMAPHORE | EFD_NONBLOCK | EFD_CLOEXEC
}

#[test]
fn semaphore_gives_one_at_a_time(rt: HostRuntime) -> Result<(), Fail> {
    let mut host = MemHost::new(rt.alloc());
    let semaphore = EventFd::new(rt.alloc(), &mut host, all_flags())?;
    semaphore.write(&mut host, 2)?;
    for answer in [Ok(1), Ok(1), Err(HostError::WouldBlock)] {
        assert_eq!(rt; semaphore.read(&mut host), answer);
    }
    Ok(())
}

/// What `Debug` shows of a value of each type.
const SHOWN: &str = "\
EventFd { object: 3 }
EventNotifier { object: 3 }
EventConsumer { object: 3 }
EventFlag(2)
TimerFd { armed: Some(Armed { next: 9, interval: 0 }) }
Message { bytes: Bytes { octets: [97] }, objects: Listed { elements: [3] } }
MemSocket { queue: [Message { bytes: Bytes { octets: [97] }, objects: Listed { elements: [3] } }] }
";

#[test]
fn types_are_shown(rt: HostRuntime) -> Result<(), Fail> {
    let alloc = rt.alloc();
    let mut timer = TimerFd::new();
    timer.reset(Duration::ZERO, Duration::from_nanos(9), None);
    let mut socket = MemSocket::new(alloc);
    socket.send_with_fd(alloc, &mut MemHost::new(alloc), b"a".as_slice(), 3)?;
    let message = Message {
        bytes: Bytes::from_slice(alloc, b"a")?,
        objects: Listed::from_vec(Vec::from_slice(alloc, &[3])?),
    };
    let mut shown = String::new(alloc);
    show(alloc, &mut shown, &EventFd::from_object(3))?;
    show(alloc, &mut shown, &EventNotifier::from_object(3))?;
    show(alloc, &mut shown, &EventConsumer::from_object(3))?;
    show(alloc, &mut shown, &EventFlag::CLOEXEC)?;
    show(alloc, &mut shown, &timer)?;
    show(alloc, &mut shown, &message)?;
    show(alloc, &mut shown, &socket)?;
    assert_eq!(rt; shown.as_str(), SHOWN);
    Ok(())
}

#[test]
fn consumer_takes_what_the_notifier_told(rt: HostRuntime) -> Result<(), Fail> {
    let mut host = MemHost::new(rt.alloc());
    for flags in [
        EventFlag::NONBLOCK,
        EventFlag::CLOEXEC,
        EventFlag::NONBLOCK | EventFlag::CLOEXEC,
    ] {
        let (consumer, notifier) = new_event_consumer_and_notifier(rt.alloc(), &mut host, flags)?;
        assert_eq!(rt; consumer.object(), notifier.object());
        notifier.try_clone()?.notify(&mut host)?;
        consumer.try_clone()?.consume(&mut host)?;
        assert_eq!(rt; consumer.consume(&mut host), Err(HostError::WouldBlock));
    }
    Ok(())
}

fn seconds(number: u64) -> Duration {
    Duration::from_secs(number)
}

#[test]
fn timer_counts_its_expiries(rt: HostRuntime) {
    let mut timer = TimerFd::new();
    let interval = Some(seconds(5));
    timer.reset(Duration::ZERO, seconds(10), interval);
    assert!(rt; timer.is_armed(seconds(9)));
    assert_eq!(rt; timer.wait(seconds(9)), Err(HostError::WouldBlock));
    assert_eq!(rt; timer.wait(seconds(21)), Ok(3));
    assert_eq!(rt; timer.wait(seconds(25)), Ok(1));
}

#[test]
fn timer_without_interval_expires_once(rt: HostRuntime) {
    let mut timer = TimerFd::new();
    timer.reset(Duration::ZERO, seconds(1), None);
    assert_eq!(rt; timer.wait(seconds(7)), Ok(1));
    assert!(rt; !timer.is_armed(seconds(7)));
    timer.reset(Duration::ZERO, seconds(1), None);
    timer.clear();
    assert!(rt; !timer.is_armed(Duration::ZERO));
}

#[test]
fn message_with_too_many_objects_is_gone(rt: HostRuntime) -> Result<(), Fail> {
    let mut host = MemHost::new(rt.alloc());
    for _object in 0..2 {
        host.create_event(rt.alloc(), 0)?;
    }
    let mut socket = MemSocket::new(rt.alloc());
    let bufs = [Vec::from_slice(rt.alloc(), b"abc")?];
    let sent = socket.send_with_fds(rt.alloc(), &mut host, &bufs, &[0, 1])?;
    assert_eq!(rt; sent, 3);
    let mut buf = [0; 2];
    let mut objects = [9];
    assert_eq!(rt;
        socket.recv_with_fds(&mut host, &mut buf, &mut objects),
        Err(HostError::ENOBUFS)
    );
    assert_eq!(rt; host.signal(0, 1), Err(HostError::EBADF));
    assert_eq!(rt; host.signal(1, 1), Err(HostError::EBADF));
    assert_eq!(rt;
        socket.recv_with_fd(&mut host, &mut buf),
        Err(HostError::WouldBlock)
    );
    socket.send_with_fds(rt.alloc(), &mut host, &bufs, &[0, 1])?;
    assert_eq!(rt;
        socket.recv_with_fd(&mut host, &mut buf),
        Err(HostError::ENOBUFS)
    );
    assert_eq!(rt;
        socket.recv_with_fds(&mut host, &mut buf, &mut objects),
        Err(HostError::WouldBlock)
    );
    Ok(())
}

#[test]
fn message_carries_its_objects(rt: HostRuntime) -> Result<(), Fail> {
    let mut host = MemHost::new(rt.alloc());
    let mut socket = MemSocket::new(rt.alloc());
    let bufs = [
        Vec::from_slice(rt.alloc(), b"ab")?,
        Vec::from_slice(rt.alloc(), b"c")?,
    ];
    assert_eq!(rt; bufs[0].size(), 2);
    assert_eq!(rt; bufs[1].bytes(), b"c".as_slice());
    let sent = socket.send_with_fds(rt.alloc(), &mut host, &bufs, &[4, 9])?;
    assert_eq!(rt; sent, 3);
    let mut buf = [0; 4];
    let mut objects = [0; 3];
    let answer = socket.recv_with_fds(&mut host, &mut buf, &mut objects);
    assert_eq!(rt; answer, Ok((3, 2)));
    assert_eq!(rt; buf.as_slice(), b"abc\0".as_slice());
    assert_eq!(rt; objects.as_slice(), [4, 9, 0].as_slice());
    Ok(())
}

#[test]
fn message_is_cut_to_the_buffer(rt: HostRuntime) -> Result<(), Fail> {
    let mut host = MemHost::new(rt.alloc());
    let mut socket = MemSocket::new(rt.alloc());
    let sent = socket.send_with_fd(rt.alloc(), &mut host, b"xyz".as_slice(), 5)?;
    assert_eq!(rt; sent, 3);
    let mut buf = [0; 2];
    assert_eq!(rt; socket.recv_with_fd(&mut host, &mut buf)?, (2, Some(5)));
    assert_eq!(rt; buf.as_slice(), b"xy".as_slice());
    // an object without bytes, and bytes without an object
    let sent = socket.send_with_fd(rt.alloc(), &mut host, b"".as_slice(), 6)?;
    assert_eq!(rt; sent, 0);
    socket.send_with_fds(
        rt.alloc(),
        &mut host,
        &[Vec::from_slice(rt.alloc(), b"z")?],
        &[],
    )?;
    assert_eq!(rt; socket.recv_with_fd(&mut host, &mut buf)?, (0, Some(6)));
    assert_eq!(rt; socket.recv_with_fd(&mut host, &mut buf)?, (1, None));
    assert_eq!(rt; buf.as_slice(), b"zy".as_slice());
    Ok(())
}
