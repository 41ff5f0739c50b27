//! The objects of a daemon.
use crate::connecting::{closes, daemon_of};
use crate::two_queues::EchoDaemon;
use std::alloc::{AllocError, Global};
use std::sync::Wait;
use std::test::Fail;
use std::thread::Threads;
use vub_base::{Bytes, OutOfMemory};
use vub_daemon::DaemonEnd;
use vub_event::EventSet;
use vub_jobs::start_daemon_job;
use vub_live::LiveJob;
use vub_locks_rows::shown::{expect, show};
use vub_loop::EpollHandle;
use vub_mem::DirtyLog;
use vub_threads::{CallSpawner, Spawner, Task};

/// Events: numbers after the exit object and the bell of the worker, a refused flag, signals.
fn show_events<R: Wait + Copy, T: Task<DaemonEnd> + Drop, S: Drop>(
    alloc: Global,
    lines: &mut String,
    daemon: &EchoDaemon<R, T, S>,
) -> Result<(), AllocError> {
    show(alloc, lines, &daemon.add_event(0))?;
    show(alloc, lines, &daemon.add_event(2))?;
    show(alloc, lines, &daemon.signal(2, 7))?;
    show(alloc, lines, &daemon.signal(2, u64::MAX))?;
    show(alloc, lines, &daemon.signal(9, 1))
}

/// Listeners: one that joins, and joins again; one that leaves, and leaves again; a token that is no listener's.
fn show_listeners<R: Wait + Copy, T: Task<DaemonEnd> + Drop, S: Drop>(
    alloc: Global,
    lines: &mut String,
    daemon: &EchoDaemon<R, T, S>,
    handle: &EpollHandle,
) -> Result<(), AllocError> {
    show(
        alloc,
        lines,
        &daemon.register_listener(handle, 2, EventSet::IN, 5),
    )?;
    show(
        alloc,
        lines,
        &daemon.register_listener(handle, 2, EventSet::IN, 5),
    )?;
    show(
        alloc,
        lines,
        &daemon.unregister_listener(handle, 2, EventSet::IN, 5),
    )?;
    show(
        alloc,
        lines,
        &daemon.unregister_listener(handle, 2, EventSet::IN, 5),
    )?;
    show(
        alloc,
        lines,
        &daemon.register_listener(handle, 2, EventSet::IN, 1),
    )
}

/// What is expected of them.
const SHOWN: &str = "\
Ok(2)
Err(EINVAL)
Ok(())
Err(EINVAL)
Err(EBADF)
Ok(())
Err(Listener(AlreadyExists))
Ok(())
Err(Listener(NotFound))
Err(Listener(EINVAL))
";

/// Whether a content is stored to and read where its bytes lie, and there alone.
fn has_a_content<R: Wait + Copy, T: Task<DaemonEnd> + Drop, S: Drop>(
    alloc: Global,
    daemon: &EchoDaemon<R, T, S>,
) -> Result<bool, OutOfMemory> {
    let first = daemon.add_content(Bytes::from_slice(alloc, b"four")?)?;
    let second = daemon.add_content(Bytes::new(alloc))?;
    let numbered = first == 0 && second == 1;
    let stored = daemon.store(0, 2, b"nd")
        && !daemon.store(0, 3, b"nd")
        && !daemon.store(2, 0, b"");
    let missing = daemon.read_content(0, 3, 2)?.is_none()
        && daemon.read_content(2, 0, 0)?.is_none();
    match daemon.read_content(0, 0, 4)? {
        Some(bytes) => {
            let read = bytes.as_slice() == b"fond".as_slice();
            Ok(numbered && stored && missing && read)
        }
        None => Ok(false),
    }
}

/// Whether a log is added, and one of no byte is refused.
fn has_a_log<R: Wait + Copy, T: Task<DaemonEnd> + Drop, S: Drop>(
    daemon: &EchoDaemon<R, T, S>,
) -> bool {
    match daemon.add_log(64) {
        Ok((number, harvester)) => number == 0
            && harvester.len() == 64
            && daemon.add_log(0).is_err(),
        Err(_) => false,
    }
}

fn has_objects<R: Wait + Copy, T: Task<DaemonEnd> + Drop, S: Spawner<LiveJob<R>, Task = T> + Drop>(
    rt: R,
    alloc: Global,
    spawner: S,
) -> Result<(), Fail>
    requires { S.can_spawn spawner }
{
    let daemon = daemon_of(rt, alloc, 1, spawner)?;
    let mut lines = String::new(alloc);
    show_events(alloc, &mut lines, &daemon)?;
    for handle in daemon.get_epoll_handlers()? {
        show_listeners(alloc, &mut lines, &daemon, &handle)?;
    }
    let content = has_a_content(alloc, &daemon)?;
    let log = has_a_log(&daemon);
    closes(daemon)?;
    expect(lines.as_str() == SHOWN, "events and listeners")?;
    expect(content, "contents")?;
    expect(log, "logs")
}

/// The same of a daemon in threads of std.
fn has_objects_in_threads<R: Threads + Wait + Copy + Send + 'static>(
    rt: R,
    alloc: Global,
) -> Result<(), Fail> {
    let spawner = CallSpawner::new(|job: LiveJob<R>| start_daemon_job(rt, alloc, job));
    has_objects(rt, alloc, spawner)
}

#[test]
fn objects_are_added_to_a_daemon(rt: HostRuntime) -> Result<(), Fail> {
    let alloc: Global = rt.alloc();
    has_objects_in_threads(rt, alloc)
}
