//! Links that can't be opened, and spawners that refuse a job.
ghost use Rattle.std.specs.Prelude.{◌≡◌, false};

use crate::connecting::{daemon_of, quiet_link};
use crate::two_queues::EchoDaemon;
use std::alloc::Global;
use std::sync::Wait;
use std::test::Fail;
use std::thread::Threads;
use vub_attend::{Link, MemLink};
use vub_daemon::{DaemonEnd, Duty, Error, VhostUserDaemon};
use vub_handler::VhostUserHandlerError;
use vub_jobs::start_daemon_job;
use vub_live::{LiveJob, live_device};
use vub_locks::NoGate;
use vub_locks_rows::shown::expect;
use vub_proto::{Echo, VhostUserError};
use vub_threads::{CallSpawner, Spawner, Task};

/// A link that can't be opened.
fn unopened(alloc: Global) -> MemLink {
    quiet_link(alloc, VhostUserError::SocketBroken).unopened()
}

/// Whether a link was handed back with the one fault that it had, at its opening.
fn is_back(link: &MemLink) -> bool {
    link.faults() == 1 && link.answers().is_empty()
}

/// Whether `start` refuses a link that can't be opened, and hands it back.
fn refuses_a_link<
    R: Wait + Copy,
    T: Task<DaemonEnd> + Drop,
    S: Spawner<LiveJob<R>, Task = T> + Drop,
>(alloc: Global, daemon: &mut EchoDaemon<R, T, S>) -> bool
    requires can { S.can_spawn daemon.old.spawner }
    requires alone { daemon.old.connected ≡ false }
    ensures can { S.can_spawn daemon.new.spawner }
    ensures alone { daemon.new.connected ≡ false }
{
    let started = daemon.start(unopened(alloc));
    let _waited = daemon.wait();
    match started {
        Err((Error::CreateBackendListener, link)) => is_back(&link),
        _ => false,
    }
}

/// Whether `start_client` does.
fn refuses_a_client<
    R: Wait + Copy,
    T: Task<DaemonEnd> + Drop,
    S: Spawner<LiveJob<R>, Task = T> + Drop,
>(alloc: Global, daemon: &mut EchoDaemon<R, T, S>) -> bool
    requires can { S.can_spawn daemon.old.spawner }
    requires alone { daemon.old.connected ≡ false }
    ensures can { S.can_spawn daemon.new.spawner }
    ensures alone { daemon.new.connected ≡ false }
{
    let started = daemon.start_client(unopened(alloc));
    let _waited = daemon.wait();
    match started {
        Err((Error::CreateBackendReqHandler, link)) => is_back(&link),
        _ => false,
    }
}

/// Whether `serve` does.
fn refuses_to_serve<
    R: Wait + Copy,
    T: Task<DaemonEnd> + Drop,
    S: Spawner<LiveJob<R>, Task = T> + Drop,
>(alloc: Global, daemon: &mut EchoDaemon<R, T, S>) -> bool
    requires can { S.can_spawn daemon.old.spawner }
    requires alone { daemon.old.connected ≡ false }
    ensures can { S.can_spawn daemon.new.spawner }
    ensures alone { daemon.new.connected ≡ false }
{
    match daemon.serve(unopened(alloc)) {
        Err((Error::CreateVhostUserListener, link)) => match link {
            Some(link) => is_back(&link),
            None => false,
        },
        _ => false,
    }
}

/// Whether `start` is refused by the spawner, and hands the link back as it was.
fn refuses_a_thread<
    R: Wait + Copy,
    T: Task<DaemonEnd> + Drop,
    S: Spawner<LiveJob<R>, Task = T> + Drop,
>(alloc: Global, daemon: &mut EchoDaemon<R, T, S>) -> bool
    requires can { S.can_spawn daemon.old.spawner }
    requires alone { daemon.old.connected ≡ false }
    ensures can { S.can_spawn daemon.new.spawner }
    ensures alone { daemon.new.connected ≡ false }
{
    let started = daemon.start(quiet_link(alloc, VhostUserError::SocketBroken));
    let _waited = daemon.wait();
    match started {
        Err((Error::StartDaemon, link)) => link.faults() == 0,
        _ => false,
    }
}

/// Has links refused, then the control thread, and closes the daemon. Gives the number of jobs that were refused.
fn is_refused_all<
    R: Wait + Copy,
    T: Task<DaemonEnd> + Drop,
    S: Spawner<LiveJob<R>, Task = T> + Drop,
>(rt: R, alloc: Global, spawner: S) -> Result<u64, Fail>
    requires { S.can_spawn spawner }
{
    let mut daemon = daemon_of(rt, alloc, 1, spawner)?;
    let link = refuses_a_link(alloc, &mut daemon);
    let client = refuses_a_client(alloc, &mut daemon);
    let served = refuses_to_serve(alloc, &mut daemon);
    let thread = refuses_a_thread(alloc, &mut daemon);
    let (closed, spawner) = daemon.close_and_give_back();
    expect(closed.is_ok(), "not closed")?;
    expect(link && client && served, "a link that can't be opened")?;
    expect(thread, "a control thread")?;
    Ok(spawner.faults())
}

/// Whether a job is that of a control thread.
fn is_control<R: Wait + Copy>(job: &LiveJob<R>) -> bool {
    matches!(job.duty, Duty::Control(_))
}

/// Has it refuse the control thread alone, and start the worker in a thread of std.
fn is_refused_control<R: Threads + Wait + Copy + Send + 'static>(
    rt: R,
    alloc: Global,
) -> Result<u64, Fail> {
    let spawner = CallSpawner::new(|job: LiveJob<R>| {
        if is_control(&job) {
            Err(job)
        } else {
            start_daemon_job(rt, alloc, job)
        }
    });
    is_refused_all(rt, alloc, spawner)
}

#[test]
fn links_and_spawners_that_fail(rt: HostRuntime) -> Result<(), Fail> {
    let alloc: Global = rt.alloc();
    assert_eq!(rt; is_refused_control(rt, alloc)?, 1);
    Ok(())
}

/// Whether a daemon of two workers is not made, since a worker is not started, and the spawner is handed back.
fn is_not_made<R: Wait + Copy, T: Task<DaemonEnd> + Drop, S: Spawner<LiveJob<R>, Task = T> + Drop>(
    rt: R,
    alloc: Global,
    spawner: S,
) -> Result<bool, Fail>
    requires { S.can_spawn spawner }
{
    let device = live_device(alloc, 2)?;
    let name = String::new(alloc);
    match VhostUserDaemon::new(rt, alloc, name, device, Echo, spawner, NoGate) {
        Err((Error::NewVhostUserHandler(VhostUserHandlerError::SpawnVringWorker), spawner)) => Ok(
            spawner.faults() == 1,
        ),
        _ => Ok(false),
    }
}

/// Whether a job is that of the worker with this number.
fn is_worker<R: Wait + Copy>(job: &LiveJob<R>, worker: u32) -> bool {
    match &job.duty {
        Duty::Work(opened) => opened.worker == worker,
        Duty::Control(_) => false,
    }
}

/// Has the worker with this number refused, and any other started in a thread of std.
fn is_not_made_without<R: Threads + Wait + Copy + Send + 'static>(
    rt: R,
    alloc: Global,
    refused: u32,
) -> Result<bool, Fail> {
    let spawner = CallSpawner::new(|job: LiveJob<R>| {
        if is_worker(&job, refused) {
            Err(job)
        } else {
            start_daemon_job(rt, alloc, job)
        }
    });
    is_not_made(rt, alloc, spawner)
}

#[test]
fn a_daemon_without_a_worker_is_not_made(rt: HostRuntime) -> Result<(), Fail> {
    let alloc: Global = rt.alloc();
    for refused in 0..2 {
        assert!(rt; is_not_made_without(rt, alloc, refused)?);
    }
    Ok(())
}
