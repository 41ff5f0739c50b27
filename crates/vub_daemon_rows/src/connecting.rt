//! What a daemon answers when its front end goes, and what it leaves.
ghost use Rattle.std.specs.Prelude.{◌≡◌, false, IfOk};
ghost use Rattle.vub_attend.specs.Links.{IsEnding};

use crate::two_queues::EchoDaemon;
use std::alloc::Global;
use std::sync::Wait;
use std::test::Fail;
use std::thread::Threads;
use vub_attend::MemLink;
use vub_base::OutOfMemory;
use vub_daemon::{DaemonEnd, Error, VhostUserDaemon};
use vub_event::HostError;
use vub_jobs::start_daemon_job;
use vub_live::{LiveJob, live_device};
use vub_locks::NoGate;
use vub_locks_rows::shown::expect;
use vub_proto::{Echo, VhostUserError};
use vub_threads::{CallSpawner, Spawner, Task};

/// A daemon of so many queues, each with a worker.
pub fn daemon_of<
    R: Wait + Copy,
    T: Task<DaemonEnd> + Drop,
    S: Spawner<LiveJob<R>, Task = T> + Drop,
>(rt: R, alloc: Global, queues: u32, spawner: S) -> Result<EchoDaemon<R, T, S>, Fail>
    requires { S.can_spawn spawner }
    ensures can { IfOk result (λ d. S.can_spawn d.spawner) }
    ensures alone { IfOk result (λ d. d.connected ≡ false) }
{
    let device = live_device(alloc, queues)?;
    let name = String::new(alloc);
    match VhostUserDaemon::new(rt, alloc, name, device, Echo, spawner, NoGate) {
        Ok(daemon) => Ok(daemon),
        Err((error, _spawner)) => Err(Fail::from(error)),
    }
}

/// A link that asks for nothing, and ends with this error.
pub fn quiet_link(alloc: Global, ending: VhostUserError) -> MemLink
    requires { IsEnding ending }
{
    MemLink::new(alloc, Vec::new(alloc), ending)
}

/// Starts a control thread over a link that ends with this error.
fn connect<R: Wait + Copy, T: Task<DaemonEnd> + Drop, S: Spawner<LiveJob<R>, Task = T> + Drop>(
    alloc: Global,
    daemon: &mut EchoDaemon<R, T, S>,
    ending: VhostUserError,
) -> Result<(), Error>
    requires can { S.can_spawn daemon.old.spawner }
    requires alone { daemon.old.connected ≡ false }
    requires ending { IsEnding ending }
    ensures can { S.can_spawn daemon.new.spawner }
{
    match daemon.start(quiet_link(alloc, ending)) {
        Ok(()) => Ok(()),
        Err((error, _link)) => Err(error),
    }
}

/// Asks twice for the end of the connection.
fn shut_down_twice<R: Wait + Copy, T: Task<DaemonEnd> + Drop, S: Drop>(
    daemon: &EchoDaemon<R, T, S>,
) -> Result<bool, OutOfMemory> {
    match daemon.shutdown_handle()? {
        Some(handle) => {
            handle.shutdown();
            handle.shutdown();
            Ok(true)
        }
        None => Ok(false),
    }
}

/// Whether the connection has ended within a message.
fn is_partial(waited: &Result<(), Error>) -> bool {
    matches!(
        waited,
        Err(Error::HandleRequest(VhostUserError::PartialMessage))
    )
}

/// Waits for a control thread whose link has ended within a message, and once more.
fn waits<R: Wait + Copy, T: Task<DaemonEnd> + Drop, S: Drop>(
    daemon: &mut EchoDaemon<R, T, S>,
) -> Result<(), Fail>
    ensures over { daemon.new.connected ≡ false }
    ensures spawner { daemon.new.spawner ≡ daemon.old.spawner }
{
    let waited = daemon.wait();
    let again = daemon.wait();
    expect(is_partial(&waited), "no partial message")?;
    expect(again.is_ok(), "no second wait")?;
    expect(daemon.shutdown_handle()?.is_none(), "a handle after wait")
}

/// Waits for a control thread of which a shutdown was requested.
fn waits_for_its_shutdown<R: Wait + Copy, T: Task<DaemonEnd> + Drop, S: Drop>(
    daemon: &mut EchoDaemon<R, T, S>,
) -> Result<(), Fail>
    ensures over { daemon.new.connected ≡ false }
    ensures spawner { daemon.new.spawner ≡ daemon.old.spawner }
{
    let asked = shut_down_twice(&*daemon);
    let waited = daemon.wait();
    expect(asked?, "no handle")?;
    expect(waited.is_ok(), "an error after a shutdown")
}

/// Waits for a control thread of which the daemon itself requested a shutdown.
fn waits_for_its_own_shutdown<R: Wait + Copy, T: Task<DaemonEnd> + Drop, S: Drop>(
    daemon: &mut EchoDaemon<R, T, S>,
) -> Result<(), Fail>
    ensures over { daemon.new.connected ≡ false }
    ensures spawner { daemon.new.spawner ≡ daemon.old.spawner }
{
    daemon.request_shutdown();
    let waited = daemon.wait();
    expect(waited.is_ok(), "an error after a shutdown")
}

/// Closes a daemon that served nothing.
pub fn closes<R: Wait + Copy, T: Task<DaemonEnd> + Drop, S: Drop>(
    daemon: EchoDaemon<R, T, S>,
) -> Result<(), Fail>
    requires { daemon.connected ≡ false }
{
    let report = daemon.close()?;
    expect(report.uses == 0 && report.served == 0, "uses of nothing")
}

/// Three connections, one after the other: the flag of a shutdown is its connection's own.
fn connects_thrice<
    R: Wait + Copy,
    T: Task<DaemonEnd> + Drop,
    S: Spawner<LiveJob<R>, Task = T> + Drop,
>(rt: R, alloc: Global, spawner: S) -> Result<(), Fail>
    requires { S.can_spawn spawner }
{
    let mut daemon = daemon_of(rt, alloc, 1, spawner)?;
    connect(alloc, &mut daemon, VhostUserError::PartialMessage)?;
    waits_for_its_shutdown(&mut daemon)?;
    connect(alloc, &mut daemon, VhostUserError::PartialMessage)?;
    waits(&mut daemon)?;
    connect(alloc, &mut daemon, VhostUserError::InvalidMessage)?;
    waits_for_its_own_shutdown(&mut daemon)?;
    closes(daemon)
}

/// Three connections of a daemon in threads of std.
fn connects_in_threads<R: Threads + Wait + Copy + Send + 'static>(
    rt: R,
    alloc: Global,
) -> Result<(), Fail> {
    let spawner = CallSpawner::new(|job: LiveJob<R>| start_daemon_job(rt, alloc, job));
    connects_thrice(rt, alloc, spawner)
}

#[test]
fn a_connection_ends_as_its_link_or_by_a_shutdown(rt: HostRuntime) -> Result<(), Fail> {
    let alloc: Global = rt.alloc();
    connects_in_threads(rt, alloc)
}

/// Whether an exit object was signalled: its count is above 0.
fn is_signalled<R: Wait + Copy, T: Task<DaemonEnd> + Drop, S: Drop>(
    daemon: &EchoDaemon<R, T, S>,
    exit: u32,
) -> bool {
    daemon.signal(exit, u64::MAX - 1) == Err(HostError::WouldBlock)
}

fn serves_a_front_end_that_goes<
    R: Wait + Copy,
    T: Task<DaemonEnd> + Drop,
    S: Spawner<LiveJob<R>, Task = T> + Drop,
>(rt: R, alloc: Global, spawner: S) -> Result<(), Fail>
    requires { S.can_spawn spawner }
{
    let mut daemon = daemon_of(rt, alloc, 2, spawner)?;
    let served = daemon.serve(quiet_link(alloc, VhostUserError::PartialMessage));
    expect(served.is_ok(), "not served")?;
    let signalled = is_signalled(&daemon, 0) && is_signalled(&daemon, 1);
    closes(daemon)?;
    expect(signalled, "no exit was sent")
}

/// Serves a front end that goes, in threads of std.
fn serves_in_threads<R: Threads + Wait + Copy + Send + 'static>(
    rt: R,
    alloc: Global,
) -> Result<(), Fail> {
    let spawner = CallSpawner::new(|job: LiveJob<R>| start_daemon_job(rt, alloc, job));
    serves_a_front_end_that_goes(rt, alloc, spawner)
}

#[test]
fn a_front_end_that_goes_is_served(rt: HostRuntime) -> Result<(), Fail> {
    let alloc: Global = rt.alloc();
    serves_in_threads(rt, alloc)
}
