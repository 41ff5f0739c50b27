//! A daemon of two queues, from its start to its report.
ghost use Rattle.std.specs.Prelude.{◌≡◌, false};

use std::alloc::Global;
use std::sync::Wait;
use std::test::Fail;
use std::thread::Threads;
use vub_attend::MemLink;
use vub_base::OutOfMemory;
use vub_daemon::{DaemonEnd, Error, Report, VhostUserDaemon};
use vub_jobs::start_daemon_job;
use vub_live::{LiveJob, await_used, furnish, live_device};
use vub_locks::NoGate;
use vub_proto::{Echo, FixedDevice, Request, VhostUserError};
use vub_threads::{CallSpawner, Spawner, Task};

/// A daemon over an echo service, whose front ends are links in memory.
pub type EchoDaemon<R, T, S> = VhostUserDaemon<R, FixedDevice, Echo, NoGate, MemLink, T, S>;

/// Plays the requests of a front end in a control thread, and waits until it has ended.
fn converse<R: Wait + Copy, T: Task<DaemonEnd> + Drop, S: Spawner<LiveJob<R>, Task = T> + Drop>(
    alloc: Global,
    daemon: &mut EchoDaemon<R, T, S>,
    requests: Vec<Request>,
) -> Result<(), Error>
    requires can { S.can_spawn daemon.old.spawner }
    requires alone { daemon.old.connected ≡ false }
    ensures can { S.can_spawn daemon.new.spawner }
    ensures over { daemon.new.connected ≡ false }
{
    let link = MemLink::new(alloc, requests, VhostUserError::SocketBroken);
    match daemon.start(link) {
        Ok(()) => daemon.wait(),
        Err((error, _link)) => Err(error),
    }
}

/// Waits until four entries are used on each of two queues.
fn await_entries<R: Wait + Copy, T: Task<DaemonEnd> + Drop, S: Drop>(
    rt: &R,
    daemon: &EchoDaemon<R, T, S>,
) -> Result<bool, OutOfMemory> {
    Ok(await_used(rt, daemon, 0, 4)? && await_used(rt, daemon, 1, 4)?)
}

/// Has a daemon serve four entries on each of two queues, stops the queues, and closes it.
fn serve_two_queues<
    R: Wait + Copy,
    T: Task<DaemonEnd> + Drop,
    S: Spawner<LiveJob<R>, Task = T> + Drop,
>(rt: R, alloc: Global, spawner: S) -> Result<Report, Fail>
    requires { S.can_spawn spawner }
{
    let device = live_device(alloc, 2)?;
    let name = String::new(alloc);
    let made = VhostUserDaemon::new(rt, alloc, name, device, Echo, spawner, NoGate);
    let Ok(mut daemon) = made else {
        return Err(Fail::new("no daemon"));
    };
    let starts = furnish(alloc, &daemon, 2, 4)?;
    converse(alloc, &mut daemon, starts)?;
    if !await_entries(&rt, &daemon)? {
        return Err(Fail::new("no content"));
    }
    let stops = vec![in alloc;
        Request::GetVringBase { queue: 0 },
        Request::GetVringBase { queue: 1 },
    ]?;
    converse(alloc, &mut daemon, stops)?;
    let report = daemon.close()?;
    Ok(report)
}

/// Has it do so in threads of std.
fn serve_in_threads<R: Threads + Wait + Copy + Send + 'static>(
    rt: R,
    alloc: Global,
) -> Result<Report, Fail> {
    let spawner = CallSpawner::new(|job: LiveJob<R>| start_daemon_job(rt, alloc, job));
    serve_two_queues(rt, alloc, spawner)
}

#[test]
fn two_queues_are_started_stopped_and_closed(rt: HostRuntime) -> Result<(), Fail> {
    let alloc: Global = rt.alloc();
    let report = serve_in_threads(rt, alloc)?;
    assert_eq!(rt; report.uses, 8);
    assert_eq!(rt; report.served, 8);
    assert_eq!(rt; report.stops.len(), 2);
    Ok(())
}
