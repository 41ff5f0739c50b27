//! Two workers that are in the service at once.
use std::alloc::Global;
use std::sync::atomic::{AtomicBool, Ordering};
use std::sync::{Arc, Wait};
use std::test::Fail;
use std::thread::Threads;
use vub_attend::MemLink;
use vub_base::OutOfMemory;
use vub_daemon::{DaemonEnd, DaemonJob, VhostUserDaemon};
use vub_jobs::start_daemon_job;
use vub_live::{await_used, furnish, live_device};
use vub_locks::Gate;
use vub_locks_rows::shown::expect;
use vub_proto::{Echo, FixedDevice, VhostUserError};
use vub_threads::{CallSpawner, Spawner, Task};

/// How often a queue looks for the other.
const LOOKS: u32 = 1_000_000_000;

/// A flag that threads share.
type Flag = Arc<AtomicBool, Global>;

/// A gate at which each of two queues sets its flag, and then waits for the other's for long. It keeps whether each has
/// seen the other's.
#[derive(Drop)]
struct Meeting {
    first: Flag,
    second: Flag,
    first_saw: Flag,
    second_saw: Flag,
}

/// Sets the own flag, and looks for the other.
fn meet(own: &AtomicBool, other: &AtomicBool, saw: &AtomicBool) {
    own.store(true, Ordering::SeqCst);
    for _ in 0..LOOKS {
        if other.load(Ordering::SeqCst) {
            saw.store(true, Ordering::SeqCst);
            return;
        }
    }
}

impl Gate for Meeting {
    fn pass(&self, queue: u32, _number: u64) {
        if queue == 0 {
            meet(&*self.first, &*self.second, &*self.first_saw);
        } else {
            meet(&*self.second, &*self.first, &*self.second_saw);
        }
    }
}

/// What the threads of a daemon with this gate do.
type MeetingJob<R> = DaemonJob<R, FixedDevice, Echo, Meeting, MemLink>;

/// A daemon with this gate.
type MeetingDaemon<R, T, S> = VhostUserDaemon<R, FixedDevice, Echo, Meeting, MemLink, T, S>;

fn flag(alloc: Global) -> Result<Flag, OutOfMemory> {
    let flag = Arc::new(alloc, AtomicBool::new(false))?;
    Ok(flag)
}

fn gate_of(alloc: Global, first_saw: &Flag, second_saw: &Flag) -> Result<Meeting, OutOfMemory> {
    Ok(Meeting {
        first: flag(alloc)?,
        second: flag(alloc)?,
        first_saw: Arc::try_clone(first_saw)?,
        second_saw: Arc::try_clone(second_saw)?,
    })
}

/// Waits until an entry is used on each of two queues.
fn await_both<R: Wait + Copy, T: Task<DaemonEnd> + Drop, S: Drop>(
    rt: &R,
    daemon: &MeetingDaemon<R, T, S>,
) -> Result<bool, OutOfMemory> {
    Ok(await_used(rt, daemon, 0, 1)? && await_used(rt, daemon, 1, 1)?)
}

/// Has a daemon serve an entry on each of two queues, and gives the number of uses.
fn uses_of<R: Wait + Copy, T: Task<DaemonEnd> + Drop, S: Spawner<MeetingJob<R>, Task = T> + Drop>(
    rt: R,
    alloc: Global,
    gate: Meeting,
    spawner: S,
) -> Result<u64, Fail>
    requires { S.can_spawn spawner }
{
    let device = live_device(alloc, 2)?;
    let name = String::new(alloc);
    let made = VhostUserDaemon::new(rt, alloc, name, device, Echo, spawner, gate);
    let Ok(mut daemon) = made else {
        return Err(Fail::new("no daemon"));
    };
    let starts = furnish(alloc, &daemon, 2, 1)?;
    let link = MemLink::new(alloc, starts, VhostUserError::SocketBroken);
    let started = daemon.start(link).is_ok();
    daemon.wait()?;
    expect(started && await_both(&rt, &daemon)?, "not started")?;
    let report = daemon.close()?;
    Ok(report.uses)
}

/// Has it do so in threads of std.
fn uses_in_threads<R: Threads + Wait + Copy + Send + 'static>(
    rt: R,
    alloc: Global,
    gate: Meeting,
) -> Result<u64, Fail> {
    let spawner = CallSpawner::new(|job: MeetingJob<R>| start_daemon_job(rt, alloc, job));
    uses_of(rt, alloc, gate, spawner)
}

#[test]
fn gate_two_queues(rt: HostRuntime) -> Result<(), Fail> {
    let alloc: Global = rt.alloc();
    let first = flag(alloc)?;
    let second = flag(alloc)?;
    let gate = gate_of(alloc, &first, &second)?;
    assert_eq!(rt; uses_in_threads(rt, alloc, gate)?, 2);
    assert!(rt; first.load(Ordering::SeqCst) && second.load(Ordering::SeqCst));
    Ok(())
}
