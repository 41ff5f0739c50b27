//! What the threads of a daemon run.
ghost use Rattle.std.specs.Prelude.{◌≡◌, true};
ghost use Rattle.vub_daemon.specs.Duties.{ends_as, is_link_end};

use std::alloc::Global;
use std::sync::{Arc, Mutex, Wait};
use vub_attend::{Closer, Link, attend};
use vub_handler::VhostUserHandler;
use vub_locks::{Gate, LockedParts, Spent};
use vub_loop::VringEpollHandler;
use vub_model::{Opened, Phase, Stop, StopCause, VringEpollError};
use vub_proto::{Service, VhostUserBackendMut, VhostUserError};
use vub_threads::Job;

/// What a control thread is given beside its parts: the session, which all control threads of a daemon share one after
/// the other, and its link.
#[derive(Drop)]
pub struct Control<K: Link + Drop> {
    pub handler: Arc<Mutex<VhostUserHandler>, Global>,
    pub link: K,
}

/// What a thread is to do.
#[derive(Drop)]
pub enum Duty<K: Link + Drop> {
    /// Run the worker that was opened so.
    Work(Opened),
    /// Play the requests of a link.
    Control(Control<K>),
}

/// A thread's way to the parts, and what it is to do there.
#[derive(Drop)]
pub struct DaemonJob<
    R: Wait + Copy,
    D: VhostUserBackendMut,
    V: Service,
    G: Gate + Drop,
    K: Link + Drop,
> {
    pub rt: R,
    pub alloc: Global,
    pub parts: LockedParts<R, D, V, G>,
    pub duty: Duty<K>,
}

// What lies in a job crosses to its thread.
unsafe impl<
    R: Wait + Copy + Send,
    D: VhostUserBackendMut + Send,
    V: Service + Send,
    G: Gate + Drop + Send + Sync,
    K: Link + Drop + Send,
> Send for DaemonJob<R, D, V, G, K> {}

/// How a worker has ended, and its records of the entries that it used.
#[derive(Debug, Drop)]
pub struct WorkerEnd {
    pub stop: Stop,
    pub spent: Vec<Spent>,
}

/// How a thread has ended.
#[derive(Debug, Drop)]
pub enum DaemonEnd {
    Worker(WorkerEnd),
    /// With this error of `attend`.
    Control(VhostUserError),
}

/// Gives up the entry that a worker has in hand, if it has one, so that no stop of its queue waits for it. For want of
/// memory it may stay in flight.
fn put_down<R: Wait + Copy, D: VhostUserBackendMut, V: Service, G: Gate + Drop>(
    alloc: Global,
    parts: &mut LockedParts<R, D, V, G>,
    phase: &Phase,
) {
    let _given = match phase {
        Phase::Taken(entry, _) => parts.give_up(alloc, entry, &[]),
        Phase::Served(entry, reply, _) => parts.give_up(alloc, entry, reply.as_slice()),
        _ => Ok(()),
    };
}

/// Runs the worker that was opened so until it stops, or for want of memory no longer.
fn run_on<R: Wait + Copy, D: VhostUserBackendMut, V: Service, G: Gate + Drop>(
    rt: &R,
    alloc: Global,
    parts: &mut LockedParts<R, D, V, G>,
    opened: Opened,
) -> StopCause {
    let Ok(mut worker) = VringEpollHandler::over(alloc, parts, opened) else {
        return StopCause::Fault(VringEpollError::OutOfMemory);
    };
    match worker.run(rt, alloc, parts) {
        Ok(()) => StopCause::Exit,
        Err(error) => {
            put_down(alloc, parts, worker.phase());
            StopCause::Fault(error)
        }
    }
}

/// Runs a worker, and gives its records.
fn run_worker<R: Wait + Copy, D: VhostUserBackendMut, V: Service, G: Gate + Drop>(
    rt: R,
    alloc: Global,
    parts: LockedParts<R, D, V, G>,
    opened: Opened,
) -> WorkerEnd {
    let mut parts = parts;
    let cause = run_on(&rt, alloc, &mut parts, opened);
    WorkerEnd {
        stop: Stop {
            worker: opened.worker,
            cause,
        },
        spent: parts.into_spent(),
    }
}

/// Plays the requests of a link, and closes it when that has ended. For want of memory for what closes it, plays none.
fn run_control<R: Wait + Copy, D: VhostUserBackendMut, V: Service, G: Gate + Drop, K: Link + Drop>(
    rt: R,
    alloc: Global,
    parts: LockedParts<R, D, V, G>,
    control: Control<K>,
) -> VhostUserError
    ensures { is_link_end result ≡ true }
{
    let mut parts = parts;
    let Control { handler, mut link } = control;
    let Ok(closer) = link.closer(alloc) else {
        return VhostUserError::OutOfMemory;
    };
    let mut held = handler.lock(&rt);
    let end = attend(&rt, alloc, &mut *held, &mut parts, &mut link);
    closer.close();
    end
}

impl<R: Wait + Copy, D: VhostUserBackendMut, V: Service, G: Gate + Drop, K: Link + Drop> Job
    for DaemonJob<R, D, V, G, K> {
    type Out = DaemonEnd;

    ghost use Rattle.vub_daemon.specs.Duties.{ends_as};

    ghost gives = { λ job end. ends_as job.duty end ≡ true };

    fn run(self) -> DaemonEnd {
        let DaemonJob {
            rt,
            alloc,
            parts,
            duty,
        } = self;
        match duty {
            Duty::Work(opened) => DaemonEnd::Worker(run_worker(rt, alloc, parts, opened)),
            Duty::Control(control) => { DaemonEnd::Control(run_control(rt, alloc, parts, control)) }
        }
    }
}
