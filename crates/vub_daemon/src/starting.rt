//! How a daemon starts its threads, and ends its workers.
ghost use Rattle.std.specs.Prelude.{◌≡◌, IfErr, OnOk, OnErr};
ghost use Rattle.vub_base.specs.Causes.{Rose};
ghost use Rattle.vub_daemon.specs.Causes.{IsWorkerError};
ghost use Rattle.vub_daemon.specs.declared.duties.Duty.TheVariants as duty;

use crate::duties::{Control, DaemonEnd, DaemonJob, Duty};
use crate::error::Error;
use crate::tasks::{ControlTask, WorkerTask};
use std::alloc::Global;
use std::snapshot::Snapshot;
use std::sync::{Arc, Wait};
use vub_attend::Link;
use vub_handler::{EpollHandle, VhostUserHandlerError};
use vub_locks::{Gate, LockedParts, SharedParts};
use vub_model::Opened;
use vub_proto::{Service, VhostUserBackendMut};
use vub_threads::{Spawner, Task};
use vub_vring::HostOp;

/// Why a control thread was not started.
#[derive(Clone, Copy, Debug, PartialEq, Eq)]
pub(crate) enum Unstarted {
    /// Its link could not be opened.
    Link,
    /// The spawner refused it.
    Thread,
    /// Memory was refused.
    Memory,
}

/// Starts the thread of the worker that was opened so.
///
/// # Errors
/// `SpawnVringWorker` only where the spawner's count rose; want of memory.
fn start_worker<
    R: Wait + Copy,
    D: VhostUserBackendMut,
    V: Service,
    G: Gate + Drop,
    K: Link + Drop,
    T: Task<DaemonEnd> + Drop,
    S: Spawner<DaemonJob<R, D, V, G, K>, Task = T> + Drop,
>(
    rt: R,
    alloc: Global,
    spawner: &mut S,
    shared: &Arc<SharedParts<D, V, G>, Global>,
    opened: Opened,
) -> Result<WorkerTask<T>, Error>
    requires { S.can_spawn spawner.old }
    ensures can { S.can_spawn spawner.new }
    ensures ok { OnOk result (S.fault_count spawner.new ≡ S.fault_count spawner.old) }
    ensures err { IfErr result (IsWorkerError (S.fault_count spawner.old) (S.fault_count spawner.new)) }
{
    let Ok(shared) = Arc::try_clone(shared) else {
        return Err(Error::OutOfMemory);
    };
    let job = DaemonJob {
        rt,
        alloc,
        parts: LockedParts::new(rt, alloc, shared),
        duty: Duty::Work(opened),
    };
    match spawner.spawn("vring_worker", job) {
        Ok(task) => Ok(WorkerTask::new(task)),
        Err(_job) => Err(Error::NewVhostUserHandler(VhostUserHandlerError::SpawnVringWorker)),
    }
}

/// Starts the thread of each worker. Those that were started are among the tasks, whatever is answered.
///
/// # Errors
/// That of the first worker that was not started.
pub(crate) fn start_workers<
    R: Wait + Copy,
    D: VhostUserBackendMut,
    V: Service,
    G: Gate + Drop,
    K: Link + Drop,
    T: Task<DaemonEnd> + Drop,
    S: Spawner<DaemonJob<R, D, V, G, K>, Task = T> + Drop,
>(
    rt: R,
    alloc: Global,
    spawner: &mut S,
    shared: &Arc<SharedParts<D, V, G>, Global>,
    opened: &[Opened],
    tasks: &mut Vec<WorkerTask<T>>,
) -> Result<(), Error>
    requires { S.can_spawn spawner.old }
    ensures can { S.can_spawn spawner.new }
    ensures ok { OnOk result (S.fault_count spawner.new ≡ S.fault_count spawner.old) }
    ensures err { IfErr result (IsWorkerError (S.fault_count spawner.old) (S.fault_count spawner.new)) }
{
    for one in opened {
        if tasks.reserve(1).is_err() {
            return Err(Error::OutOfMemory);
        }
        let task = start_worker(rt, alloc, spawner, shared, *one)?;
        tasks.push_reserved(task);
    }
    Ok(())
}

/// The link of a control thread's job.
fn link_of<R: Wait + Copy, D: VhostUserBackendMut, V: Service, G: Gate + Drop, K: Link + Drop>(
    job: DaemonJob<R, D, V, G, K>,
    of: Snapshot<Control<K>>,
) -> K
    requires { job.duty ≡ duty.Control of.value }
    ensures { result ≡ of.value.link }
{
    let DaemonJob { duty, .. } = job;
    match duty {
        Duty::Control(control) => {
            let Control { link, .. } = control;
            link
        }
        Duty::Work(_) => unreachable!(),
    }
}

/// Starts a control thread.
///
/// # Errors
/// Its link, only where the spawner's count rose.
pub(crate) fn start_control<
    R: Wait + Copy,
    D: VhostUserBackendMut,
    V: Service,
    G: Gate + Drop,
    K: Link + Drop,
    T: Task<DaemonEnd> + Drop,
    S: Spawner<DaemonJob<R, D, V, G, K>, Task = T> + Drop,
>(
    rt: R,
    alloc: Global,
    spawner: &mut S,
    name: &str,
    parts: LockedParts<R, D, V, G>,
    control: Control<K>,
) -> Result<ControlTask<T>, K>
    requires { S.can_spawn spawner.old }
    ensures can { S.can_spawn spawner.new }
    ensures ok { OnOk result (S.fault_count spawner.new ≡ S.fault_count spawner.old) }
    ensures err { OnErr result (Rose (S.fault_count spawner.old) (S.fault_count spawner.new)) }
    ensures back { IfErr result (λ link. link ≡ control.link) }
{
    let of = Snapshot::of(&control);
    let job = DaemonJob {
        rt,
        alloc,
        parts,
        duty: Duty::Control(control),
    };
    match spawner.spawn(name, job) {
        Ok(task) => Ok(ControlTask::new(task)),
        Err(job) => Err(link_of(job, of)),
    }
}

/// Tells each worker to end that has an exit object. Takes no memory.
pub(crate) fn send_exits<R: Wait, D: VhostUserBackendMut, V: Service, G: Gate + Drop>(
    rt: &R,
    alloc: Global,
    shared: &SharedParts<D, V, G>,
    handles: &[EpollHandle],
) {
    for handle in handles {
        if let Some(exit) = handle.exit {
            let _said = shared.call_host(rt, alloc, HostOp::Signal(exit, 1));
        }
    }
}
