//! Threads that were started, each with what its type says of its end.
ghost use Rattle.std.specs.Prelude.{◌≡◌, true};
ghost use Rattle.vub_daemon.specs.declared.duties.DaemonEnd.{DaemonEnd};
ghost use Rattle.vub_daemon.specs.Duties.{is_link_end, is_worker_end, is_control_end};

use crate::duties::{DaemonEnd, WorkerEnd};
use vub_proto::VhostUserError;
use vub_threads::Task;

/// A worker's thread: its end is that of a worker.
#[derive(Drop)]
pub(crate) struct WorkerTask<T: Task<DaemonEnd> + Drop> {
    task: T,
    ghost ends: { (o : DaemonEnd) → T.promised task o → is_worker_end o ≡ true },
}

impl<T: Task<DaemonEnd> + Drop> WorkerTask<T> {
    /// The worker's thread that this is.
    pub fn new(task: T) -> WorkerTask<T>
        requires { (o : DaemonEnd) → T.promised task o → is_worker_end o ≡ true }
    {
        WorkerTask { task }
    }

    /// Waits until the worker has ended.
    pub fn join(self) -> WorkerEnd {
        let WorkerTask { task } = self;
        match task.join() {
            DaemonEnd::Worker(end) => end,
            DaemonEnd::Control(_) => unreachable!(),
        }
    }
}

/// A control thread: it ends with an error of its link, or for want of memory.
#[derive(Drop)]
pub(crate) struct ControlTask<T: Task<DaemonEnd> + Drop> {
    task: T,
    ghost ends: { (o : DaemonEnd) → T.promised task o → is_control_end o ≡ true },
}

impl<T: Task<DaemonEnd> + Drop> ControlTask<T> {
    /// The control thread that this is.
    pub fn new(task: T) -> ControlTask<T>
        requires { (o : DaemonEnd) → T.promised task o → is_control_end o ≡ true }
    {
        ControlTask { task }
    }

    /// Waits until the control thread has ended, and gives the error with which it did.
    pub fn join(self) -> VhostUserError
        ensures { is_link_end result ≡ true }
    {
        let ControlTask { task } = self;
        match task.join() {
            DaemonEnd::Control(end) => end,
            DaemonEnd::Worker(_) => unreachable!(),
        }
    }
}
