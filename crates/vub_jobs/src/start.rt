//! A thread of std for a job of a daemon.
ghost use Rattle.std.specs.Prelude.{◌≡◌, true};
ghost use Rattle.vub_daemon.specs.Duties.{ends_as};
ghost use Rattle.vub_threads.specs.Tasks.{Promised, Started};

use std::alloc::Global;
use std::sync::Wait;
use std::thread::Threads;
use vub_attend::Link;
use vub_daemon::DaemonJob;
use vub_locks::Gate;
use vub_mem::BitmapReplace;
use vub_proto::{Service, VhostUserBackendMut};
use vub_threads::{StdTask, start_job};

/// Starts a job of a daemon in a thread of std, or hands it back. A function that is generic over the runtime gives its
/// daemon a `CallSpawner` over this call.
///
/// # Errors
/// The job, where no thread can be made, or for want of memory.
pub fn start_daemon_job<
    R: Threads + Wait + Copy + Send + 'static,
    D: VhostUserBackendMut + Send + 'static,
    V: Service + Send + 'static,
    G: Gate + Drop + Send + Sync + 'static,
    K: Link + Drop + Send + 'static,
>(
    rt: R,
    alloc: Global,
    job: DaemonJob<R, D, V, G, K>,
) -> Result<StdTask<R, DaemonJob<R, D, V, G, K>>, DaemonJob<R, D, V, G, K>>
where
    D::Bitmap: Send + 'static,
    <D::Bitmap as BitmapReplace>::InnerBitmap: Send + 'static,
    K::Closer: Send + 'static,
    ensures { Started (Promised (λ j e. ends_as j.duty e ≡ true)) (λ j e. ends_as j.duty e ≡ true)
        job result }
{
    start_job(rt, alloc, job)
}
