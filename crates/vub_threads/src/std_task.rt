//! Jobs in threads of std.
ghost use Rattle.std.specs.Prelude.{◌≡◌, IfOk, IfErr};
ghost use Rattle.vub_threads.specs.Tasks.{Promised, Started};

use crate::job::{Job, Task};
use std::alloc::Global;
use std::snapshot::Snapshot;
use std::sync::Arc;
use std::sync::atomic::{AtomicBool, Ordering};
use std::thread;
use std::thread::{Promise, PromisedHandle, Threads};

/// The promise that a thread's result is one that this job gives, or the job itself where it was not to run.
#[derive(Drop)]
pub struct OfJob<J: Job>(Snapshot<J>);

impl<J: Job> Promise<Result<J::Out, J>> for OfJob<J> {
    ghost kept_by = { λ p r. IfOk r (λ o. J.gives p.0.value o) × IfErr r (λ j. j ≡ p.0.value) };
}

/// A job in a thread of std, or one that ran already.
#[derive(Drop)]
pub enum StdTask<R: Threads + Copy, J: Job> {
    Running(R, PromisedHandle<Result<J::Out, J>, OfJob<J>>),
    Ran(J::Out),
}

impl<R: Threads + Copy, J: Job> Task<J::Out> for StdTask<R, J> {
    ghost promised = { λ t o. Promised J.gives t o };

    fn join(self) -> J::Out {
        match self {
            StdTask::Running(rt, handle) => match handle.join(&rt) {
                Ok(out) => out,
                Err(job) => job.run(),
            },
            StdTask::Ran(out) => out,
        }
    }
}

/// Runs the job where it is wanted, and hands it back where it is not.
fn run_or_not<J: Job>(wanted: Arc<AtomicBool, Global>, job: J) -> Result<J::Out, J>
    ensures ok { IfOk result (λ o. J.gives job o) }
    ensures err { IfErr result (λ j. j ≡ job) }
{
    if wanted.load(Ordering::SeqCst) {
        Ok(job.run())
    } else {
        Err(job)
    }
}

/// Starts a job in a thread, or hands it back.
///
/// # Errors
/// The job, where no thread can be made, or for want of memory.
pub fn start_job<R: Threads + Copy, J: Job + Send + Drop + 'static>(
    rt: R,
    alloc: Global,
    job: J,
) -> Result<StdTask<R, J>, J>
where
    J::Out: Send + Drop + 'static,
    ensures { Started (Promised J.gives) J.gives job result }
{
    let Ok(wanted) = Arc::new(alloc, AtomicBool::new(true)) else {
        return Err(job);
    };
    let Ok(theirs) = Arc::try_clone(&wanted) else {
        return Err(job);
    };
    let promise = OfJob(Snapshot::of(&job));
    match thread::spawn_with(&rt, promise, move || run_or_not(theirs, job)) {
        Ok(handle) => Ok(StdTask::Running(rt, handle)),
        Err(refused) => {
            wanted.store(false, Ordering::SeqCst);
            match (refused.value)() {
                Ok(out) => Ok(StdTask::Ran(out)),
                Err(job) => Err(job),
            }
        }
    }
}
