//! A spawner over a call that its maker gives.
ghost use Rattle.std.specs.Prelude.{◌≡◌, Result, ℕ};
ghost use Rattle.vub_threads.specs.Tasks.{Started};

use crate::job::{Job, Spawner, Task};
use std::marker::PhantomData;

/// Starts jobs by a call that its maker gives, as a closure that calls [`start_job`](crate::start_job): a spawner that
/// is generic in its job can't start a thread itself, since what a thread is sent is known only where the job's type
/// is. The name of a thread is not passed on.
#[derive(Drop)]
pub struct CallSpawner<J, T, F: Fn(J) -> Result<T, J>> {
    call: F,
    faults: u64,
    of: PhantomData<(J, T)>,
}

impl<J, T, F: Fn(J) -> Result<T, J>> CallSpawner<J, T, F> {
    /// A spawner over this call. It has refused nothing yet.
    pub fn new(call: F) -> CallSpawner<J, T, F>
        ensures call { result.call ≡ call }
        ensures faults { result.faults ≡ 0 }
    {
        CallSpawner {
            call,
            faults: 0,
            of: PhantomData,
        }
    }
}

/// Starts the job by this call.
fn call_with<J: Job, T: Task<J::Out>, F: Fn(J) -> Result<T, J>>(call: &F, job: J) -> Result<T, J>
    requires pre { F.pre call.now job }
    requires post { (r : Result T J) → F.post call.now job r → Started T.promised J.gives job r }
    ensures { Started T.promised J.gives job result }
{
    call(job)
}

impl<J: Job, T: Task<J::Out> + Drop, F: Fn(J) -> Result<T, J>> Spawner<J> for CallSpawner<J, T, F> {
    type Task = T;

    ghost fault_count = { λ s. s.faults };

    ghost can_spawn = { λ s. (j : J) → F.pre s.call j
        × ((r : Result T J) → F.post s.call j r → Started T.promised J.gives j r) };

    fn faults(&self) -> u64 {
        self.faults
    }

    fn spawn(&mut self, _name: &str, job: J) -> Result<T, J> {
        match call_with(&self.call, job) {
            Ok(task) => Ok(task),
            Err(job) => {
                self.faults = self.faults.saturating_add(1);
                Err(job)
            }
        }
    }
}
