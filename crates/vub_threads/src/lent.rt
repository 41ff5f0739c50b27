//! A spawner that is lent is a spawner.
use crate::job::{Job, Spawner};

impl<'a, J: Job, S: Spawner<J>> Spawner<J> for &'a mut S {
    type Task = S::Task;

    ghost fault_count = { λ s. S.fault_count s.now };

    ghost can_spawn = { λ s. S.can_spawn s.now };

    fn faults(&self) -> u64 {
        S::faults(&**self)
    }

    fn spawn(&mut self, name: &str, job: J) -> Result<S::Task, J> {
        S::spawn(&mut **self, name, job)
    }
}
