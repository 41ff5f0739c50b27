//! Jobs and who starts them: a spawner starts a job and gives a task, which is joined for the job's result. What runs
//! in threads is written over a spawner, so that a test may have it fail.
#![tactic(auto)]

mod call_spawner;
mod job;
mod lent;
mod std_task;

pub use call_spawner::CallSpawner;
pub use job::{Job, Spawner, Task};
pub use std_task::{OfJob, StdTask, start_job};
