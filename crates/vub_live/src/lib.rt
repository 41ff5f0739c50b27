//! The program over running threads: a daemon serves the entries of a guest in memory, by as many workers as queues.
#![tactic(auto)]

mod guest;
mod live;
mod lived;
mod words;

pub use guest::{live_device, push_queue, push_table, queue_content};
pub use live::{LiveJob, await_used, furnish, run_live};
pub use lived::{Lived, complaint_of};
