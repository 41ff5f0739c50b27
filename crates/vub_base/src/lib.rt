//! What every crate stands on: the answer for want of memory, byte contents, lists, the counter of steps,
//! and (in `specs/`) the words on counts of faults and on what is told.
#![tactic(auto)]

mod listed;
mod memory;
mod octets;
mod steps;

pub use listed::Listed;
pub use memory::OutOfMemory;
pub use octets::Bytes;
pub use steps::Steps;
