//! The worker of a vhost-user daemon (`VringEpollHandler` of the Rust crate `vhost-user-backend`): its steps over any
//! parts, each of which is its row of the machine.
#![tactic(auto)]

mod finished;
mod handler;
mod listening;
mod mask;
mod phases;
mod polling;
mod reading;
mod running;
mod said;
mod standing;
mod turned;

pub use finished::Finished;
pub use handler::VringEpollHandler;
pub use listening::{EpollHandle, ListenerFault};
pub use turned::Turned;
