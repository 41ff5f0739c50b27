//! A conversation of a guest with a service: requests are put into a ring by the driver's side, the machine serves
//! them, and their replies are taken out of it.
#![tactic(auto)]

mod ask;
mod batch;
mod checks;
mod constants;
mod conversation;
mod conversing;
mod fault;
mod schedule;
mod setup;
mod talk;

pub use ask::Ask;
pub use conversing::converse;
pub use fault::TalkFault;
pub use talk::Talk;
pub use vub_driver::{Done, DriverError, Layout};
pub use vub_model::SetupFault;
