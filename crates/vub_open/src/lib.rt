//! Opening a set-up: a device is asked for its constants, the set-up is tested, and a valid one is opened: its guest
//! memory, a ring for each queue, an event for each object, and a bell, an interest list and a pending set for each
//! worker, with the given rings registered.
#![tactic(auto)]

mod constants;
mod faults;
mod new_host;
mod new_logs;
mod new_rings;
mod opening;
mod places;
mod registering;
mod requests;
mod validation;

pub use constants::read_constants;
pub use new_host::opened_worker;
pub use opening::open_store;
pub use validation::{NO_MEMORY, validate};
