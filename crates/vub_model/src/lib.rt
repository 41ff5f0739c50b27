//! The machine of party turns: the plain types that its definitions speak of.
#![tactic(auto)]

mod cause;
mod constants;
mod entry;
mod flight;
mod label;
mod party;
mod phase;
mod play;
mod queues;
mod records;
mod ring_op;
mod run;
mod session;
mod setup;
mod small;
mod wiring;

pub use cause::{StopCause, VringEpollError, Why};
pub use constants::Constants;
pub use entry::Entry;
pub use flight::Flight;
pub use label::Label;
pub use party::Party;
pub use phase::Phase;
pub use play::Play;
pub use queues::Queues;
pub use records::{Count, DeviceCall, Harvested, LogBytes, Span, Stop, Take};
pub use ring_op::{RingOp, RingSaid};
pub use run::{DriveFault, Run, SetupFault};
pub use session::Session;
pub use setup::{GivenRegion, GivenRing, Guest, Info, Object, Setup};
pub use small::{Small, TableOp};
pub use wiring::{Known, Opened, Place};
