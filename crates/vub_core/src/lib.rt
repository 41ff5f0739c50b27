//! The machine of party turns (`drive`): a set-up is opened, and the parties of a schedule play, one step a turn. Party
//! 0 is the guest, party 1 is control, and party 2 + w is worker w.
#![tactic(auto)]

mod calls;
mod control;
mod counting;
mod driving;
mod finish;
mod first;
mod footprint;
mod logs;
mod lowering;
mod machine;
mod opening;
mod playing;
mod records;
mod rest;
mod session;
mod spans;
mod turns;
mod written;

pub use driving::drive;
pub use lowering::steps_lower_the_work;
pub use vub_model::{
    Count, DeviceCall, DriveFault, GivenRegion, GivenRing, Guest, Harvested, Info, Label, LogBytes,
    Object, Run, Setup, SetupFault, Span, Stop, StopCause, Take, VringEpollError, Why,
};
pub use vub_proto::{Answer, Request, Used};
