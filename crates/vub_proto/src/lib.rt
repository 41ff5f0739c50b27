//! What a device and a service are to the framework: the traits that their authors implement, with the meaning of
//! each call.
#![tactic(auto)]

mod answer;
mod backend;
mod device;
mod device_op;
mod device_said;
mod echo;
mod fixed;
mod refused;
mod request;
mod service;
mod used;

pub use answer::{Answer, Cause, Denied, ListenerError, VhostUserError};
pub use backend::VhostUserBackend;
pub use device::VhostUserBackendMut;
pub use device_op::{Backend, DeviceOp};
pub use device_said::DeviceSaid;
pub use echo::Echo;
pub use fixed::FixedDevice;
pub use refused::Refused;
pub use request::{Part, Request};
pub use service::Service;
pub use used::Used;
