//! The driver's side of a split virtqueue (virtio 1.2, 2.7): requests are put into guest memory, and their replies are
//! taken out of it in order.
//!
//! A request has two descriptors, one for its bytes and one for the room of its reply, and a place in the buffers. Used
//! elements are taken in the order of the requests, so that a device has to use them in order; that is this crate's own
//! profile of the standard.
#![tactic(auto)]

mod area;
mod checks;
mod done;
mod driver;
mod error;
mod laws;
mod layout;
mod places;
mod writing;

pub use done::Done;
pub use driver::Driver;
pub use error::DriverError;
pub use laws::{driver_understands, submits_are_stores};
pub use layout::Layout;
pub use writing::{Submission, Write};
