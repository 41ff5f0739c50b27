//! A disk of 512-byte sectors in memory, as a service, after the request layout of virtio block devices (virtio 1.2,
//! 5.2.6).
#![tactic(auto)]

mod checks;
mod disk;
mod erase;
mod error;
mod laws;
mod reply;
mod request;
mod sectors;
mod status;
pub mod types;

pub use disk::{BlockService, disk_fault};
pub use erase::Erase;
pub use error::BlockError;
pub use laws::refusals_change_nothing;
pub use request::Piece;
pub use status::Status;
