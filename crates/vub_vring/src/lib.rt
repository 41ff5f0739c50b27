//! The parts that guest, control and workers share, each call of which is one step of the machine.
#![tactic(auto)]

mod acting;
mod asking;
mod changing;
mod hosting;
mod opening;
mod ops;
mod owned;
mod parts;
mod store;

pub use asking::play_device;
pub use changing::{play_log, play_memory};
pub use hosting::play_host;
pub use opening::open_worker;
pub use ops::{HostOp, HostSaid, LogSaid, TableSaid};
pub use owned::OwnedParts;
pub use parts::Parts;
pub use store::{Store, closed_said, closed_table_said, copy_constants, missing_said};
pub use vub_ring::{
    KickSaid, PartsError, PendOp, PendSaid, Pending, PutSaid, RingState, TableRing, TableRingSaid,
    VringState, play_kick, play_pend, play_put, play_ring, play_table,
};
