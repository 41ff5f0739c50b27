//! Parts under locks, which running threads share: rings and a service with their histories, and the comparison of what
//! threads used with what the service was asked.
#![tactic(auto)]

mod asking;
mod comparing;
mod gate;
mod holding;
mod locked_parts;
mod quiet_host;
mod records;
mod ring_book;
mod service_book;
mod shared;
mod shared_host;

pub use comparing::{CompareError, Totals, compare};
pub use gate::{Gate, NoGate};
pub use locked_parts::LockedParts;
pub use quiet_host::QuietHost;
pub use records::{Receipt, Served, Spent};
pub use ring_book::RingBook;
pub use service_book::ServiceBook;
pub use shared::{OpenParts, SharedParts};
pub use shared_host::SharedHost;
