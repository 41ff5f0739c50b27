//! Logs of dirty pages: a plain one, of one owner, and a shared one on atomic words, which threads mark and one
//! harvests at once.
#![tactic(auto)]

mod harvester;
mod laws;
mod notes;
mod plain;
mod rule;
mod shared;

pub use harvester::Harvester;
pub use laws::{LogOp, bytes_hold_the_bits, notes_hold, pages_stand_since_harvest};
pub use notes::{HarvestNote, LoadNote, MarkNote, Notes};
pub use plain::PlainLog;
pub use shared::{LogSeat, MmapLogReg};
