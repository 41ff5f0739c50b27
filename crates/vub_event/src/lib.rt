//! Event objects and interest lists: the trait `Host` and the table in memory that implements it, `MemHost`.
#![tactic(auto)]

mod bits;
mod error;
mod event;
mod event_set;
mod event_table;
mod fault_plan;
mod host;
pub mod laws;
mod mem_host;
mod member;
mod members;
mod ready;
mod ready_words;

pub use error::HostError;
pub use event::Event;
pub use event_set::EventSet;
pub use host::Host;
pub use mem_host::MemHost;
pub use member::Member;
pub use ready::Ready;
