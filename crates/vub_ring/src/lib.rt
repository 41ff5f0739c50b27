//! Rings, and the steps of the machine on lent parts: a ring with its events, and a pending set.
#![tactic(auto)]

mod events;
mod ops;
mod pending;
mod play;
mod ring_state;
mod state;

pub use events::raise_anyway;
pub use ops::{KickSaid, PartsError, PendOp, PendSaid, PutSaid, TableRing, TableRingSaid};
pub use pending::Pending;
pub use play::{play_kick, play_pend, play_put, play_ring, play_table};
pub use ring_state::RingState;
pub use state::VringState;
