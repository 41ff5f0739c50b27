//! A record beside a split virtqueue, so that a ring that was cut goes on where it was (vhost-user: inflight I/O
//! tracking). Several entries may be open at once, and they may be used in any order.
//!
//! A device begins with [`InflightRing::new`], takes entries by [`InflightRing::take_step`], and after each call keeps
//! [`InflightRing::record`] where it outlasts a cut. It uses an entry by four calls: [`InflightRing::mark_head`],
//! [`InflightRing::publish`], [`InflightRing::clear`], [`InflightRing::settle`]. [`InflightRing::finish`] makes all of
//! them, for a device that keeps no record between them. A cut may fall between any two calls.
//!
//! After a cut the device sets up a queue of the same size and addresses, and hands it to [`recover`] with the record
//! and the guest's memory. It serves the heads of `again` in their order, each by [`vub_queue::chain_at`] over
//! [`InflightRing::queue`], and uses these entries as any other. It sends the driver one signal, since that of the last
//! publish may be lost, and takes until None, since what was told of notifications before the cut is forgotten.
#![tactic(auto)]

mod bytes;
mod error;
mod laws;
mod mark;
mod marks;
mod next_entry;
mod recovery;
mod resumed;
mod ring;
mod slot;
mod stage;

pub use error::RecoverError;
pub use laws::cut_ring_goes_on;
pub use next_entry::NextEntry;
pub use recovery::recover;
pub use resumed::{Heads, Resumed};
pub use ring::InflightRing;
pub use stage::Stage;
