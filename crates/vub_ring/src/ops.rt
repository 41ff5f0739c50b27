//! What the calls on rings and pending sets are asked, and what they say.
use crate::pending::Pending;
use thiserror::Error;
use vub_queue::{Chain, Damage, PutFault};

/// A step of one ring together with guest memory.
#[derive(Clone, Copy, Debug, PartialEq, Eq)]
pub enum TableRing {
    /// Sets the guest addresses of the ring's three areas, and the next used index, which is the word that stands in
    /// guest memory at the used ring, if it is there.
    Info { desc: u64, avail: u64, used: u64 },
    /// Takes the next entry.
    Take,
}

/// What `ring_table` says.
#[derive(Debug, Drop)]
pub enum TableRingSaid {
    /// The addresses and the next used index are set.
    Done,
    /// An entry is in flight, and the change has to wait. Nothing changes.
    Waits,
    /// The addresses are set. The used index is outside guest memory, and the next used index stays as it was.
    Outside,
    /// An entry was taken: how many bases the ring was given before, the entry's number, and its chain.
    Taken {
        epoch: u64,
        number: u64,
        chain: Chain,
    },
    /// The ring is not ready, not enabled or without addresses, or an entry of it is in flight, or none is left.
    Nothing,
    /// The ring is damaged, and nothing was taken.
    Damaged(Damage),
}

/// What `ring_host` says.
#[derive(Clone, Copy, Debug, PartialEq, Eq)]
pub enum KickSaid {
    /// The event is no kick of the ring any more. It was not read.
    Stale,
    /// The counter was read, and the ring is ready and enabled.
    Serve,
    /// The counter was read, and the ring is not ready or not enabled.
    Quiet,
}

/// What `put` says.
#[derive(Clone, Copy, Debug, PartialEq, Eq)]
pub enum PutSaid {
    /// The entry is used.
    Done,
    /// The use is refused, and the entry is held.
    Held(PutFault),
}

/// A change of a worker's pending set.
#[derive(Clone, Copy, Debug, PartialEq, Eq)]
pub enum PendOp {
    Insert(u32),
    Remove(u32),
    TakeAll,
}

/// What `pend` says.
#[derive(Debug, Drop)]
pub enum PendSaid {
    Done,
    /// The event numbers that were pending.
    All(Pending),
}

/// Why a call of `Parts` was not made.
#[derive(Clone, Copy, Debug, PartialEq, Eq, Error)]
pub enum PartsError {
    /// The host failed; its count of faults rose.
    #[error("host failed")]
    Fault,
    #[error("out of memory")]
    OutOfMemory,
}
