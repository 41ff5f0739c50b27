//! The calls of a service, and what a party keeps of those that it made.
ghost use Rattle.std.specs.Prelude.{◌≡◌, IfOk};

use std::alloc::Global;
use vub_base::{Bytes, OutOfMemory};
use vub_proto::Used;

/// What a party gets for a call of the service, and gives up with the use of the entry.
#[derive(Clone, Copy, Debug, PartialEq, Eq)]
pub struct Receipt {
    /// The place of the call in the history of the service.
    pub serial: u64,
    /// The queue of the entry that was served.
    pub queue: u32,
    /// The number of that entry.
    pub number: u64,
}

/// One call of a service.
#[derive(Debug, Drop)]
pub struct Served {
    /// The place of the call in the history of the service.
    pub serial: u64,
    /// The queue of the entry that was served.
    pub queue: u32,
    /// How many bases the ring was given before that entry was taken.
    pub epoch: u64,
    /// The number of that entry.
    pub number: u64,
    /// The bytes of its readable segments.
    pub request: Bytes,
    /// The number of bytes in its writable segments.
    pub room: u32,
    pub reply: Bytes,
}

/// A party's record of one of its calls of the service: the use of the entry, or the use that was refused.
#[derive(Debug, Drop)]
pub struct Spent {
    pub receipt: Receipt,
    pub used: Used,
    /// The use was refused, and the entry is held.
    pub held: bool,
}

impl Served {
    /// A copy of the record.
    ///
    /// # Errors
    /// Want of memory.
    pub fn try_clone(&self, alloc: Global) -> Result<Served, OutOfMemory>
        ensures { IfOk result (λ copy. copy ≡ self.now) }
    {
        let request = Bytes::from_slice(alloc, self.request.as_slice())?;
        let reply = Bytes::from_slice(alloc, self.reply.as_slice())?;
        Ok(Served {
            serial: self.serial,
            queue: self.queue,
            epoch: self.epoch,
            number: self.number,
            request,
            room: self.room,
            reply,
        })
    }
}
