//! A service with the calls that were made of it.
ghost use Rattle.std.specs.Prelude.{◌≡◌, ◌≤◌, ◌++◌, ◌∷◌, [], length, IfOk, OnOk, OnErr};
ghost use Rattle.std.specs.Vec.{vec_capacity};
ghost use Rattle.vub_model.specs.Service.{meaning};
ghost use Rattle.vub_locks.specs.Replays.{IsReplay, receipt_of, call_for};

use crate::records::{Receipt, Served};
use std::alloc::Global;
use std::marker::Model;
use std::snapshot::Snapshot;
use vub_base::{Bytes, OutOfMemory};
use vub_model::Entry;
use vub_proto::Service;

/// A service, the value with which the book begins, and the calls that were made since. The calls lead from that value
/// to the service's, always, each with the reply of the value then.
#[derive(Drop)]
pub struct ServiceBook<V: Service> {
    service: V,
    opening: Snapshot<V>,
    calls: Vec<Served>,
}

impl<V: Service> Model for ServiceBook<V> {
    ghost use Rattle.vub_locks.specs.Replays.{Calls, IsReplay};
    ghost use Rattle.vub_model.specs.Service.{meaning};

    ghost Value = { Calls V };

    ghost view = { λ b. record { opening = b.opening.value; value = b.service; calls = b.calls.items } };

    ghost invariant = { λ b. IsReplay (meaning V.reply_of V.after) 0 b.opening.value b.calls.items b.service };
}

/// Room for bytes that are yet to come.
#[derive(Debug, Drop)]
struct Room {
    bytes: Vec<u8>,
}

impl Room {
    /// Room for so many bytes.
    ///
    /// # Errors
    /// Want of memory.
    fn new(alloc: Global, room: u32) -> Result<Room, OutOfMemory>
        ensures { IfOk result (λ r. (r.bytes.items ≡ []) × (room ≤ vec_capacity r.bytes)) }
    {
        let bytes = Vec::with_capacity(alloc, room as usize)?;
        Ok(Room { bytes })
    }

    /// These bytes, for which there is room.
    fn fill(self, bytes: &[u8]) -> Bytes
        requires empty { self.bytes.items ≡ [] }
        requires room { length bytes.now ≤ vec_capacity self.bytes }
        ensures { result ≡ bytes.now }
    {
        let Room { bytes: mut filled } = self;
        let _filled = filled.extend_from_slice(bytes);
        Bytes::from_vec(filled)
    }
}

impl<V: Service> ServiceBook<V> {
    /// A book that begins with this service. Takes no memory.
    pub fn new(alloc: Global, service: V) -> ServiceBook<V>
        ensures opening { result.opening ≡ service }
        ensures value { result.value ≡ service }
        ensures calls { result.calls ≡ [] }
    {
        ServiceBook {
            opening: Snapshot::of(&service),
            service,
            calls: Vec::new(alloc),
        }
    }

    /// The calls, in order. They lead from the opening to the service's value.
    pub fn calls(&self) -> &[Served]
        ensures calls { result.now ≡ self.now.calls }
        ensures replay { IsReplay (meaning V.reply_of V.after) 0 self.now.opening result.now self.now.value }
    {
        self.calls.as_slice()
    }

    /// Asks the service once for the reply to an entry, keeps the call, and gives its receipt. The memory of the record
    /// is taken before the service is asked.
    ///
    /// # Errors
    /// Want of memory leaves the book as it was.
    pub fn serve(&mut self, alloc: Global, entry: &Entry) -> Result<(Bytes, Receipt), OutOfMemory>
        ensures reply { IfOk result (λ r. r.0
            ≡ V.reply_of self.old.value entry.now.chain.request entry.now.chain.room) }
        ensures fits { IfOk result (λ r. length r.0 ≤ entry.now.chain.room) }
        ensures value { OnOk result (self.new.value
            ≡ V.after self.old.value entry.now.chain.request entry.now.chain.room) }
        ensures calls { IfOk result (λ r. self.new.calls
            ≡ self.old.calls ++ call_for entry.now (length self.old.calls) r.0 ∷ []) }
        ensures receipt { IfOk result (λ r. r.1
            ≡ receipt_of (call_for entry.now (length self.old.calls) r.0)) }
        ensures err_value { OnErr result (self.new.value ≡ self.old.value) }
        ensures err_calls { OnErr result (self.new.calls ≡ self.old.calls) }
        ensures opening { self.new.opening ≡ self.old.opening }
    {
        self.calls.reserve(1)?;
        let request = Bytes::from_slice(alloc, entry.chain.request.as_slice())?;
        let room = Room::new(alloc, entry.chain.room)?;
        let reply = self
            .service
            .serve(alloc, entry.chain.request.as_slice(), entry.chain.room)?;
        let copy = room.fill(reply.as_slice());
        let serial = self.calls.len() as u64;
        self.calls.push_reserved(Served {
            serial,
            queue: entry.queue,
            epoch: entry.epoch,
            number: entry.number,
            request,
            room: entry.chain.room,
            reply: copy,
        });
        let receipt = Receipt {
            serial,
            queue: entry.queue,
            number: entry.number,
        };
        Ok((reply, receipt))
    }
}
