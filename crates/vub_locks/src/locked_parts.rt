//! One party's way to the parts under locks.
ghost use Rattle.std.specs.Prelude.{◌≡◌, ◌≤◌, ◌<◌, [], None, IfSome, length};
ghost use Rattle.std.specs.Vec.{vec_capacity};
ghost use Rattle.vub_vring.specs.Calls.{IsCounted};

use crate::gate::Gate;
use crate::holding::{await_ready, hold_host, hold_kick, hold_put, hold_ring, hold_table};
use crate::records::{Receipt, Spent};
use crate::shared::SharedParts;
use std::alloc::Global;
use std::sync::{Arc, Wait};
use vub_base::{Bytes, OutOfMemory};
use vub_model::{Constants, Entry, RingOp, RingSaid, TableOp};
use vub_proto::{DeviceOp, DeviceSaid, Service, Used, VhostUserBackendMut};
use vub_queue::PutFault;
use vub_ring::{
    KickSaid, PartsError, PendOp, PendSaid, PutSaid, TableRing, TableRingSaid, play_pend,
};
use vub_vring::{
    HostOp, HostSaid, LogSaid, Parts, TableSaid, closed_said, closed_table_said, copy_constants,
    missing_said, play_device, play_log, play_memory,
};

/// One party's way to the parts that threads share. Each call is one hold of the locks of the parts that it touches,
/// and one step on what lies under them; a change of a ring that has to wait waits until the entry in flight is used or
/// held. These parts tell nothing of what they hold. The party keeps a receipt for each of its calls of the service
/// until it uses the entry, then a record of the use, and a count of the calls that the device refused it.
#[derive(Drop)]
pub struct LockedParts<R: Wait + Copy, D: VhostUserBackendMut, V: Service, G: Gate + Drop> {
    rt: R,
    shared: Arc<SharedParts<D, V, G>, Global>,
    receipts: Vec<Receipt>,
    spent: Vec<Spent>,
    refusals: u64,
}

/// One more refusal where the device refused its call. The count stands still at its end.
fn counted(refusals: u64, said: &DeviceSaid) -> u64
    ensures counted { IsCounted refusals result said.now }
    ensures later { refusals ≤ result }
{
    match said {
        DeviceSaid::Refused(_) => refusals.saturating_add(1),
        _ => refusals,
    }
}

/// Takes out the receipt for this entry, if there is one.
fn take_receipt(receipts: &mut Vec<Receipt>, entry: &Entry) -> Option<Receipt> {
    let place = receipts.iter().position(|receipt| receipt.queue == entry.queue
        && receipt.number == entry.number)?;
    Some(receipts.swap_remove(place))
}

/// Gives up the receipt for this entry, if there is one, for a record of its use with this reply.
fn spend(
    receipts: &mut Vec<Receipt>,
    spent: &mut Vec<Spent>,
    entry: &Entry,
    reply: Bytes,
    held: bool,
)
    requires { length spent.old.items < vec_capacity spent.old }
{
    if let Some(receipt) = take_receipt(receipts, entry) {
        let used = Used {
            queue: entry.queue,
            epoch: entry.epoch,
            number: entry.number,
            head: entry.chain.head,
            reply,
        };
        spent.push_reserved(Spent {
            receipt,
            used,
            held,
        });
    }
}

impl<R: Wait + Copy, D: VhostUserBackendMut, V: Service, G: Gate + Drop> LockedParts<R, D, V, G> {
    /// A party's way to these parts. It has no receipt yet, and no refusal. Takes no memory.
    pub fn new(
        rt: R,
        alloc: Global,
        shared: Arc<SharedParts<D, V, G>, Global>,
    ) -> LockedParts<R, D, V, G> {
        LockedParts {
            rt,
            shared,
            receipts: Vec::new(alloc),
            spent: Vec::new(alloc),
            refusals: 0,
        }
    }

    /// Gives up an entry in hand, so that no change of its ring waits for it: the ring holds it, and where the service
    /// was asked for it, its call is recorded as that of a held entry, with this reply.
    ///
    /// # Errors
    /// Want of memory. Then the entry is still in flight.
    pub fn give_up(
        &mut self,
        alloc: Global,
        entry: &Entry,
        reply: &[u8],
    ) -> Result<(), OutOfMemory> {
        let copy = Bytes::from_slice(alloc, reply)?;
        self.spent.reserve(1)?;
        if let Some(locked) = self.shared.rings.get(entry.queue as usize) {
            if hold_ring(&self.rt, alloc, locked, RingOp::Hold).is_err() {
                return Err(OutOfMemory);
            }
        }
        spend(&mut self.receipts, &mut self.spent, entry, copy, true);
        Ok(())
    }

    /// Whether an event has this number.
    pub fn has_event(&self, object: u32) -> bool {
        let quiet = self.shared.host.host.lock(&self.rt);
        quiet.host.event(object).is_some()
    }

    /// Whether a content has this number.
    pub fn has_content(&self, object: u32) -> bool {
        let memory = self.shared.memory.lock(&self.rt);
        memory.has_object(object)
    }

    /// Whether a log has this number.
    pub fn has_log(&self, object: u32) -> bool {
        let memory = self.shared.memory.lock(&self.rt);
        memory.has_log(object)
    }

    /// The party's records of the entries that it used, in the order of their uses.
    pub fn into_spent(self) -> Vec<Spent> {
        let LockedParts { spent, .. } = self;
        spent
    }
}

impl<R: Wait + Copy, D: VhostUserBackendMut, V: Service, G: Gate + Drop> Parts
    for LockedParts<R, D, V, G> {
    type Service = V;

    type Device = D;

    ghost state = { λ p. record {
      shared = None;
      device = None;
      faults = 0;
      refusals = p.refusals;
      NeverFails = Unit {0};
      loan = [];
      constants = None;
    } };

    fn faults(&self) -> u64 {
        0
    }

    fn refusals(&self) -> u64 {
        self.refusals
    }

    fn ring(&mut self, alloc: Global, queue: u32, op: RingOp) -> Result<RingSaid, PartsError> {
        match self.shared.rings.get(queue as usize) {
            Some(locked) => hold_ring(&self.rt, alloc, locked, op),
            None => Ok(closed_said(op)),
        }
    }

    fn ring_table(
        &mut self,
        alloc: Global,
        queue: u32,
        op: TableRing,
    ) -> Result<TableRingSaid, PartsError> {
        match self.shared.rings.get(queue as usize) {
            Some(locked) => hold_table(&self.rt, alloc, locked, &self.shared.memory, op),
            None => {
                let memory = self.shared.memory.lock(&self.rt);
                Ok(closed_table_said(&*memory, op))
            }
        }
    }

    fn ring_host(
        &mut self,
        alloc: Global,
        queue: u32,
        object: u32,
    ) -> Result<KickSaid, PartsError> {
        match self.shared.rings.get(queue as usize) {
            Some(locked) => hold_kick(&self.rt, alloc, locked, &self.shared.host, object),
            None => Ok(KickSaid::Stale),
        }
    }

    fn put(&mut self, alloc: Global, entry: &Entry, reply: &[u8]) -> Result<PutSaid, PartsError> {
        let Ok(copy) = Bytes::from_slice(alloc, reply) else {
            return Err(PartsError::OutOfMemory);
        };
        if self.spent.reserve(1).is_err() {
            return Err(PartsError::OutOfMemory);
        }
        let said = match self.shared.rings.get(entry.queue as usize) {
            Some(locked) => hold_put(
                &self.rt,
                alloc,
                locked,
                &self.shared.memory,
                &self.shared.host,
                entry,
                reply,
            )?,
            None => PutSaid::Held(PutFault::RingOutside),
        };
        let held = matches!(said, PutSaid::Held(_));
        spend(&mut self.receipts, &mut self.spent, entry, copy, held);
        Ok(said)
    }

    fn host(&mut self, alloc: Global, op: HostOp) -> Result<HostSaid, PartsError> {
        hold_host(&self.rt, alloc, &self.shared.host, op)
    }

    fn table(&mut self, alloc: Global, op: TableOp) -> Result<TableSaid, PartsError> {
        let mut memory = self.shared.memory.lock(&self.rt);
        play_memory(alloc, &mut *memory, op)
    }

    fn set_log(
        &mut self,
        object: u32,
        offset: u64,
        size: u64,
        tracks: bool,
    ) -> Result<LogSaid, PartsError> {
        let mut memory = self.shared.memory.lock(&self.rt);
        Ok(play_log(&mut *memory, object, offset, size, tracks))
    }

    fn pend(&mut self, alloc: Global, worker: u32, op: PendOp) -> Result<PendSaid, PartsError> {
        match self.shared.pending.get(worker as usize) {
            Some(locked) => {
                let mut set = locked.lock(&self.rt);
                play_pend(alloc, &mut *set, op)
            }
            None => Ok(missing_said(alloc, op)),
        }
    }

    fn service(&mut self, alloc: Global, entry: &Entry) -> Result<Bytes, PartsError> {
        if self.receipts.reserve(1).is_err() {
            return Err(PartsError::OutOfMemory);
        }
        self.shared.gate.pass(entry.queue, entry.number);
        let mut book = self.shared.service.lock(&self.rt);
        match book.serve(alloc, entry) {
            Ok((reply, receipt)) => {
                self.receipts.push_reserved(receipt);
                Ok(reply)
            }
            Err(_) => Err(PartsError::OutOfMemory),
        }
    }

    fn wait_ready(&mut self, list: u32) {
        await_ready(&self.rt, &self.shared.host, list);
    }

    fn device(&mut self, alloc: Global, op: DeviceOp) -> Result<DeviceSaid, PartsError> {
        let mut device = self.shared.device.lock(&self.rt);
        let said = play_device(alloc, &mut *device, op)?;
        self.refusals = counted(self.refusals, &said);
        Ok(said)
    }

    fn constants(&mut self, alloc: Global) -> Result<Constants, OutOfMemory> {
        copy_constants(alloc, &self.shared.constants)
    }
}
