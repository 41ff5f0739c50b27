ghost use Rattle.std.specs.Prelude.{◌≡◌, [], ◌∷◌, Some};
ghost use Rattle.vub_vring.specs.Store.{shared_of};

use crate::asking::play_device;
use crate::changing::{play_log, play_memory};
use crate::ops::{HostOp, HostSaid, LogSaid, TableSaid};
use crate::parts::Parts;
use crate::store::{Store, copy_constants, host_at, kick_at, pend_at, put_at, ring_at, table_at};
use std::alloc::Global;
use vub_base::{Bytes, OutOfMemory};
use vub_event::Host;
use vub_model::{Constants, Entry, RingOp, RingSaid, TableOp};
use vub_proto::{DeviceOp, DeviceSaid, Service, VhostUserBackendMut};
use vub_ring::{KickSaid, PartsError, PendOp, PendSaid, PutSaid, TableRing, TableRingSaid};

/// All parts, lent: they tell what they hold. They own no memory, so that what is lent comes back known.
#[derive(Drop)]
pub struct OwnedParts<'a, D, V> {
    pub store: &'a mut Store,
    pub device: &'a mut D,
    pub service: &'a mut V,
    pub constants: &'a Constants,
}

impl<'a, D: VhostUserBackendMut, V: Service> Parts for OwnedParts<'a, D, V> {
    type Service = V;

    type Device = D;

    ghost state = { λ p. record {
      shared = Some (shared_of p.store.now p.service.now);
      device = D.value p.device.now;
      faults = p.store.now.host.plan.faults;
      refusals = D.refusal_count p.device.now;
      NeverFails = p.store.now.host.plan.calls.items ≡ [];
      loan = p.store.ghost_name ∷ p.device.ghost_name ∷ p.service.ghost_name ∷ [];
      constants = Some p.constants.now;
    } };

    fn faults(&self) -> u64 {
        self.store.host.faults()
    }

    fn refusals(&self) -> u64 {
        self.device.refusals()
    }

    #[tactic(auto, using(crate::proofs::Holding::ring_row, crate::proofs::Holding::quiet_counts))]
    fn ring(&mut self, alloc: Global, queue: u32, op: RingOp) -> Result<RingSaid, PartsError> {
        ring_at(alloc, &mut self.store.rings, queue, op)
    }

    #[tactic(auto, using(crate::proofs::Holding::table_ring_row, crate::proofs::Holding::quiet_counts))]
    fn ring_table(
        &mut self,
        alloc: Global,
        queue: u32,
        op: TableRing,
    ) -> Result<TableRingSaid, PartsError> {
        let store = &mut *self.store;
        table_at(alloc, &mut store.rings, &mut store.memory, queue, op)
    }

    #[tactic(auto, using(crate::proofs::Holding::kick_row))]
    fn ring_host(
        &mut self,
        alloc: Global,
        queue: u32,
        object: u32,
    ) -> Result<KickSaid, PartsError> {
        let store = &mut *self.store;
        kick_at(alloc, &mut store.rings, &mut store.host, queue, object)
    }

    #[tactic(auto, using(crate::proofs::Holding::put_row, crate::proofs::Holding::put_sound))]
    fn put(&mut self, alloc: Global, entry: &Entry, reply: &[u8]) -> Result<PutSaid, PartsError> {
        let store = &mut *self.store;
        put_at(
            alloc,
            &mut store.rings,
            &mut store.memory,
            &mut store.host,
            entry,
            reply,
        )
    }

    #[tactic(auto, using(crate::proofs::Holding::host_row))]
    fn host(&mut self, alloc: Global, op: HostOp) -> Result<HostSaid, PartsError> {
        host_at(alloc, &mut self.store.host, op)
    }

    #[tactic(auto, using(crate::proofs::Holding::table_row, crate::proofs::Holding::quiet_counts))]
    fn table(&mut self, alloc: Global, op: TableOp) -> Result<TableSaid, PartsError> {
        play_memory(alloc, &mut self.store.memory, op)
    }

    #[tactic(auto, using(crate::proofs::Holding::log_row, crate::proofs::Holding::quiet_counts))]
    fn set_log(
        &mut self,
        object: u32,
        offset: u64,
        size: u64,
        tracks: bool,
    ) -> Result<LogSaid, PartsError> {
        Ok(play_log(&mut self.store.memory, object, offset, size, tracks))
    }

    #[tactic(auto, using(crate::proofs::Holding::pend_row, crate::proofs::Holding::quiet_counts))]
    fn pend(&mut self, alloc: Global, worker: u32, op: PendOp) -> Result<PendSaid, PartsError> {
        pend_at(alloc, &mut self.store.pending, worker, op)
    }

    fn service(&mut self, alloc: Global, entry: &Entry) -> Result<Bytes, PartsError> {
        match self
            .service
            .serve(alloc, entry.chain.request.as_slice(), entry.chain.room)
        {
            Ok(reply) => Ok(reply),
            Err(_) => Err(PartsError::OutOfMemory),
        }
    }

    fn wait_ready(&mut self, _list: u32) {}

    fn device(&mut self, alloc: Global, op: DeviceOp) -> Result<DeviceSaid, PartsError> {
        play_device(alloc, self.device, op)
    }

    fn constants(&mut self, alloc: Global) -> Result<Constants, OutOfMemory> {
        copy_constants(alloc, self.constants)
    }
}
