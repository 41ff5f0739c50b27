//! Parts that tell nothing of what they hold, as those behind locks.
ghost use Rattle.std.specs.Prelude.{[], None};

use std::alloc::Global;
use vub_base::{Bytes, OutOfMemory};
use vub_model::{Constants, Entry, RingOp, RingSaid, TableOp};
use vub_proto::{DeviceOp, DeviceSaid, Service, VhostUserBackendMut};
use vub_ring::{KickSaid, PartsError, PendOp, PendSaid, PutSaid, TableRing, TableRingSaid};
use vub_vring::{HostOp, HostSaid, LogSaid, OwnedParts, Parts, TableSaid};

/// Parts that tell nothing. They pass each call on. A change that has to wait is not made, and they answer that it was.
#[derive(Drop)]
pub(crate) struct SilentParts<'a, D, V> {
    pub inner: OwnedParts<'a, D, V>,
}

impl<'a, D: VhostUserBackendMut, V: Service> Parts for SilentParts<'a, D, V> {
    type Service = V;

    type Device = D;

    ghost state = { λ p. record {
      shared = None;
      device = None;
      faults = p.inner.store.now.host.plan.faults;
      refusals = D.refusal_count p.inner.device.now;
      NeverFails = ⊥;
      loan = [];
      constants = None;
    } };

    fn faults(&self) -> u64 {
        self.inner.faults()
    }

    fn refusals(&self) -> u64 {
        self.inner.refusals()
    }

    fn ring(&mut self, alloc: Global, queue: u32, op: RingOp) -> Result<RingSaid, PartsError> {
        match self.inner.ring(alloc, queue, op)? {
            RingSaid::Waits => Ok(RingSaid::Done),
            said => Ok(said),
        }
    }

    fn ring_table(
        &mut self,
        alloc: Global,
        queue: u32,
        op: TableRing,
    ) -> Result<TableRingSaid, PartsError> {
        match self.inner.ring_table(alloc, queue, op)? {
            TableRingSaid::Waits => Ok(TableRingSaid::Done),
            said => Ok(said),
        }
    }

    fn ring_host(
        &mut self,
        alloc: Global,
        queue: u32,
        object: u32,
    ) -> Result<KickSaid, PartsError> {
        self.inner.ring_host(alloc, queue, object)
    }

    fn put(&mut self, alloc: Global, entry: &Entry, reply: &[u8]) -> Result<PutSaid, PartsError> {
        self.inner.put(alloc, entry, reply)
    }

    fn host(&mut self, alloc: Global, op: HostOp) -> Result<HostSaid, PartsError> {
        self.inner.host(alloc, op)
    }

    fn table(&mut self, alloc: Global, op: TableOp) -> Result<TableSaid, PartsError> {
        self.inner.table(alloc, op)
    }

    fn set_log(
        &mut self,
        object: u32,
        offset: u64,
        size: u64,
        tracks: bool,
    ) -> Result<LogSaid, PartsError> {
        self.inner.set_log(object, offset, size, tracks)
    }

    fn pend(&mut self, alloc: Global, worker: u32, op: PendOp) -> Result<PendSaid, PartsError> {
        self.inner.pend(alloc, worker, op)
    }

    fn service(&mut self, alloc: Global, entry: &Entry) -> Result<Bytes, PartsError> {
        self.inner.service(alloc, entry)
    }

    fn wait_ready(&mut self, list: u32) {
        self.inner.wait_ready(list);
    }

    fn device(&mut self, alloc: Global, op: DeviceOp) -> Result<DeviceSaid, PartsError> {
        self.inner.device(alloc, op)
    }

    fn constants(&mut self, alloc: Global) -> Result<Constants, OutOfMemory> {
        self.inner.constants(alloc)
    }
}
