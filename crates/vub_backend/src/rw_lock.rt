ghost use Rattle.std.specs.Prelude.{◌≡◌, IfOk};
ghost use Rattle.vub_open.specs.Asked.{constants_by};

use std::alloc::Global;
use std::fmt;
use std::marker::Model;
use std::sync::{RwLock, Wait};
use vub_base::{Bytes, OutOfMemory};
use vub_mem::Region;
use vub_model::Constants;
use vub_open::read_constants;
use vub_proto::{Backend, Refused, VhostUserBackend, VhostUserBackendMut};

/// A device behind a `RwLock` (the Rust crate `vhost-user-backend` takes the lock itself as a device). It keeps the
/// runtime by which the lock waits, and the device's constants as they were read at making, so that these are read
/// without the lock. A contract sees it as those constants.
#[derive(Drop)]
pub struct RwLockBackend<D: VhostUserBackendMut, R: Wait + Drop> {
    rt: R,
    constants: Constants,
    device: RwLock<D>,
}

impl<D: VhostUserBackendMut, R: Wait + Drop> Model for RwLockBackend<D, R> {
    ghost use Rattle.vub_model.specs.declared.constants.Constants.{Constants};

    ghost Value = { Constants };

    ghost view = { λ b. b.constants };
}

/// Shows the constants, and asks neither the lock nor the device.
impl<D: VhostUserBackendMut, R: Wait + Drop> fmt::Debug for RwLockBackend<D, R> {
    fn fmt<W: fmt::Write>(&self, f: &mut fmt::Formatter<W>) -> fmt::Result {
        write!(f, "RwLockBackend {{ constants: {:?} }}", self.constants)
    }
}

impl<D: VhostUserBackendMut, R: Wait + Drop> RwLockBackend<D, R> {
    /// This device behind a lock. A worker without a mask has no exit object.
    ///
    /// # Errors
    /// Want of memory; the device is dropped then.
    pub fn new(rt: R, alloc: Global, device: D) -> Result<RwLockBackend<D, R>, OutOfMemory>
        ensures { IfOk result (λ backend. backend ≡ constants_by D.VhostUserBackendMut D.Bitmap.TRACKS device) }
    {
        let constants = read_constants(alloc, &device)?;
        Ok(RwLockBackend {
            rt,
            constants,
            device: RwLock::new(device),
        })
    }
}

/// Each call but those of the constants takes the lock, and calls the device.
impl<D: VhostUserBackendMut, R: Wait + Drop> VhostUserBackend for RwLockBackend<D, R> {
    type Bitmap = D::Bitmap;

    ghost use Rattle.vub_vring.specs.Worker.{exit_in};

    ghost queue_count = { λ b. b.queues };

    ghost greatest_size = { λ b. b.max };

    ghost offered = { λ b. b.features };

    ghost protocol_offered = { λ b. b.protocol };

    ghost masks = { λ b. b.masks };

    ghost exit_of = { λ b. exit_in b };

    fn num_queues(&self) -> usize {
        self.constants.queues
    }

    fn max_queue_size(&self) -> usize {
        self.constants.max
    }

    fn features(&self) -> u64 {
        self.constants.features
    }

    fn protocol_features(&self) -> u64 {
        self.constants.protocol
    }

    fn queues_per_thread(&self, alloc: Global) -> Result<Vec<u64>, OutOfMemory> {
        let masks = Vec::from_slice(alloc, self.constants.masks.as_slice())?;
        Ok(masks)
    }

    fn exit_event(&self, worker: usize) -> Option<u32> {
        match self.constants.exits.as_slice().get(worker) {
            Some(exit) => *exit,
            None => None,
        }
    }

    fn acked_features(&self, features: u64) {
        let mut device = self.device.write(&self.rt);
        device.acked_features(features);
    }

    fn reset_device(&self) {
        let mut device = self.device.write(&self.rt);
        device.reset_device();
    }

    fn set_event_idx(&self, enabled: bool) {
        let mut device = self.device.write(&self.rt);
        device.set_event_idx(enabled);
    }

    fn set_backend_req_fd(&self, backend: Backend) {
        let mut device = self.device.write(&self.rt);
        device.set_backend_req_fd(backend);
    }

    fn get_config(&self, alloc: Global, offset: u32, size: u32) -> Result<Bytes, OutOfMemory> {
        let mut device = self.device.write(&self.rt);
        device.get_config(alloc, offset, size)
    }

    fn set_config(&self, offset: u32, buf: &[u8]) -> Result<(), Refused> {
        let mut device = self.device.write(&self.rt);
        device.set_config(offset, buf)
    }

    fn update_memory(&self, regions: &[Region]) -> Result<(), Refused> {
        let mut device = self.device.write(&self.rt);
        device.update_memory(regions)
    }

    fn stop_vring(&self, queue_index: u32) -> Result<(), Refused> {
        let mut device = self.device.write(&self.rt);
        device.stop_vring(queue_index)
    }

    fn handle_event(&self, token: u64, worker: u32) -> Result<(), Refused> {
        let mut device = self.device.write(&self.rt);
        device.handle_event(token, worker)
    }

    fn get_shared_object(&self, uuid: u128) -> Result<u32, Refused> {
        let mut device = self.device.write(&self.rt);
        device.get_shared_object(uuid)
    }

    fn set_gpu_socket(&self, object: u32) -> Result<(), Refused> {
        let mut device = self.device.write(&self.rt);
        device.set_gpu_socket(object)
    }

    fn set_device_state_fd(
        &self,
        direction: u32,
        phase: u32,
        object: u32,
    ) -> Result<Option<u32>, Refused> {
        let mut device = self.device.write(&self.rt);
        device.set_device_state_fd(direction, phase, object)
    }

    fn check_device_state(&self) -> Result<(), Refused> {
        let mut device = self.device.write(&self.rt);
        device.check_device_state()
    }

    fn get_shmem_config(&self) -> Result<u32, Refused> {
        let mut device = self.device.write(&self.rt);
        device.get_shmem_config()
    }
}
