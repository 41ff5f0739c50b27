ghost use Rattle.std.specs.Prelude.{◌≡◌, ◌≤◌, Some};
ghost use Rattle.vub_base.specs.Causes.{one_more};
ghost use Rattle.vub_proto.specs.Fixed.{fixed_exit, fixed_said, fixed_moved};

use crate::device::VhostUserBackendMut;
use crate::device_op::Backend;
use crate::refused::Refused;
use std::alloc::Global;
use vub_base::{Bytes, Listed, OutOfMemory};
use vub_mem::Region;

/// A device of these constants. It has no config space, handles each event, and refuses the other calls that it may
/// refuse.
#[derive(Debug, Drop)]
pub struct FixedDevice {
    /// The number of queues.
    pub queues: usize,
    /// The greatest size of a queue, in descriptors.
    pub max: usize,
    /// The virtio feature bits that are offered.
    pub features: u64,
    /// The vhost-user protocol feature bits that are offered.
    pub protocol: u64,
    /// For each worker the mask of its queues: bit `q` stands for queue `q`.
    pub masks: Listed<u64>,
    /// For each worker its exit object; a worker beyond them has none.
    pub exits: Listed<Option<u32>>,
    /// How many calls it has refused.
    pub refusals: u64,
}

/// The number of a config space that is not there (`EINVAL` of errno(3)).
const INVALID: i32 = 22;

/// The number of a call that the device does not know (`EOPNOTSUPP` of errno(3)).
const UNSUPPORTED: i32 = 95;

impl FixedDevice {
    /// Counts a refusal. A count that stands at its end stays.
    fn refuse(&mut self, number: i32) -> Refused
        ensures said { result.0 ≡ number }
        ensures counted { self.new ≡ record self.old { refusals = one_more self.old.refusals } }
        ensures later { self.old.refusals ≤ self.new.refusals }
    {
        self.refusals = self.refusals.saturating_add(1);
        Refused(number)
    }
}

impl VhostUserBackendMut for FixedDevice {
    type Bitmap = ();

    ghost queue_count = { λ d. d.queues };

    ghost greatest_size = { λ d. d.max };

    ghost offered = { λ d. d.features };

    ghost protocol_offered = { λ d. d.protocol };

    ghost masks = { λ d. d.masks };

    ghost exit_of = { λ d worker. fixed_exit d worker };

    ghost refusal_count = { λ d. d.refusals };

    ghost value = { λ d. Some d };

    ghost said = { λ d op. fixed_said op };

    ghost moved = { λ d op. fixed_moved d op };

    fn num_queues(&self) -> usize {
        self.queues
    }

    fn max_queue_size(&self) -> usize {
        self.max
    }

    fn features(&self) -> u64 {
        self.features
    }

    fn protocol_features(&self) -> u64 {
        self.protocol
    }

    fn queues_per_thread(&self, alloc: Global) -> Result<Vec<u64>, OutOfMemory> {
        let masks = Vec::from_slice(alloc, self.masks.as_slice())?;
        Ok(masks)
    }

    fn exit_event(&self, worker: usize) -> Option<u32> {
        match self.exits.as_slice().get(worker) {
            Some(exit) => *exit,
            None => None,
        }
    }

    fn refusals(&self) -> u64 {
        self.refusals
    }

    fn acked_features(&mut self, _features: u64) {}

    fn reset_device(&mut self) {}

    fn set_event_idx(&mut self, _enabled: bool) {}

    fn set_backend_req_fd(&mut self, _backend: Backend) {}

    fn get_config(
        &mut self,
        alloc: Global,
        _offset: u32,
        _size: u32,
    ) -> Result<Bytes, OutOfMemory> {
        Ok(Bytes::new(alloc))
    }

    fn set_config(&mut self, _offset: u32, _buf: &[u8]) -> Result<(), Refused> {
        Err(self.refuse(INVALID))
    }

    fn update_memory(&mut self, _regions: &[Region]) -> Result<(), Refused> {
        Ok(())
    }

    fn stop_vring(&mut self, _queue_index: u32) -> Result<(), Refused> {
        Ok(())
    }

    fn handle_event(&mut self, _token: u64, _worker: u32) -> Result<(), Refused> {
        Ok(())
    }

    fn get_shared_object(&mut self, _uuid: u128) -> Result<u32, Refused> {
        Err(self.refuse(UNSUPPORTED))
    }

    fn set_gpu_socket(&mut self, _object: u32) -> Result<(), Refused> {
        Err(self.refuse(UNSUPPORTED))
    }

    fn set_device_state_fd(
        &mut self,
        _direction: u32,
        _phase: u32,
        _object: u32,
    ) -> Result<Option<u32>, Refused> {
        Err(self.refuse(UNSUPPORTED))
    }

    fn check_device_state(&mut self) -> Result<(), Refused> {
        Err(self.refuse(UNSUPPORTED))
    }

    fn get_shmem_config(&mut self) -> Result<u32, Refused> {
        Err(self.refuse(UNSUPPORTED))
    }
}
