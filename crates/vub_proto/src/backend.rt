ghost use Rattle.std.specs.Prelude.{◌≡◌, ℕ, List, Option, IfOk};

use crate::device_op::Backend;
use crate::refused::Refused;
use std::alloc::Global;
use std::sync::Arc;
use vub_base::{Bytes, OutOfMemory};
use vub_mem::{BitmapReplace, Region};

/// The device behind a vhost-user daemon whose calls take it by a shared reference (`VhostUserBackend` of the Rust
/// crate `vhost-user-backend`), so that several threads may make them.
///
/// It has the calls of `VhostUserBackendMut` but for the count of refusals. A lawful one keeps its constants. It tells
/// nothing of what a call did, since another thread may have called it in between.
pub trait VhostUserBackend: Drop {
    /// How the device marks dirty pages: its `TRACKS` says whether the regions of guest memory may get a log.
    type Bitmap: BitmapReplace;

    // the device's constants
    ghost queue_count: { Self → ℕ };

    ghost greatest_size: { Self → ℕ };

    ghost offered: { Self → ℕ };

    ghost protocol_offered: { Self → ℕ };

    ghost masks: { Self → List ℕ };

    ghost exit_of: { Self → ℕ → Option ℕ };

    /// The number of queues.
    fn num_queues(&self) -> usize
        ensures { result ≡ queue_count self.now };

    /// The greatest size of a queue, in descriptors.
    fn max_queue_size(&self) -> usize
        ensures { result ≡ greatest_size self.now };

    /// The virtio feature bits that are offered.
    fn features(&self) -> u64
        ensures { result ≡ offered self.now };

    /// The vhost-user protocol feature bits that are offered.
    fn protocol_features(&self) -> u64
        ensures { result ≡ protocol_offered self.now };

    /// For each worker the mask of the queues that it serves: bit `q` stands for queue `q`. A queue belongs to the
    /// first worker whose mask has its bit.
    ///
    /// # Errors
    /// Want of memory.
    fn queues_per_thread(&self, alloc: Global) -> Result<Vec<u64>, OutOfMemory>
        ensures { IfOk result (λ list. list.items ≡ masks self.now) };

    /// The event object that ends this worker, if it has one.
    fn exit_event(&self, worker: usize) -> Option<u32>
        ensures { result ≡ exit_of self.now worker };

    /// The driver has acknowledged these virtio feature bits.
    fn acked_features(&self, features: u64);

    /// The device is reset (`VHOST_USER_RESET_DEVICE`).
    fn reset_device(&self);

    /// Notifications go by index from now on, or no longer (`VIRTIO_F_EVENT_IDX`).
    fn set_event_idx(&self, enabled: bool);

    /// The device sends requests of its own over this object (`VHOST_USER_SET_BACKEND_REQ_FD`).
    fn set_backend_req_fd(&self, backend: Backend);

    /// The bytes of the device's config space from byte `offset` on, at most `size` of them
    /// (`VHOST_USER_GET_CONFIG`).
    ///
    /// # Errors
    /// Want of memory.
    fn get_config(&self, alloc: Global, offset: u32, size: u32) -> Result<Bytes, OutOfMemory>;

    /// Sets the bytes of the device's config space from byte `offset` on (`VHOST_USER_SET_CONFIG`).
    ///
    /// # Errors
    /// The device's own refusal.
    fn set_config(&self, offset: u32, buf: &[u8]) -> Result<(), Refused>;

    /// These are the regions of guest memory from now on.
    ///
    /// # Errors
    /// The device's own refusal.
    fn update_memory(&self, regions: &[Region]) -> Result<(), Refused>;

    /// The queue is stopped: none of its entries is taken before it is started anew (`VHOST_USER_GET_VRING_BASE`).
    ///
    /// # Errors
    /// The device's own refusal.
    fn stop_vring(&self, queue_index: u32) -> Result<(), Refused>;

    /// A listener that was registered under this token has reported an event to this worker.
    ///
    /// # Errors
    /// The device's own refusal.
    fn handle_event(&self, token: u64, worker: u32) -> Result<(), Refused>;

    /// The object that is shared under this identifier (`VHOST_USER_GET_SHARED_OBJECT`).
    ///
    /// # Errors
    /// The device's own refusal.
    fn get_shared_object(&self, uuid: u128) -> Result<u32, Refused>;

    /// The device sends graphics messages over this object (`VHOST_USER_GPU_SET_SOCKET`).
    ///
    /// # Errors
    /// The device's own refusal.
    fn set_gpu_socket(&self, object: u32) -> Result<(), Refused>;

    /// The device's state is saved to this object (direction 0) or loaded from it (direction 1), in this phase of a
    /// migration (`VHOST_USER_SET_DEVICE_STATE_FD`). The answer is another object to be used in its place, if there is
    /// one.
    ///
    /// # Errors
    /// The device's own refusal.
    fn set_device_state_fd(
        &self,
        direction: u32,
        phase: u32,
        object: u32,
    ) -> Result<Option<u32>, Refused>;

    /// Whether the device's state was saved or loaded (`VHOST_USER_CHECK_DEVICE_STATE`).
    ///
    /// # Errors
    /// The device's own refusal.
    fn check_device_state(&self) -> Result<(), Refused>;

    /// The number of the device's shared memory regions (`VHOST_USER_GET_SHMEM_CONFIG`).
    ///
    /// # Errors
    /// The device's own refusal.
    fn get_shmem_config(&self) -> Result<u32, Refused>;
}

/// A device that several owners share is the device.
impl<B: VhostUserBackend> VhostUserBackend for Arc<B, Global> {
    type Bitmap = B::Bitmap;

    ghost use Rattle.std.specs.Arc.{arc_value};

    ghost queue_count = { λ b. B.queue_count (arc_value b) };

    ghost greatest_size = { λ b. B.greatest_size (arc_value b) };

    ghost offered = { λ b. B.offered (arc_value b) };

    ghost protocol_offered = { λ b. B.protocol_offered (arc_value b) };

    ghost masks = { λ b. B.masks (arc_value b) };

    ghost exit_of = { λ b. B.exit_of (arc_value b) };

    fn num_queues(&self) -> usize {
        (**self).num_queues()
    }

    fn max_queue_size(&self) -> usize {
        (**self).max_queue_size()
    }

    fn features(&self) -> u64 {
        (**self).features()
    }

    fn protocol_features(&self) -> u64 {
        (**self).protocol_features()
    }

    fn queues_per_thread(&self, alloc: Global) -> Result<Vec<u64>, OutOfMemory> {
        (**self).queues_per_thread(alloc)
    }

    fn exit_event(&self, worker: usize) -> Option<u32> {
        (**self).exit_event(worker)
    }

    fn acked_features(&self, features: u64) {
        (**self).acked_features(features);
    }

    fn reset_device(&self) {
        (**self).reset_device();
    }

    fn set_event_idx(&self, enabled: bool) {
        (**self).set_event_idx(enabled);
    }

    fn set_backend_req_fd(&self, backend: Backend) {
        (**self).set_backend_req_fd(backend);
    }

    fn get_config(&self, alloc: Global, offset: u32, size: u32) -> Result<Bytes, OutOfMemory> {
        (**self).get_config(alloc, offset, size)
    }

    fn set_config(&self, offset: u32, buf: &[u8]) -> Result<(), Refused> {
        (**self).set_config(offset, buf)
    }

    fn update_memory(&self, regions: &[Region]) -> Result<(), Refused> {
        (**self).update_memory(regions)
    }

    fn stop_vring(&self, queue_index: u32) -> Result<(), Refused> {
        (**self).stop_vring(queue_index)
    }

    fn handle_event(&self, token: u64, worker: u32) -> Result<(), Refused> {
        (**self).handle_event(token, worker)
    }

    fn get_shared_object(&self, uuid: u128) -> Result<u32, Refused> {
        (**self).get_shared_object(uuid)
    }

    fn set_gpu_socket(&self, object: u32) -> Result<(), Refused> {
        (**self).set_gpu_socket(object)
    }

    fn set_device_state_fd(
        &self,
        direction: u32,
        phase: u32,
        object: u32,
    ) -> Result<Option<u32>, Refused> {
        (**self).set_device_state_fd(direction, phase, object)
    }

    fn check_device_state(&self) -> Result<(), Refused> {
        (**self).check_device_state()
    }

    fn get_shmem_config(&self) -> Result<u32, Refused> {
        (**self).get_shmem_config()
    }
}
