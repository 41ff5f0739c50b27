ghost use Rattle.std.specs.Prelude.{◌≡◌, ◌≤◌, ℕ, List, Option, Some, IfOk, OnErr};
ghost use Rattle.vub_proto.specs.Device.{said_by, done_by, Answers, CountsRefusals, AreConstant};
ghost use Rattle.vub_proto.specs.declared.device_op.DeviceOp.{DeviceOp};
ghost use Rattle.vub_proto.specs.declared.device_said.DeviceSaid.{DeviceSaid};

use crate::device_op::Backend;
use crate::refused::Refused;
use std::alloc::Global;
use vub_base::{Bytes, OutOfMemory};
use vub_mem::{BitmapReplace, Region};

/// The device behind a vhost-user daemon (`VhostUserBackendMut` of the Rust crate `vhost-user-backend`).
///
/// A lawful device is one that meets these clauses, which every implementation is proved to. Its constants never
/// change. A call that it refuses raises its count of refusals, unless that stands at `u64::MAX`. A device may tell its
/// value: then each call says what the device means to say at this value, and leaves the value that it means to leave;
/// only want of memory leaves the value as it was.
pub trait VhostUserBackendMut: Drop {
    /// How the device marks dirty pages: its `TRACKS` says whether the regions of guest memory may get a log.
    type Bitmap: BitmapReplace;

    // the device's constants
    ghost queue_count: { Self → ℕ };

    ghost greatest_size: { Self → ℕ };

    ghost offered: { Self → ℕ };

    ghost protocol_offered: { Self → ℕ };

    ghost masks: { Self → List ℕ };

    ghost exit_of: { Self → ℕ → Option ℕ };

    // how many of its calls it has refused
    ghost refusal_count: { Self → ℕ };

    // the device's value, where it is told
    ghost value: { Self → Option Self };

    // what a device of this value says at a call
    ghost said: { Self → DeviceOp → DeviceSaid };

    // its value after the call
    ghost moved: { Self → DeviceOp → Self };

    /// The number of queues.
    fn num_queues(&self) -> usize
        ensures { result ≡ queue_count self.now };

    /// The greatest size of a queue, in descriptors.
    fn max_queue_size(&self) -> usize
        ensures { result ≡ greatest_size self.now };

    /// The virtio feature bits that are offered.
    fn features(&self) -> u64
        ensures { result ≡ offered self.now };

    /// The vhost-user protocol feature bits that are offered.
    fn protocol_features(&self) -> u64
        ensures { result ≡ protocol_offered self.now };

    /// For each worker the mask of the queues that it serves: bit `q` stands for queue `q`. A queue belongs to the
    /// first worker whose mask has its bit.
    ///
    /// # Errors
    /// Want of memory.
    fn queues_per_thread(&self, alloc: Global) -> Result<Vec<u64>, OutOfMemory>
        ensures { IfOk result (λ list. list.items ≡ masks self.now) };

    /// The event object that ends this worker, if it has one.
    fn exit_event(&self, worker: usize) -> Option<u32>
        ensures { result ≡ exit_of self.now worker };

    /// How many of its calls the device has refused. The count never falls.
    fn refusals(&self) -> u64
        ensures { result ≡ refusal_count self.now };

    /// The driver has acknowledged these virtio feature bits.
    fn acked_features(&mut self, features: u64)
        ensures told { Answers said moved (DeviceOp.AckedFeatures features) DeviceSaid.Done
            (value self.old) (value self.new) }
        ensures count { refusal_count self.old ≤ refusal_count self.new }
        ensures same { AreConstant queue_count greatest_size offered protocol_offered masks exit_of self.old self.new };

    /// The device is reset (`VHOST_USER_RESET_DEVICE`).
    fn reset_device(&mut self)
        ensures told { Answers said moved DeviceOp.ResetDevice DeviceSaid.Done (value self.old) (value self.new) }
        ensures count { refusal_count self.old ≤ refusal_count self.new }
        ensures same { AreConstant queue_count greatest_size offered protocol_offered masks exit_of self.old self.new };

    /// Notifications go by index from now on, or no longer (`VIRTIO_F_EVENT_IDX`).
    fn set_event_idx(&mut self, enabled: bool)
        ensures told { Answers said moved (DeviceOp.SetEventIdx enabled) DeviceSaid.Done
            (value self.old) (value self.new) }
        ensures count { refusal_count self.old ≤ refusal_count self.new }
        ensures same { AreConstant queue_count greatest_size offered protocol_offered masks exit_of self.old self.new };

    /// The device sends requests of its own over this object (`VHOST_USER_SET_BACKEND_REQ_FD`).
    fn set_backend_req_fd(&mut self, backend: Backend)
        ensures told { Answers said moved (DeviceOp.SetBackendReqFd backend) DeviceSaid.Done
            (value self.old) (value self.new) }
        ensures count { refusal_count self.old ≤ refusal_count self.new }
        ensures same { AreConstant queue_count greatest_size offered protocol_offered masks exit_of self.old self.new };

    /// The bytes of the device's config space from byte `offset` on, at most `size` of them
    /// (`VHOST_USER_GET_CONFIG`).
    ///
    /// # Errors
    /// Want of memory leaves the device's value as it was.
    fn get_config(&mut self, alloc: Global, offset: u32, size: u32) -> Result<Bytes, OutOfMemory>
        ensures told { IfOk result (λ bytes. Answers said moved (DeviceOp.GetConfig offset size)
            (DeviceSaid.Content bytes) (value self.old) (value self.new)) }
        ensures err { OnErr result (value self.new ≡ value self.old) }
        ensures count { refusal_count self.old ≤ refusal_count self.new }
        ensures same { AreConstant queue_count greatest_size offered protocol_offered masks exit_of self.old self.new };

    /// Sets the bytes of the device's config space from byte `offset` on (`VHOST_USER_SET_CONFIG`).
    ///
    /// # Errors
    /// The device's own refusal.
    fn set_config(&mut self, offset: u32, buf: &[u8]) -> Result<(), Refused>
        ensures told { Answers said moved (DeviceOp.SetConfig offset buf.now) (done_by result)
            (value self.old) (value self.new) }
        ensures count { CountsRefusals (refusal_count self.old) (refusal_count self.new) result }
        ensures same { AreConstant queue_count greatest_size offered protocol_offered masks exit_of self.old self.new };

    /// These are the regions of guest memory from now on.
    ///
    /// # Errors
    /// The device's own refusal.
    fn update_memory(&mut self, regions: &[Region]) -> Result<(), Refused>
        ensures told { Answers said moved (DeviceOp.UpdateMemory regions.now) (done_by result)
            (value self.old) (value self.new) }
        ensures count { CountsRefusals (refusal_count self.old) (refusal_count self.new) result }
        ensures same { AreConstant queue_count greatest_size offered protocol_offered masks exit_of self.old self.new };

    /// The queue is stopped: none of its entries is taken before it is started anew (`VHOST_USER_GET_VRING_BASE`).
    ///
    /// # Errors
    /// The device's own refusal.
    fn stop_vring(&mut self, queue_index: u32) -> Result<(), Refused>
        ensures told { Answers said moved (DeviceOp.StopVring queue_index) (done_by result)
            (value self.old) (value self.new) }
        ensures count { CountsRefusals (refusal_count self.old) (refusal_count self.new) result }
        ensures same { AreConstant queue_count greatest_size offered protocol_offered masks exit_of self.old self.new };

    /// A listener that was registered under this token has reported an event to this worker.
    ///
    /// # Errors
    /// The device's own refusal.
    fn handle_event(&mut self, token: u64, worker: u32) -> Result<(), Refused>
        ensures told { Answers said moved (DeviceOp.HandleEvent token worker) (done_by result)
            (value self.old) (value self.new) }
        ensures count { CountsRefusals (refusal_count self.old) (refusal_count self.new) result }
        ensures same { AreConstant queue_count greatest_size offered protocol_offered masks exit_of self.old self.new };

    /// The object that is shared under this identifier (`VHOST_USER_GET_SHARED_OBJECT`).
    ///
    /// # Errors
    /// The device's own refusal.
    fn get_shared_object(&mut self, uuid: u128) -> Result<u32, Refused>
        ensures told { Answers said moved (DeviceOp.GetSharedObject uuid)
            (said_by (λ object. DeviceSaid.Object (Some object)) result) (value self.old) (value self.new) }
        ensures count { CountsRefusals (refusal_count self.old) (refusal_count self.new) result }
        ensures same { AreConstant queue_count greatest_size offered protocol_offered masks exit_of self.old self.new };

    /// The device sends graphics messages over this object (`VHOST_USER_GPU_SET_SOCKET`).
    ///
    /// # Errors
    /// The device's own refusal.
    fn set_gpu_socket(&mut self, object: u32) -> Result<(), Refused>
        ensures told { Answers said moved (DeviceOp.SetGpuSocket object) (done_by result)
            (value self.old) (value self.new) }
        ensures count { CountsRefusals (refusal_count self.old) (refusal_count self.new) result }
        ensures same { AreConstant queue_count greatest_size offered protocol_offered masks exit_of self.old self.new };

    /// The device's state is saved to this object (direction 0) or loaded from it (direction 1), in this phase of a
    /// migration (`VHOST_USER_SET_DEVICE_STATE_FD`). The answer is another object to be used in its place, if there is
    /// one.
    ///
    /// # Errors
    /// The device's own refusal.
    fn set_device_state_fd(
        &mut self,
        direction: u32,
        phase: u32,
        object: u32,
    ) -> Result<Option<u32>, Refused>
        ensures told { Answers said moved (DeviceOp.SetDeviceStateFd direction phase object)
            (said_by (λ other. DeviceSaid.Object other) result) (value self.old) (value self.new) }
        ensures count { CountsRefusals (refusal_count self.old) (refusal_count self.new) result }
        ensures same { AreConstant queue_count greatest_size offered protocol_offered masks exit_of self.old self.new };

    /// Whether the device's state was saved or loaded (`VHOST_USER_CHECK_DEVICE_STATE`).
    ///
    /// # Errors
    /// The device's own refusal.
    fn check_device_state(&mut self) -> Result<(), Refused>
        ensures told { Answers said moved DeviceOp.CheckDeviceState (done_by result) (value self.old) (value self.new) }
        ensures count { CountsRefusals (refusal_count self.old) (refusal_count self.new) result }
        ensures same { AreConstant queue_count greatest_size offered protocol_offered masks exit_of self.old self.new };

    /// The number of the device's shared memory regions (`VHOST_USER_GET_SHMEM_CONFIG`).
    ///
    /// # Errors
    /// The device's own refusal.
    fn get_shmem_config(&mut self) -> Result<u32, Refused>
        ensures told { Answers said moved DeviceOp.GetShmemConfig (said_by (λ n. DeviceSaid.Number n) result)
            (value self.old) (value self.new) }
        ensures count { CountsRefusals (refusal_count self.old) (refusal_count self.new) result }
        ensures same { AreConstant queue_count greatest_size offered protocol_offered masks exit_of self.old self.new };
}
