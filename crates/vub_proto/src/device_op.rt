use vub_base::{Bytes, Listed};
use vub_mem::Region;

/// Where the device sends requests of its own.
#[derive(Clone, Copy, Debug, PartialEq, Eq)]
pub struct Backend {
    pub object: u32,
    /// Whether replies are acknowledged (protocol feature bit 3).
    pub reply_ack: bool,
    /// Whether shared objects may be asked for (protocol feature bit 18).
    pub shared_object: bool,
}

/// A call of the device, with its arguments (`VhostUserBackendMut` has a method for each).
#[derive(Debug, Drop)]
pub enum DeviceOp {
    /// The virtio feature bits that the driver acknowledged.
    AckedFeatures(u64),
    ResetDevice,
    /// Whether notifications go by index.
    SetEventIdx(bool),
    /// A part of the config space, in bytes.
    GetConfig {
        offset: u32,
        size: u32,
    },
    SetBackendReqFd(Backend),
    /// The bytes of the config space from byte `offset` on.
    SetConfig {
        offset: u32,
        bytes: Bytes,
    },
    /// All regions of guest memory.
    UpdateMemory(Listed<Region>),
    /// The number of a queue.
    StopVring(u32),
    /// The token under which a listener was registered, and the worker that heard it.
    HandleEvent {
        token: u64,
        worker: u32,
    },
    GetSharedObject(u128),
    /// The number of an object.
    SetGpuSocket(u32),
    SetDeviceStateFd {
        direction: u32,
        phase: u32,
        object: u32,
    },
    CheckDeviceState,
    GetShmemConfig,
}
