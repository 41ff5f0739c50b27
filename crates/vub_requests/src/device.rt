//! The named calls that ask the device.
ghost use Rattle.vub_vring.specs.Calls.{telling};
ghost use Rattle.vub_requests.specs.Handling.{HandledBy};

use crate::handling::handle;
use crate::unanswered::Unanswered;
use std::alloc::Global;
use vub_base::Bytes;
use vub_handler::VhostUserHandler;
use vub_proto::{Answer, Request};
use vub_vring::Parts;

/// The bytes of the device's configuration from this offset on.
///
/// # Errors
/// Those of `handle`.
pub fn get_config<P: Parts>(
    handler: &mut VhostUserHandler,
    alloc: Global,
    parts: &mut P,
    offset: u32,
    size: u32,
    flags: u32,
) -> Result<Answer, Unanswered>
    ensures { HandledBy (telling P.Device.said P.Device.moved) (Request.GetConfig offset size flags)
        handler.old handler.new (P.state parts.old) (P.state parts.new) result }
{
    handle(
        handler,
        alloc,
        parts,
        Request::GetConfig {
            offset,
            size,
            flags,
        },
    )
}

/// Writes bytes of the device's configuration from this offset on.
///
/// # Errors
/// Those of `handle`.
pub fn set_config<P: Parts>(
    handler: &mut VhostUserHandler,
    alloc: Global,
    parts: &mut P,
    offset: u32,
    bytes: Bytes,
    flags: u32,
) -> Result<Answer, Unanswered>
    ensures { HandledBy (telling P.Device.said P.Device.moved) (Request.SetConfig offset bytes flags)
        handler.old handler.new (P.state parts.old) (P.state parts.new) result }
{
    handle(
        handler,
        alloc,
        parts,
        Request::SetConfig {
            offset,
            bytes,
            flags,
        },
    )
}

/// Gives the device the object to which it sends requests of its own.
///
/// # Errors
/// Those of `handle`.
pub fn set_backend_req_fd<P: Parts>(
    handler: &mut VhostUserHandler,
    alloc: Global,
    parts: &mut P,
    object: u32,
) -> Result<Answer, Unanswered>
    ensures { HandledBy (telling P.Device.said P.Device.moved) (Request.SetBackendReqFd object)
        handler.old handler.new (P.state parts.old) (P.state parts.new) result }
{
    handle(handler, alloc, parts, Request::SetBackendReqFd { object })
}

/// Gives the device its GPU socket.
///
/// # Errors
/// Those of `handle`.
pub fn set_gpu_socket<P: Parts>(
    handler: &mut VhostUserHandler,
    alloc: Global,
    parts: &mut P,
    object: u32,
) -> Result<Answer, Unanswered>
    ensures { HandledBy (telling P.Device.said P.Device.moved) (Request.SetGpuSocket object)
        handler.old handler.new (P.state parts.old) (P.state parts.new) result }
{
    handle(handler, alloc, parts, Request::SetGpuSocket { object })
}

/// Asks whether the device's state was transferred.
///
/// # Errors
/// Those of `handle`.
pub fn check_device_state<P: Parts>(
    handler: &mut VhostUserHandler,
    alloc: Global,
    parts: &mut P,
) -> Result<Answer, Unanswered>
    ensures { HandledBy (telling P.Device.said P.Device.moved) Request.CheckDeviceState
        handler.old handler.new (P.state parts.old) (P.state parts.new) result }
{
    handle(handler, alloc, parts, Request::CheckDeviceState)
}

/// The shared object of this number.
///
/// # Errors
/// Those of `handle`.
pub fn get_shared_object<P: Parts>(
    handler: &mut VhostUserHandler,
    alloc: Global,
    parts: &mut P,
    uuid: u128,
) -> Result<Answer, Unanswered>
    ensures { HandledBy (telling P.Device.said P.Device.moved) (Request.GetSharedObject uuid)
        handler.old handler.new (P.state parts.old) (P.state parts.new) result }
{
    handle(handler, alloc, parts, Request::GetSharedObject { uuid })
}

/// Begins a transfer of the device's state over an object.
///
/// # Errors
/// Those of `handle`.
pub fn set_device_state_fd<P: Parts>(
    handler: &mut VhostUserHandler,
    alloc: Global,
    parts: &mut P,
    direction: u32,
    phase: u32,
    object: u32,
) -> Result<Answer, Unanswered>
    ensures { HandledBy (telling P.Device.said P.Device.moved) (Request.SetDeviceStateFd direction phase object)
        handler.old handler.new (P.state parts.old) (P.state parts.new) result }
{
    handle(
        handler,
        alloc,
        parts,
        Request::SetDeviceStateFd {
            direction,
            phase,
            object,
        },
    )
}

/// The number of the device's shared memory regions.
///
/// # Errors
/// Those of `handle`.
pub fn get_shmem_config<P: Parts>(
    handler: &mut VhostUserHandler,
    alloc: Global,
    parts: &mut P,
) -> Result<Answer, Unanswered>
    ensures { HandledBy (telling P.Device.said P.Device.moved) Request.GetShmemConfig
        handler.old handler.new (P.state parts.old) (P.state parts.new) result }
{
    handle(handler, alloc, parts, Request::GetShmemConfig)
}

/// Asks for a record of entries in flight, which is not supported.
///
/// # Errors
/// Those of `handle`.
pub fn get_inflight_fd<P: Parts>(
    handler: &mut VhostUserHandler,
    alloc: Global,
    parts: &mut P,
) -> Result<Answer, Unanswered>
    ensures { HandledBy (telling P.Device.said P.Device.moved) Request.GetInflightFd
        handler.old handler.new (P.state parts.old) (P.state parts.new) result }
{
    handle(handler, alloc, parts, Request::GetInflightFd)
}

/// Gives a record of entries in flight, which is not supported.
///
/// # Errors
/// Those of `handle`.
pub fn set_inflight_fd<P: Parts>(
    handler: &mut VhostUserHandler,
    alloc: Global,
    parts: &mut P,
    object: u32,
) -> Result<Answer, Unanswered>
    ensures { HandledBy (telling P.Device.said P.Device.moved) (Request.SetInflightFd object)
        handler.old handler.new (P.state parts.old) (P.state parts.new) result }
{
    handle(handler, alloc, parts, Request::SetInflightFd { object })
}
