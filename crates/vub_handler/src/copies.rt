//! Copies of what a step asks: the step stays whole, for its label or where memory is refused.
ghost use Rattle.std.specs.Prelude.{◌≡◌, IfOk};

use std::alloc::Global;
use vub_base::{Bytes, Listed, OutOfMemory};
use vub_model::TableOp;
use vub_proto::DeviceOp;

/// A copy of a change of the table.
///
/// # Errors
/// Want of memory.
pub fn copied_change(alloc: Global, change: &TableOp) -> Result<TableOp, OutOfMemory>
    ensures { IfOk result (λ copy. copy ≡ change.now) }
{
    match change {
        TableOp::Replace(regions) => {
            let regions = Vec::from_slice(alloc, regions.as_slice())?;
            Ok(TableOp::Replace(Listed::from_vec(regions)))
        }
        TableOp::Insert(region) => Ok(TableOp::Insert(*region)),
        TableOp::Remove { start, len } => Ok(TableOp::Remove {
            start: *start,
            len: *len,
        }),
    }
}

/// A copy of a call of the device.
///
/// # Errors
/// Want of memory.
pub fn copied_call(alloc: Global, call: &DeviceOp) -> Result<DeviceOp, OutOfMemory>
    ensures { IfOk result (λ copy. copy ≡ call.now) }
{
    let copy = match call {
        DeviceOp::AckedFeatures(bits) => DeviceOp::AckedFeatures(*bits),
        DeviceOp::ResetDevice => DeviceOp::ResetDevice,
        DeviceOp::SetEventIdx(enabled) => DeviceOp::SetEventIdx(*enabled),
        DeviceOp::GetConfig { offset, size } => DeviceOp::GetConfig {
            offset: *offset,
            size: *size,
        },
        DeviceOp::SetBackendReqFd(backend) => DeviceOp::SetBackendReqFd(*backend),
        DeviceOp::SetConfig { offset, bytes } => DeviceOp::SetConfig {
            offset: *offset,
            bytes: Bytes::from_slice(alloc, bytes.as_slice())?,
        },
        DeviceOp::UpdateMemory(regions) => {
            let regions = Vec::from_slice(alloc, regions.as_slice())?;
            DeviceOp::UpdateMemory(Listed::from_vec(regions))
        }
        DeviceOp::StopVring(queue) => DeviceOp::StopVring(*queue),
        DeviceOp::HandleEvent { token, worker } => DeviceOp::HandleEvent {
            token: *token,
            worker: *worker,
        },
        DeviceOp::GetSharedObject(uuid) => DeviceOp::GetSharedObject(*uuid),
        DeviceOp::SetGpuSocket(object) => DeviceOp::SetGpuSocket(*object),
        DeviceOp::SetDeviceStateFd {
            direction,
            phase,
            object,
        } => DeviceOp::SetDeviceStateFd {
            direction: *direction,
            phase: *phase,
            object: *object,
        },
        DeviceOp::CheckDeviceState => DeviceOp::CheckDeviceState,
        DeviceOp::GetShmemConfig => DeviceOp::GetShmemConfig,
    };
    Ok(copy)
}
