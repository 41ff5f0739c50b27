//! A call of the device, as the parts make it.
ghost use Rattle.std.specs.Prelude.{◌≡◌, ◌≤◌, IfOk, IsErrOf, IsTrue};
ghost use Rattle.vub_model.specs.Control.{IsOutcome};
ghost use Rattle.vub_proto.specs.Device.{said_by, done_by, AreConstant};
ghost use Rattle.vub_vring.specs.Calls.{Called, DeviceCall, telling, IsCounted, gives_content};

use std::alloc::Global;
use vub_proto::{DeviceOp, DeviceSaid, Refused, VhostUserBackendMut};
use vub_ring::PartsError;

fn done(answer: Result<(), Refused>) -> DeviceSaid
    ensures { result ≡ done_by answer }
{
    match answer {
        Ok(()) => DeviceSaid::Done,
        Err(refused) => DeviceSaid::Refused(refused.0),
    }
}

fn shared_object(answer: Result<u32, Refused>) -> DeviceSaid
    ensures { result ≡ said_by (λ object. DeviceSaid.Object (Some object)) answer }
{
    match answer {
        Ok(object) => DeviceSaid::Object(Some(object)),
        Err(refused) => DeviceSaid::Refused(refused.0),
    }
}

fn object(answer: Result<Option<u32>, Refused>) -> DeviceSaid
    ensures { result ≡ said_by (λ other. DeviceSaid.Object other) answer }
{
    match answer {
        Ok(other) => DeviceSaid::Object(other),
        Err(refused) => DeviceSaid::Refused(refused.0),
    }
}

fn number(answer: Result<u32, Refused>) -> DeviceSaid
    ensures { result ≡ said_by (λ n. DeviceSaid.Number n) answer }
{
    match answer {
        Ok(number) => DeviceSaid::Number(number),
        Err(refused) => DeviceSaid::Refused(refused.0),
    }
}

/// Makes this call of the device.
///
/// # Errors
/// Want of memory, at a `GetConfig` alone; it leaves the device's value as it was.
pub fn play_device<D: VhostUserBackendMut>(
    alloc: Global,
    device: &mut D,
    op: DeviceOp,
) -> Result<DeviceSaid, PartsError>
    ensures row { Called result (D.value device.old) (D.value device.new) (DeviceCall (telling D.said D.moved) op) }
    ensures said { IfOk result (IsOutcome op) }
    ensures counted { IfOk result (IsCounted (D.refusal_count device.old) (D.refusal_count device.new)) }
    ensures later { D.refusal_count device.old ≤ D.refusal_count device.new }
    ensures constants { AreConstant D.queue_count D.greatest_size D.offered D.protocol_offered D.masks D.exit_of
        device.old device.new }
    ensures memory { IsErrOf result PartsError.OutOfMemory → IsTrue (gives_content op) }
    ensures only { ¬ (IsErrOf result PartsError.Fault) }
{
    let said = match op {
        DeviceOp::AckedFeatures(features) => {
            device.acked_features(features);
            DeviceSaid::Done
        }
        DeviceOp::ResetDevice => {
            device.reset_device();
            DeviceSaid::Done
        }
        DeviceOp::SetEventIdx(enabled) => {
            device.set_event_idx(enabled);
            DeviceSaid::Done
        }
        DeviceOp::SetBackendReqFd(backend) => {
            device.set_backend_req_fd(backend);
            DeviceSaid::Done
        }
        DeviceOp::GetConfig { offset, size } => match device.get_config(alloc, offset, size) {
            Ok(bytes) => DeviceSaid::Content(bytes),
            Err(_) => return Err(PartsError::OutOfMemory),
        },
        DeviceOp::SetConfig { offset, bytes } => done(device.set_config(offset, bytes.as_slice())),
        DeviceOp::UpdateMemory(regions) => done(device.update_memory(regions.as_slice())),
        DeviceOp::StopVring(queue) => done(device.stop_vring(queue)),
        DeviceOp::HandleEvent { token, worker } => done(device.handle_event(token, worker)),
        DeviceOp::GetSharedObject(uuid) => shared_object(device.get_shared_object(uuid)),
        DeviceOp::SetGpuSocket(object) => done(device.set_gpu_socket(object)),
        DeviceOp::SetDeviceStateFd {
            direction,
            phase,
            object: other,
        } => { object(device.set_device_state_fd(direction, phase, other)) }
        DeviceOp::CheckDeviceState => done(device.check_device_state()),
        DeviceOp::GetShmemConfig => number(device.get_shmem_config()),
    };
    Ok(said)
}
