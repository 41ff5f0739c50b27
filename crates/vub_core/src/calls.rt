//! Records of the calls of the device.
ghost use Rattle.std.specs.Prelude.{◌≡◌, ◌++◌, map};
ghost use Rattle.std.specs.Option.{option_to_list};
ghost use Rattle.vub_proto.specs.declared.device_said.DeviceSaid.{DeviceSaid};
ghost use Rattle.vub_model.specs.declared.phase.Phase.{Phase};
ghost use Rattle.vub_model.specs.DeviceCalls.{first_number, second_number, is_refused, device_call, heard_in};
ghost use Rattle.vub_core.specs.Calls.{token_in};
ghost use Rattle.vub_core.specs.Recorded.{HasRoom};

use vub_model::{DeviceCall, Phase, Play};
use vub_proto::{DeviceOp, DeviceSaid};

/// The first number of a call; 0 where it has none.
fn first_number(call: &DeviceOp) -> u64
    ensures { result ≡ first_number call.now }
{
    match call {
        DeviceOp::AckedFeatures(bits) => *bits,
        DeviceOp::SetEventIdx(enabled) => *enabled as u64,
        DeviceOp::GetConfig { offset, .. } => *offset as u64,
        DeviceOp::SetConfig { offset, .. } => *offset as u64,
        DeviceOp::SetBackendReqFd(backend) => backend.object as u64,
        DeviceOp::StopVring(queue) => *queue as u64,
        DeviceOp::HandleEvent { token, .. } => *token,
        DeviceOp::SetGpuSocket(object) => *object as u64,
        DeviceOp::SetDeviceStateFd { direction, .. } => *direction as u64,
        _ => 0,
    }
}

/// The second number of a call; 0 where it has none.
fn second_number(call: &DeviceOp) -> u64
    ensures { result ≡ second_number call.now }
{
    match call {
        DeviceOp::GetConfig { size, .. } => *size as u64,
        DeviceOp::SetConfig { bytes, .. } => bytes.len() as u64,
        DeviceOp::HandleEvent { worker, .. } => *worker as u64,
        DeviceOp::SetDeviceStateFd { phase, .. } => *phase as u64,
        _ => 0,
    }
}

/// Whether the device refused a call.
fn is_refused(said: &DeviceSaid) -> bool
    ensures { result ≡ is_refused said.now }
{
    matches!(said, DeviceSaid::Refused(_))
}

/// The record of a call.
pub(crate) fn device_call(op: DeviceOp, refused: bool) -> DeviceCall
    ensures { (said : DeviceSaid) → refused ≡ is_refused said
        → result ≡ device_call (record { op = op; outcome = said }) }
{
    DeviceCall {
        a: first_number(&op),
        b: second_number(&op),
        refused,
        op,
    }
}

/// The token of the listener that a worker in this phase has heard.
pub(crate) fn token_in(phase: &Phase) -> Option<u64>
    ensures { result ≡ token_in phase.now }
{
    match phase {
        Phase::Heard { token } => Some(*token),
        _ => None,
    }
}

/// The record of the call that a worker made in this play, if it made one. Before it had heard a listener with this
/// token, if any.
pub(crate) fn heard_call(worker: u32, token: Option<u64>, play: &Play) -> Option<DeviceCall>
    ensures { (phase : Phase) → token ≡ token_in phase
        → option_to_list result ≡ map device_call (heard_in worker phase play.now) }
{
    match (token, play) {
        (Some(token), Play::Hear(said)) => {
            let op = DeviceOp::HandleEvent { token, worker };
            Some(device_call(op, is_refused(said)))
        }
        _ => None,
    }
}

/// Appends a value, if there is one. There is room for it.
pub(crate) fn push_into<T: Drop>(list: &mut Vec<T>, value: Option<T>)
    requires { HasRoom list.old }
    ensures { list.new.items ≡ list.old.items ++ option_to_list value }
{
    if let Some(value) = value {
        list.push(value).unwrap();
    }
}
