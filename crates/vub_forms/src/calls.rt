//! The names of requests.

ghost use Rattle.std.specs.Prelude.{◌≡◌};
ghost use Rattle.vub_forms.specs.Calls.{session_call_named, feature_call_named, memory_call_named, ring_call_named, event_call_named, device_call_named, state_call_named, worker_call_named, call_named};

/// Which request it is, without its arguments.
#[derive(Clone, Copy, Debug, PartialEq, Eq)]
pub enum Call {
    SetOwner,
    ResetOwner,
    ResetDevice,
    GetQueueNum,
    GetMaxMemSlots,
    GetFeatures,
    SetFeatures,
    GetProtocolFeatures,
    SetProtocolFeatures,
    SetMemTable,
    AddMemRegion,
    RemoveMemRegion,
    SetLogBase,
    SetVringNum,
    SetVringAddr,
    SetVringBase,
    GetVringBase,
    SetVringKick,
    SetVringCall,
    SetVringErr,
    SetVringEnable,
    GetConfig,
    SetConfig,
    SetBackendReqFd,
    SetGpuSocket,
    GetSharedObject,
    GetShmemConfig,
    CheckDeviceState,
    SetDeviceStateFd,
    GetInflightFd,
    SetInflightFd,
    RegisterListener,
    UnregisterListener,
    SendExit,
}

/// The requests about the session.
fn session_call(name: &str) -> Option<Call>
    ensures { result ≡ session_call_named name.now }
{
    if name == "set_owner" {
        Some(Call::SetOwner)
    } else if name == "reset_owner" {
        Some(Call::ResetOwner)
    } else if name == "reset_device" {
        Some(Call::ResetDevice)
    } else if name == "get_queue_num" {
        Some(Call::GetQueueNum)
    } else if name == "get_max_mem_slots" {
        Some(Call::GetMaxMemSlots)
    } else {
        None
    }
}

/// The requests about features.
fn feature_call(name: &str) -> Option<Call>
    ensures { result ≡ feature_call_named name.now }
{
    if name == "get_features" {
        Some(Call::GetFeatures)
    } else if name == "set_features" {
        Some(Call::SetFeatures)
    } else if name == "get_protocol_features" {
        Some(Call::GetProtocolFeatures)
    } else if name == "set_protocol_features" {
        Some(Call::SetProtocolFeatures)
    } else {
        None
    }
}

/// The requests about guest memory and its log.
fn memory_call(name: &str) -> Option<Call>
    ensures { result ≡ memory_call_named name.now }
{
    if name == "set_mem_table" {
        Some(Call::SetMemTable)
    } else if name == "add_mem_region" {
        Some(Call::AddMemRegion)
    } else if name == "remove_mem_region" {
        Some(Call::RemoveMemRegion)
    } else if name == "set_log_base" {
        Some(Call::SetLogBase)
    } else {
        None
    }
}

/// The requests about a ring.
fn ring_call(name: &str) -> Option<Call>
    ensures { result ≡ ring_call_named name.now }
{
    if name == "set_vring_num" {
        Some(Call::SetVringNum)
    } else if name == "set_vring_addr" {
        Some(Call::SetVringAddr)
    } else if name == "set_vring_base" {
        Some(Call::SetVringBase)
    } else if name == "get_vring_base" {
        Some(Call::GetVringBase)
    } else {
        None
    }
}

/// The requests about a ring's events and its flag.
fn event_call(name: &str) -> Option<Call>
    ensures { result ≡ event_call_named name.now }
{
    if name == "set_vring_kick" {
        Some(Call::SetVringKick)
    } else if name == "set_vring_call" {
        Some(Call::SetVringCall)
    } else if name == "set_vring_err" {
        Some(Call::SetVringErr)
    } else if name == "set_vring_enable" {
        Some(Call::SetVringEnable)
    } else {
        None
    }
}

/// The requests about what the device has.
fn device_call(name: &str) -> Option<Call>
    ensures { result ≡ device_call_named name.now }
{
    if name == "get_config" {
        Some(Call::GetConfig)
    } else if name == "set_config" {
        Some(Call::SetConfig)
    } else if name == "set_backend_req_fd" {
        Some(Call::SetBackendReqFd)
    } else if name == "set_gpu_socket" {
        Some(Call::SetGpuSocket)
    } else if name == "get_shared_object" {
        Some(Call::GetSharedObject)
    } else if name == "get_shmem_config" {
        Some(Call::GetShmemConfig)
    } else {
        None
    }
}

/// The requests about the device's state and its records of entries in flight.
fn state_call(name: &str) -> Option<Call>
    ensures { result ≡ state_call_named name.now }
{
    if name == "check_device_state" {
        Some(Call::CheckDeviceState)
    } else if name == "set_device_state_fd" {
        Some(Call::SetDeviceStateFd)
    } else if name == "get_inflight_fd" {
        Some(Call::GetInflightFd)
    } else if name == "set_inflight_fd" {
        Some(Call::SetInflightFd)
    } else {
        None
    }
}

/// The requests about workers.
fn worker_call(name: &str) -> Option<Call>
    ensures { result ≡ worker_call_named name.now }
{
    if name == "register_listener" {
        Some(Call::RegisterListener)
    } else if name == "unregister_listener" {
        Some(Call::UnregisterListener)
    } else if name == "send_exit" {
        Some(Call::SendExit)
    } else {
        None
    }
}

/// The request with this name.
pub fn call_of(name: &str) -> Option<Call>
    ensures { result ≡ call_named name.now }
{
    if let Some(call) = session_call(name) {
        return Some(call);
    }
    if let Some(call) = feature_call(name) {
        return Some(call);
    }
    if let Some(call) = memory_call(name) {
        return Some(call);
    }
    if let Some(call) = ring_call(name) {
        return Some(call);
    }
    if let Some(call) = event_call(name) {
        return Some(call);
    }
    if let Some(call) = device_call(name) {
        return Some(call);
    }
    if let Some(call) = state_call(name) {
        return Some(call);
    }
    worker_call(name)
}
