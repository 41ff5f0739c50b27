//! Requests as a script writes them.

ghost use Rattle.std.specs.Prelude.{map};
ghost use Rattle.serde_json.specs.View.{view};
ghost use Rattle.vub_forms.specs.Reading.{Gives};
ghost use Rattle.vub_forms.specs.Requests.{addresses_form, request_called, request_form, request_of};

use crate::arguments::{
    four_arguments, no_argument, one_argument, three_arguments, two_arguments,
    two_or_three_arguments,
};
use crate::calls::{Call, call_of};
use crate::fault::Fault;
use crate::refusal::Refusal;
use crate::rule::Rule;
use crate::tree::{FromTree, element_at};
use serde_json::Value;
use std::alloc::Global;
use vub_base::{Bytes, Listed};
use vub_proto::{Part, Request};

/// The addresses of a ring, in the front end's own space.
fn addresses_at(alloc: Global, list: &[Value]) -> Result<Request, Refusal>
    ensures { Gives result (addresses_form (map view list.now)) }
{
    match list {
        [queue, flags, desc, used, avail, log] => {
            let queue = element_at(alloc, queue, 1)?;
            let flags = element_at(alloc, flags, 2)?;
            let desc = element_at(alloc, desc, 3)?;
            let used = element_at(alloc, used, 4)?;
            let avail = element_at(alloc, avail, 5)?;
            let log = element_at(alloc, log, 6)?;
            Ok(Request::SetVringAddr {
                queue,
                flags,
                desc,
                used,
                avail,
                log,
            })
        }
        _ => Err(Refusal::NoScript(Fault::of(alloc, Rule::Arguments))),
    }
}

/// This request with these arguments.
fn request_for(alloc: Global, call: Call, list: &[Value]) -> Result<Request, Refusal>
    ensures { Gives result (request_called call (map view list.now)) }
{
    match call {
        Call::SetOwner => {
            no_argument(alloc, list)?;
            Ok(Request::SetOwner)
        }
        Call::ResetOwner => {
            no_argument(alloc, list)?;
            Ok(Request::ResetOwner)
        }
        Call::ResetDevice => {
            no_argument(alloc, list)?;
            Ok(Request::ResetDevice)
        }
        Call::GetQueueNum => {
            no_argument(alloc, list)?;
            Ok(Request::GetQueueNum)
        }
        Call::GetMaxMemSlots => {
            no_argument(alloc, list)?;
            Ok(Request::GetMaxMemSlots)
        }
        Call::GetFeatures => {
            no_argument(alloc, list)?;
            Ok(Request::GetFeatures)
        }
        Call::SetFeatures => {
            let bits: u64 = one_argument(alloc, list)?;
            Ok(Request::SetFeatures(bits))
        }
        Call::GetProtocolFeatures => {
            no_argument(alloc, list)?;
            Ok(Request::GetProtocolFeatures)
        }
        Call::SetProtocolFeatures => {
            let bits: u64 = one_argument(alloc, list)?;
            Ok(Request::SetProtocolFeatures(bits))
        }
        Call::SetMemTable => {
            let (parts, contents, postcopy) = two_or_three_arguments::<
                Listed<Part>,
                Listed<u32>,
                bool,
            >(alloc, list)?;
            Ok(Request::SetMemTable {
                parts,
                contents,
                postcopy,
            })
        }
        Call::AddMemRegion => {
            let (part, content, postcopy) = two_or_three_arguments::<Part, u32, bool>(alloc, list)?;
            Ok(Request::AddMemRegion {
                part,
                content,
                postcopy,
            })
        }
        Call::RemoveMemRegion => {
            let (start, len) = two_arguments::<u64, u64>(alloc, list)?;
            Ok(Request::RemoveMemRegion { start, len })
        }
        Call::SetLogBase => {
            let (size, offset, object) = three_arguments::<u64, u64, u32>(alloc, list)?;
            Ok(Request::SetLogBase {
                size,
                offset,
                object,
            })
        }
        Call::SetVringNum => {
            let (queue, size) = two_arguments::<u32, u32>(alloc, list)?;
            Ok(Request::SetVringNum {
                queue,
                size: size as u64,
            })
        }
        Call::SetVringAddr => addresses_at(alloc, list),
        Call::SetVringBase => {
            let (queue, base) = two_arguments::<u32, u32>(alloc, list)?;
            Ok(Request::SetVringBase {
                queue,
                base: base as u64,
            })
        }
        Call::GetVringBase => {
            let queue: u32 = one_argument(alloc, list)?;
            Ok(Request::GetVringBase { queue })
        }
        Call::SetVringKick => {
            let (queue, event) = two_arguments::<u32, Option<u32>>(alloc, list)?;
            Ok(Request::SetVringKick { queue, event })
        }
        Call::SetVringCall => {
            let (queue, event) = two_arguments::<u32, Option<u32>>(alloc, list)?;
            Ok(Request::SetVringCall { queue, event })
        }
        Call::SetVringErr => {
            let (queue, event) = two_arguments::<u32, Option<u32>>(alloc, list)?;
            Ok(Request::SetVringErr { queue, event })
        }
        Call::SetVringEnable => {
            let (queue, enabled) = two_arguments::<u32, bool>(alloc, list)?;
            Ok(Request::SetVringEnable { queue, enabled })
        }
        Call::GetConfig => {
            let (offset, size, flags) = three_arguments::<u32, u32, u32>(alloc, list)?;
            Ok(Request::GetConfig {
                offset,
                size,
                flags,
            })
        }
        Call::SetConfig => {
            let (offset, bytes, flags) = three_arguments::<u32, Bytes, u32>(alloc, list)?;
            Ok(Request::SetConfig {
                offset,
                bytes,
                flags,
            })
        }
        Call::SetBackendReqFd => {
            let object: u32 = one_argument(alloc, list)?;
            Ok(Request::SetBackendReqFd { object })
        }
        Call::SetGpuSocket => {
            let object: u32 = one_argument(alloc, list)?;
            Ok(Request::SetGpuSocket { object })
        }
        Call::GetSharedObject => {
            let uuid: u64 = one_argument(alloc, list)?;
            Ok(Request::GetSharedObject { uuid: uuid as u128 })
        }
        Call::GetShmemConfig => {
            no_argument(alloc, list)?;
            Ok(Request::GetShmemConfig)
        }
        Call::CheckDeviceState => {
            no_argument(alloc, list)?;
            Ok(Request::CheckDeviceState)
        }
        Call::SetDeviceStateFd => {
            let (direction, phase, object) = three_arguments::<u32, u32, u32>(alloc, list)?;
            Ok(Request::SetDeviceStateFd {
                direction,
                phase,
                object,
            })
        }
        Call::GetInflightFd => {
            no_argument(alloc, list)?;
            Ok(Request::GetInflightFd)
        }
        Call::SetInflightFd => {
            let object: u32 = one_argument(alloc, list)?;
            Ok(Request::SetInflightFd { object })
        }
        Call::RegisterListener => {
            let (worker, event, set, token) = four_arguments::<u32, u32, u32, u64>(alloc, list)?;
            Ok(Request::RegisterListener {
                worker,
                event,
                set,
                token,
            })
        }
        Call::UnregisterListener => {
            let (worker, event, set, token) = four_arguments::<u32, u32, u32, u64>(alloc, list)?;
            Ok(Request::UnregisterListener {
                worker,
                event,
                set,
                token,
            })
        }
        Call::SendExit => {
            no_argument(alloc, list)?;
            Ok(Request::SendExit)
        }
    }
}

fn request_at(alloc: Global, list: &[Value]) -> Result<Request, Refusal>
    ensures { Gives result (request_form (map view list.now)) }
{
    match list {
        [Value::String(name), arguments @ ..] => match call_of(name.as_str()) {
            Some(call) => request_for(alloc, call, arguments),
            None => Err(Refusal::NoScript(Fault::of(alloc, Rule::RequestName))),
        },
        _ => Err(Refusal::NoScript(Fault::of(alloc, Rule::Request))),
    }
}

impl FromTree for Request {
    ghost reads = { request_of };

    #[tactic(auto, unfolding(crate::specs::Requests::request_of))]
    fn from_tree(alloc: Global, value: &Value) -> Result<Request, Refusal> {
        match value {
            Value::Array(list) => request_at(alloc, list),
            _ => Err(Refusal::NoScript(Fault::of(alloc, Rule::Request))),
        }
    }
}
