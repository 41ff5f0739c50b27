ghost use Rattle.std.specs.Prelude.{◌≡◌, IfOk};
ghost use Rattle.vub_model.specs.Wiring.{has_bit};
ghost use Rattle.vub_plan.specs.Halves.{IsPlanOf};

use crate::addresses::set_addresses;
use crate::half::Half;
use crate::memory::{add_region, remove_region, set_table};
use crate::others::{register, send_exit, set_log, unregister, unsupported};
use crate::places::has_bit;
use crate::requests::{
    get_base, reset_device, set_base, set_call, set_enable, set_err, set_features, set_kick,
    set_size,
};
use crate::session::{asks, number, reset_owner, set_owner, set_protocol};
use crate::wired::Wired;
use std::alloc::Global;
use vub_base::{Bytes, OutOfMemory};
use vub_model::{Known, Session};
use vub_proto::{Backend, DeviceOp, Request};

/// How many regions guest memory may have (`VHOST_USER_GET_MAX_MEM_SLOTS`).
const SLOTS: u64 = 509;

/// The protocol feature bit by which replies are acknowledged (`VHOST_USER_PROTOCOL_F_REPLY_ACK`).
const REPLY_ACK: u32 = 3;

/// The protocol feature bit of shared objects (`VHOST_USER_PROTOCOL_F_SHARED_OBJECT`).
const SHARED_OBJECT: u32 = 18;

/// Where the device sends requests of its own, by the protocol features that are acknowledged.
fn backend_for(object: u32, protocol: u64) -> Backend
    ensures { result ≡ record { object = object; reply_ack = has_bit protocol 3; shared_object = has_bit protocol 18 } }
{
    Backend {
        object,
        reply_ack: has_bit(protocol, REPLY_ACK),
        shared_object: has_bit(protocol, SHARED_OBJECT),
    }
}

/// Fixes the plan of a request: by the wiring, by what is known of the rings, and by the session. Lists of bytes are
/// copied.
///
/// # Errors
/// Want of memory.
#[tactic(auto, unfolding(vub_model::specs::Plans::plan_of), using(crate::proofs::Asked::of_session, crate::proofs::Asked::of_wired))]
pub fn plan(
    alloc: Global,
    wired: &Wired,
    known: &[Known],
    session: &Session,
    request: &Request,
) -> Result<Half, OutOfMemory>
    ensures { IfOk result (IsPlanOf wired.now known.now session.now request.now) }
{
    match request {
        Request::SetOwner => set_owner(alloc, session),
        Request::ResetOwner => reset_owner(alloc, session),
        Request::ResetDevice => reset_device(alloc, wired, known, session),
        Request::GetFeatures => number(alloc, wired.constants().features, session),
        Request::GetProtocolFeatures => number(alloc, wired.constants().protocol, session),
        Request::GetQueueNum => number(alloc, wired.queue_count() as u64, session),
        Request::GetMaxMemSlots => number(alloc, SLOTS, session),
        Request::SetFeatures(bits) => set_features(alloc, wired, known, session, *bits),
        Request::SetProtocolFeatures(bits) => set_protocol(alloc, session, *bits),
        Request::SetMemTable {
            parts,
            contents,
            postcopy,
        } => set_table(
            alloc,
            session,
            parts.as_slice(),
            contents.as_slice(),
            *postcopy,
        ),
        Request::AddMemRegion {
            part,
            content,
            postcopy,
        } => add_region(alloc, session, *part, *content, *postcopy),
        Request::RemoveMemRegion { start, len } => remove_region(alloc, session, *start, *len),
        Request::SetLogBase {
            size,
            offset,
            object,
        } => set_log(alloc, session, *size, *offset, *object),
        Request::SetVringNum { queue, size } => set_size(alloc, wired, session, *queue, *size),
        Request::SetVringAddr {
            queue,
            flags,
            desc,
            used,
            avail,
            log,
        } => set_addresses(
            alloc, wired, session, *queue, *flags, *desc, *used, *avail, *log,
        ),
        Request::SetVringBase { queue, base } => set_base(alloc, wired, session, *queue, *base),
        Request::GetVringBase { queue } => get_base(alloc, wired, known, session, *queue),
        Request::SetVringKick { queue, event } => {
            set_kick(alloc, wired, known, session, *queue, *event)
        }
        Request::SetVringCall { queue, event } => {
            set_call(alloc, wired, known, session, *queue, *event)
        }
        Request::SetVringErr { queue, event } => set_err(alloc, wired, session, *queue, *event),
        Request::SetVringEnable { queue, enabled } => {
            set_enable(alloc, wired, known, session, *queue, *enabled)
        }
        Request::GetConfig { offset, size, .. } => {
            let op = DeviceOp::GetConfig {
                offset: *offset,
                size: *size,
            };
            asks(alloc, op, session)
        }
        Request::SetConfig { offset, bytes, .. } => {
            let op = DeviceOp::SetConfig {
                offset: *offset,
                bytes: Bytes::from_slice(alloc, bytes.as_slice())?,
            };
            asks(alloc, op, session)
        }
        Request::SetBackendReqFd { object } => {
            let backend = backend_for(*object, session.protocol);
            asks(alloc, DeviceOp::SetBackendReqFd(backend), session)
        }
        Request::SetGpuSocket { object } => asks(alloc, DeviceOp::SetGpuSocket(*object), session),
        Request::CheckDeviceState => asks(alloc, DeviceOp::CheckDeviceState, session),
        Request::GetSharedObject { uuid } => asks(alloc, DeviceOp::GetSharedObject(*uuid), session),
        Request::SetDeviceStateFd {
            direction,
            phase,
            object,
        } => {
            let op = DeviceOp::SetDeviceStateFd {
                direction: *direction,
                phase: *phase,
                object: *object,
            };
            asks(alloc, op, session)
        }
        Request::GetShmemConfig => asks(alloc, DeviceOp::GetShmemConfig, session),
        Request::GetInflightFd => unsupported(alloc, session),
        Request::SetInflightFd { .. } => unsupported(alloc, session),
        Request::RegisterListener {
            worker,
            event,
            set,
            token,
        } => register(alloc, wired, session, *worker, *event, *set, *token),
        Request::UnregisterListener {
            worker,
            event,
            set,
            token,
        } => unregister(alloc, wired, session, *worker, *event, *set, *token),
        Request::SendExit => send_exit(alloc, wired, session),
    }
}
