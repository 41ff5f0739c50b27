//! The named calls of a session: owner, features and what is offered.
ghost use Rattle.vub_vring.specs.Calls.{telling};
ghost use Rattle.vub_requests.specs.Handling.{HandledBy};
ghost use Rattle.vub_requests.specs.OffList.{TakesAllOff};

use crate::handling::handle;
use crate::unanswered::Unanswered;
use std::alloc::Global;
use vub_handler::VhostUserHandler;
use vub_proto::{Answer, Request};
use vub_vring::Parts;

/// Claims the session.
///
/// # Errors
/// Those of `handle`.
pub fn set_owner<P: Parts>(
    handler: &mut VhostUserHandler,
    alloc: Global,
    parts: &mut P,
) -> Result<Answer, Unanswered>
    ensures { HandledBy (telling P.Device.said P.Device.moved) Request.SetOwner
        handler.old handler.new (P.state parts.old) (P.state parts.new) result }
{
    handle(handler, alloc, parts, Request::SetOwner)
}

/// Gives the session up.
///
/// # Errors
/// Those of `handle`.
pub fn reset_owner<P: Parts>(
    handler: &mut VhostUserHandler,
    alloc: Global,
    parts: &mut P,
) -> Result<Answer, Unanswered>
    ensures { HandledBy (telling P.Device.said P.Device.moved) Request.ResetOwner
        handler.old handler.new (P.state parts.old) (P.state parts.new) result }
{
    handle(handler, alloc, parts, Request::ResetOwner)
}

/// Disables every queue, and resets the device. Each queue's kick is then off its worker's interest list, and its event
/// number is not pending.
///
/// # Errors
/// Those of `handle`.
pub fn reset_device<P: Parts>(
    handler: &mut VhostUserHandler,
    alloc: Global,
    parts: &mut P,
) -> Result<Answer, Unanswered>
    ensures handled { HandledBy (telling P.Device.said P.Device.moved) Request.ResetDevice
        handler.old handler.new (P.state parts.old) (P.state parts.new) result }
    ensures off { TakesAllOff handler.old (P.state parts.old) (P.state parts.new) result }
{
    handle(handler, alloc, parts, Request::ResetDevice)
}

/// The features that are offered.
///
/// # Errors
/// Those of `handle`.
pub fn get_features<P: Parts>(
    handler: &mut VhostUserHandler,
    alloc: Global,
    parts: &mut P,
) -> Result<Answer, Unanswered>
    ensures { HandledBy (telling P.Device.said P.Device.moved) Request.GetFeatures
        handler.old handler.new (P.state parts.old) (P.state parts.new) result }
{
    handle(handler, alloc, parts, Request::GetFeatures)
}

/// Acknowledges features.
///
/// # Errors
/// Those of `handle`.
pub fn set_features<P: Parts>(
    handler: &mut VhostUserHandler,
    alloc: Global,
    parts: &mut P,
    bits: u64,
) -> Result<Answer, Unanswered>
    ensures { HandledBy (telling P.Device.said P.Device.moved) (Request.SetFeatures bits)
        handler.old handler.new (P.state parts.old) (P.state parts.new) result }
{
    handle(handler, alloc, parts, Request::SetFeatures(bits))
}

/// The protocol features that are offered.
///
/// # Errors
/// Those of `handle`.
pub fn get_protocol_features<P: Parts>(
    handler: &mut VhostUserHandler,
    alloc: Global,
    parts: &mut P,
) -> Result<Answer, Unanswered>
    ensures { HandledBy (telling P.Device.said P.Device.moved) Request.GetProtocolFeatures
        handler.old handler.new (P.state parts.old) (P.state parts.new) result }
{
    handle(handler, alloc, parts, Request::GetProtocolFeatures)
}

/// Acknowledges protocol features.
///
/// # Errors
/// Those of `handle`.
pub fn set_protocol_features<P: Parts>(
    handler: &mut VhostUserHandler,
    alloc: Global,
    parts: &mut P,
    bits: u64,
) -> Result<Answer, Unanswered>
    ensures { HandledBy (telling P.Device.said P.Device.moved) (Request.SetProtocolFeatures bits)
        handler.old handler.new (P.state parts.old) (P.state parts.new) result }
{
    handle(handler, alloc, parts, Request::SetProtocolFeatures(bits))
}

/// The number of queues.
///
/// # Errors
/// Those of `handle`.
pub fn get_queue_num<P: Parts>(
    handler: &mut VhostUserHandler,
    alloc: Global,
    parts: &mut P,
) -> Result<Answer, Unanswered>
    ensures { HandledBy (telling P.Device.said P.Device.moved) Request.GetQueueNum
        handler.old handler.new (P.state parts.old) (P.state parts.new) result }
{
    handle(handler, alloc, parts, Request::GetQueueNum)
}

/// How many regions guest memory may have.
///
/// # Errors
/// Those of `handle`.
pub fn get_max_mem_slots<P: Parts>(
    handler: &mut VhostUserHandler,
    alloc: Global,
    parts: &mut P,
) -> Result<Answer, Unanswered>
    ensures { HandledBy (telling P.Device.said P.Device.moved) Request.GetMaxMemSlots
        handler.old handler.new (P.state parts.old) (P.state parts.new) result }
{
    handle(handler, alloc, parts, Request::GetMaxMemSlots)
}
