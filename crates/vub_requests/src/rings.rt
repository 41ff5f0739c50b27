//! The named calls of a queue.
ghost use Rattle.std.specs.Prelude.{◌≡◌, false};
ghost use Rattle.vub_vring.specs.Calls.{telling};
ghost use Rattle.vub_requests.specs.Handling.{HandledBy};
ghost use Rattle.vub_requests.specs.OffList.{TakesOff};

use crate::handling::handle;
use crate::unanswered::Unanswered;
use std::alloc::Global;
use vub_handler::VhostUserHandler;
use vub_proto::{Answer, Request};
use vub_vring::Parts;

/// Sets the size of a queue, in entries.
///
/// # Errors
/// Those of `handle`.
pub fn set_vring_num<P: Parts>(
    handler: &mut VhostUserHandler,
    alloc: Global,
    parts: &mut P,
    queue: u32,
    size: u64,
) -> Result<Answer, Unanswered>
    ensures { HandledBy (telling P.Device.said P.Device.moved) (Request.SetVringNum queue size)
        handler.old handler.new (P.state parts.old) (P.state parts.new) result }
{
    handle(handler, alloc, parts, Request::SetVringNum { queue, size })
}

/// Sets the addresses of a queue's parts, in the front end's own space.
///
/// # Errors
/// Those of `handle`.
pub fn set_vring_addr<P: Parts>(
    handler: &mut VhostUserHandler,
    alloc: Global,
    parts: &mut P,
    queue: u32,
    flags: u32,
    desc: u64,
    used: u64,
    avail: u64,
    log: u64,
) -> Result<Answer, Unanswered>
    ensures { HandledBy (telling P.Device.said P.Device.moved) (Request.SetVringAddr queue flags desc used avail log)
        handler.old handler.new (P.state parts.old) (P.state parts.new) result }
{
    handle(
        handler,
        alloc,
        parts,
        Request::SetVringAddr {
            queue,
            flags,
            desc,
            used,
            avail,
            log,
        },
    )
}

/// Sets the number of a queue's next entry.
///
/// # Errors
/// Those of `handle`.
pub fn set_vring_base<P: Parts>(
    handler: &mut VhostUserHandler,
    alloc: Global,
    parts: &mut P,
    queue: u32,
    base: u64,
) -> Result<Answer, Unanswered>
    ensures { HandledBy (telling P.Device.said P.Device.moved) (Request.SetVringBase queue base)
        handler.old handler.new (P.state parts.old) (P.state parts.new) result }
{
    handle(handler, alloc, parts, Request::SetVringBase { queue, base })
}

/// Stops a queue, and answers the number of its next entry. Its kick is then off its worker's interest list, and its
/// event number is not pending.
///
/// # Errors
/// Those of `handle`.
pub fn get_vring_base<P: Parts>(
    handler: &mut VhostUserHandler,
    alloc: Global,
    parts: &mut P,
    queue: u32,
) -> Result<Answer, Unanswered>
    ensures handled { HandledBy (telling P.Device.said P.Device.moved) (Request.GetVringBase queue)
        handler.old handler.new (P.state parts.old) (P.state parts.new) result }
    ensures off { TakesOff handler.old queue (P.state parts.old) (P.state parts.new) result }
{
    handle(handler, alloc, parts, Request::GetVringBase { queue })
}

/// Sets the event by which the guest kicks a queue.
///
/// # Errors
/// Those of `handle`.
pub fn set_vring_kick<P: Parts>(
    handler: &mut VhostUserHandler,
    alloc: Global,
    parts: &mut P,
    queue: u32,
    event: Option<u32>,
) -> Result<Answer, Unanswered>
    ensures { HandledBy (telling P.Device.said P.Device.moved) (Request.SetVringKick queue event)
        handler.old handler.new (P.state parts.old) (P.state parts.new) result }
{
    handle(
        handler,
        alloc,
        parts,
        Request::SetVringKick { queue, event },
    )
}

/// Sets the event by which a queue calls the guest.
///
/// # Errors
/// Those of `handle`.
pub fn set_vring_call<P: Parts>(
    handler: &mut VhostUserHandler,
    alloc: Global,
    parts: &mut P,
    queue: u32,
    event: Option<u32>,
) -> Result<Answer, Unanswered>
    ensures { HandledBy (telling P.Device.said P.Device.moved) (Request.SetVringCall queue event)
        handler.old handler.new (P.state parts.old) (P.state parts.new) result }
{
    handle(
        handler,
        alloc,
        parts,
        Request::SetVringCall { queue, event },
    )
}

/// Sets the event by which a queue's errors are told.
///
/// # Errors
/// Those of `handle`.
pub fn set_vring_err<P: Parts>(
    handler: &mut VhostUserHandler,
    alloc: Global,
    parts: &mut P,
    queue: u32,
    event: Option<u32>,
) -> Result<Answer, Unanswered>
    ensures { HandledBy (telling P.Device.said P.Device.moved) (Request.SetVringErr queue event)
        handler.old handler.new (P.state parts.old) (P.state parts.new) result }
{
    handle(handler, alloc, parts, Request::SetVringErr { queue, event })
}

/// Enables or disables a queue. The kick of a disabled one is then off its worker's interest list, and its event number
/// is not pending.
///
/// # Errors
/// Those of `handle`.
pub fn set_vring_enable<P: Parts>(
    handler: &mut VhostUserHandler,
    alloc: Global,
    parts: &mut P,
    queue: u32,
    enabled: bool,
) -> Result<Answer, Unanswered>
    ensures handled { HandledBy (telling P.Device.said P.Device.moved) (Request.SetVringEnable queue enabled)
        handler.old handler.new (P.state parts.old) (P.state parts.new) result }
    ensures off { enabled ≡ false → TakesOff handler.old queue (P.state parts.old) (P.state parts.new) result }
{
    handle(
        handler,
        alloc,
        parts,
        Request::SetVringEnable { queue, enabled },
    )
}
