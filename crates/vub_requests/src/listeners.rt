//! The named calls of listeners and of exit.
ghost use Rattle.vub_vring.specs.Calls.{telling};
ghost use Rattle.vub_requests.specs.Handling.{HandledBy};

use crate::handling::handle;
use crate::unanswered::Unanswered;
use std::alloc::Global;
use vub_handler::VhostUserHandler;
use vub_proto::{Answer, Request};
use vub_vring::Parts;

/// Puts an event of the device's own on a worker's list.
///
/// # Errors
/// Those of `handle`.
pub fn register_listener<P: Parts>(
    handler: &mut VhostUserHandler,
    alloc: Global,
    parts: &mut P,
    worker: u32,
    event: u32,
    set: u32,
    token: u64,
) -> Result<Answer, Unanswered>
    ensures { HandledBy (telling P.Device.said P.Device.moved) (Request.RegisterListener worker event set token)
        handler.old handler.new (P.state parts.old) (P.state parts.new) result }
{
    handle(
        handler,
        alloc,
        parts,
        Request::RegisterListener {
            worker,
            event,
            set,
            token,
        },
    )
}

/// Takes an event of the device's own off a worker's list.
///
/// # Errors
/// Those of `handle`.
pub fn unregister_listener<P: Parts>(
    handler: &mut VhostUserHandler,
    alloc: Global,
    parts: &mut P,
    worker: u32,
    event: u32,
    set: u32,
    token: u64,
) -> Result<Answer, Unanswered>
    ensures { HandledBy (telling P.Device.said P.Device.moved) (Request.UnregisterListener worker event set token)
        handler.old handler.new (P.state parts.old) (P.state parts.new) result }
{
    handle(
        handler,
        alloc,
        parts,
        Request::UnregisterListener {
            worker,
            event,
            set,
            token,
        },
    )
}

/// Signals the exit object of each worker that has one.
///
/// # Errors
/// Those of `handle`.
pub fn send_exit<P: Parts>(
    handler: &mut VhostUserHandler,
    alloc: Global,
    parts: &mut P,
) -> Result<Answer, Unanswered>
    ensures { HandledBy (telling P.Device.said P.Device.moved) Request.SendExit
        handler.old handler.new (P.state parts.old) (P.state parts.new) result }
{
    handle(handler, alloc, parts, Request::SendExit)
}
