//! The loop of a control thread.
ghost use Rattle.std.specs.Prelude.{◌≡◌, ◌≤◌, Some, IfErr};
ghost use Rattle.vub_vring.specs.Calls.{telling};
ghost use Rattle.vub_attend.specs.Attending.{Attends, err_in};
ghost use Rattle.vub_attend.specs.Links.{IsLinkError};

use crate::link::Link;
use crate::objects::ObjectParts;
use crate::playing::reply_to;
use std::alloc::Global;
use std::sync::Wait;
use vub_handler::VhostUserHandler;
use vub_proto::VhostUserError;

/// Takes the next request, replies to it, and gives its answer to the link.
///
/// # Errors
/// The link's; want of memory.
fn attend_next<P: ObjectParts, K: Link>(
    rt: &impl Wait,
    alloc: Global,
    handler: &mut VhostUserHandler,
    parts: &mut P,
    link: &mut K,
) -> Result<(), VhostUserError>
    ensures attends { Attends (telling P.Device.said P.Device.moved) (err_in result) handler.old handler.new
        (P.state parts.old) (P.state parts.new) (K.talk link.old) (K.talk link.new) }
    ensures cause { IfErr result (IsLinkError (K.fault_count link.old) (K.fault_count link.new)) }
    ensures later { K.fault_count link.old ≤ K.fault_count link.new }
{
    let request = link.next(alloc)?;
    match reply_to(rt, handler, alloc, parts, &request) {
        Ok(answer) => link.answer(alloc, &answer),
        Err(_) => Err(VhostUserError::OutOfMemory),
    }
}

/// Takes the requests of a link, one after the other: plays each to its end, and gives its answer to the link. One that
/// names an event, a content, a log or a worker that is not there is answered `InvalidParam`, and nothing is played of
/// it. Where an entry in flight lets a step wait, it is tried again. Gives the error with which this ends: the link's,
/// which comes only where the link's count of faults rose, or want of memory. Only the last request that was taken may
/// lack its answer then; the steps that were played of it stand.
pub fn attend<P: ObjectParts, K: Link>(
    rt: &impl Wait,
    alloc: Global,
    handler: &mut VhostUserHandler,
    parts: &mut P,
    link: &mut K,
) -> VhostUserError
    ensures attends { Attends (telling P.Device.said P.Device.moved) (Some result) handler.old handler.new
        (P.state parts.old) (P.state parts.new) (K.talk link.old) (K.talk link.new) }
    ensures cause { IsLinkError (K.fault_count link.old) (K.fault_count link.new) result }
{
    for _ in rt.forever() {
        match attend_next(rt, alloc, handler, parts, link) {
            Ok(()) => {}
            Err(end) => return end,
        }
    }
    unreachable!()
}
