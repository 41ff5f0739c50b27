//! A request that is played to its end.
ghost use Rattle.std.specs.Prelude.{◌≡◌, IfOk, IsErrOf};
ghost use Rattle.vub_vring.specs.Calls.{telling};
ghost use Rattle.vub_handler.specs.Playing.{PlayFrame};
ghost use Rattle.vub_requests.specs.Handling.{Finishes, HandledBy};
ghost use Rattle.vub_attend.specs.Attending.{CameBy, RepliesBy};

use crate::naming::{has_objects, has_worker};
use crate::objects::ObjectParts;
use std::alloc::Global;
use std::sync::Wait;
use vub_base::OutOfMemory;
use vub_handler::{Half, Progress, VhostUserHandler};
use vub_proto::{Answer, Request, VhostUserError};
use vub_requests::Unanswered;
use vub_vring::Parts;

/// Plays a step of a request, and gives its answer, if this was its last. Where the step has to wait, nothing is done.
///
/// # Errors
/// Want of memory leaves the session, the request and the parts as they were.
fn advance<P: Parts>(
    handler: &mut VhostUserHandler,
    alloc: Global,
    half: &mut Half,
    parts: &mut P,
) -> Result<Option<Answer>, OutOfMemory>
    ensures row { IfOk result (λ answer. CameBy (telling P.Device.said P.Device.moved) answer handler.old handler.new
        half.old half.new (P.state parts.old) (P.state parts.new)) }
    ensures frame { PlayFrame handler.old handler.new half.old half.new (P.state parts.old) (P.state parts.new) result }
{
    match handler.step(alloc, half, parts)? {
        Progress::Going => Ok(None),
        Progress::Waits => Ok(None),
        Progress::Done(answer) => Ok(Some(answer)),
    }
}

/// Plays what is left of a request. Where an entry in flight lets a step wait, it is tried again.
///
/// # Errors
/// Want of memory. The steps before it stand.
fn finish<P: Parts>(
    rt: &impl Wait,
    handler: &mut VhostUserHandler,
    alloc: Global,
    half: &mut Half,
    parts: &mut P,
) -> Result<Answer, Unanswered>
    ensures finishes { Finishes (telling P.Device.said P.Device.moved) handler.old handler.new half.old half.new
        (P.state parts.old) (P.state parts.new) result }
    ensures memory { ¬ (IsErrOf result Unanswered.Waits) }
{
    for _ in rt.forever() {
        match advance(handler, alloc, half, parts) {
            Ok(None) => {}
            Ok(Some(answer)) => return Ok(answer),
            Err(_) => return Err(Unanswered::OutOfMemory),
        }
    }
    unreachable!()
}

/// Plays a request to its end, and gives its answer.
///
/// # Errors
/// Want of memory. The steps before it stand.
fn play<P: Parts>(
    rt: &impl Wait,
    handler: &mut VhostUserHandler,
    alloc: Global,
    parts: &mut P,
    request: &Request,
) -> Result<Answer, Unanswered>
    ensures handled { HandledBy (telling P.Device.said P.Device.moved) request.now handler.old handler.new
        (P.state parts.old) (P.state parts.new) result }
    ensures memory { ¬ (IsErrOf result Unanswered.Waits) }
{
    match handler.begin_with(alloc, request) {
        Ok(mut half) => finish(rt, handler, alloc, &mut half, parts),
        Err(_) => Err(Unanswered::OutOfMemory),
    }
}

/// Plays a request to its end, and gives its answer. One that names what is not there is answered `InvalidParam`, and
/// nothing is played.
///
/// # Errors
/// Want of memory. The steps before it stand.
pub(crate) fn reply_to<P: ObjectParts>(
    rt: &impl Wait,
    handler: &mut VhostUserHandler,
    alloc: Global,
    parts: &mut P,
    request: &Request,
) -> Result<Answer, Unanswered>
    ensures replies { RepliesBy (telling P.Device.said P.Device.moved) request.now handler.old handler.new
        (P.state parts.old) (P.state parts.new) result }
    ensures memory { ¬ (IsErrOf result Unanswered.Waits) }
{
    if !has_worker(handler, request) || !has_objects(parts, request) {
        return Ok(Answer::Failed(VhostUserError::InvalidParam));
    }
    play(rt, handler, alloc, parts, request)
}
