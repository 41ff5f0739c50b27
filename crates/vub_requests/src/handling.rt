//! A request that is played to its end.
ghost use Rattle.std.specs.Prelude.{◌≡◌};
ghost use Rattle.vub_vring.specs.Calls.{telling};
ghost use Rattle.vub_requests.specs.Handling.{Finishes, HandledBy};

use crate::unanswered::Unanswered;
use std::alloc::Global;
use vub_handler::{Half, Progress, VhostUserHandler};
use vub_proto::{Answer, Request};
use vub_vring::Parts;

/// Plays what is left of a request.
///
/// # Errors
/// `Waits` where an entry in flight lets the next step wait; or want of memory. The steps before it stand.
fn finish<P: Parts>(
    handler: &mut VhostUserHandler,
    alloc: Global,
    half: &mut Half,
    parts: &mut P,
) -> Result<Answer, Unanswered>
    ensures { Finishes (telling P.Device.said P.Device.moved) handler.old handler.new half.old half.new
        (P.state parts.old) (P.state parts.new) result }
{
    loop {
        match handler.step(alloc, half, parts) {
            Ok(Progress::Going) => {}
            Ok(Progress::Waits) => return Err(Unanswered::Waits),
            Ok(Progress::Done(answer)) => return Ok(answer),
            Err(_) => return Err(Unanswered::OutOfMemory),
        }
    }
}

/// Plays a request that is lent to its end, and gives its answer.
///
/// # Errors
/// `Waits` where an entry in flight lets the next step wait; or want of memory. The steps before it stand.
#[tactic(auto, using(crate::proofs::Plays::unbegun))]
pub fn handle_with<P: Parts>(
    handler: &mut VhostUserHandler,
    alloc: Global,
    parts: &mut P,
    request: &Request,
) -> Result<Answer, Unanswered>
    ensures { HandledBy (telling P.Device.said P.Device.moved) request.now handler.old handler.new
        (P.state parts.old) (P.state parts.new) result }
{
    match handler.begin_with(alloc, request) {
        Ok(mut half) => finish(handler, alloc, &mut half, parts),
        Err(_) => Err(Unanswered::OutOfMemory),
    }
}

/// Plays a request to its end, and gives its answer.
///
/// # Errors
/// `Waits` where an entry in flight lets the next step wait; or want of memory. The steps before it stand.
pub fn handle<P: Parts>(
    handler: &mut VhostUserHandler,
    alloc: Global,
    parts: &mut P,
    request: Request,
) -> Result<Answer, Unanswered>
    ensures { HandledBy (telling P.Device.said P.Device.moved) request handler.old handler.new
        (P.state parts.old) (P.state parts.new) result }
{
    handle_with(handler, alloc, parts, &request)
}
