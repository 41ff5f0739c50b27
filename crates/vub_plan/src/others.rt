//! The plans of listeners, exits and what is not supported.
ghost use Rattle.std.specs.Prelude.{◌≡◌, ◌++◌, ◌&&◌, ◌==◌, nat_lt, nat_le, length, IfOk};
ghost use Rattle.vub_model.specs.Plans.{listener_refused, refused, bell_steps, exit_steps};
ghost use Rattle.vub_plan.specs.Halves.{of_plan, IsSessionPlan, IsWiredPlan};

use crate::half::Half;
use crate::session::{answered, copied, done, refused};
use crate::steps::PlanSteps;
use crate::wired::Wired;
use std::alloc::Global;
use vub_base::OutOfMemory;
use vub_model::{Opened, Session, Small};
use vub_proto::{Answer, Denied, ListenerError, Request, VhostUserError};

/// `EPOLLIN` of epoll(7), the one set of a listener.
const IN: u32 = 1;

/// The greatest token of a listener.
const GREATEST: u64 = 65535;

/// Whether a listener may have this worker, this set and this token, where its event is there.
fn is_listener(wired: &Wired, worker: u32, set: u32, token: u64) -> bool
    ensures { result ≡ (nat_lt wired.now.queues token && nat_le token 65535 && (set == 1)
        && nat_lt worker (length wired.now.opened)) }
{
    (wired.queue_count() as u64) < token
        && token <= GREATEST
        && set == IN
        && (worker as usize) < wired.opened().len()
}

/// The Answer of a listener that is refused.
fn invalid(alloc: Global, session: &Session) -> Result<Half, OutOfMemory>
    ensures { IfOk result (λ half. half ≡ of_plan (listener_refused session.now)) }
{
    let answer = Answer::Listener(ListenerError::EINVAL);
    Ok(answered(alloc, answer, copied(alloc, session)?))
}

/// The plan of `register_listener`, where its event is there.
#[tactic(auto, unfolding(vub_model::specs::Plans::plan_of))]
pub fn register(
    alloc: Global,
    wired: &Wired,
    session: &Session,
    worker: u32,
    event: u32,
    set: u32,
    token: u64,
) -> Result<Half, OutOfMemory>
    ensures { IfOk result (IsWiredPlan wired.now session.now (Request.RegisterListener worker event set token)) }
{
    if !is_listener(wired, worker, set, token) {
        return invalid(alloc, session);
    }
    let steps = PlanSteps::answer(alloc).after(Small::Listen {
        worker,
        object: event,
        token,
    })?;
    Ok(done(steps, copied(alloc, session)?))
}

/// The plan of `unregister_listener`, where its event is there.
#[tactic(auto, unfolding(vub_model::specs::Plans::plan_of))]
pub fn unregister(
    alloc: Global,
    wired: &Wired,
    session: &Session,
    worker: u32,
    event: u32,
    set: u32,
    token: u64,
) -> Result<Half, OutOfMemory>
    ensures { IfOk result (IsWiredPlan wired.now session.now (Request.UnregisterListener worker event set token)) }
{
    if !is_listener(wired, worker, set, token) {
        return invalid(alloc, session);
    }
    let steps = PlanSteps::answer(alloc).after(Small::Unlisten {
        worker,
        object: event,
        above: wired.queue_count() as u64,
    })?;
    Ok(done(steps, copied(alloc, session)?))
}

/// The plan of a request that is not supported.
pub fn unsupported(alloc: Global, session: &Session) -> Result<Half, OutOfMemory>
    ensures { IfOk result (λ half. half ≡ of_plan
        (refused (VhostUserError.InvalidOperation Denied.NotSupported) session.now)) }
{
    let error = VhostUserError::InvalidOperation(Denied::NotSupported);
    refused(alloc, error, session)
}

/// The plan of `set_log_base`.
#[tactic(auto, unfolding(vub_model::specs::Plans::plan_of))]
pub fn set_log(
    alloc: Global,
    session: &Session,
    size: u64,
    offset: u64,
    object: u32,
) -> Result<Half, OutOfMemory>
    ensures { IfOk result (IsSessionPlan session.now (Request.SetLogBase size offset object)) }
{
    let steps = PlanSteps::answer(alloc).after(Small::Log {
        object,
        offset,
        size,
    })?;
    Ok(done(steps, copied(alloc, session)?))
}

/// The exit object of a worker is signalled, if it has one.
fn bell(steps: PlanSteps, exit: Option<u32>) -> Result<PlanSteps, OutOfMemory>
    ensures { IfOk result (λ now. now ≡ bell_steps exit ++ steps) }
{
    match exit {
        Some(object) => steps.after(Small::Bell { object }),
        None => Ok(steps),
    }
}

/// Each worker that has an exit object is told to end.
#[tactic(auto, using(crate::proofs::Exits::exits_next))]
fn exits(steps: PlanSteps, opened: &[Opened]) -> Result<PlanSteps, OutOfMemory>
    ensures { IfOk result (λ now. now ≡ exit_steps opened.now ++ steps) }
{
    let count = opened.len();
    let mut plan = steps;
    for done in 0..count {
        plan = bell(plan, opened[count - 1 - done].exit)?;
    }
    Ok(plan)
}

/// The plan of `send_exit`.
#[tactic(auto, unfolding(vub_model::specs::Plans::plan_of))]
pub fn send_exit(alloc: Global, wired: &Wired, session: &Session) -> Result<Half, OutOfMemory>
    ensures { IfOk result (IsWiredPlan wired.now session.now Request.SendExit) }
{
    let steps = exits(PlanSteps::answer(alloc), wired.opened())?;
    Ok(done(steps, copied(alloc, session)?))
}
