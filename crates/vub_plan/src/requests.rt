//! The plans of the requests that name a ring, and of those on features.
ghost use Rattle.std.specs.Prelude.{◌≡◌, ◌∷◌, [], IfOk};
ghost use Rattle.vub_model.specs.Plans.{done};
ghost use Rattle.vub_plan.specs.Halves.{of_plan, IsPlanOf, IsWiredPlan};

use crate::features::{PROTOCOL, features_steps, known_at, reset_steps};
use crate::half::{Due, Half};
use crate::places::has_bit;
use crate::rings::{call_steps, enable, kick_steps, stop_steps};
use crate::session::{copied, done, refused};
use crate::steps::PlanSteps;
use crate::wired::Wired;
use std::alloc::Global;
use vub_base::OutOfMemory;
use vub_model::{Known, RingOp, Session, Small};
use vub_proto::{Request, VhostUserError};

/// One change of a ring.
fn set(alloc: Global, session: &Session, queue: u32, op: RingOp) -> Result<Half, OutOfMemory>
    ensures { IfOk result (λ half. half ≡ of_plan (done (Small.Set queue op ∷ Small.Answer ∷ []) session.now)) }
{
    let steps = PlanSteps::answer(alloc).after(Small::Set { queue, op })?;
    Ok(done(steps, copied(alloc, session)?))
}

/// The plan of `set_vring_num`.
#[tactic(auto, unfolding(vub_model::specs::Plans::plan_of))]
pub fn set_size(
    alloc: Global,
    wired: &Wired,
    session: &Session,
    queue: u32,
    size: u64,
) -> Result<Half, OutOfMemory>
    ensures { IfOk result (IsWiredPlan wired.now session.now (Request.SetVringNum queue size)) }
{
    if !wired.has_queue(queue) || !wired.is_size(size) {
        return refused(alloc, VhostUserError::InvalidParam, session);
    }
    set(alloc, session, queue, RingOp::SetSize(size as u16))
}

/// The plan of `set_vring_base`, whose base counts in 16 bits.
#[tactic(auto, unfolding(vub_model::specs::Plans::plan_of))]
pub fn set_base(
    alloc: Global,
    wired: &Wired,
    session: &Session,
    queue: u32,
    base: u64,
) -> Result<Half, OutOfMemory>
    ensures { IfOk result (IsWiredPlan wired.now session.now (Request.SetVringBase queue base)) }
{
    if !wired.has_queue(queue) {
        return refused(alloc, VhostUserError::InvalidParam, session);
    }
    set(
        alloc,
        session,
        queue,
        RingOp::SetBase((base % 65536) as u16),
    )
}

/// The plan of `set_vring_err`.
#[tactic(auto, unfolding(vub_model::specs::Plans::plan_of))]
pub fn set_err(
    alloc: Global,
    wired: &Wired,
    session: &Session,
    queue: u32,
    event: Option<u32>,
) -> Result<Half, OutOfMemory>
    ensures { IfOk result (IsWiredPlan wired.now session.now (Request.SetVringErr queue event)) }
{
    if !wired.has_queue(queue) {
        return refused(alloc, VhostUserError::InvalidParam, session);
    }
    set(alloc, session, queue, RingOp::SetErr(event))
}

/// The plan of `set_vring_kick`.
#[tactic(auto, unfolding(vub_model::specs::Plans::plan_of))]
pub fn set_kick(
    alloc: Global,
    wired: &Wired,
    known: &[Known],
    session: &Session,
    queue: u32,
    event: Option<u32>,
) -> Result<Half, OutOfMemory>
    ensures { IfOk result (IsPlanOf wired.now known.now session.now (Request.SetVringKick queue event)) }
{
    if !wired.has_queue(queue) {
        return refused(alloc, VhostUserError::InvalidParam, session);
    }
    let steps = kick_steps(alloc, wired, queue, known_at(known, queue), event)?;
    Ok(done(steps, copied(alloc, session)?))
}

/// The plan of `set_vring_call`.
#[tactic(auto, unfolding(vub_model::specs::Plans::plan_of))]
pub fn set_call(
    alloc: Global,
    wired: &Wired,
    known: &[Known],
    session: &Session,
    queue: u32,
    event: Option<u32>,
) -> Result<Half, OutOfMemory>
    ensures { IfOk result (IsPlanOf wired.now known.now session.now (Request.SetVringCall queue event)) }
{
    if !wired.has_queue(queue) {
        return refused(alloc, VhostUserError::InvalidParam, session);
    }
    let steps = call_steps(alloc, wired, queue, known_at(known, queue), event)?;
    Ok(done(steps, copied(alloc, session)?))
}

/// The plan of `set_vring_enable`.
#[tactic(auto, unfolding(vub_model::specs::Plans::plan_of))]
pub fn set_enable(
    alloc: Global,
    wired: &Wired,
    known: &[Known],
    session: &Session,
    queue: u32,
    enabled: bool,
) -> Result<Half, OutOfMemory>
    ensures { IfOk result (IsPlanOf wired.now known.now session.now (Request.SetVringEnable queue enabled)) }
{
    if !has_bit(session.features, PROTOCOL) {
        return refused(alloc, VhostUserError::InactiveFeature, session);
    }
    if !wired.has_queue(queue) {
        return refused(alloc, VhostUserError::InvalidParam, session);
    }
    let steps = PlanSteps::answer(alloc);
    let steps = enable(steps, wired, queue, known_at(known, queue), enabled)?;
    Ok(done(steps, copied(alloc, session)?))
}

/// The plan of `get_vring_base`: the ring is stopped.
#[tactic(auto, unfolding(vub_model::specs::Plans::plan_of))]
pub fn get_base(
    alloc: Global,
    wired: &Wired,
    known: &[Known],
    session: &Session,
    queue: u32,
) -> Result<Half, OutOfMemory>
    ensures { IfOk result (IsPlanOf wired.now known.now session.now (Request.GetVringBase queue)) }
{
    if !wired.has_queue(queue) {
        return refused(alloc, VhostUserError::InvalidParam, session);
    }
    let steps = stop_steps(alloc, wired, queue, known_at(known, queue))?;
    Ok(Half::new(steps, Due::NextOf(queue), copied(alloc, session)?))
}

/// The plan of `set_features`.
#[tactic(auto, unfolding(vub_model::specs::Plans::plan_of))]
pub fn set_features(
    alloc: Global,
    wired: &Wired,
    known: &[Known],
    session: &Session,
    bits: u64,
) -> Result<Half, OutOfMemory>
    ensures { IfOk result (IsPlanOf wired.now known.now session.now (Request.SetFeatures bits)) }
{
    if !wired.are_offered(bits) {
        return refused(alloc, VhostUserError::InvalidParam, session);
    }
    let steps = features_steps(alloc, wired, known, bits)?;
    let mut session = copied(alloc, session)?;
    session.features = bits;
    Ok(done(steps, session))
}

/// The plan of `reset_device`.
#[tactic(auto, unfolding(vub_model::specs::Plans::plan_of))]
pub fn reset_device(
    alloc: Global,
    wired: &Wired,
    known: &[Known],
    session: &Session,
) -> Result<Half, OutOfMemory>
    ensures { IfOk result (IsPlanOf wired.now known.now session.now Request.ResetDevice) }
{
    let steps = reset_steps(alloc, wired, known)?;
    let mut session = copied(alloc, session)?;
    session.features = 0;
    Ok(done(steps, session))
}
