//! The plans that change or ask the session alone.
ghost use Rattle.std.specs.Prelude.{◌≡◌, ◌∷◌, [], IfOk};
ghost use Rattle.vub_model.specs.Plans.{answered, refused, done};
ghost use Rattle.vub_plan.specs.Halves.{of_plan, IsSessionPlan};

use crate::half::{Due, Half};
use crate::steps::PlanSteps;
use std::alloc::Global;
use vub_base::{Listed, OutOfMemory};
use vub_model::{Session, Small};
use vub_proto::{Answer, Denied, DeviceOp, Request, VhostUserError};

/// A copy of the session.
///
/// # Errors
/// Want of memory.
pub fn copied(alloc: Global, session: &Session) -> Result<Session, OutOfMemory>
    ensures { IfOk result (λ copy. copy ≡ session.now) }
{
    let mappings = Vec::from_slice(alloc, session.mappings.as_slice())?;
    Ok(Session {
        owned: session.owned,
        features: session.features,
        protocol: session.protocol,
        mappings: Listed::from_vec(mappings),
    })
}

/// The Answer alone, after which the session is this one.
pub fn answered(alloc: Global, answer: Answer, session: Session) -> Half
    ensures { result ≡ of_plan (answered answer session) }
{
    Half::new(PlanSteps::answer(alloc), Due::Says(answer), session)
}

/// The Answer alone, which refuses the request.
///
/// # Errors
/// Want of memory.
pub fn refused(alloc: Global, error: VhostUserError, session: &Session) -> Result<Half, OutOfMemory>
    ensures { IfOk result (λ half. half ≡ of_plan (refused error session.now)) }
{
    let session = copied(alloc, session)?;
    Ok(answered(alloc, Answer::Failed(error), session))
}

/// These steps, whose Answer says ok, and after which the session is this one.
pub fn done(steps: PlanSteps, session: Session) -> Half
    ensures { result ≡ of_plan (done steps session) }
{
    Half::new(steps, Due::Says(Answer::Ok), session)
}

/// A number, which changes nothing.
pub fn number(alloc: Global, n: u64, session: &Session) -> Result<Half, OutOfMemory>
    ensures { IfOk result (λ half. half ≡ of_plan (answered (Answer.Number n) session.now)) }
{
    let session = copied(alloc, session)?;
    Ok(answered(alloc, Answer::Number(n), session))
}

/// One call of the device.
pub fn asks(alloc: Global, op: DeviceOp, session: &Session) -> Result<Half, OutOfMemory>
    ensures { IfOk result (λ half. half ≡ of_plan (done (Small.Device op ∷ Small.Answer ∷ []) session.now)) }
{
    let steps = PlanSteps::answer(alloc).after(Small::Device(op))?;
    Ok(done(steps, copied(alloc, session)?))
}

/// The plan of `set_owner`.
#[tactic(auto, unfolding(vub_model::specs::Plans::plan_of))]
pub fn set_owner(alloc: Global, session: &Session) -> Result<Half, OutOfMemory>
    ensures { IfOk result (IsSessionPlan session.now Request.SetOwner) }
{
    if session.owned {
        let error = VhostUserError::InvalidOperation(Denied::AlreadyClaimed);
        return refused(alloc, error, session);
    }
    let mut session = copied(alloc, session)?;
    session.owned = true;
    Ok(answered(alloc, Answer::Ok, session))
}

/// The plan of `reset_owner`.
#[tactic(auto, unfolding(vub_model::specs::Plans::plan_of))]
pub fn reset_owner(alloc: Global, session: &Session) -> Result<Half, OutOfMemory>
    ensures { IfOk result (IsSessionPlan session.now Request.ResetOwner) }
{
    let mut session = copied(alloc, session)?;
    session.owned = false;
    session.features = 0;
    session.protocol = 0;
    Ok(answered(alloc, Answer::Ok, session))
}

/// The plan of `set_protocol_features`.
#[tactic(auto, unfolding(vub_model::specs::Plans::plan_of))]
pub fn set_protocol(alloc: Global, session: &Session, bits: u64) -> Result<Half, OutOfMemory>
    ensures { IfOk result (IsSessionPlan session.now (Request.SetProtocolFeatures bits)) }
{
    let mut session = copied(alloc, session)?;
    session.protocol = bits;
    Ok(answered(alloc, Answer::Ok, session))
}
