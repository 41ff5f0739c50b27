//! The blocks of which plans are made. Each puts its steps before those that are there.
ghost use Rattle.std.specs.Prelude.{◌≡◌, ◌++◌, IfOk};
ghost use Rattle.vub_model.specs.Plans.{off_steps, on_steps, update_steps, claim_steps, release_steps, same_event};

use crate::steps::PlanSteps;
use crate::wired::Wired;
use vub_base::OutOfMemory;
use vub_model::{Place, Small};

/// The kick of a queue that has a worker leaves pending set and list.
pub fn off(
    steps: PlanSteps,
    place: Option<Place>,
    kick: Option<u32>,
) -> Result<PlanSteps, OutOfMemory>
    ensures { IfOk result (λ now. now ≡ off_steps place kick ++ steps) }
{
    match (place, kick) {
        (Some(place), Some(kick)) => steps
            .after(Small::Delete {
                worker: place.worker,
                object: kick,
            })?
            .after(Small::Remove {
                worker: place.worker,
                number: place.number,
            }),
        (Some(_), None) | (None, _) => Ok(steps),
    }
}

/// It joins both, and the bell is rung.
pub fn on(
    steps: PlanSteps,
    wired: &Wired,
    place: Option<Place>,
    kick: Option<u32>,
) -> Result<PlanSteps, OutOfMemory>
    ensures { IfOk result (λ now. now ≡ on_steps wired.now place kick ++ steps) }
{
    match (place, kick) {
        (Some(place), Some(kick)) => steps
            .after(Small::Bell {
                object: wired.opened_at(place.worker).bell,
            })?
            .after(Small::Insert {
                worker: place.worker,
                number: place.number,
            })?
            .after(Small::Add {
                worker: place.worker,
                object: kick,
                token: place.number as u64,
            }),
        (Some(_), None) | (None, _) => Ok(steps),
    }
}

/// On or off, by whether the queue is ready and enabled.
pub fn update(
    steps: PlanSteps,
    wired: &Wired,
    queue: u32,
    kick: Option<u32>,
    is_on: bool,
) -> Result<PlanSteps, OutOfMemory>
    ensures { IfOk result (λ now. now ≡ update_steps wired.now queue kick is_on ++ steps) }
{
    let place = wired.place_of(queue);
    if is_on {
        on(steps, wired, place, kick)
    } else {
        off(steps, place, kick)
    }
}

/// The queue claims the event, if there is one.
pub fn claim(steps: PlanSteps, queue: u32, object: Option<u32>) -> Result<PlanSteps, OutOfMemory>
    ensures { IfOk result (λ now. now ≡ claim_steps queue object ++ steps) }
{
    match object {
        Some(object) => steps.after(Small::Claim { object, queue }),
        None => Ok(steps),
    }
}

/// No queue claims the event any more, if there is one.
pub fn release(steps: PlanSteps, object: Option<u32>) -> Result<PlanSteps, OutOfMemory>
    ensures { IfOk result (λ now. now ≡ release_steps object ++ steps) }
{
    match object {
        Some(object) => steps.after(Small::Release { object }),
        None => Ok(steps),
    }
}

/// Whether they are the same event, or both are none.
pub fn same_event(a: Option<u32>, b: Option<u32>) -> bool
    ensures { result ≡ same_event a b }
{
    match (a, b) {
        (None, None) => true,
        (Some(a), Some(b)) => a == b,
        (None, Some(_)) | (Some(_), None) => false,
    }
}
