//! The plans that change one ring.
ghost use Rattle.std.specs.Prelude.{◌≡◌, ◌++◌, ◌∷◌, [], true, IfOk};
ghost use Rattle.vub_model.specs.Plans.{when, kick_steps, call_steps, enable_steps, disable_steps, stop_steps};
ghost use Rattle.vub_model.specs.Plans.{off_steps, release_steps, update_steps};

use crate::blocks::{claim, off, release, same_event, update};
use crate::steps::PlanSteps;
use crate::wired::Wired;
use std::alloc::Global;
use vub_base::OutOfMemory;
use vub_model::{Known, Place, RingOp, Small};
use vub_proto::DeviceOp;

/// The kick leaves, where this holds.
fn off_if(
    steps: PlanSteps,
    holds: bool,
    place: Option<Place>,
    kick: Option<u32>,
) -> Result<PlanSteps, OutOfMemory>
    ensures { IfOk result (λ now. now ≡ when holds (off_steps place kick) ++ steps) }
{
    if holds {
        off(steps, place, kick)
    } else {
        Ok(steps)
    }
}

/// The kick is released, where this holds.
fn release_if(steps: PlanSteps, holds: bool, kick: Option<u32>) -> Result<PlanSteps, OutOfMemory>
    ensures { IfOk result (λ now. now ≡ when holds (release_steps kick) ++ steps) }
{
    if holds {
        release(steps, kick)
    } else {
        Ok(steps)
    }
}

/// One more step, where this holds.
fn after_if(steps: PlanSteps, holds: bool, small: Small) -> Result<PlanSteps, OutOfMemory>
    ensures { IfOk result (λ now. now ≡ when holds (small ∷ []) ++ steps) }
{
    if holds { steps.after(small) } else { Ok(steps) }
}

/// A ring gets a new kick, or none.
pub fn kick_steps(
    alloc: Global,
    wired: &Wired,
    queue: u32,
    known: Known,
    new: Option<u32>,
) -> Result<PlanSteps, OutOfMemory>
    ensures { IfOk result (λ steps. steps ≡ kick_steps wired.now queue known new) }
{
    let differs = !same_event(known.kick, new);
    let is_on = (known.ready || new.is_some()) && known.enabled;
    let ready = Small::Set {
        queue,
        op: RingOp::SetReady(true),
    };
    let kick = Small::Set {
        queue,
        op: RingOp::SetKick(new),
    };
    let steps = update(PlanSteps::answer(alloc), wired, queue, new, is_on)?;
    let steps = after_if(steps, new.is_some() && !known.ready, ready)?;
    let steps = release_if(steps, differs, known.kick)?;
    let steps = steps.after(kick)?;
    let steps = off_if(steps, differs, wired.place_of(queue), known.kick)?;
    claim(steps, queue, new)
}

/// A ring that has a kick and is not ready becomes ready, where this holds.
fn ready_if(
    steps: PlanSteps,
    holds: bool,
    wired: &Wired,
    queue: u32,
    known: Known,
) -> Result<PlanSteps, OutOfMemory>
    ensures { IfOk result (λ now. now ≡ when holds (Small.Set queue (RingOp.SetReady true)
        ∷ update_steps wired.now queue known.kick known.enabled) ++ steps) }
{
    if holds {
        let steps = update(steps, wired, queue, known.kick, known.enabled)?;
        steps.after(Small::Set {
            queue,
            op: RingOp::SetReady(true),
        })
    } else {
        Ok(steps)
    }
}

/// A ring gets a new call, or none; a ring that has a kick and is not ready becomes ready.
pub fn call_steps(
    alloc: Global,
    wired: &Wired,
    queue: u32,
    known: Known,
    new: Option<u32>,
) -> Result<PlanSteps, OutOfMemory>
    ensures { IfOk result (λ steps. steps ≡ call_steps wired.now queue known new) }
{
    let is_due = known.kick.is_some() && !known.ready;
    let steps = ready_if(PlanSteps::answer(alloc), is_due, wired, queue, known)?;
    steps.after(Small::Set {
        queue,
        op: RingOp::SetCall(new),
    })
}

/// A ring is enabled or disabled.
pub fn enable(
    steps: PlanSteps,
    wired: &Wired,
    queue: u32,
    known: Known,
    enabled: bool,
) -> Result<PlanSteps, OutOfMemory>
    ensures { IfOk result (λ now. now ≡ enable_steps wired.now queue known enabled ++ steps) }
{
    let steps = update(steps, wired, queue, known.kick, known.ready && enabled)?;
    steps.after(Small::Set {
        queue,
        op: RingOp::SetEnabled(enabled),
    })
}

/// A ring is disabled, and its kick leaves.
pub fn disable(
    steps: PlanSteps,
    wired: &Wired,
    queue: u32,
    known: Known,
) -> Result<PlanSteps, OutOfMemory>
    ensures { IfOk result (λ now. now ≡ disable_steps wired.now queue known ++ steps) }
{
    let steps = off(steps, wired.place_of(queue), known.kick)?;
    steps.after(Small::Set {
        queue,
        op: RingOp::SetEnabled(false),
    })
}

/// A ring is stopped.
pub fn stop_steps(
    alloc: Global,
    wired: &Wired,
    queue: u32,
    known: Known,
) -> Result<PlanSteps, OutOfMemory>
    ensures { IfOk result (λ steps. steps ≡ stop_steps wired.now queue known) }
{
    let steps = release(PlanSteps::answer(alloc), known.kick)?;
    let steps = steps
        .after(Small::Set {
            queue,
            op: RingOp::SetCall(None),
        })?
        .after(Small::Set {
            queue,
            op: RingOp::SetKick(None),
        })?
        .after(Small::Device(DeviceOp::StopVring(queue)))?;
    let steps = off(steps, wired.place_of(queue), known.kick)?;
    steps.after(Small::Set {
        queue,
        op: RingOp::SetReady(false),
    })
}
