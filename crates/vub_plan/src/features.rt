//! The plans that change every ring.
ghost use Rattle.std.specs.Prelude.{◌≡◌, ◌++◌, ◌∷◌, [], true, IfOk};
ghost use Rattle.vub_model.specs.Plans.{each_queue, enable_steps, disable_steps, when, features_steps, reset_steps};
ghost use Rattle.vub_plan.specs.Wires.{known_in, rings_known};

use crate::places::has_bit;
use crate::rings::{disable, enable};
use crate::steps::PlanSteps;
use crate::wired::Wired;
use std::alloc::Global;
use vub_base::OutOfMemory;
use vub_model::{Known, RingOp, Small};
use vub_proto::DeviceOp;

/// The virtio feature bit by which notifications go by index (`VIRTIO_F_EVENT_IDX`).
const EVENT_IDX: u32 = 29;

/// The vhost-user feature bit with which a ring starts disabled (`VHOST_USER_F_PROTOCOL_FEATURES`).
pub(crate) const PROTOCOL: u32 = 30;

/// What is known of a queue; a queue that is not there is as a closed ring.
pub fn known_at(known: &[Known], queue: u32) -> Known
    ensures { result ≡ known_in known.now queue }
{
    match known.get(queue as usize) {
        Some(known) => *known,
        None => Known {
            kick: None,
            ready: false,
            enabled: false,
        },
    }
}

/// Each queue is enabled.
fn enable_all(steps: PlanSteps, wired: &Wired, known: &[Known]) -> Result<PlanSteps, OutOfMemory>
    ensures { IfOk result (λ now. now ≡ each_queue (λ q. enable_steps wired.now q (known_in known.now q) true)
        wired.now.queues ++ steps) }
{
    let count = wired.queue_count();
    let mut plan = steps;
    for done in 0..count {
        let queue = count - 1 - done;
        plan = enable(plan, wired, queue, known_at(known, queue), true)?;
    }
    Ok(plan)
}

/// Each queue is disabled, and its kick leaves.
fn disable_all(steps: PlanSteps, wired: &Wired, known: &[Known]) -> Result<PlanSteps, OutOfMemory>
    ensures { IfOk result (λ now. now ≡ each_queue (λ q. disable_steps wired.now q (known_in known.now q))
        wired.now.queues ++ steps) }
{
    let count = wired.queue_count();
    let mut plan = steps;
    for done in 0..count {
        let queue = count - 1 - done;
        plan = disable(plan, wired, queue, known_at(known, queue))?;
    }
    Ok(plan)
}

/// Each queue notifies by index, or does not.
fn index_all(steps: PlanSteps, wired: &Wired, enabled: bool) -> Result<PlanSteps, OutOfMemory>
    ensures { IfOk result (λ now. now ≡ each_queue (λ q. Small.Set q (RingOp.SetEventIdx enabled) ∷ [])
        wired.now.queues ++ steps) }
{
    let count = wired.queue_count();
    let mut plan = steps;
    for done in 0..count {
        let queue = count - 1 - done;
        plan = plan.after(Small::Set {
            queue,
            op: RingOp::SetEventIdx(enabled),
        })?;
    }
    Ok(plan)
}

/// Each queue is enabled, where this holds.
fn enable_all_if(
    steps: PlanSteps,
    holds: bool,
    wired: &Wired,
    known: &[Known],
) -> Result<PlanSteps, OutOfMemory>
    ensures { IfOk result (λ now. now ≡ when holds (each_queue
        (λ q. enable_steps wired.now q (known_in known.now q) true) wired.now.queues) ++ steps) }
{
    if holds {
        enable_all(steps, wired, known)
    } else {
        Ok(steps)
    }
}

/// The driver acknowledges feature bits.
pub fn features_steps(
    alloc: Global,
    wired: &Wired,
    known: &[Known],
    bits: u64,
) -> Result<PlanSteps, OutOfMemory>
    ensures { IfOk result (λ steps. steps ≡ features_steps wired.now (rings_known known.now) bits) }
{
    let by_index = has_bit(bits, EVENT_IDX);
    let steps = PlanSteps::answer(alloc)
        .after(Small::Device(DeviceOp::AckedFeatures(bits)))?
        .after(Small::Device(DeviceOp::SetEventIdx(by_index)))?;
    let steps = index_all(steps, wired, by_index)?;
    enable_all_if(steps, !has_bit(bits, PROTOCOL), wired, known)
}

/// The device is reset.
pub fn reset_steps(alloc: Global, wired: &Wired, known: &[Known]) -> Result<PlanSteps, OutOfMemory>
    ensures { IfOk result (λ steps. steps ≡ reset_steps wired.now (rings_known known.now)) }
{
    let steps = PlanSteps::answer(alloc).after(Small::Device(DeviceOp::ResetDevice))?;
    disable_all(steps, wired, known)
}
