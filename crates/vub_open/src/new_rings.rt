//! The rings and the pending sets of a new machine.
ghost use Rattle.std.specs.Prelude.{◌≡◌, ◌≤◌, ◌<◌, ◌%◌, ◌^◌, ◌==◌, [], true, map, find, Some, Ok, IfOk, IfSome};
ghost use Rattle.std.specs.List.{AllByRecursion, range_with_len};
ghost use Rattle.std.specs.Option.{option_copied};
ghost use Rattle.std.specs.Int.{is_power_of_two};
ghost use Rattle.vub_queue.specs.Settings.{info_answer};
ghost use Rattle.vub_model.specs.Opening.{given_queue, given_vring, ring_from, opening_rings};
ghost use Rattle.vub_open.specs.Opened.{IsFit};

use std::alloc::Global;
use vub_base::OutOfMemory;
use vub_model::{Constants, GivenRing};
use vub_queue::{Queue, QueueError};
use vub_vring::{Pending, VringState};

/// The queue of a given ring.
#[tactic(auto, using(crate::proofs::NewRings::aligned_info, crate::proofs::NewRings::fit_size))]
fn given_queue(max: u16, ring: &GivenRing) -> Result<Queue, QueueError>
    requires power { is_power_of_two max ≡ true }
    requires fit { IsFit max ring.now }
    ensures queue { result ≡ Ok (given_queue max ring.now) }
    ensures base { ring.now.base % 2 ^ 16 ≡ ring.now.base }
{
    let mut queue = Queue::new(max)?;
    queue.set_size(ring.size)?;
    if let Some(info) = ring.info {
        queue.set_info(info.desc, info.avail, info.used)?;
    }
    queue.set_next_avail(ring.base);
    queue.set_next_used(ring.next_used);
    queue.set_ready(ring.ready);
    Ok(queue)
}

/// The ring of a queue, of which this is given.
fn ring_from(max: u16, given: Option<&GivenRing>) -> Result<VringState, QueueError>
    requires power { is_power_of_two max ≡ true }
    requires fit { IfSome given (λ r. IsFit max r.now) }
    ensures { result ≡ Ok (ring_from max (option_copied given.entry)) }
{
    match given {
        None => VringState::new(max),
        Some(ring) => {
            let queue = given_queue(max, ring)?;
            Ok(VringState::from_queue(queue, ring.kick, ring.call, ring.enabled))
        }
    }
}

/// What is given of a queue.
fn given_of(given: &[GivenRing], queue: usize) -> Option<&GivenRing>
    ensures { option_copied result ≡ find (λ r. r.queue == queue) given.now }
{
    given.iter().find(|ring| ring.queue as usize == queue)
}

/// The rings of the queues, with what is given of some.
///
/// # Errors
/// Want of memory.
pub(crate) fn open_rings(
    alloc: Global,
    constants: &Constants,
    given: &[GivenRing],
) -> Result<Vec<VringState>, OutOfMemory>
    requires power { is_power_of_two constants.now.max ≡ true }
    requires max { constants.now.max ≤ 32768 }
    requires fit { AllByRecursion (λ r. IsFit constants.now.max r) given.now }
    ensures { IfOk result (λ rings. rings.items ≡ opening_rings constants.now given.now) }
{
    let max = constants.max as u16;
    let mut rings = Vec::with_capacity(alloc, constants.queues)?;
    for queue in 0..constants.queues {
        match ring_from(max, given_of(given, queue)) {
            Ok(ring) => rings.push(ring)?,
            Err(_) => unreachable!(),
        }
    }
    Ok(rings)
}

/// An empty pending set for each worker.
///
/// # Errors
/// Want of memory.
pub(crate) fn open_pending(alloc: Global, masks: &[u64]) -> Result<Vec<Pending>, OutOfMemory>
    ensures { IfOk result (λ sets. sets.items ≡ map (λ mask. []) masks.now) }
{
    let mut sets = Vec::with_capacity(alloc, masks.len())?;
    for _mask in masks {
        sets.push(Pending::new(alloc))?;
    }
    Ok(sets)
}
