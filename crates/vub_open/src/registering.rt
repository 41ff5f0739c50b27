//! The registration of the given rings.
ghost use Rattle.std.specs.Prelude.{◌≡◌, ◌+◌, ◌<◌, ◌^◌, Some, length, fold, slice_set, slice_index_or, [], OnOk};
ghost use Rattle.vub_event.specs.HostTable.{event_at, with_event};
ghost use Rattle.vub_event.specs.HostCalls.{claim_refusal, add_refusal, signal_refusal};
ghost use Rattle.vub_model.specs.Shared.{raised_option, with_number};
ghost use Rattle.vub_model.specs.Opening.{wiring_of, claimed_event, listed, placed, registered};
ghost use Rattle.vub_open.specs.Hosts.{NeverFails};
ghost use Rattle.vub_open.specs.Opened.{unserved, IsTaken, AreTaken};

use crate::new_host::add_member;
use crate::places::place_of;
use std::alloc::Global;
use vub_base::OutOfMemory;
use vub_event::{Host, MemHost};
use vub_model::{Constants, GivenRing, Place};
use vub_vring::{Pending, Store};

/// The kick of a queue is claimed.
#[tactic(auto, using(crate::proofs::Claims::claim_claims))]
fn claim(host: &mut MemHost, kick: u32, queue: u32)
    requires sound { NeverFails host.old }
    requires taken { claim_refusal host.old.table kick queue ≡ None }
    ensures table { host.new.table ≡ with_event host.old.table kick (claimed_event queue
        (event_at host.old.table kick)) }
    ensures sound { NeverFails host.new }
{
    match host.claim(kick, queue) {
        Ok(()) => {}
        Err(_) => unreachable!(),
    }
}

/// Adds 1 to the count of a bell.
#[tactic(auto, using(crate::proofs::Claims::signal_raises))]
fn ring_bell(host: &mut MemHost, bell: u32)
    requires sound { NeverFails host.old }
    requires taken { signal_refusal host.old.table bell 1 ≡ None }
    ensures table { host.new.table ≡ with_event host.old.table bell (raised_option (event_at host.old.table bell)) }
    ensures sound { NeverFails host.new }
{
    match host.signal(bell, 1) {
        Ok(()) => {}
        Err(_) => unreachable!(),
    }
}

/// Puts a number into the pending set of a worker.
fn insert(pending: &mut Vec<Pending>, worker: u32, number: u32) -> Result<(), OutOfMemory>
    requires { worker < length pending.old.items }
    ensures { OnOk result (pending.new.items ≡ slice_set pending.old.items worker (with_number
        (slice_index_or pending.old.items worker []) number)) }
{
    pending[worker as usize].insert(number)
}

/// The kick of a queue joins the interest list of its worker, the queue is pending, and the bell is rung.
fn place_kick(
    alloc: Global,
    store: &mut Store,
    constants: &Constants,
    count: u32,
    kick: u32,
    place: Place,
) -> Result<(), OutOfMemory>
    requires numbers { count + length constants.now.masks < 2 ^ 32 }
    requires sets { length store.old.pending.items ≡ length constants.now.masks }
    requires worker { place.worker < length constants.now.masks }
    requires sound { NeverFails store.old.host }
    requires add { add_refusal store.old.host.table place.worker (listed kick place.number) ≡ None }
    requires bell { signal_refusal store.old.host.table (count + place.worker) 1 ≡ None }
    ensures shared { OnOk result (unserved store.new ≡ placed (wiring_of constants.now count)
        (unserved store.old) kick (Some place)) }
    ensures sets { OnOk result (length store.new.pending.items ≡ length constants.now.masks) }
    ensures sound { NeverFails store.new.host }
{
    add_member(
        alloc,
        &mut store.host,
        place.worker,
        kick,
        place.number as u64,
    )?;
    insert(&mut store.pending, place.worker, place.number)?;
    ring_bell(&mut store.host, count + place.worker);
    Ok(())
}

/// Claims the kick of a given ring. Where the ring is ready and enabled and has a worker, the kick joins the worker's
/// interest list, the queue is pending, and the bell is rung.
fn register(
    alloc: Global,
    store: &mut Store,
    constants: &Constants,
    count: u32,
    ring: &GivenRing,
) -> Result<(), OutOfMemory>
    requires numbers { count + length constants.now.masks < 2 ^ 32 }
    requires sets { length store.old.pending.items ≡ length constants.now.masks }
    requires sound { NeverFails store.old.host }
    requires taken { IsTaken constants.now count (unserved store.old) ring.now }
    ensures shared { OnOk result (unserved store.new ≡ registered (wiring_of constants.now count)
        (unserved store.old) ring.now) }
    ensures sets { OnOk result (length store.new.pending.items ≡ length constants.now.masks) }
    ensures sound { NeverFails store.new.host }
{
    let Some(kick) = ring.kick else {
        return Ok(());
    };
    claim(&mut store.host, kick, ring.queue);
    if !ring.ready || !ring.enabled {
        return Ok(());
    }
    match place_of(constants.masks.as_slice(), ring.queue) {
        None => Ok(()),
        Some(place) => {
            place_kick(alloc, store, constants, count, kick, place)?;
            Ok(())
        }
    }
}

/// Registers the given rings, one after the other, behind `count` objects.
///
/// # Errors
/// Want of memory.
pub(crate) fn register_rings(
    alloc: Global,
    store: &mut Store,
    constants: &Constants,
    count: u32,
    given: &[GivenRing],
) -> Result<(), OutOfMemory>
    requires numbers { count + length constants.now.masks < 2 ^ 32 }
    requires sets { length store.old.pending.items ≡ length constants.now.masks }
    requires sound { NeverFails store.old.host }
    requires taken { AreTaken constants.now count (unserved store.old) given.now }
    ensures shared { OnOk result (unserved store.new ≡ fold (λ h r. registered (wiring_of constants.now count) h r)
        (unserved store.old) given.now) }
    ensures sound { NeverFails store.new.host }
{
    for ring in given {
        register(alloc, store, constants, count, ring)?;
    }
    Ok(())
}
