//! One turn of the guest, and of a worker.
ghost use Rattle.std.specs.Prelude.{◌≡◌, ◌++◌, [], length, map, drop, IfOk, OnOk, OnErr};
ghost use Rattle.std.specs.List.{AllByRecursion};
ghost use Rattle.vub_model.specs.declared.party.Party.{Party};
ghost use Rattle.vub_model.specs.DeviceCalls.{heard_in, call_at, device_call};
ghost use Rattle.vub_model.specs.Headline.{asked_at};
ghost use Rattle.vub_model.specs.RunOf.{Turn, IsLeast, IsLeastPoll};
ghost use Rattle.vub_vring.specs.Store.{shared_of, from_option};
ghost use Rattle.vub_loop.specs.Finished.{finished_by};
ghost use Rattle.vub_loop.specs.Handler.{SameWorker, phase_of};
ghost use Rattle.vub_open.specs.Hosts.{NeverFails};
ghost use Rattle.vub_core.specs.DeviceRun.{state_by, telling_by, HasMade};
ghost use Rattle.vub_core.specs.Machine.{world_of};
ghost use Rattle.vub_core.specs.Meanings.{meaning_by};
ghost use Rattle.vub_core.specs.Ready.{NextMayAct};
ghost use Rattle.vub_core.specs.Recorded.{HasRoom};
ghost use Rattle.vub_core.specs.Replies.{FitsItsRoom};
ghost use Rattle.vub_core.specs.Stepped.{play_of, IsTurn, ForHandler};
ghost use Rattle.vub_core.specs.Whole.{IsWhole};

use crate::calls::{heard_call, push_into, token_in};
use crate::footprint::next_footprint;
use crate::machine::Machine;
use std::alloc::Global;
use vub_base::OutOfMemory;
use vub_loop::{Turned, VringEpollHandler};
use vub_model::{Constants, Harvested, Play, Setup};
use vub_proto::{Service, VhostUserBackendMut};
use vub_vring::{OwnedParts, Store};

/// Appends the word that an action harvested, if it harvested one. There is room for it.
fn push_harvest(harvests: &mut Vec<Harvested>, harvested: Option<Harvested>)
    requires { HasRoom harvests.old }
    ensures { harvests.new.items ≡ harvests.old.items ++ from_option harvested }
{
    if let Some(harvested) = harvested {
        harvests.push(harvested).unwrap();
    }
}

/// The guest does the next action of its list. Room for the record of a harvest is made before.
///
/// # Errors
/// Want of memory.
pub(crate) fn guest_turn<V: Service>(
    machine: &mut Machine,
    service: &V,
    setup: &Setup,
) -> Result<Play, OutOfMemory>
    requires whole { IsWhole machine.old }
    requires acts { NextMayAct machine.old.store.memory.logs (drop machine.old.acted setup.now.guest) }
    ensures turn { IfOk result (λ l. Turn (meaning_by V.Service)
        (world_of setup.now machine.old service.now) Party.Guest l (world_of setup.now machine.new service.now)) }
    ensures whole { OnOk result (IsWhole machine.new) }
    ensures workers { OnOk result (machine.new.workers ≡ machine.old.workers) }
    ensures calls { OnOk result (machine.new.calls ≡ machine.old.calls) }
{
    match setup.guest.as_slice().get(machine.acted) {
        None => Ok(Play::Pass),
        Some(action) => {
            machine.records.harvests.reserve(1)?;
            let harvested = machine.store.act::<V>(action);
            push_harvest(&mut machine.records.harvests, harvested);
            machine.acted += 1;
            Ok(Play::Guest)
        }
    }
}

/// The play of a turn over a host that never fails.
fn play_of(turned: Turned) -> Play
    ensures { result ≡ play_of turned }
{
    match turned {
        Turned::Pass | Turned::Failed => Play::Pass,
        Turned::Played(play) => play,
    }
}

/// A worker's step over the parts that are lent.
///
/// # Errors
/// Want of memory leaves service and device as they were.
fn play_worker<'a, D: VhostUserBackendMut, V: Service>(
    alloc: Global,
    store: &'a mut Store,
    device: &'a mut D,
    service: &'a mut V,
    constants: &'a Constants,
    worker: &mut VringEpollHandler,
) -> Result<Play, OutOfMemory>
    requires { NeverFails store.old.host }
    ensures row { ForHandler worker.old (λ g k. IfOk result (λ l. IsTurn (meaning_by V.Service) g k l
        (phase_of worker.old) (phase_of worker.new)
        (shared_of store.old service.old) (shared_of store.new service.new))) }
    ensures least { ForHandler worker.old (λ g k. IfOk result (IsLeastPoll g k (shared_of store.old service.old))) }
    ensures made { ForHandler worker.old (λ g k. IfOk result (λ l. HasMade (telling_by D.VhostUserBackendMut)
        (state_by D.VhostUserBackendMut device.old) (state_by D.VhostUserBackendMut device.new)
        (heard_in k (phase_of worker.old) l))) }
    ensures finished { IfOk result (λ l. worker.new.finished
        ≡ finished_by l (phase_of worker.old) (phase_of worker.new)) }
    ensures same { SameWorker worker.old worker.new }
    ensures sound { NeverFails store.new.host }
    ensures service { OnErr result (service.new ≡ service.old) }
    ensures device { OnErr result (HasMade (telling_by D.VhostUserBackendMut)
        (state_by D.VhostUserBackendMut device.old) (state_by D.VhostUserBackendMut device.new) []) }
{
    let mut parts = OwnedParts {
        store,
        device,
        service,
        constants,
    };
    match worker.turn(alloc, &mut parts) {
        Ok(turned) => Ok(play_of(turned)),
        Err(_) => Err(OutOfMemory),
    }
}

/// This worker plays the step that it has, and the machine records it. Room for the record is made before the step.
///
/// # Errors
/// Want of memory leaves service and device as they were. A Take may have been made and not recorded: the bytes of its
/// request are known only then.
pub(crate) fn worker_turn<D: VhostUserBackendMut, V: Service>(
    alloc: Global,
    machine: &mut Machine,
    device: &mut D,
    service: &mut V,
    constants: &Constants,
    setup: &Setup,
    worker: u32,
) -> Result<Play, OutOfMemory>
    requires { IsWhole machine.old }
    ensures turn { IfOk result (λ l. Turn (meaning_by V.Service)
        (world_of setup.now machine.old service.old) (Party.Worker worker) l
        (world_of setup.now machine.new service.new)) }
    ensures least { IfOk result (λ l.
        IsLeast (world_of setup.now machine.old service.old) (Party.Worker worker) l) }
    ensures made { IfOk result (λ l. HasMade (telling_by D.VhostUserBackendMut)
        (state_by D.VhostUserBackendMut device.old) (state_by D.VhostUserBackendMut device.new)
        (call_at (world_of setup.now machine.old service.old) (Party.Worker worker) l)) }
    ensures calls { IfOk result (λ l. machine.new.calls.items ≡ machine.old.calls.items
        ++ map device_call (call_at (world_of setup.now machine.old service.old) (Party.Worker worker) l)) }
    ensures fits { IfOk result (λ l. AllByRecursion FitsItsRoom
        (asked_at (meaning_by V.Service) (world_of setup.now machine.old service.old) (Party.Worker worker) l)) }
    ensures whole { OnOk result (IsWhole machine.new) }
    ensures count { OnOk result (length machine.new.workers.items ≡ length machine.old.workers.items) }
    ensures service { OnErr result (service.new ≡ service.old) }
    ensures device { OnErr result (HasMade (telling_by D.VhostUserBackendMut)
        (state_by D.VhostUserBackendMut device.old) (state_by D.VhostUserBackendMut device.new) []) }
{
    if worker as usize >= machine.workers.len() {
        return Ok(Play::Pass);
    }
    machine.records.reserve()?;
    machine.calls.reserve(1)?;
    let handler = &mut machine.workers[worker as usize];
    let footprint = next_footprint(machine.store.rings.as_slice(), handler.phase());
    let token = token_in(handler.phase());
    let play = play_worker(
        alloc,
        &mut machine.store,
        device,
        service,
        constants,
        handler,
    )?;
    let finished = handler.take_finished();
    machine.records.record(
        alloc,
        &machine.store.memory,
        footprint,
        &play,
        handler.phase(),
        finished,
    )?;
    push_into(&mut machine.calls, heard_call(worker, token, &play));
    Ok(play)
}
