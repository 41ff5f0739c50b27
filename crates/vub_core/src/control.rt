//! Control's turn.
ghost use Rattle.std.specs.Prelude.{◌≡◌, ◌++◌, ◌∷◌, List, [], map, IfOk, OnOk, OnErr};
ghost use Rattle.std.specs.Option.{option_to_list};
ghost use Rattle.vub_proto.specs.declared.device_said.DeviceSaid.{DeviceSaid};
ghost use Rattle.vub_mem.specs.declared.region.Region.{Region};
ghost use Rattle.vub_model.specs.declared.party.Party.{Party};
ghost use Rattle.vub_model.specs.DeviceCalls.{device_call, is_refused};
ghost use Rattle.vub_model.specs.Frame.{known_of};
ghost use Rattle.vub_model.specs.Plans.{is_empty};
ghost use Rattle.vub_plan.specs.Halves.{plan_at};
ghost use Rattle.vub_handler.specs.Acting.{called};
ghost use Rattle.vub_vring.specs.Store.{shared_of};
ghost use Rattle.vub_open.specs.Hosts.{NeverFails};
ghost use Rattle.vub_core.specs.Begun.{HasBegun, KeepsParts};
ghost use Rattle.vub_core.specs.DeviceRun.{state_by, telling_by, HasMade};
ghost use Rattle.vub_core.specs.Machine.{world_of};
ghost use Rattle.vub_core.specs.Meanings.{meaning_by};
ghost use Rattle.vub_core.specs.Ready.{FirstIsNamed, RequestsName, IsReady};
ghost use Rattle.vub_core.specs.Recorded.{HasRoom};
ghost use Rattle.vub_core.specs.Session.{PlaysStep, asked_first};
ghost use Rattle.vub_core.specs.Turned.{HasTurned};
ghost use Rattle.vub_core.specs.Whole.{IsWhole};

use crate::calls::{device_call, push_into};
use crate::first::{First, first_of};
use crate::machine::Machine;
use std::alloc::Global;
use vub_base::{Listed, OutOfMemory};
use vub_handler::{Played, VhostUserHandler, copied_call};
use vub_model::{Constants, Label, Setup, Small};
use vub_plan::Half;
use vub_proto::{DeviceOp, Service, VhostUserBackendMut};
use vub_vring::{OwnedParts, Store};

/// Whether no step is left.
fn is_spent(half: &Half) -> bool
    ensures { (regions : List Region) → result ≡ is_empty (plan_at regions half.now).steps }
{
    matches!(first_of(half), First::Nothing)
}

/// Begins the next request, if the one before is answered and one is left.
///
/// # Errors
/// Want of memory.
pub(crate) fn begin_next(
    alloc: Global,
    machine: &mut Machine,
    setup: &Setup,
) -> Result<(), OutOfMemory>
    requires known { machine.old.handler.known ≡ map known_of machine.old.store.rings.items }
    requires names { RequestsName setup.now machine.old }
    ensures begun { OnOk result (HasBegun setup.now machine.old machine.new) }
    ensures kept { KeepsParts machine.old machine.new }
{
    if !is_spent(&machine.half) {
        return Ok(());
    }
    if let Some(request) = setup.requests.as_slice().get(machine.asked) {
        machine.half = machine.handler.begin_with(alloc, request)?;
        machine.asked += 1;
    }
    Ok(())
}

/// A copy of the call of the device that the next step makes, if it makes one.
///
/// # Errors
/// Want of memory.
fn asked(alloc: Global, half: &Half) -> Result<Option<DeviceOp>, OutOfMemory>
    ensures { IfOk result (λ op. (regions : List Region) → op ≡ asked_first (plan_at regions half.now).steps) }
{
    match first_of(half) {
        First::Update(regions) => {
            let regions = Listed::from_slice(alloc, regions)?;
            Ok(Some(DeviceOp::UpdateMemory(regions)))
        }
        First::Step(Small::Device(call)) => Ok(Some(copied_call(alloc, call)?)),
        _ => Ok(None),
    }
}

/// The session's next step, over the parts that are lent.
///
/// # Errors
/// Want of memory leaves service and device as they were.
fn play_step<'a, D: VhostUserBackendMut, V: Service>(
    alloc: Global,
    store: &'a mut Store,
    device: &'a mut D,
    service: &'a mut V,
    constants: &'a Constants,
    handler: &mut VhostUserHandler,
    half: &mut Half,
) -> Result<Option<Played>, OutOfMemory>
    requires sound { NeverFails store.old.host }
    requires known { handler.old.known ≡ map known_of store.old.rings.items }
    requires first { FirstIsNamed handler.old.wiring store.old.host.table
        (plan_at store.old.memory.guest.regions half.old).steps }
    ensures row { IfOk result (PlaysStep (telling_by D.VhostUserBackendMut)
        (record { player = handler.old; half = half.old }) (record { player = handler.new; half = half.new })
        (shared_of store.old service.old) (shared_of store.new service.new)
        (state_by D.VhostUserBackendMut device.old) (state_by D.VhostUserBackendMut device.new)) }
    ensures sound { NeverFails store.new.host }
    ensures service { OnErr result (service.new ≡ service.old) }
    ensures device { OnErr result (HasMade (telling_by D.VhostUserBackendMut)
        (state_by D.VhostUserBackendMut device.old) (state_by D.VhostUserBackendMut device.new) []) }
{
    let mut parts = OwnedParts {
        store,
        device,
        service,
        constants,
    };
    handler.play(alloc, half, &mut parts)
}

/// Records a step of control, which made the copied call of the device if there is one, and tells its label. There is
/// room for an answer and a call.
fn record_step(machine: &mut Machine, asked: Option<DeviceOp>, played: Played) -> Label
    requires room { HasRoom machine.old.answers × HasRoom machine.old.calls }
    ensures label { result ≡ Label.Control played.small }
    ensures answers { machine.new.answers.items ≡ machine.old.answers.items ++ option_to_list played.answer }
    ensures calls { (said : DeviceSaid) → asked ≡ asked_first (played.small ∷ []) → played.refused ≡ is_refused said
        → machine.new.calls.items ≡ machine.old.calls.items ++ map device_call (called played.small said) }
    ensures store { machine.new.store ≡ machine.old.store }
    ensures handler { machine.new.handler ≡ machine.old.handler }
    ensures half { machine.new.half ≡ machine.old.half }
    ensures asked { machine.new.asked ≡ machine.old.asked }
    ensures workers { machine.new.workers ≡ machine.old.workers }
    ensures acted { machine.new.acted ≡ machine.old.acted }
    ensures records { machine.new.records ≡ machine.old.records }
{
    let Played {
        small,
        refused,
        answer,
    } = played;
    push_into(&mut machine.answers, answer);
    let call = asked.map(|op| device_call(op, refused));
    push_into(&mut machine.calls, call);
    Label::Control(small)
}

/// Control plays the next step of its plan, and the machine records it; where the request before is answered, the next
/// one begins first. It passes where no request is left, or where the step has to wait. Room for the records is made
/// before the step.
///
/// # Errors
/// Want of memory leaves service and device as they were.
pub(crate) fn control_turn<D: VhostUserBackendMut, V: Service>(
    alloc: Global,
    machine: &mut Machine,
    device: &mut D,
    service: &mut V,
    constants: &Constants,
    setup: &Setup,
) -> Result<Label, OutOfMemory>
    requires whole { IsWhole machine.old }
    requires ready { IsReady setup.now machine.old }
    ensures turned { IfOk result (λ label. HasTurned (meaning_by V.Service) (telling_by D.VhostUserBackendMut)
        Party.Control label
        (world_of setup.now machine.old service.old) (world_of setup.now machine.new service.new)
        machine.old.calls.items machine.new.calls.items
        (state_by D.VhostUserBackendMut device.old) (state_by D.VhostUserBackendMut device.new)) }
    ensures whole { OnOk result (IsWhole machine.new) }
    ensures workers { OnOk result (machine.new.workers ≡ machine.old.workers) }
    ensures service { OnErr result (service.new ≡ service.old) }
    ensures device { OnErr result (HasMade (telling_by D.VhostUserBackendMut)
        (state_by D.VhostUserBackendMut device.old) (state_by D.VhostUserBackendMut device.new) []) }
{
    begin_next(alloc, machine, setup)?;
    machine.answers.reserve(1)?;
    machine.calls.reserve(1)?;
    let asked = asked(alloc, &machine.half)?;
    match play_step(
        alloc,
        &mut machine.store,
        device,
        service,
        constants,
        &mut machine.handler,
        &mut machine.half,
    )? {
        None => Ok(Label::Pass),
        Some(played) => Ok(record_step(machine, asked, played)),
    }
}
