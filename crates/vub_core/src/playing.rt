//! A schedule, one turn after the other.
ghost use Rattle.std.specs.Prelude.{◌≡◌, ◌<◌, [], length, IfOk, OnOk, OnErr};
ghost use Rattle.vub_model.specs.DeviceCalls.{label_of};
ghost use Rattle.vub_model.specs.Opening.{opening};
ghost use Rattle.vub_model.specs.RingRecord.{limit};
ghost use Rattle.vub_model.specs.RunOf.{party_of};
ghost use Rattle.vub_model.specs.ValidSetup.{IsValid};
ghost use Rattle.vub_core.specs.DeviceRun.{state_by, telling_by, HasMade};
ghost use Rattle.vub_core.specs.Machine.{world_of};
ghost use Rattle.vub_core.specs.Meanings.{meaning_by};
ghost use Rattle.vub_core.specs.Played.{HasPlayed, WasCutShort};
ghost use Rattle.vub_core.specs.Ready.{IsReady, RequestsName};
ghost use Rattle.vub_core.specs.Turned.{HasTurned};
ghost use Rattle.vub_core.specs.Whole.{IsWhole};

use crate::control::control_turn;
use crate::machine::Machine;
use crate::turns::{guest_turn, worker_turn};
use std::alloc::Global;
use vub_base::OutOfMemory;
use vub_model::{Constants, Label, Play, Setup};
use vub_proto::{Service, VhostUserBackendMut};

/// The label of a play.
fn label_of(play: Play) -> Label
    ensures { result ≡ label_of play }
{
    match play {
        Play::Pass => Label::Pass,
        Play::Guest => Label::Guest,
        Play::Control(small, _) => Label::Control(small),
        Play::Poll { object } => Label::Poll { object },
        Play::Event => Label::Event,
        Play::Sweep => Label::Sweep,
        Play::Hear(_) => Label::Hear,
        Play::Take => Label::Take,
        Play::Serve => Label::Serve,
        Play::Put => Label::Put,
    }
}

/// One turn: party 0 is the guest, party 1 is control, and party 2 + w is worker w.
///
/// # Errors
/// Want of memory leaves service and device as they were.
fn turn<D: VhostUserBackendMut, V: Service>(
    alloc: Global,
    machine: &mut Machine,
    device: &mut D,
    service: &mut V,
    constants: &Constants,
    setup: &Setup,
    party: u32,
) -> Result<Label, OutOfMemory>
    requires whole { IsWhole machine.old }
    requires ready { IsReady setup.now machine.old }
    ensures turned { IfOk result (λ label. HasTurned (meaning_by V.Service) (telling_by D.VhostUserBackendMut)
        (party_of party) label
        (world_of setup.now machine.old service.old) (world_of setup.now machine.new service.new)
        machine.old.calls.items machine.new.calls.items
        (state_by D.VhostUserBackendMut device.old) (state_by D.VhostUserBackendMut device.new)) }
    ensures whole { OnOk result (IsWhole machine.new) }
    ensures count { OnOk result (length machine.new.workers.items ≡ length machine.old.workers.items) }
    ensures service { OnErr result (service.new ≡ service.old) }
    ensures device { OnErr result (HasMade (telling_by D.VhostUserBackendMut)
        (state_by D.VhostUserBackendMut device.old) (state_by D.VhostUserBackendMut device.new) []) }
{
    match party {
        0 => Ok(label_of(guest_turn(machine, &*service, setup)?)),
        1 => control_turn(alloc, machine, device, service, constants, setup),
        _ => {
            let worker = party - 2;
            let play = worker_turn(alloc, machine, device, service, constants, setup, worker)?;
            Ok(label_of(play))
        }
    }
}

/// Plays a schedule on a machine that was opened, and appends the label of each turn.
///
/// # Errors
/// Want of memory: the turns whose labels are there are finished, and service and device are as they left them. The
/// machine may have made a further Take whose request could not be copied, which asks neither of them.
pub(crate) fn play<D: VhostUserBackendMut, V: Service>(
    alloc: Global,
    machine: &mut Machine,
    device: &mut D,
    service: &mut V,
    constants: &Constants,
    setup: &Setup,
    schedule: &[u32],
    labels: &mut Vec<Label>,
) -> Result<(), OutOfMemory>
    requires whole { IsWhole machine.old }
    requires opened { world_of setup.now machine.old service.old ≡ opening constants.now setup.now service.old }
    requires valid { IsValid constants.now setup.now }
    requires short { length schedule.now < limit }
    requires none { labels.old.items ≡ [] }
    requires calls { machine.old.calls.items ≡ [] }
    ensures played { OnOk result (HasPlayed (meaning_by V.Service) (telling_by D.VhostUserBackendMut)
        schedule.now labels.new.items machine.new.calls.items
        (world_of setup.now machine.old service.old) (world_of setup.now machine.new service.new)
        (state_by D.VhostUserBackendMut device.old) (state_by D.VhostUserBackendMut device.new)) }
    ensures cut { OnErr result (WasCutShort (meaning_by V.Service) (telling_by D.VhostUserBackendMut)
        schedule.now labels.new.items (world_of setup.now machine.old service.old) service.new
        (state_by D.VhostUserBackendMut device.old) (state_by D.VhostUserBackendMut device.new)) }
    ensures whole { OnOk result (IsWhole machine.new) }
    ensures names { OnOk result (RequestsName setup.now machine.new) }
    ensures count { OnOk result (length machine.new.workers.items ≡ length machine.old.workers.items) }
{
    for party in schedule {
        labels.reserve(1)?;
        let label = turn(alloc, machine, device, service, constants, setup, *party)?;
        labels.push(label).unwrap();
    }
    Ok(())
}
