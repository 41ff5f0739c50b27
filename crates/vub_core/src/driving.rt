ghost use Rattle.std.specs.Prelude.{◌≡◌, ◌<◌, ◌+◌, ◌^◌, [], length, IfOk, IfErr};
ghost use Rattle.vub_model.specs.Opening.{opening};
ghost use Rattle.vub_model.specs.ValidSetup.{IsValid};
ghost use Rattle.vub_open.specs.Asked.{constants_by};
ghost use Rattle.vub_core.specs.DeviceRun.{state_by, telling_by};
ghost use Rattle.vub_core.specs.Machine.{opened_world};
ghost use Rattle.vub_core.specs.Meanings.{meaning_by};
ghost use Rattle.vub_core.specs.Outcome.{IsPlayed, IsRefused};
ghost use Rattle.vub_core.specs.Whole.{IsWhole};

use crate::finish::finish;
use crate::machine::Machine;
use crate::opening::open;
use crate::playing::play;
use std::alloc::Global;
use vub_model::{Constants, DriveFault, Run, Setup};
use vub_open::{NO_MEMORY, read_constants};
use vub_proto::{Service, VhostUserBackendMut};

/// Turns are fewer than this: the labels of more would not fit into memory.
const MAX_TURNS: usize = 1 << 60;

/// Plays a schedule on a machine that was opened.
fn play_opened<D: VhostUserBackendMut, V: Service>(
    alloc: Global,
    machine: Machine,
    setup: &Setup,
    device: &mut D,
    service: &mut V,
    constants: &Constants,
    schedule: &[u32],
) -> Result<Run, DriveFault>
    requires opened { opened_world setup.now machine ≡ opening constants.now setup.now (tt {0}) }
    requires whole { IsWhole machine }
    requires calls { machine.calls.items ≡ [] }
    requires valid { IsValid constants.now setup.now }
    requires numbers { length setup.now.objects + length constants.now.masks < 2 ^ 32 }
    ensures played { IfOk result (IsPlayed (meaning_by V.Service) (telling_by D.VhostUserBackendMut)
        constants.now setup.now schedule.now service.old service.new
        (state_by D.VhostUserBackendMut device.old) (state_by D.VhostUserBackendMut device.new)) }
    ensures refused { IfErr result (IsRefused (meaning_by V.Service) (telling_by D.VhostUserBackendMut)
        constants.now setup.now schedule.now service.old service.new
        (state_by D.VhostUserBackendMut device.old) (state_by D.VhostUserBackendMut device.new)) }
{
    if schedule.len() >= MAX_TURNS {
        return Err(NO_MEMORY);
    }
    let mut machine = machine;
    let mut labels = Vec::new(alloc);
    match play(
        alloc,
        &mut machine,
        device,
        service,
        constants,
        setup,
        schedule,
        &mut labels,
    ) {
        Err(_) => Err(DriveFault::OutOfMemory {
            done: labels.len() as u64,
        }),
        Ok(()) => {
            let done = labels.len() as u64;
            match finish(alloc, machine, &*service, setup, labels) {
                Ok(run) => Ok(run),
                Err(_) => Err(DriveFault::OutOfMemory { done }),
            }
        }
    }
}

/// Opens a set-up and plays a schedule, one step a turn: party 0 is the guest, party 1 is control, and party 2 + w is
/// worker w. A turn of a party that has no step, or is not there, is `Pass`. Each poll takes the ready object with the
/// least number. Control begins each request where the one before is answered. The device is asked for its constants,
/// and then what control's steps ask, and to handle each event that a listener reported.
///
/// The run is one of the machine of party turns, from the opening of the set-up. Each queue took its entries once and
/// in order, numbered from its base, and used each with the service's reply to the bytes read at taking, but for at
/// most one in flight or held; no reply is longer than the room that was read then; each page that a worker wrote in a
/// region with a log is marked in it at the end, or was handed out by a harvest since; and at rest a calm running queue
/// has no entry left.
///
/// # Errors
/// The first test of `SetupFault` that the set-up fails, and then the service was not asked, nor the device for more
/// than its constants; or want of memory, where `done` turns are finished, and service and device are as those turns
/// left them. The turn at which memory was refused does not count, and nothing of it is to be seen.
pub fn drive<D: VhostUserBackendMut, V: Service>(
    alloc: Global,
    setup: &Setup,
    device: &mut D,
    service: &mut V,
    schedule: &[u32],
) -> Result<Run, DriveFault>
    ensures played { IfOk result (IsPlayed (meaning_by V.Service) (telling_by D.VhostUserBackendMut)
        (constants_by D.VhostUserBackendMut D.Bitmap.TRACKS device.old) setup.now schedule.now service.old service.new
        (state_by D.VhostUserBackendMut device.old) (state_by D.VhostUserBackendMut device.new)) }
    ensures refused { IfErr result (IsRefused (meaning_by V.Service) (telling_by D.VhostUserBackendMut)
        (constants_by D.VhostUserBackendMut D.Bitmap.TRACKS device.old) setup.now schedule.now service.old service.new
        (state_by D.VhostUserBackendMut device.old) (state_by D.VhostUserBackendMut device.new)) }
{
    let constants = match read_constants(alloc, &*device) {
        Ok(constants) => constants,
        Err(_) => return Err(NO_MEMORY),
    };
    let machine = match open(alloc, setup, &constants) {
        Ok(machine) => machine,
        Err(fault) => return Err(fault),
    };
    play_opened(alloc, machine, setup, device, service, &constants, schedule)
}
