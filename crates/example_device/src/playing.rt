//! The run, with the promise of `drive` handed on.
ghost use Rattle.std.specs.Prelude.{IfOk, IfErr};
ghost use Rattle.bibplush.specs.Asked.{constants_by};
ghost use Rattle.bibplush.specs.DeviceRun.{state_by, telling_by};
ghost use Rattle.bibplush.specs.Meanings.{meaning_by};
ghost use Rattle.bibplush.specs.Outcome.{IsPlayed, IsRefused};

use bibplush::{DriveFault, Run, Service, Setup, VhostUserBackendMut, drive};
use std::alloc::Global;

/// Plays a schedule with any device and any service: the run is one of the machine of party turns, from the opening of
/// the set-up, and device and service are as their calls in it left them.
///
/// # Errors
/// As [`drive`].
pub fn play<D: VhostUserBackendMut, V: Service>(
    alloc: Global,
    setup: &Setup,
    device: &mut D,
    service: &mut V,
    schedule: &[u32],
) -> Result<Run, DriveFault>
    ensures played { IfOk result (IsPlayed (meaning_by V.Service) (telling_by D.VhostUserBackendMut)
        (constants_by D.VhostUserBackendMut D.Bitmap.TRACKS device.old) setup.now schedule.now service.old service.new
        (state_by D.VhostUserBackendMut device.old) (state_by D.VhostUserBackendMut device.new)) }
    ensures refused { IfErr result (IsRefused (meaning_by V.Service) (telling_by D.VhostUserBackendMut)
        (constants_by D.VhostUserBackendMut D.Bitmap.TRACKS device.old) setup.now schedule.now service.old service.new
        (state_by D.VhostUserBackendMut device.old) (state_by D.VhostUserBackendMut device.new)) }
{
    drive(alloc, setup, device, service, schedule)
}
