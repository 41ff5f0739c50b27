//! From a script to its run.
ghost use Rattle.std.specs.Prelude.{◌≡◌, true, IfOk, IfErr};
ghost use Rattle.vub_script.specs.Directory.{is_served};
ghost use Rattle.vub_share.specs.ScriptRun.{IsRunOf, CausedBy, script_with, tracks, no_run_for};

use crate::device::ScriptDevice;
use crate::no_run::{NoRun, Unfit};
use crate::service::ScriptService;
use std::alloc::Global;
use vub_core::drive;
use vub_mem::{BitmapMmapRegion, BitmapReplace};
use vub_model::{DriveFault, Run, Setup};
use vub_script::{BitmapForm, DeviceForm, Script, ServiceForm};

/// Why a script has no run, where `drive` gave none.
fn no_run_for(fault: DriveFault) -> NoRun
    ensures { result ≡ no_run_for fault }
{
    match fault {
        DriveFault::Setup(fault) => NoRun::Unfit(Unfit::Setup(fault)),
        DriveFault::OutOfMemory { .. } => NoRun::Memory,
    }
}

/// Plays the script of these parts, whose device tracks the pages that it changes by `B`.
fn play_on<B: BitmapReplace>(
    alloc: Global,
    setup: &Setup,
    form: DeviceForm,
    service: ServiceForm,
    schedule: &[u32],
) -> Result<Run, NoRun>
    requires served { is_served service ≡ true }
    requires bitmap { B.TRACKS ≡ tracks form.bitmap }
    ensures run { IfOk result (IsRunOf (script_with setup.now form service schedule.now)) }
    ensures refused { IfErr result (CausedBy (script_with setup.now form service schedule.now)) }
{
    let mut device: ScriptDevice<B> = ScriptDevice::new(form);
    let mut service = match ScriptService::new(alloc, service) {
        Ok(service) => service,
        Err(_) => return Err(NoRun::Memory),
    };
    match drive(alloc, setup, &mut device, &mut service, schedule) {
        Ok(run) => Ok(run),
        Err(fault) => Err(no_run_for(fault)),
    }
}

/// Plays the script of this set-up, device, service and schedule.
///
/// # Errors
/// [`NoRun::Unfit`] with the first test that the set-up fails; want of memory.
pub fn play_script(
    alloc: Global,
    setup: &Setup,
    device: DeviceForm,
    service: ServiceForm,
    schedule: &[u32],
) -> Result<Run, NoRun>
    requires { is_served service ≡ true }
    ensures run { IfOk result (IsRunOf (script_with setup.now device service schedule.now)) }
    ensures refused { IfErr result (CausedBy (script_with setup.now device service schedule.now)) }
{
    match device.bitmap {
        BitmapForm::None => play_on::<()>(alloc, setup, device, service, schedule),
        BitmapForm::Pages => play_on::<BitmapMmapRegion>(alloc, setup, device, service, schedule),
    }
}

/// Plays a script.
///
/// # Errors
/// [`NoRun::Unfit`] with the first test that its set-up fails; want of memory.
pub fn run_of(alloc: Global, script: Script) -> Result<Run, NoRun>
    requires { is_served script.service ≡ true }
    ensures run { IfOk result (IsRunOf script) }
    ensures refused { IfErr result (CausedBy script) }
{
    let Script {
        setup,
        device,
        service,
        schedule,
    } = script;
    match play_script(alloc, &setup, device, service, schedule.as_slice()) {
        Ok(run) => Ok(run),
        Err(why) => Err(why),
    }
}
