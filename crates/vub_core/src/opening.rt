//! The machine that a valid set-up opens.
ghost use Rattle.std.specs.Prelude.{◌≡◌, ◌+◌, ◌<◌, ◌^◌, None, [], length, map, IfOk, IfErr, OnOk};
ghost use Rattle.std.specs.List.{range_with_len};
ghost use Rattle.vub_model.specs.declared.phase.Phase.TheVariants.{Idle};
ghost use Rattle.vub_model.specs.Opening.{opening, opened_worker, wiring_of};
ghost use Rattle.vub_model.specs.ValidSetup.{fault_of, contents_from, given_region};
ghost use Rattle.vub_loop.specs.Handler.{phase_of, new_handler};
ghost use Rattle.vub_core.specs.Machine.{opened_world};
ghost use Rattle.vub_open.specs.Refused.{IsRefusal};
ghost use Rattle.vub_core.specs.Whole.{IsWhole};
ghost use Rattle.vub_core.specs.Workers.{AreHandlers};

use crate::machine::Machine;
use crate::records::Records;
use crate::session::{open_half, open_session};
use std::alloc::Global;
use vub_base::OutOfMemory;
use vub_log::PlainLog;
use vub_loop::VringEpollHandler;
use vub_mem::GuestMemory;
use vub_model::{Constants, DriveFault, Setup};
use vub_open::{NO_MEMORY, open_store, opened_worker, validate};

/// The workers, each before its first step, behind `count` objects.
///
/// # Errors
/// Want of memory.
pub(crate) fn open_handlers(
    alloc: Global,
    constants: &Constants,
    count: u32,
) -> Result<Vec<VringEpollHandler>, OutOfMemory>
    requires { count + length constants.now.masks < 2 ^ 32 }
    ensures handlers { IfOk result (λ hs. hs.items ≡ map (λ w. new_handler constants.now
        (opened_worker count constants.now.exits w)) (range_with_len 0 (length constants.now.masks))) }
    ensures workers { IfOk result (λ hs. AreHandlers (wiring_of constants.now count) 0 hs.items) }
    ensures phases { IfOk result (λ hs. map (λ h. phase_of h) hs.items ≡ map (λ mask. Idle) constants.now.masks) }
{
    let mut handlers = Vec::with_capacity(alloc, constants.masks.len())?;
    for worker in 0..constants.masks.len() as u32 {
        let opened = opened_worker(count, constants.exits.as_slice(), worker);
        let handler = VringEpollHandler::from_constants(alloc, constants, opened)?;
        handlers.push(handler)?;
    }
    Ok(handlers)
}

/// The machine of a set-up that passed its tests.
fn open_machine(
    alloc: Global,
    setup: &Setup,
    constants: &Constants,
    memory: GuestMemory<PlainLog>,
) -> Result<Machine, OutOfMemory>
    requires numbers { length setup.now.objects + length constants.now.masks < 2 ^ 32 }
    requires valid { fault_of constants.now setup.now ≡ None }
    requires guest { memory.guest
        ≡ record { regions = map given_region setup.now.regions; contents = contents_from 0 setup.now.objects } }
    requires logs { memory.logs ≡ [] }
    ensures world { IfOk result (λ m. opened_world setup.now m ≡ opening constants.now setup.now (tt {0})) }
    ensures whole { IfOk result IsWhole }
    ensures calls { IfOk result (λ m. m.calls.items ≡ []) }
{
    let store = open_store(alloc, setup, constants, memory)?;
    let workers = open_handlers(alloc, constants, setup.objects.len() as u32)?;
    let handler = open_session(alloc, setup, constants, store.rings.as_slice())?;
    let half = open_half(alloc, setup)?;
    let records = Records::new(alloc, setup.objects.as_slice())?;
    Ok(Machine {
        store,
        handler,
        half,
        asked: 0,
        answers: Vec::new(alloc),
        calls: Vec::new(alloc),
        workers,
        acted: 0,
        records,
    })
}

/// The machine that a set-up opens for a device with these constants.
///
/// # Errors
/// The first test that the set-up fails. Want of memory, also where objects and workers together are more than
/// 4294967295.
pub(crate) fn open(
    alloc: Global,
    setup: &Setup,
    constants: &Constants,
) -> Result<Machine, DriveFault>
    ensures refused { IfErr result (λ f. IsRefusal (fault_of constants.now setup.now) f) }
    ensures valid { OnOk result (fault_of constants.now setup.now ≡ None) }
    ensures world { IfOk result (λ m. opened_world setup.now m ≡ opening constants.now setup.now (tt {0})) }
    ensures whole { IfOk result IsWhole }
    ensures calls { IfOk result (λ m. m.calls.items ≡ []) }
    ensures numbers { OnOk result (length setup.now.objects + length constants.now.masks < 2 ^ 32) }
{
    let memory = validate(alloc, setup, constants)?;
    match open_machine(alloc, setup, constants, memory) {
        Ok(machine) => Ok(machine),
        Err(_) => Err(NO_MEMORY),
    }
}
