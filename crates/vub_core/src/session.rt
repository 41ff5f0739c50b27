//! The session of a machine that a set-up opens.
ghost use Rattle.std.specs.Prelude.{◌≡◌, ◌+◌, ◌<◌, ◌^◌, None, length, map, IfOk};
ghost use Rattle.std.specs.List.{range_with_len};
ghost use Rattle.vub_model.specs.Frame.{known_of};
ghost use Rattle.vub_model.specs.Opening.{opened_worker, wiring_of, mapping_of, new_control};
ghost use Rattle.vub_model.specs.ValidSetup.{fault_of};
ghost use Rattle.vub_plan.specs.Halves.{of_plan};

use std::alloc::Global;
use vub_base::{Listed, OutOfMemory};
use vub_handler::VhostUserHandler;
use vub_mem::Mapping;
use vub_model::{Constants, GivenRegion, Known, Opened, Session, Setup};
use vub_open::opened_worker;
use vub_plan::{Half, Wired};
use vub_vring::{VringState, copy_constants};

/// The workers as they are opened behind `count` objects.
fn opened_workers(
    alloc: Global,
    constants: &Constants,
    count: u32,
) -> Result<Vec<Opened>, OutOfMemory>
    requires { count + length constants.now.masks < 2 ^ 32 }
    ensures { IfOk result (λ opened. opened.items ≡ (wiring_of constants.now count).opened) }
{
    let mut list = Vec::with_capacity(alloc, constants.masks.len())?;
    for worker in 0..constants.masks.len() as u32 {
        list.push(opened_worker(count, constants.exits.as_slice(), worker))?;
    }
    Ok(list)
}

/// The mapping of a region that a set-up gives.
fn mapping_of(region: &GivenRegion) -> Mapping
    ensures { result ≡ mapping_of region.now }
{
    Mapping {
        start: region.start,
        len: region.len,
        user: region.user,
    }
}

/// The mappings of the given regions.
fn mappings_of(alloc: Global, regions: &[GivenRegion]) -> Result<Vec<Mapping>, OutOfMemory>
    ensures { IfOk result (λ mappings. mappings.items ≡ map mapping_of regions.now) }
{
    let mappings = regions.iter().map(mapping_of).collect(alloc)?;
    Ok(mappings)
}

/// What control knows of a ring.
fn known_of(ring: &VringState) -> Known
    ensures { result ≡ known_of ring.now }
{
    Known {
        kick: ring.get_kick(),
        ready: ring.get_queue().ready(),
        enabled: ring.is_enabled(),
    }
}

/// What control knows of these rings.
fn all_known(alloc: Global, rings: &[VringState]) -> Result<Vec<Known>, OutOfMemory>
    ensures { IfOk result (λ known. known.items ≡ map known_of rings.now) }
{
    let known = rings.iter().map(known_of).collect(alloc)?;
    Ok(known)
}

/// The session of a set-up that passed its tests, which knows these rings.
///
/// # Errors
/// Want of memory.
pub(crate) fn open_session(
    alloc: Global,
    setup: &Setup,
    constants: &Constants,
    rings: &[VringState],
) -> Result<VhostUserHandler, OutOfMemory>
    requires numbers { length setup.now.objects + length constants.now.masks < 2 ^ 32 }
    requires valid { fault_of constants.now setup.now ≡ None }
    ensures wiring { IfOk result (λ h. h.wiring ≡ wiring_of constants.now (length setup.now.objects)) }
    ensures session { IfOk result (λ h. h.session ≡ (new_control setup.now).session) }
    ensures known { IfOk result (λ h. h.known ≡ map known_of rings.now) }
{
    let opened = opened_workers(alloc, constants, setup.objects.len() as u32)?;
    let wired = Wired::new(copy_constants(alloc, constants)?, Listed::from_vec(opened));
    let mut session = VhostUserHandler::over(alloc, wired)?;
    let mappings = mappings_of(alloc, setup.regions.as_slice())?;
    let known = all_known(alloc, rings)?;
    session.adopt(alloc, &known, &mappings)?;
    Ok(session)
}

/// No request of a set-up was begun.
///
/// # Errors
/// Want of memory.
pub(crate) fn open_half(alloc: Global, setup: &Setup) -> Result<Half, OutOfMemory>
    ensures { IfOk result (λ half. half ≡ of_plan (new_control setup.now).plan) }
{
    let mappings = mappings_of(alloc, setup.regions.as_slice())?;
    let session = Session {
        owned: false,
        features: 0,
        protocol: 0,
        mappings: Listed::from_vec(mappings),
    };
    Ok(Half::spent(alloc, session))
}
