//! What guest, control and workers of a valid set-up share when its run begins.
ghost use Rattle.std.specs.Prelude.{◌≡◌, ◌+◌, ◌<◌, ◌^◌, [], None, length, map, IfOk};
ghost use Rattle.vub_model.specs.Opening.{opening, before_rings};
ghost use Rattle.vub_model.specs.ValidSetup.{fault_of, contents_from, given_region};
ghost use Rattle.vub_open.specs.Hosts.{NeverFails};
ghost use Rattle.vub_open.specs.Opened.{unserved};

use crate::new_host::open_host;
use crate::new_logs::open_logs;
use crate::new_rings::{open_pending, open_rings};
use crate::registering::register_rings;
use std::alloc::Global;
use vub_base::OutOfMemory;
use vub_log::PlainLog;
use vub_mem::GuestMemory;
use vub_model::{Constants, Setup};
use vub_vring::Store;

/// The store before the registration of the given rings.
#[tactic(auto, using(crate::proofs::ValidParts::valid_rings))]
fn new_store(
    alloc: Global,
    setup: &Setup,
    constants: &Constants,
    memory: GuestMemory<PlainLog>,
) -> Result<Store, OutOfMemory>
    requires numbers { length setup.now.objects + length constants.now.masks < 2 ^ 32 }
    requires valid { fault_of constants.now setup.now ≡ None }
    requires guest { memory.guest
        ≡ record { regions = map given_region setup.now.regions; contents = contents_from 0 setup.now.objects } }
    requires logs { memory.logs ≡ [] }
    ensures shared { IfOk result (λ s. unserved s ≡ before_rings constants.now setup.now (tt {0})) }
    ensures sets { IfOk result (λ s. length s.pending.items ≡ length constants.now.masks) }
    ensures sound { IfOk result (λ s. NeverFails s.host) }
{
    let mut memory = memory;
    open_logs(alloc, &mut memory, setup.objects.as_slice())?;
    let host = open_host(alloc, setup.objects.as_slice(), constants)?;
    let rings = open_rings(alloc, constants, setup.rings.as_slice())?;
    let pending = open_pending(alloc, constants.masks.as_slice())?;
    Ok(Store {
        memory,
        rings,
        host,
        pending,
    })
}

/// What guest, control and workers of a valid set-up share when its run begins: its guest memory, a ring for each
/// queue, an event for each object, and a bell, an interest list and a pending set for each worker; the given rings are
/// registered.
///
/// # Errors
/// Want of memory.
#[tactic(auto, unfolding(vub_model::specs::Opening::opening))]
pub fn open_store(
    alloc: Global,
    setup: &Setup,
    constants: &Constants,
    memory: GuestMemory<PlainLog>,
) -> Result<Store, OutOfMemory>
    requires numbers { length setup.now.objects + length constants.now.masks < 2 ^ 32 }
    requires valid { fault_of constants.now setup.now ≡ None }
    requires guest { memory.guest
        ≡ record { regions = map given_region setup.now.regions; contents = contents_from 0 setup.now.objects } }
    requires logs { memory.logs ≡ [] }
    ensures shared { IfOk result (λ s. unserved s ≡ (opening constants.now setup.now (tt {0})).shared) }
    ensures sound { IfOk result (λ s. NeverFails s.host) }
{
    let mut store = new_store(alloc, setup, constants, memory)?;
    let count = setup.objects.len() as u32;
    register_rings(alloc, &mut store, constants, count, setup.rings.as_slice())?;
    Ok(store)
}
