//! The tests of a set-up, and the guest memory of one that passes them.
ghost use Rattle.std.specs.Prelude.{◌≡◌, ◌+◌, ◌<◌, ◌^◌, [], ◌∷◌, ◌++◌, length, map, None, IsTrue, IfOk, IfErr, OnOk, OnErr};
ghost use Rattle.std.specs.List.{AllByRecursion};
ghost use Rattle.vub_model.specs.ValidSetup.{or_else, contents_from, given_region, device_fault, region_fault, given_table_fault, ring_fault, request_fault, guest_fault, log_object_fault, fault_of};
ghost use Rattle.vub_open.specs.Refused.{IsRefusal};

use crate::faults::{device_fault, guest_fault, log_object_fault, region_fault, ring_fault};
use crate::requests::request_fault;
use std::alloc::Global;
use vub_base::{Bytes, OutOfMemory};
use vub_log::PlainLog;
use vub_mem::{GuestMemory, Region};
use vub_model::{Constants, DriveFault, GivenRegion, Guest, Object, Setup, SetupFault};

/// The greatest number of objects and bells of workers together, which are numbered from 0 on.
const MAX_OBJECTS: usize = u32::MAX as usize;

/// Want of memory before the first turn.
pub const NO_MEMORY: DriveFault = DriveFault::OutOfMemory { done: 0 };

/// Puts the content of an object, if it is one, under this number, which is above those of the contents before.
#[tactic(auto, using(crate::proofs::Numbered::below_apart, crate::proofs::Numbered::below_next, crate::proofs::Numbered::below_push))]
fn put_content(
    alloc: Global,
    memory: &mut GuestMemory<PlainLog>,
    number: u32,
    object: &Object,
) -> Result<(), OutOfMemory>
    requires { AllByRecursion (λ c. c.object < number) memory.old.guest.contents }
    ensures below { OnOk result (AllByRecursion (λ c. c.object < number + 1) memory.new.guest.contents) }
    ensures ok { OnOk result (memory.new.guest.contents ≡ memory.old.guest.contents ++ contents_from number
        (object.now ∷ [])) }
    ensures regions { memory.new.guest.regions ≡ memory.old.guest.regions }
    ensures logs { memory.new.logs ≡ memory.old.logs }
{
    match object {
        Object::Event { .. } | Object::Log { .. } => Ok(()),
        Object::Content(bytes) => {
            let bytes = Bytes::from_slice(alloc, bytes.as_slice())?;
            match memory.put_object(alloc, number, bytes) {
                Ok(()) => Ok(()),
                Err(_) => Err(OutOfMemory),
            }
        }
    }
}

/// Memory with the contents of these objects and no region.
fn contents_of(alloc: Global, objects: &[Object]) -> Result<GuestMemory<PlainLog>, OutOfMemory>
    requires { length objects.now < 2 ^ 32 }
    ensures contents { IfOk result (λ m. m.guest ≡ record { regions = []; contents = contents_from 0 objects.now }) }
    ensures logs { IfOk result (λ m. m.logs ≡ []) }
{
    let mut memory = GuestMemory::new(alloc);
    for (number, object) in objects.iter().enumerate() {
        put_content(alloc, &mut memory, number as u32, object)?;
    }
    Ok(memory)
}

/// The region of a table that a set-up gives.
fn table_region(region: &GivenRegion) -> Region
    ensures { result ≡ given_region region.now }
{
    Region {
        start: region.start,
        len: region.len,
        object: region.object,
        offset: region.offset,
        log: None,
    }
}

/// The regions of a table.
fn table_of(alloc: Global, regions: &[GivenRegion]) -> Result<Vec<Region>, OutOfMemory>
    ensures { IfOk result (λ table. table.items ≡ map given_region regions.now) }
{
    let table = regions.iter().map(table_region).collect(alloc)?;
    Ok(table)
}

/// The memory of a set-up whose objects and regions these are.
///
/// # Errors
/// `Region(0)` where there is a table and it is refused. Want of memory.
#[tactic(auto, unfolding(vub_model::specs::ValidSetup::given_table_fault))]
fn memory_of(
    alloc: Global,
    objects: &[Object],
    regions: &[GivenRegion],
) -> Result<GuestMemory<PlainLog>, DriveFault>
    requires { length objects.now < 2 ^ 32 }
    ensures refused { IfErr result (λ f. IsRefusal (given_table_fault objects.now regions.now) f) }
    ensures sound { OnOk result (given_table_fault objects.now regions.now ≡ None) }
    ensures guest { IfOk result (λ m. m.guest
        ≡ record { regions = map given_region regions.now; contents = contents_from 0 objects.now }) }
    ensures logs { IfOk result (λ m. m.logs ≡ []) }
{
    let Ok(mut memory) = contents_of(alloc, objects) else {
        return Err(NO_MEMORY);
    };
    if regions.is_empty() {
        return Ok(memory);
    }
    let Ok(table) = table_of(alloc, regions) else {
        return Err(NO_MEMORY);
    };
    match memory.replace_table(table) {
        Ok(()) => Ok(memory),
        Err(_) => Err(DriveFault::Setup(SetupFault::Region(0))),
    }
}

/// The first test that fails of those that are made before the region table.
fn fault_before(constants: &Constants, setup: &Setup) -> Option<SetupFault>
    ensures { result ≡ or_else (device_fault constants.now setup.now.objects)
        (region_fault setup.now.objects setup.now.regions) }
{
    let objects = setup.objects.as_slice();
    match device_fault(constants, objects) {
        Some(fault) => Some(fault),
        None => region_fault(objects, setup.regions.as_slice()),
    }
}

/// The first test that fails of the guest's actions and of the logs.
fn fault_at_last(objects: &[Object], guest: &[Guest]) -> Option<SetupFault>
    ensures { result ≡ or_else (guest_fault objects.now guest.now) (log_object_fault objects.now) }
{
    match guest_fault(objects, guest) {
        Some(fault) => Some(fault),
        None => log_object_fault(objects),
    }
}

/// The first test that fails of those that are made behind the region table.
fn fault_behind(constants: &Constants, setup: &Setup) -> Option<SetupFault>
    ensures { result ≡ or_else (ring_fault constants.now setup.now.objects [] setup.now.rings)
        (or_else (request_fault constants.now setup.now.objects setup.now.requests)
        (or_else (guest_fault setup.now.objects setup.now.guest) (log_object_fault setup.now.objects))) }
{
    let objects = setup.objects.as_slice();
    if let Some(fault) = ring_fault(constants, objects, setup.rings.as_slice()) {
        return Some(fault);
    }
    match request_fault(constants, objects, setup.requests.as_slice()) {
        Some(fault) => Some(fault),
        None => fault_at_last(objects, setup.guest.as_slice()),
    }
}

/// Whether this many objects and bells of workers have numbers.
fn have_numbers(objects: usize, bells: usize) -> bool
    ensures { IsTrue result → objects + bells < 2 ^ 32 }
{
    objects <= MAX_OBJECTS && bells <= MAX_OBJECTS - objects
}

/// The guest memory of a set-up that passes all tests for a device with these constants.
///
/// # Errors
/// The first test that the set-up fails. Want of memory, also where objects and workers together are more than
/// 4294967295, since each object and each worker's bell needs a number of its own.
#[tactic(auto, unfolding(vub_model::specs::ValidSetup::fault_of))]
pub fn validate(
    alloc: Global,
    setup: &Setup,
    constants: &Constants,
) -> Result<GuestMemory<PlainLog>, DriveFault>
    ensures refused { IfErr result (λ f. IsRefusal (fault_of constants.now setup.now) f) }
    ensures valid { OnOk result (fault_of constants.now setup.now ≡ None) }
    ensures guest { IfOk result (λ m. m.guest
        ≡ record { regions = map given_region setup.now.regions; contents = contents_from 0 setup.now.objects }) }
    ensures logs { IfOk result (λ m. m.logs ≡ []) }
    ensures numbers { OnOk result (length setup.now.objects + length constants.now.masks < 2 ^ 32) }
{
    if let Some(fault) = fault_before(constants, setup) {
        return Err(DriveFault::Setup(fault));
    }
    if !have_numbers(setup.objects.len(), constants.masks.len()) {
        return Err(NO_MEMORY);
    }
    let memory = memory_of(alloc, setup.objects.as_slice(), setup.regions.as_slice())?;
    match fault_behind(constants, setup) {
        Some(fault) => Err(DriveFault::Setup(fault)),
        None => Ok(memory),
    }
}
