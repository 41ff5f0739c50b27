//! The script that the word `make` plays.
ghost use Rattle.std.specs.Prelude.{◌≡◌, ◌+◌, ◌*◌, ◌<◌, ◌^◌, ◌++◌, [], ◌∷◌, IfOk, OnOk};
ghost use Rattle.std.specs.List.{flat_map, range_with_len, repeat};
ghost use Rattle.vub_model.specs.declared.setup.Guest.{Guest};
ghost use Rattle.vub_share.specs.Generator.{descriptor, request_stored, table_stored, available_stored, index_stored, published_in, published, zeros, objects_made, region_made, ring_made, device_made, turns_of_entry, last_turns, made};

use std::alloc::{AllocError, Global};
use vub_base::{Bytes, Listed, OutOfMemory};
use vub_model::{GivenRegion, GivenRing, Guest, Info, Object, Setup};
use vub_script::{BitmapForm, DeviceForm, Script, ServiceForm};

/// Where guest memory begins, and its length in bytes.
const MEMORY: u64 = 0x10_0000;

/// Flags of a descriptor (virtio 1.2, section 2.7.5): there is a next one; the device writes.
const NEXT: u16 = 1;

const WRITE: u16 = 2;

/// The turns of one entry: five of the guest and eight of the worker.
const TURNS: [u32; 13] = [0, 0, 0, 0, 0, 2, 2, 2, 2, 2, 2, 2, 2];

/// The turns behind the last entry.
const LAST_TURNS: [u32; 8] = [2, 2, 2, 2, 2, 2, 2, 2];

/// Appends a descriptor.
fn push_descriptor(
    out: &mut Vec<u8>,
    address: u64,
    len: u32,
    flags: u16,
    next: u16,
) -> Result<(), AllocError>
    ensures { OnOk result (out.new.items ≡ out.old.items ++ descriptor address len flags next) }
{
    out.extend_from_slice(&address.to_le_bytes())?;
    out.extend_from_slice(&len.to_le_bytes())?;
    out.extend_from_slice(&flags.to_le_bytes())?;
    out.extend_from_slice(&next.to_le_bytes())?;
    Ok(())
}

/// The descriptors of a slot: the request's and the reply's.
fn descriptors(alloc: Global, slot: u16) -> Result<Bytes, OutOfMemory>
    requires { slot < 128 }
    ensures { IfOk result (λ bytes. bytes ≡ descriptor (1114112 + 32 * slot) 8 1 (2 * slot + 1)
        ++ descriptor (1114128 + 32 * slot) 16 2 0) }
{
    let mut out = Vec::new(alloc);
    let place = 32 * u64::from(slot);
    push_descriptor(&mut out, 1_114_112 + place, 8, NEXT, 2 * slot + 1)?;
    push_descriptor(&mut out, 1_114_128 + place, 16, WRITE, 0)?;
    Ok(Bytes::from_vec(out))
}

/// A store of these bytes in guest memory.
fn store(alloc: Global, offset: u64, bytes: &[u8]) -> Result<Guest, OutOfMemory>
    ensures { IfOk result (λ action. action ≡ Guest.Store 0 offset bytes.now) }
{
    let bytes = Bytes::from_slice(alloc, bytes)?;
    Ok(Guest::Store {
        object: 0,
        offset,
        bytes,
    })
}

fn request_stored(alloc: Global, i: u32, slot: u16) -> Result<Guest, OutOfMemory>
    requires { slot < 128 }
    ensures { IfOk result (λ action. action ≡ request_stored i slot) }
{
    store(
        alloc,
        65_536 + 32 * u64::from(slot),
        &u64::from(i).to_le_bytes(),
    )
}

fn table_stored(alloc: Global, slot: u16) -> Result<Guest, OutOfMemory>
    requires { slot < 128 }
    ensures { IfOk result (λ action. action ≡ table_stored slot) }
{
    let bytes = descriptors(alloc, slot)?;
    Ok(Guest::Store {
        object: 0,
        offset: 32 * u64::from(slot),
        bytes,
    })
}

fn available_stored(alloc: Global, i: u32, slot: u16) -> Result<Guest, OutOfMemory>
    requires { slot < 128 }
    ensures { IfOk result (λ action. action ≡ available_stored i slot) }
{
    store(
        alloc,
        8196 + 2 * u64::from(i % 256),
        &(2 * slot).to_le_bytes(),
    )
}

fn index_stored(alloc: Global, i: u32) -> Result<Guest, OutOfMemory>
    requires { i + 1 < 2 ^ 32 }
    ensures { IfOk result (λ action. action ≡ index_stored i) }
{
    let index = ((i + 1) % 65536) as u16;
    store(alloc, 8194, &index.to_le_bytes())
}

/// Appends what the guest does to publish entry `i` in a slot.
#[tactic(auto, using(std::proofs::Common::append_assoc))]
fn push_published_in(
    alloc: Global,
    guest: &mut Listed<Guest>,
    i: u32,
    slot: u16,
) -> Result<(), OutOfMemory>
    requires slot { slot < 128 }
    requires next { i + 1 < 2 ^ 32 }
    ensures { OnOk result (guest.new ≡ guest.old ++ published_in i slot) }
{
    guest.push(request_stored(alloc, i, slot)?)?;
    guest.push(table_stored(alloc, slot)?)?;
    guest.push(available_stored(alloc, i, slot)?)?;
    guest.push(index_stored(alloc, i)?)?;
    guest.push(Guest::Signal { object: 1 })
}

/// Appends what the guest does to publish entry `i`.
#[tactic(auto, unfolding(crate::specs::Generator::published))]
fn push_published(alloc: Global, guest: &mut Listed<Guest>, i: u32) -> Result<(), OutOfMemory>
    requires { i + 1 < 2 ^ 32 }
    ensures { OnOk result (guest.new ≡ guest.old ++ published i) }
{
    push_published_in(alloc, guest, i, (i % 128) as u16)
}

/// What the guest does to publish so many entries.
fn guest_of(alloc: Global, n: u32) -> Result<Listed<Guest>, OutOfMemory>
    ensures { IfOk result (λ guest. guest ≡ flat_map published (range_with_len 0 n)) }
{
    let mut guest = Listed::new(alloc);
    for i in 0..n {
        push_published(alloc, &mut guest, i)?;
    }
    Ok(guest)
}

/// So many zero bytes.
#[tactic(auto, unfolding(crate::specs::Generator::zeros))]
fn zeros(alloc: Global, len: usize) -> Result<Bytes, OutOfMemory>
    ensures { IfOk result (λ bytes. bytes ≡ zeros len) }
{
    let zeros: Vec<u8> = vec![in alloc; 0; len]?;
    Ok(Bytes::from_vec(zeros))
}

#[tactic(auto, unfolding(crate::specs::Generator::objects_made))]
fn objects(alloc: Global) -> Result<Listed<Object>, OutOfMemory>
    ensures { IfOk result (λ objects. objects ≡ objects_made) }
{
    let zeros = zeros(alloc, 1_048_576)?;
    let mut objects = Listed::new(alloc);
    objects.push(Object::Content(zeros))?;
    objects.push(Object::Event { flags: 0 })?;
    objects.push(Object::Event { flags: 0 })?;
    Ok(objects)
}

fn regions(alloc: Global) -> Result<Listed<GivenRegion>, OutOfMemory>
    ensures { IfOk result (λ regions. regions ≡ region_made ∷ []) }
{
    let mut regions = Listed::new(alloc);
    regions.push(GivenRegion {
        start: MEMORY,
        len: MEMORY,
        user: MEMORY,
        offset: 0,
        object: 0,
    })?;
    Ok(regions)
}

fn rings(alloc: Global) -> Result<Listed<GivenRing>, OutOfMemory>
    ensures { IfOk result (λ rings. rings ≡ ring_made ∷ []) }
{
    let mut rings = Listed::new(alloc);
    rings.push(GivenRing {
        queue: 0,
        size: 256,
        info: Some(Info {
            desc: 0x10_0000,
            avail: 0x10_2000,
            used: 0x10_4000,
        }),
        base: 0,
        next_used: 0,
        kick: Some(1),
        call: Some(2),
        ready: true,
        enabled: true,
    })?;
    Ok(rings)
}

fn device(alloc: Global) -> Result<DeviceForm, OutOfMemory>
    ensures { IfOk result (λ device. device ≡ device_made) }
{
    let mut masks = Listed::new(alloc);
    masks.push(0xffff_ffff)?;
    Ok(DeviceForm {
        queues: 1,
        max_size: 256,
        masks,
        features: 0x1_6400_0000,
        protocol: 0x20a,
        config: Bytes::new(alloc),
        bitmap: BitmapForm::None,
        exits: Listed::new(alloc),
        refuse: Listed::new(alloc),
    })
}

fn schedule(alloc: Global, n: u32) -> Result<Listed<u32>, OutOfMemory>
    ensures { IfOk result (λ turns. turns ≡ repeat n turns_of_entry ++ last_turns) }
{
    let mut turns: Vec<u32> = Vec::new(alloc);
    for _ in 0..n {
        turns.extend_from_slice(&TURNS)?;
    }
    turns.extend_from_slice(&LAST_TURNS)?;
    Ok(Listed::from_vec(turns))
}

/// The generated script: on one queue of 256 descriptors the guest publishes `n` entries, each with the 8 little-endian
/// bytes of its number and room for 16, and a worker serves each before the next. There are 13 `n` + 8 turns.
///
/// # Errors
/// Want of memory.
#[tactic(auto, unfolding(crate::specs::Generator::made))]
pub fn make_script(alloc: Global, n: u32) -> Result<Script, OutOfMemory>
    ensures { IfOk result (λ script. script ≡ made n) }
{
    let objects = objects(alloc)?;
    let regions = regions(alloc)?;
    let rings = rings(alloc)?;
    let guest = guest_of(alloc, n)?;
    let device = device(alloc)?;
    let schedule = schedule(alloc, n)?;
    Ok(Script {
        setup: Setup {
            objects,
            regions,
            rings,
            requests: Listed::new(alloc),
            guest,
        },
        device,
        service: ServiceForm::Echo,
        schedule,
    })
}
