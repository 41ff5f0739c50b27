//! Looks up regions and contents.
ghost use Rattle.std.specs.Prelude.{◌≡◌, ◌≢◌, ◌+◌, ◌-◌, ◌^◌, ◌<◌, ◌≤◌, true, is_some, IsTrue, IfSome, IfNone, IfOk, length, [], false};
ghost use Rattle.std.specs.List.{AllByRecursion};
ghost use Rattle.std.specs.Int.{w16, w32, w64};
ghost use Rattle.vub_mem.specs.Halving.{StandsAt, IsRegionAt};
ghost use Rattle.vub_mem.specs.Place.{region_of, covers, content_of, byte_at, bytes_at, number_at, with_bytes, write_at};
ghost use Rattle.vub_mem.specs.Sound.{IsApart, IsBounded, IsSound};
ghost use Rattle.vub_mem.specs.PlaceAt.{place_at, RunsOn};
ghost use Rattle.vub_mem.specs.Found.{IsFound, IsLocated};

use crate::numbered::Contents;
use crate::place::Place;
use crate::region::Region;
use crate::starts::stand;
use std::alloc::{AllocError, Global};

/// The region of this place, where it holds the address. No other can.
pub(crate) fn region_on(regions: &[Region], place: usize, addr: u64) -> Option<&Region>
    requires bounded { AllByRecursion IsBounded regions.now }
    requires stands { StandsAt regions.now addr place }
    ensures found { IfSome result (λ r. IsFound regions.now addr r.now) }
    ensures place { IfSome result (λ r. IsRegionAt regions.now place r.now) }
    ensures none { IfNone result (region_of regions.now addr ≡ None) }
{
    if place < regions.len() && regions[place].holds(addr) {
        Some(&regions[place])
    } else {
        None
    }
}

/// The region that holds the address.
pub(crate) fn region_at(regions: &[Region], addr: u64) -> Option<&Region>
    requires bounded { AllByRecursion IsBounded regions.now }
    requires apart { IsApart regions.now }
    ensures found { IfSome result (λ r. IsFound regions.now addr r.now) }
    ensures none { IfNone result (region_of regions.now addr ≡ None) }
{
    match region_on(regions, stand(regions, addr), addr) {
        Some(region) => Some(region),
        None => None,
    }
}

/// Where an address lies, if it lies in a region.
#[tactic(auto, using(crate::proofs::Chunks::runs_on))]
pub(crate) fn place_in(regions: &[Region], addr: u64) -> Option<Place>
    requires bounded { AllByRecursion IsBounded regions.now }
    requires apart { IsApart regions.now }
    ensures value { result ≡ place_at regions.now addr }
    ensures some { IfSome result (λ p. 0 < p.left) }
    ensures run { IfSome result (RunsOn regions.now addr) }
    ensures ends { IfSome result (λ p. addr + p.left < 2 ^ 64) }
{
    match region_at(regions, addr) {
        None => None,
        Some(region) => Some(Place {
            object: region.object,
            offset: region.offset + (addr - region.start),
            left: region.len - (addr - region.start),
        }),
    }
}

/// Whether each address of the range lies in a region. Only the region of this place can hold the first.
pub(crate) fn covers_from(regions: &[Region], place: usize, addr: u64, len: u64) -> bool
    requires bounded { AllByRecursion IsBounded regions.now }
    requires apart { IsApart regions.now }
    requires stands { StandsAt regions.now addr place }
    ensures value { result ≡ covers regions.now addr len }
    ensures bound { IsTrue result → addr + len < 2 ^ 64 }
{
    let mut on = place;
    let mut at = addr;
    let mut left = len;
    while left > 0 {
        match region_on(regions, on, at) {
            None => return false,
            Some(region) => {
                let here = region.len - (at - region.start);
                if left <= here {
                    return true;
                }
                on += 1;
                at += here;
                left -= here;
            }
        }
    }
    true
}

/// Whether each address of the range lies in a region.
pub(crate) fn covers_range(regions: &[Region], addr: u64, len: u64) -> bool
    requires bounded { AllByRecursion IsBounded regions.now }
    requires apart { IsApart regions.now }
    ensures value { result ≡ covers regions.now addr len }
    ensures bound { IsTrue result → addr + len < 2 ^ 64 }
{
    covers_from(regions, stand(regions, addr), addr, len)
}

/// The address `offset` behind `base`, where a range from it on is covered.
pub(crate) fn locate_range(regions: &[Region], base: u64, offset: u64, len: u64) -> Option<u64>
    requires bounded { AllByRecursion IsBounded regions.now }
    requires apart { IsApart regions.now }
    requires some { 0 < len }
    ensures some { IfSome result (IsLocated regions.now base offset len) }
    ensures none { IfNone result (covers regions.now (base + offset) len ≡ false) }
{
    match base.checked_add(offset) {
        None => None,
        Some(at) => {
            if covers_range(regions, at, len) {
                Some(at)
            } else {
                None
            }
        }
    }
}

/// The byte at an address, or 0 outside of all regions.
pub(crate) fn byte(regions: &[Region], contents: &Contents, addr: u64) -> u8
    requires { IsSound (record { regions = regions.now; contents = contents.now }) }
    ensures { result ≡ byte_at (record { regions = regions.now; contents = contents.now }) addr }
{
    match region_at(regions, addr) {
        None => 0,
        Some(region) => {
            let bytes = contents.bytes(region.object);
            let place = region.offset + (addr - region.start);
            bytes[place as usize]
        }
    }
}

/// Fills the slice with the bytes from an address on, one by one.
fn read_each(regions: &[Region], contents: &Contents, addr: u64, out: &mut [u8])
    requires sound { IsSound (record { regions = regions.now; contents = contents.now }) }
    requires bound { addr + length out.old < 2 ^ 64 }
    ensures { out.new ≡ bytes_at (record { regions = regions.now; contents = contents.now }) addr (length out.old) }
{
    for i in 0..out.len() {
        out[i] = byte(regions, contents, addr + i as u64);
    }
}

/// The bytes from an address on, which lie in this region of it.
fn region_part<'a>(
    regions: &[Region],
    contents: &'a Contents,
    region: &Region,
    addr: u64,
    len: u64,
) -> &'a [u8]
    requires sound { IsSound (record { regions = regions.now; contents = contents.now }) }
    requires found { IsFound regions.now addr region.now }
    requires fits { len ≤ region.now.len - (addr - region.now.start) }
    ensures bytes { result.now ≡ bytes_at (record { regions = regions.now; contents = contents.now }) addr len }
    ensures len { length result.now ≡ len }
{
    let content = contents.bytes(region.object);
    let place = region.offset + (addr - region.start);
    let (_, behind) = content.split_at(place as usize);
    let (part, _) = behind.split_at(len as usize);
    part
}

/// The bytes from an address on, if they lie in one region.
fn part_at<'a>(regions: &[Region], contents: &'a Contents, addr: u64, len: u64) -> Option<&'a [u8]>
    requires sound { IsSound (record { regions = regions.now; contents = contents.now }) }
    ensures bytes { IfSome result (λ s. s.now ≡ bytes_at (record { regions = regions.now; contents = contents.now })
        addr len) }
    ensures len { IfSome result (λ s. length s.now ≡ len) }
{
    match region_at(regions, addr) {
        None => None,
        Some(region) => {
            if len > region.len - (addr - region.start) {
                return None;
            }
            Some(region_part(regions, contents, region, addr, len))
        }
    }
}

/// Fills the slice with the bytes from an address on.
pub(crate) fn read_into(regions: &[Region], contents: &Contents, addr: u64, out: &mut [u8])
    requires sound { IsSound (record { regions = regions.now; contents = contents.now }) }
    requires bound { addr + length out.old < 2 ^ 64 }
    ensures { out.new ≡ bytes_at (record { regions = regions.now; contents = contents.now }) addr (length out.old) }
{
    match part_at(regions, contents, addr, out.len() as u64) {
        None => read_each(regions, contents, addr, out),
        Some(part) => out.copy_from_slice(part),
    }
}

/// Writes the bytes of a covered range, a region at a time. Only the region of this place can hold the first address.
pub(crate) fn write_from(
    regions: &[Region],
    contents: &mut Contents,
    place: usize,
    addr: u64,
    bytes: &[u8],
)
    requires sound { IsSound (record { regions = regions.now; contents = contents.old }) }
    requires stands { StandsAt regions.now addr place }
    requires covered { covers regions.now addr (length bytes.now) ≡ true }
    requires bound { addr + length bytes.now < 2 ^ 64 }
    ensures sound { IsSound (record { regions = regions.now; contents = contents.new }) }
    ensures written { record {
      regions = regions.now;
      contents = contents.new;
    } ≡ write_at (record { regions = regions.now; contents = contents.old }) addr
        bytes.now }
{
    let mut on = place;
    let mut at = addr;
    let mut rest = bytes;
    while !rest.is_empty() {
        match region_on(regions, on, at) {
            None => unreachable!(),
            Some(region) => {
                let here = (region.len - (at - region.start)).min(rest.len() as u64);
                let (chunk, after) = rest.split_at(here as usize);
                let offset = region.offset + (at - region.start);
                contents.store(region.object, offset as usize, chunk);
                on += 1;
                at += here;
                rest = after;
            }
        }
    }
}

#[tactic(auto, unfolding(crate::specs::Place::number_at))]
pub(crate) fn u16_at(regions: &[Region], contents: &Contents, addr: u64) -> u16
    requires sound { IsSound (record { regions = regions.now; contents = contents.now }) }
    requires bound { addr + 2 < 2 ^ 64 }
    ensures { result ≡ number_at w16 (record { regions = regions.now; contents = contents.now }) addr }
{
    let mut bytes = [0; 2];
    read_into(regions, contents, addr, &mut bytes);
    u16::from_le_bytes(bytes)
}

#[tactic(auto, unfolding(crate::specs::Place::number_at))]
pub(crate) fn u32_at(regions: &[Region], contents: &Contents, addr: u64) -> u32
    requires sound { IsSound (record { regions = regions.now; contents = contents.now }) }
    requires bound { addr + 4 < 2 ^ 64 }
    ensures { result ≡ number_at w32 (record { regions = regions.now; contents = contents.now }) addr }
{
    let mut bytes = [0; 4];
    read_into(regions, contents, addr, &mut bytes);
    u32::from_le_bytes(bytes)
}

#[tactic(auto, unfolding(crate::specs::Place::number_at))]
pub(crate) fn u64_at(regions: &[Region], contents: &Contents, addr: u64) -> u64
    requires sound { IsSound (record { regions = regions.now; contents = contents.now }) }
    requires bound { addr + 8 < 2 ^ 64 }
    ensures { result ≡ number_at w64 (record { regions = regions.now; contents = contents.now }) addr }
{
    let mut bytes = [0; 8];
    read_into(regions, contents, addr, &mut bytes);
    u64::from_le_bytes(bytes)
}

/// The bytes from an address on that lie in the region of this place, at most `left`. No other can hold the address.
fn chunk_on<'a>(
    regions: &[Region],
    contents: &'a Contents,
    place: usize,
    at: u64,
    left: u64,
) -> &'a [u8]
    requires sound { IsSound (record { regions = regions.now; contents = contents.now }) }
    requires stands { StandsAt regions.now at place }
    requires covered { is_some (region_of regions.now at) ≡ true }
    requires some { 0 < left }
    ensures bytes { result.now ≡ bytes_at (record { regions = regions.now; contents = contents.now }) at
        (length result.now) }
    ensures some { 0 < length result.now }
    ensures fits { length result.now ≤ left }
    ensures next { length result.now < left → StandsAt regions.now (at + length result.now) (place + 1) }
    ensures within { place < length regions.now }
{
    match region_on(regions, place, at) {
        None => unreachable!(),
        Some(region) => {
            let here = (region.len - (at - region.start)).min(left);
            region_part(regions, contents, region, at, here)
        }
    }
}

/// The bytes of a covered range, a region at a time.
pub(crate) fn read_range(
    alloc: Global,
    regions: &[Region],
    contents: &Contents,
    addr: u64,
    len: u64,
) -> Result<Vec<u8>, AllocError>
    requires sound { IsSound (record { regions = regions.now; contents = contents.now }) }
    requires covered { covers regions.now addr len ≡ true }
    requires bound { addr + len < 2 ^ 64 }
    ensures { IfOk result (λ v. v.items ≡ bytes_at (record { regions = regions.now; contents = contents.now }) addr
        len) }
{
    let mut bytes = Vec::new(alloc);
    let mut on = stand(regions, addr);
    let mut at = addr;
    let mut left = len;
    while left > 0 {
        let chunk = chunk_on(regions, contents, on, at, left);
        bytes.extend_from_slice(chunk)?;
        on += 1;
        at += chunk.len() as u64;
        left -= chunk.len() as u64;
    }
    Ok(bytes)
}
