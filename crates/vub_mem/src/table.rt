//! Tests a table of regions.
ghost use Rattle.std.specs.Prelude.{◌≡◌, ◌+◌, ◌<◌, ◌^◌, ◌≤◌, IfNone, [], length, map, nat_lt};
ghost use Rattle.std.specs.List.{AllByRecursion, insert, list_any, position};
ghost use Rattle.vub_mem.specs.Sound.{IsSound};
ghost use Rattle.vub_mem.specs.Table.{IsTested, unlogged, meets, insert_fault, place_of, is_region};
ghost use Rattle.vub_mem.specs.Table.{region_fault, regions_fault, pair_fault, pairs_fault, pairs_from, table_fault};

use crate::errors::MemError;
use crate::numbered::Contents;
use crate::region::Region;

/// The first test that a region fails alone.
#[tactic(auto, unfolding(crate::specs::Table::region_fault))]
fn test_region(contents: &Contents, region: &Region) -> Option<MemError>
    ensures value { result ≡ region_fault contents.now region.now }
    ensures tested { IfNone result (IsTested contents.now region.now) }
{
    if region.len == 0 {
        return Some(MemError::Empty);
    }
    let bytes = contents.bytes(region.object);
    match region.offset.checked_add(region.len) {
        None => return Some(MemError::PastObject),
        Some(end) => {
            if end > bytes.len() as u64 {
                return Some(MemError::PastObject);
            }
        }
    }
    match region.start.checked_add(region.len) {
        None => Some(MemError::Wraps),
        Some(_) => None,
    }
}

/// The first test that two neighbours fail. The first does not wrap.
#[tactic(auto, unfolding(crate::specs::Table::pair_fault))]
fn test_pair(first: &Region, second: &Region) -> Option<MemError>
    requires { first.now.start + first.now.len < 2 ^ 64 }
    ensures { result ≡ pair_fault first.now second.now }
{
    if second.start < first.start {
        Some(MemError::Order)
    } else if second.start < first.start + first.len {
        Some(MemError::Overlap)
    } else {
        None
    }
}

/// The first test that a region fails, by order.
fn test_regions(contents: &Contents, regions: &[Region]) -> Option<MemError>
    ensures value { result ≡ regions_fault contents.now regions.now }
    ensures tested { IfNone result (AllByRecursion (λ r. IsTested contents.now r) regions.now) }
{
    for region in regions {
        match test_region(contents, region) {
            None => {}
            Some(fault) => return Some(fault),
        }
    }
    None
}

/// The first test that two neighbours fail, by order. No region wraps.
fn test_pairs(first: &Region, regions: &[Region]) -> Option<MemError>
    requires first { first.now.start + first.now.len < 2 ^ 64 }
    requires others { AllByRecursion (λ r. r.start + r.len < 2 ^ 64) regions.now }
    ensures { result ≡ pairs_from first.now regions.now }
{
    let mut last = first;
    for region in regions {
        match test_pair(last, region) {
            None => {}
            Some(fault) => return Some(fault),
        }
        last = region;
    }
    None
}

/// The first test that a table fails.
#[tactic(auto, unfolding(crate::specs::Table::table_fault, crate::specs::Table::pairs_fault))]
pub(crate) fn test_table(contents: &Contents, regions: &[Region]) -> Option<MemError>
    ensures value { result ≡ table_fault contents.now regions.now }
    ensures tested { IfNone result (IsSound (record { regions = map unlogged regions.now; contents = contents.now })) }
{
    match test_regions(contents, regions) {
        Some(fault) => Some(fault),
        None => match regions.split_first() {
            None => Some(MemError::Empty),
            Some((first, others)) => match test_pairs(first, others) {
                Some(fault) => Some(fault),
                None => None,
            },
        },
    }
}

/// Whether two regions share an address.
fn do_meet(first: &Region, second: &Region) -> bool
    ensures { result ≡ meets first.now second.now }
{
    (first.start as u128) < second.start as u128 + second.len as u128
        && (second.start as u128) < first.start as u128 + first.len as u128
}

/// Whether the region shares an address with one of these.
fn meets_any(regions: &[Region], region: &Region) -> bool
    ensures { result ≡ list_any (λ q. meets q region.now) regions.now }
{
    regions.iter().any(|other| do_meet(other, region))
}

/// The first test that a region fails that is to enter the table.
#[tactic(auto, unfolding(crate::specs::Table::insert_fault))]
pub(crate) fn test_insert(
    contents: &Contents,
    regions: &[Region],
    region: &Region,
) -> Option<MemError>
    requires { IsSound (record { regions = regions.now; contents = contents.now }) }
    ensures value { result ≡ insert_fault contents.now regions.now region.now }
    ensures tested { IfNone result (IsSound
        (record {
          regions = insert regions.now (place_of regions.now region.now) (unlogged region.now);
          contents = contents.now;
        })) }
{
    match test_region(contents, region) {
        Some(fault) => Some(fault),
        None => {
            if meets_any(regions, region) {
                Some(MemError::Overlap)
            } else {
                None
            }
        }
    }
}

fn later_place(regions: &[Region], region: &Region) -> Option<usize>
    ensures { result ≡ position (λ q. nat_lt region.now.start q.start) regions.now }
{
    regions.iter().position(|other| region.start < other.start)
}

/// The place of a region in the table.
pub(crate) fn insert_place(regions: &[Region], region: &Region) -> usize
    ensures value { result ≡ place_of regions.now region.now }
    ensures within { result ≤ length regions.now }
{
    match later_place(regions, region) {
        Some(place) => place,
        None => regions.len(),
    }
}

/// The place of the region with this start and this length.
pub(crate) fn region_place(regions: &[Region], start: u64, len: u64) -> Option<usize>
    ensures { result ≡ position (λ r. is_region start len r) regions.now }
{
    regions
        .iter()
        .position(|r| r.start == start && r.len == len)
}

/// Takes the log of each region away.
pub(crate) fn clear_logs(regions: &mut [Region])
    ensures { regions.new ≡ map unlogged regions.old }
{
    for region in regions.iter_mut() {
        region.log = None;
    }
}
