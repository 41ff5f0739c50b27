//! Gives the regions of a table their log.
ghost use Rattle.std.specs.Prelude.{◌≡◌, ◌+◌, ◌-◌, ◌^◌, ◌<◌, map, IfNone, None};
ghost use Rattle.std.specs.List.{AllByRecursion};
ghost use Rattle.vub_mem.specs.Sound.{IsBounded};
ghost use Rattle.vub_mem.specs.Track.{IsTrackable, is_aligned, track_fault, tracks_fault, with_log};

use crate::errors::LogError;
use crate::region::{AtomicBitmapMmap, Region};

/// Whether a region begins and ends at a page.
pub(crate) fn is_page_aligned(region: &Region) -> bool
    ensures { result ≡ is_aligned region.now }
{
    region.start % 4096 == 0 && region.len % 4096 == 0
}

/// The first test that a region fails which is to get a log of this many bytes.
#[tactic(auto, unfolding(crate::specs::Track::track_fault))]
fn test_track(region: &Region, size: u64, tracks: bool) -> Option<LogError>
    requires bounded { IsBounded region.now }
    requires small { size < 2 ^ 61 }
    ensures value { result ≡ track_fault size tracks region.now }
    ensures trackable { IfNone result (IsTrackable size region.now) }
{
    if !tracks {
        return Some(LogError::Unsupported);
    }
    if !is_page_aligned(region) {
        return Some(LogError::NotPageAligned);
    }
    if (region.start + region.len - 1) / 4096 >= 8 * size {
        return Some(LogError::TooSmall);
    }
    None
}

/// The first test that a region fails, by order.
pub(crate) fn test_tracks(regions: &[Region], size: u64, tracks: bool) -> Option<LogError>
    requires bounded { AllByRecursion IsBounded regions.now }
    requires small { size < 2 ^ 61 }
    ensures value { result ≡ tracks_fault size tracks regions.now }
    ensures trackable { IfNone result (AllByRecursion (λ r. IsTrackable size r) regions.now) }
{
    for region in regions {
        match test_track(region, size, tracks) {
            None => {}
            Some(fault) => return Some(fault),
        }
    }
    None
}

/// Gives each region this log.
pub(crate) fn give_logs(regions: &mut [Region], object: u32, offset: u64)
    ensures { regions.new ≡ map (λ r. with_log object offset r) regions.old }
{
    for region in regions.iter_mut() {
        region.log = Some(AtomicBitmapMmap {
            object,
            offset,
            pages_before: region.start / 4096,
            pages: region.len / 4096,
        });
    }
}
