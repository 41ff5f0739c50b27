//! Marks the pages that a write meets.
ghost use Rattle.std.specs.Prelude.{◌≡◌, ◌≢◌, ℕ, false, ◌+◌, ◌*◌, ◌<◌, ◌^◌, ◌/◌, ◌≤◌, max, ◌==◌, ◌∷◌, [], IfSome, IfNone};
ghost use Rattle.std.specs.List.{position, list_any, AllByRecursion};
ghost use Rattle.vub_mem.specs.Halving.{IsPast, StandsAt};
ghost use Rattle.vub_mem.specs.Sound.{IsApart, IsBounded, IsLogged};
ghost use Rattle.vub_mem.specs.Marks.{MarksOne, MarksAll, page_marks, mark_at, marks_of, page_count};
ghost use Rattle.vub_mem.specs.Found.{IsLogPlace};
ghost use Rattle.vub_mem.specs.Logs.{log_len, ChangesOne};
ghost use Rattle.vub_mem.specs.Track.{IsTrackable, log_fault};

use crate::dirty::{DirtyLog, Stored};
use crate::errors::LogError;
use crate::places::region_on;
use crate::region::Region;
use crate::track::test_tracks;

fn log_index<L: DirtyLog>(logs: &[Stored<L>], object: u32) -> Option<usize>
    ensures { result ≡ position (λ s. s.object == object) logs.now }
{
    logs.iter().position(|s| s.object == object)
}

/// The place of the log with this number.
pub(crate) fn log_place<L: DirtyLog>(logs: &[Stored<L>], object: u32) -> Option<usize>
    ensures found { IfSome result (λ k. IsLogPlace logs.now object k) }
    ensures none { IfNone result (log_len L.byte_len logs.now object ≡ 0) }
{
    match log_index(logs, object) {
        Some(index) => Some(index),
        None => None,
    }
}

fn any_log<L: DirtyLog>(logs: &[Stored<L>], object: u32) -> bool
    ensures { result ≡ list_any (λ s. s.object == object) logs.now }
{
    logs.iter().any(|s| s.object == object)
}

/// Whether a log has this number.
pub(crate) fn is_log<L: DirtyLog>(logs: &[Stored<L>], object: u32) -> bool
    ensures value { result ≡ list_any (λ s. s.object == object) logs.now }
    ensures absent { result ≡ false → AllByRecursion (λ s. s.object ≢ object) logs.now }
{
    if any_log(logs, object) { true } else { false }
}

/// A byte of the log with this number, which has it.
pub(crate) fn load_log<L: DirtyLog>(logs: &mut [Stored<L>], object: u32, byte: u64) -> u8
    requires { byte < log_len L.byte_len logs.old object }
    ensures loaded { ChangesOne (λ old new. L.loads old byte result new) logs.old object logs.new }
    ensures keeps { (o : ℕ) → log_len L.byte_len logs.new o ≡ log_len L.byte_len logs.old o }
{
    match log_place(logs, object) {
        None => unreachable!(),
        Some(index) => {
            let stored = &mut logs[index];
            stored.log.load(byte)
        }
    }
}

/// How many bytes the log with this number has, and 0 where there is none.
pub(crate) fn log_bytes<L: DirtyLog>(logs: &[Stored<L>], object: u32) -> u64
    ensures value { result ≡ log_len L.byte_len logs.now object }
    ensures bound { result < 2 ^ 61 }
{
    match log_place(logs, object) {
        None => 0,
        Some(index) => {
            let stored = &logs[index];
            stored.log.len()
        }
    }
}

/// The first test that fails for a part of a log.
#[tactic(auto, unfolding(crate::specs::Track::log_fault))]
pub(crate) fn test_log<L: DirtyLog>(
    regions: &[Region],
    logs: &[Stored<L>],
    object: u32,
    offset: u64,
    size: u64,
    tracks: bool,
) -> Option<LogError>
    requires { AllByRecursion IsBounded regions.now }
    ensures value { result ≡ log_fault L.byte_len logs.now regions.now object offset size tracks }
    ensures trackable { IfNone result (AllByRecursion (λ r. IsTrackable size r) regions.now) }
    ensures within { IfNone result (offset + size ≤ log_len L.byte_len logs.now object) }
    ensures bound { log_len L.byte_len logs.now object < 2 ^ 61 }
{
    let have = log_bytes(logs, object);
    if size == 0 {
        return Some(LogError::EmptyLog);
    }
    match offset.checked_add(size) {
        None => return Some(LogError::PastObject),
        Some(end) => {
            if end > have {
                return Some(LogError::PastObject);
            }
        }
    }
    match test_tracks(regions, size, tracks) {
        Some(fault) => Some(fault),
        None => None,
    }
}

/// Marks a page that the log has.
pub(crate) fn mark_one<L: DirtyLog>(log: &mut L, page: u64)
    requires { page < 8 * L.byte_len log.old }
    ensures { page_marks L.byte_len L.marks log.old page log.new }
{
    log.mark(page);
}

/// Marks a page of the log with this number, which has it.
fn mark_log<L: DirtyLog>(logs: &mut [Stored<L>], object: u32, page: u64)
    requires { page < 8 * log_len L.byte_len logs.old object }
    ensures { MarksOne (page_marks L.byte_len L.marks) logs.old (record { object = object; page = page }) logs.new }
{
    match log_place(logs, object) {
        None => unreachable!(),
        Some(index) => {
            let stored = &mut logs[index];
            mark_one(&mut stored.log, page);
        }
    }
}

/// Marks the page of an address, if its region has a log. Only the region of this place can hold the address.
#[tactic(auto, unfolding(crate::specs::Marks::mark_at))]
fn mark_page<L: DirtyLog>(regions: &[Region], logs: &mut [Stored<L>], place: usize, addr: u64)
    requires bounded { AllByRecursion IsBounded regions.now }
    requires stands { StandsAt regions.now addr place }
    requires logged { AllByRecursion (λ r. IsLogged L.byte_len logs.old r) regions.now }
    ensures { MarksAll (page_marks L.byte_len L.marks) logs.old (mark_at regions.now addr) logs.new }
{
    match region_on(regions, place, addr) {
        None => {}
        Some(region) => match region.log {
            None => {}
            Some(place) => mark_log(logs, place.object, 8 * place.offset + addr / 4096),
        },
    }
}

/// How many pages a range meets.
fn count_pages(addr: u64, len: u64) -> u64
    requires { addr + len < 2 ^ 64 }
    ensures value { result ≡ page_count addr len }
    ensures small { result + addr / 4096 ≤ 2 ^ 52 }
{
    if len == 0 {
        0
    } else {
        (addr + len - 1) / 4096 - addr / 4096 + 1
    }
}

/// The place of the only region from this one on that can hold the address. Those before it end at or below it.
fn stand_from(regions: &[Region], place: usize, addr: u64) -> usize
    requires apart { IsApart regions.now }
    requires bounded { AllByRecursion IsBounded regions.now }
    requires past { IsPast regions.now addr place }
    ensures { StandsAt regions.now addr result }
{
    let mut on = place;
    while on < regions.len() && regions[on].start + regions[on].len <= addr {
        on += 1;
    }
    on
}

/// Marks each page that the range meets in a region with a log. Only the region of this place can hold the first
/// address.
pub(crate) fn mark_from<L: DirtyLog>(
    regions: &[Region],
    logs: &mut [Stored<L>],
    place: usize,
    addr: u64,
    len: u64,
)
    requires bounded { AllByRecursion IsBounded regions.now }
    requires apart { IsApart regions.now }
    requires stands { StandsAt regions.now addr place }
    requires logged { AllByRecursion (λ r. IsLogged L.byte_len logs.old r) regions.now }
    requires ends { addr + len < 2 ^ 64 }
    ensures marked { MarksAll (page_marks L.byte_len L.marks) logs.old (marks_of regions.now addr len) logs.new }
    ensures logged { AllByRecursion (λ r. IsLogged L.byte_len logs.new r) regions.now }
{
    let count = count_pages(addr, len);
    let mut on = place;
    for i in 0..count {
        let at = addr.max(4096 * (addr / 4096 + i));
        on = stand_from(regions, on, at);
        mark_page(regions, logs, on, at);
    }
}
