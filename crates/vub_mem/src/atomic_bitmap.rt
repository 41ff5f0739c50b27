ghost use Rattle.std.specs.Prelude.{◌≡◌, ◌↔◌, ℕ, ◌+◌, ◌-◌, ◌*◌, ◌/◌, ◌%◌, ◌^◌, ◌<◌, ◌≤◌, min, IfSome, IfNone, IsTrue};
ghost use Rattle.std.specs.List.{range_with_len};
ghost use Rattle.vub_mem.specs.Bits.{bit_of, pages_from, bits_met, bit_at_place, MarksBits, ShowsBit, is_too_small, bitmap_answer};
ghost use Rattle.vub_mem.specs.Marks.{page_count, page_marks};

use crate::dirty::DirtyLog;
use crate::errors::LogError;
use crate::marks::mark_one;
use crate::region::{AtomicBitmapMmap, Region};
use crate::track::is_page_aligned;

/// How many pages of 4096 bytes a range of places meets.
fn pages_met(place: u64, len: u64) -> u64
    ensures { result ≡ page_count place len }
{
    if len == 0 {
        0
    } else {
        (len - 1) / 4096 + (place % 4096 + (len - 1) % 4096) / 4096 + 1
    }
}

/// Marks `count` bits from `first` on, which the log has.
fn mark_bits<L: DirtyLog>(log: &mut L, first: u64, count: u64)
    requires within { count ≤ 8 * L.byte_len log.old - first }
    requires small { L.byte_len log.old < 2 ^ 61 }
    ensures { MarksBits (page_marks L.byte_len L.marks) log.old (range_with_len first count) log.new }
{
    for i in 0..count {
        mark_one(log, first + i);
    }
}

/// Whether a bit of a byte stands.
fn is_set(byte: u8, bit: u32) -> bool
    requires { bit < 8 }
    ensures { IsTrue result ↔ (byte / 2 ^ bit % 2 ≡ 1) }
{
    (byte >> bit) % 2 == 1
}

/// Whether a region has no page, passes 2^64, or has its last page past a log of this many bytes.
fn is_past(region: &Region, log_bytes: u64) -> bool
    ensures { result ≡ is_too_small region.now log_bytes }
{
    if region.len == 0 {
        return true;
    }
    match region.start.checked_add(region.len - 1) {
        None => true,
        Some(last) => last / 4096 / 8 >= log_bytes,
    }
}

/// The least of three numbers.
fn least(a: u64, b: u64, c: u64) -> u64
    ensures { result ≡ min (min a b) c }
{
    a.min(b).min(c)
}

impl AtomicBitmapMmap {
    /// The bit of a place, if it has 64 bits.
    fn bit(&self, place: u64) -> Option<u64>
        ensures some { IfSome result (λ b. b ≡ bit_of self.now place) }
        ensures none { IfNone result (2 ^ 64 ≤ bit_of self.now place) }
    {
        match self.offset.checked_mul(8) {
            None => None,
            Some(start) => match start.checked_add(self.pages_before) {
                None => None,
                Some(first) => match first.checked_add(place / 4096) {
                    None => None,
                    Some(bit) => Some(bit),
                },
            },
        }
    }

    /// How many pages of the region begin at that of a place or behind it.
    fn pages_from(&self, place: u64) -> u64
        ensures { result ≡ pages_from self.now place }
    {
        self.pages.min(1 << 52).saturating_sub(place / 4096)
    }

    /// The pages of `region` in the log `object`, whose part from byte `offset` on has `log_bytes` bytes.
    ///
    /// # Errors
    /// `NotPageAligned` where the region's start or length is no multiple of 4096, then `TooSmall` where its length is
    /// 0, it passes 2^64, or its last page is not below `8 * log_bytes`.
    #[tactic(auto, unfolding(crate::specs::Bits::bitmap_answer))]
    pub fn new(
        region: &Region,
        object: u32,
        offset: u64,
        log_bytes: u64,
    ) -> Result<AtomicBitmapMmap, LogError>
        ensures { result ≡ bitmap_answer region.now object offset log_bytes }
    {
        if !is_page_aligned(region) {
            return Err(LogError::NotPageAligned);
        }
        if is_past(region, log_bytes) {
            return Err(LogError::TooSmall);
        }
        Ok(AtomicBitmapMmap {
            object,
            offset,
            pages_before: region.start / 4096,
            pages: region.len / 4096,
        })
    }

    /// Marks the pages that `len` places of the region from `offset` on meet, in the log that is lent. Places past the
    /// region, and places whose bit is past the log, are ignored.
    pub fn mark_dirty<L: DirtyLog>(&self, log: &mut L, offset: u64, len: u64)
        ensures { MarksBits (page_marks L.byte_len L.marks) log.old
            (bits_met self.now (8 * L.byte_len log.old) offset len) log.new }
    {
        let limit = 8 * log.len();
        match self.bit(offset) {
            None => {}
            Some(first) => {
                let left = limit.saturating_sub(first);
                let count = least(pages_met(offset, len), self.pages_from(offset), left);
                mark_bits(log, first, count);
            }
        }
    }

    /// Whether the page of a place of the region is marked in the log that is lent. It is not where the place is past
    /// the region or its bit past the log.
    pub fn dirty_at<L: DirtyLog>(&self, log: &mut L, offset: u64) -> bool
        ensures { ShowsBit L.loads log.old (bit_at_place self.now (8 * L.byte_len log.old) offset) result log.new }
    {
        let limit = 8 * log.len();
        match self.bit(offset) {
            None => false,
            Some(bit) => {
                if self.pages_from(offset) > 0 && bit < limit {
                    is_set(log.load(bit / 8), (bit % 8) as u32)
                } else {
                    false
                }
            }
        }
    }
}
