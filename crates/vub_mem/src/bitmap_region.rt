ghost use Rattle.std.specs.Prelude.{◌≡◌, ◌+◌, ℕ, true, Some};
ghost use Rattle.vub_mem.specs.Bits.{inner_bits, inner_bit, bitmap_answer, sliced};

use crate::bitmap::{Bitmap, BitmapReplace, MemRegionBitmap};
use crate::dirty::DirtyLog;
use crate::errors::LogError;
use crate::region::{AtomicBitmapMmap, Region};

impl MemRegionBitmap for AtomicBitmapMmap {
    ghost made = { bitmap_answer };

    fn new(
        region: &Region,
        object: u32,
        offset: u64,
        log_bytes: u64,
    ) -> Result<AtomicBitmapMmap, LogError> {
        AtomicBitmapMmap::new(region, object, offset, log_bytes)
    }
}

/// The bitmap of a region, if it has a log, from a place of the region on. (`BitmapMmapRegion` of the Rust crate
/// `vhost-user-backend`.)
#[derive(Clone, Copy, Debug, Default, PartialEq, Eq)]
pub struct BitmapMmapRegion {
    /// The bitmap of the whole region.
    pub inner: Option<AtomicBitmapMmap>,
    /// The place of the region that is place 0 here.
    pub base: u64,
}

impl Bitmap for BitmapMmapRegion {
    ghost bits = { λ b limit place n. inner_bits b.inner limit (b.base + place) n };

    ghost bit = { λ b limit place. inner_bit b.inner limit (b.base + place) };

    fn mark_dirty<L: DirtyLog>(&self, log: &mut L, offset: u64, len: u64) {
        match self.inner {
            None => {}
            Some(bitmap) => match self.base.checked_add(offset) {
                None => {}
                Some(place) => bitmap.mark_dirty(log, place, len),
            },
        }
    }

    fn dirty_at<L: DirtyLog>(&self, log: &mut L, offset: u64) -> bool {
        match self.inner {
            None => false,
            Some(bitmap) => match self.base.checked_add(offset) {
                None => false,
                Some(place) => bitmap.dirty_at(log, place),
            },
        }
    }

    /// Past place 2^64 - 1 there is no place: the slice has no bit then, and its base is 2^64 - 1.
    fn slice_at(&self, offset: u64) -> Self
        ensures value { result ≡ sliced self.now offset }
        ensures bits { (limit place n : ℕ)
            → inner_bits result.inner limit (result.base + place) n ≡ inner_bits self.now.inner limit
            (self.now.base + (offset + place)) n }
        ensures bit { (limit place : ℕ) → inner_bit result.inner limit (result.base + place) ≡ inner_bit
            self.now.inner limit (self.now.base + (offset + place)) }
    {
        match self.base.checked_add(offset) {
            None => BitmapMmapRegion {
                inner: None,
                base: u64::MAX,
            },
            Some(base) => BitmapMmapRegion { base, ..*self },
        }
    }
}

impl BitmapReplace for BitmapMmapRegion {
    type InnerBitmap = AtomicBitmapMmap;

    ghost TRACKS = { true };

    const TRACKS: bool = true;

    ghost replaced = { λ b bitmap. record b { inner = Some bitmap } };

    fn replace(&mut self, bitmap: AtomicBitmapMmap) {
        self.inner = Some(bitmap);
    }
}
