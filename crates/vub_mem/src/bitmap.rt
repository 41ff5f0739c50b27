ghost use Rattle.std.specs.Prelude.{◌≡◌, ◌+◌, ◌*◌, ℕ, List, Bool, Option, Result};
ghost use Rattle.vub_mem.specs.Bits.{MarksBits, ShowsBit};
ghost use Rattle.vub_mem.specs.Marks.{page_marks};
ghost use Rattle.vub_mem.specs.declared.errors.LogError.{LogError};
ghost use Rattle.vub_mem.specs.declared.region.Region.{Region};

use crate::dirty::DirtyLog;
use crate::errors::LogError;
use crate::region::Region;

/// Which bits of a log stand for the places of a region. (`Bitmap` of the Rust crate `vm-memory`; the log is lent.)
pub trait Bitmap {
    // the bits that a range of places meets, of a log with this many bits
    ghost bits: { Self → ℕ → ℕ → ℕ → List ℕ };

    // the bit of a place, of a log with this many bits
    ghost bit: { Self → ℕ → ℕ → Option ℕ };

    /// Marks the pages that `len` places from `offset` on meet. Places without a bit are ignored.
    fn mark_dirty<L: DirtyLog>(&self, log: &mut L, offset: u64, len: u64)
        ensures { MarksBits (page_marks L.byte_len L.marks) log.old
            (bits self.now (8 * L.byte_len log.old) offset len) log.new };

    /// Whether the page of a place is marked. It is not where the place has no bit.
    fn dirty_at<L: DirtyLog>(&self, log: &mut L, offset: u64) -> bool
        ensures { ShowsBit L.loads log.old (bit self.now (8 * L.byte_len log.old) offset) result log.new };

    /// The bitmap whose place `p` is place `offset + p` of this one.
    fn slice_at(&self, offset: u64) -> Self
        ensures bits { (limit place n : ℕ) → bits result limit place n ≡ bits self.now limit (offset + place) n }
        ensures bit { (limit place : ℕ) → bit result limit place ≡ bit self.now limit (offset + place) };
}

/// A bitmap that can be made for a region and a log. (`MemRegionBitmap` of the Rust crate `vhost-user-backend`.)
pub trait MemRegionBitmap {
    // the bitmap of a region in a log, from a byte of it on, of this many bytes
    ghost made: { Region → ℕ → ℕ → ℕ → Result Self LogError };

    /// The bitmap of `region` in the log `object`, whose part from byte `offset` on has `log_bytes` bytes.
    ///
    /// # Errors
    /// As the implementation says.
    fn new(region: &Region, object: u32, offset: u64, log_bytes: u64) -> Result<Self, LogError>
        ensures { result ≡ made region.now object offset log_bytes };
}

/// A bitmap that is replaced when a log comes. (`BitmapReplace` of the Rust crate `vhost-user-backend`.)
pub trait BitmapReplace: Bitmap {
    /// The bitmap of one region.
    type InnerBitmap: MemRegionBitmap;

    ghost TRACKS: { Bool };

    /// Whether dirty pages are tracked at all.
    const TRACKS: bool;

    // the bitmap with this one in the place of its own
    ghost replaced: { Self → Self.InnerBitmap → Self };

    /// Puts `bitmap` in the place of the bitmap that was.
    fn replace(&mut self, bitmap: Self::InnerBitmap)
        ensures { self.new ≡ replaced self.old bitmap };
}
