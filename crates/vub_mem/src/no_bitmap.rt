ghost use Rattle.std.specs.Prelude.{[], None, Err, false};
ghost use Rattle.vub_mem.specs.declared.errors.LogError.TheVariants.{Unsupported};

use crate::bitmap::{Bitmap, BitmapReplace, MemRegionBitmap};
use crate::dirty::DirtyLog;
use crate::errors::LogError;
use crate::region::Region;

/// The bitmap with no bit.
impl Bitmap for () {
    ghost bits = { λ _ _ _ _. [] };

    ghost bit = { λ _ _ _. None };

    fn mark_dirty<L: DirtyLog>(&self, _log: &mut L, _offset: u64, _len: u64) {}

    fn dirty_at<L: DirtyLog>(&self, _log: &mut L, _offset: u64) -> bool {
        false
    }

    fn slice_at(&self, _offset: u64) -> Self {}
}

/// No region has such a bitmap: `new` is always `Unsupported`.
impl MemRegionBitmap for () {
    ghost made = { λ _ _ _ _. Err Unsupported };

    fn new(_region: &Region, _object: u32, _offset: u64, _log_bytes: u64) -> Result<(), LogError> {
        Err(LogError::Unsupported)
    }
}

impl BitmapReplace for () {
    type InnerBitmap = ();

    ghost TRACKS = { false };

    const TRACKS: bool = false;

    ghost replaced = { λ s _. s };

    fn replace(&mut self, _bitmap: ()) {}
}
