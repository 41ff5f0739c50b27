ghost use Rattle.std.specs.Prelude.{◌≡◌, ◌↔◌, true, false, OnOk, OnErr, IsErrOf};
ghost use Rattle.vub_base.specs.Told.{Told};
ghost use Rattle.vub_sparse.specs.Cells.{set};
ghost use Rattle.vub_sparse.specs.Refusals.{FaultsUnless, in_range, may_allocate, punches};

use crate::error::FileError;
use crate::sparse::SparseFile;
use std::alloc::Global;

/// The greatest place in a file, `i64::MAX`.
pub(crate) const GREATEST: u64 = 0x7fff_ffff_ffff_ffff;

/// What [`fallocate`] does to a range.
#[derive(Clone, Copy, Debug, PartialEq, Eq)]
pub enum FallocateMode {
    /// The range becomes a hole.
    PunchHole,
    /// The range becomes bytes 0.
    ZeroRange,
}

/// Makes the cells of a range holes or bytes 0, as `fallocate(2)` does. With `keep_size` places past the end are left
/// out; without it the file grows to the range's end.
///
/// # Errors
/// `EINVAL` exactly where the offset, the length or their sum passes `i64::MAX`, where the length is 0, or where a hole
/// is to be punched without `keep_size`; `Failed`, counted; want of memory. Refused, nothing changes.
pub fn fallocate<F: SparseFile>(
    alloc: Global,
    file: &mut F,
    mode: FallocateMode,
    keep_size: bool,
    offset: u64,
    len: u64,
) -> Result<(), FileError>
    ensures invalid { IsErrOf result FileError.EINVAL ↔ (may_allocate mode keep_size offset len ≡ false) }
    ensures ok { OnOk result (Told (F.cells file.old) (F.cells file.new)
        (λ old new. new ≡ set offset len (punches mode) keep_size old)) }
    ensures err { OnErr result (F.cells file.new ≡ F.cells file.old) }
    ensures stays { F.cursor file.new ≡ F.cursor file.old }
    ensures faults { FaultsUnless (may_allocate mode keep_size offset len) (F.fault_count file.old)
        (F.fault_count file.new) result }
{
    let hole = mode == FallocateMode::PunchHole;
    if !is_in_range(offset, len) || (hole && !keep_size) {
        return Err(FileError::EINVAL);
    }
    file.set_cells(alloc, offset, len, hole, keep_size)
}

// the range isn't empty, and ends within the greatest place
fn is_in_range(offset: u64, len: u64) -> bool
    ensures { result ≡ in_range offset len }
{
    offset <= GREATEST && len <= GREATEST && len > 0 && len <= GREATEST - offset
}

/// Files in which holes can be punched.
pub trait PunchHole: SparseFile {
    /// Makes the cells of a range inside the file a hole, and keeps its size.
    ///
    /// # Errors
    /// `EINVAL` exactly where the offset, the length or their sum passes `i64::MAX`, or the length is 0; `Failed`,
    /// counted; want of memory. Refused, nothing changes.
    fn punch_hole(&mut self, alloc: Global, offset: u64, length: u64) -> Result<(), FileError>
        ensures invalid { IsErrOf result FileError.EINVAL ↔ (in_range offset length ≡ false) }
        ensures ok { OnOk result (Told (Self.cells self.old) (Self.cells self.new)
            (λ old new. new ≡ set offset length true true old)) }
        ensures err { OnErr result (Self.cells self.new ≡ Self.cells self.old) }
        ensures stays { Self.cursor self.new ≡ Self.cursor self.old }
        ensures faults { FaultsUnless (in_range offset length) (Self.fault_count self.old) (Self.fault_count self.new)
            result };
}

impl<F: SparseFile> PunchHole for F {
    fn punch_hole(&mut self, alloc: Global, offset: u64, length: u64) -> Result<(), FileError> {
        fallocate(alloc, self, FallocateMode::PunchHole, true, offset, length)
    }
}
