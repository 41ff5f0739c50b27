ghost use Rattle.std.specs.Prelude.{◌≡◌, OnOk, OnErr, IfErr};
ghost use Rattle.vub_base.specs.Told.{Told};
ghost use Rattle.vub_sparse.specs.Cells.{resized};
ghost use Rattle.vub_sparse.specs.Refusals.{Faults};

use crate::error::FileError;
use crate::sparse::SparseFile;
use std::alloc::Global;

/// Files that can hand what was written to the medium.
pub trait FileSync: SparseFile {
    /// Hands what was written to the medium, as [`SparseFile::flush`] does.
    ///
    /// # Errors
    /// `Failed`, counted.
    fn fsync(&mut self) -> Result<(), FileError>
        ensures flushes { Self.flush_gives self.old result self.new }
        ensures kept { Self.cells self.new ≡ Self.cells self.old }
        ensures stays { Self.cursor self.new ≡ Self.cursor self.old }
        ensures failed { IfErr result (λ e. e ≡ FileError.Failed) }
        ensures faults { Faults (Self.fault_count self.old) (Self.fault_count self.new) result };
}

impl<F: SparseFile> FileSync for F {
    fn fsync(&mut self) -> Result<(), FileError> {
        self.flush()
    }
}

/// Files whose length can be set.
pub trait FileSetLen: SparseFile {
    /// Cuts the file to `len` cells, or lets it grow to them with holes.
    ///
    /// # Errors
    /// `Failed`, counted; want of memory. Refused, nothing changes.
    fn set_len(&mut self, alloc: Global, len: u64) -> Result<(), FileError>
        ensures ok { OnOk result (Told (Self.cells self.old) (Self.cells self.new) (λ old new. new ≡ resized len old)) }
        ensures err { OnErr result (Self.cells self.new ≡ Self.cells self.old) }
        ensures stays { Self.cursor self.new ≡ Self.cursor self.old }
        ensures faults { Faults (Self.fault_count self.old) (Self.fault_count self.new) result };
}

impl<F: SparseFile> FileSetLen for F {
    fn set_len(&mut self, alloc: Global, len: u64) -> Result<(), FileError> {
        self.resize(alloc, len)
    }
}
