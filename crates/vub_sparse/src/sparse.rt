ghost use Rattle.std.specs.Prelude.{◌≡◌, ◌<◌, ◌≤◌, ℕ, List, Option, Result, Ok, IfOk, IfErr, OnOk, OnErr, IfSome, length, take, vec_len, nat_lt, ◌&&◌};
ghost use Rattle.vub_base.specs.Causes.{Rose};
ghost use Rattle.vub_base.specs.Told.{Told};
ghost use Rattle.vub_sparse.specs.Cells.{Cell, cell_at, is_hole, bytes_from, written, set, resized};
ghost use Rattle.vub_sparse.specs.Refusals.{Faults};
ghost use Rattle.vub_sparse.specs.declared.error.FileError.{FileError};

use crate::error::FileError;
use std::alloc::Global;

/// A file whose cells are bytes or holes. It has a position, and counts its faults. A refused call changes nothing
/// but that count.
pub trait SparseFile {
    // the cells, where the file tells them
    ghost cells: { Self → Option (List Cell) };

    // the position
    ghost cursor: { Self → ℕ };

    // how many of its calls failed, or wrote nothing
    ghost fault_count: { Self → ℕ };

    // what a write of this piece at this offset may answer, and the file that it leaves then
    ghost write_gives: { Self → ℕ → List ℕ → Result ℕ FileError → Self → Type 0 };

    // what a flush may answer, and the file that it leaves then
    ghost flush_gives: { Self → Result (Unit {0}) FileError → Self → Type 0 };

    // the file that a move of the position to this place leaves
    ghost move_gives: { Self → ℕ → Self → Type 0 };

    /// The number of cells.
    fn len(&self) -> u64
        ensures { IfSome (cells self.now) (λ cs. result ≡ length cs) };

    /// At most `len` bytes from `offset` on. A hole is read as 0.
    ///
    /// # Errors
    /// `Failed`, counted; want of memory.
    fn read_at(&mut self, alloc: Global, offset: u64, len: usize) -> Result<Vec<u8>, FileError>
        ensures bound { IfOk result (λ bytes. vec_len bytes ≤ len) }
        ensures bytes { IfOk result (λ bytes. IfSome (cells self.old) (λ cs. bytes.items ≡ bytes_from offset len cs)) }
        ensures kept { cells self.new ≡ cells self.old }
        ensures stays { cursor self.new ≡ cursor self.old }
        ensures faults { Faults (fault_count self.old) (fault_count self.new) result };

    /// Writes the first bytes of the piece at `offset`, and answers how many; none of a piece that isn't empty is a
    /// fault. The file grows where they end past its end; the cells between its old end and `offset` become holes. An
    /// empty piece changes nothing.
    ///
    /// # Errors
    /// `Failed`, counted; want of memory.
    fn write_at(&mut self, alloc: Global, offset: u64, bytes: &[u8]) -> Result<usize, FileError>
        ensures bound { IfOk result (λ n. n ≤ length bytes.now) }
        ensures ok { IfOk result (λ n. Told (cells self.old) (cells self.new)
            (λ old new. new ≡ written offset (take n bytes.now) old)) }
        ensures err { OnErr result (cells self.new ≡ cells self.old) }
        ensures stays { cursor self.new ≡ cursor self.old }
        ensures stalled { result ≡ Ok 0 → 0 < length bytes.now → Rose (fault_count self.old) (fault_count self.new) }
        ensures gives { write_gives self.old offset bytes.now result self.new }
        ensures faults { Faults (fault_count self.old) (fault_count self.new) result };

    /// Makes `len` cells from `offset` on holes, or bytes 0. With `keep_size` places past the end are left out; without
    /// it the file grows to the range's end, and the cells between its old end and `offset` become holes. A `len` of 0
    /// changes nothing.
    ///
    /// # Errors
    /// `Failed`, counted; want of memory.
    fn set_cells(
        &mut self,
        alloc: Global,
        offset: u64,
        len: u64,
        hole: bool,
        keep_size: bool,
    ) -> Result<(), FileError>
        ensures ok { OnOk result (Told (cells self.old) (cells self.new)
            (λ old new. new ≡ set offset len hole keep_size old)) }
        ensures err { OnErr result (cells self.new ≡ cells self.old) }
        ensures stays { cursor self.new ≡ cursor self.old }
        ensures faults { Faults (fault_count self.old) (fault_count self.new) result };

    /// Whether there is a hole at this place; `false` past the end.
    fn hole_at(&self, place: u64) -> bool
        ensures { IfSome (cells self.now) (λ cs. result ≡ (nat_lt place (length cs) && is_hole (cell_at cs place))) };

    /// The position.
    fn position(&self) -> u64
        ensures { result ≡ cursor self.now };

    /// Moves the position.
    fn set_position(&mut self, place: u64)
        ensures gives { move_gives self.old place self.new }
        ensures moved { cursor self.new ≡ place }
        ensures kept { cells self.new ≡ cells self.old }
        ensures faults { fault_count self.new ≡ fault_count self.old };

    /// Cuts the file to `len` cells, or lets it grow to them with holes.
    ///
    /// # Errors
    /// `Failed`, counted; want of memory.
    fn resize(&mut self, alloc: Global, len: u64) -> Result<(), FileError>
        ensures ok { OnOk result (Told (cells self.old) (cells self.new) (λ old new. new ≡ resized len old)) }
        ensures err { OnErr result (cells self.new ≡ cells self.old) }
        ensures stays { cursor self.new ≡ cursor self.old }
        ensures faults { Faults (fault_count self.old) (fault_count self.new) result };

    /// Hands what was written to the medium.
    ///
    /// # Errors
    /// `Failed`, counted.
    fn flush(&mut self) -> Result<(), FileError>
        ensures gives { flush_gives self.old result self.new }
        ensures kept { cells self.new ≡ cells self.old }
        ensures stays { cursor self.new ≡ cursor self.old }
        ensures failed { IfErr result (λ e. e ≡ FileError.Failed) }
        ensures faults { Faults (fault_count self.old) (fault_count self.new) result };

    /// How many of its calls failed, or wrote nothing. The count never falls.
    fn faults(&self) -> u64
        ensures { result ≡ fault_count self.now };
}
