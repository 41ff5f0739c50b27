ghost use Rattle.std.specs.Prelude.{◌≡◌, ◌↔◌, ◌<◌, ◌≤◌, ◌+◌, ◌^◌, ℕ, nat_le, true, length, slice_index, replicate, IfOk, IfErr, OnOk, OnErr, IsErrOf};
ghost use Rattle.vub_base.specs.Causes.{Rose};
ghost use Rattle.vub_base.specs.Told.{Told};
ghost use Rattle.vub_sparse.specs.Cells.{zeroed};
ghost use Rattle.vub_sparse.specs.Refusals.{greatest, FaultsUnless, FaultsOrStalls};
ghost use Rattle.vub_sparse.specs.Zeroing.{Answers, Zeroes, ZeroesUpTo, Refuses, StreamsUpTo, Streams, RefusesStream};

use crate::allocate::GREATEST;
use crate::error::FileError;
use crate::sparse::SparseFile;
use std::alloc::Global;

// as many zero bytes as one write is handed
const PIECE: usize = 0x1000;

static ZEROES: [u8; PIECE] = [0; PIECE];

/// Files in which zeroes can be written at any offset.
pub trait WriteZeroesAt: SparseFile {
    /// Writes `length` zero bytes at `offset`, and answers how many were written: fewer only where a write wrote
    /// nothing, which the file counted. The file grows where they end past its end.
    ///
    /// # Errors
    /// `EINVAL` exactly where the end passes `i64::MAX`, and then nothing changes; `Failed`, counted, or want of
    /// memory, which leave what the writes before wrote.
    fn write_zeroes_at(
        &mut self,
        alloc: Global,
        offset: u64,
        length: usize,
    ) -> Result<usize, FileError>
        ensures invalid { IsErrOf result FileError.EINVAL ↔ (greatest < offset + length) }
        ensures bound { IfOk result (λ n. n ≤ length) }
        ensures short { IfOk result (λ n. n < length → Rose (Self.fault_count self.old) (Self.fault_count self.new)) }
        ensures ok { IfOk result (λ n. Told (Self.cells self.old) (Self.cells self.new)
            (λ old new. new ≡ zeroed offset n old)) }
        ensures err { OnErr result ((n : ℕ) × (n ≤ length)
            × Told (Self.cells self.old) (Self.cells self.new) (λ old new. new ≡ zeroed offset n old)) }
        ensures unchanged { IsErrOf result FileError.EINVAL → Self.cells self.new ≡ Self.cells self.old }
        ensures stays { Self.cursor self.new ≡ Self.cursor self.old }
        ensures writes { IfOk result (λ n. ZeroesUpTo Self.write_gives offset self.old length n self.new) }
        ensures refused { IfErr result (λ e. Refuses Self.write_gives offset self.old length e self.new) }
        ensures faults { FaultsUnless (nat_le (offset + length) greatest) (Self.fault_count self.old)
            (Self.fault_count self.new) result };

    /// Writes `length` zero bytes at `offset`. The file grows where they end past its end.
    ///
    /// # Errors
    /// As [`WriteZeroesAt::write_zeroes_at`]; `WriteZero` where a write wrote nothing, which the file counted.
    fn write_all_zeroes_at(
        &mut self,
        alloc: Global,
        offset: u64,
        length: usize,
    ) -> Result<(), FileError>
        ensures invalid { IsErrOf result FileError.EINVAL ↔ (greatest < offset + length) }
        ensures ok { OnOk result (Told (Self.cells self.old) (Self.cells self.new)
            (λ old new. new ≡ zeroed offset length old)) }
        ensures err { OnErr result ((n : ℕ) × (n ≤ length)
            × Told (Self.cells self.old) (Self.cells self.new) (λ old new. new ≡ zeroed offset n old)) }
        ensures unchanged { IsErrOf result FileError.EINVAL → Self.cells self.new ≡ Self.cells self.old }
        ensures stays { Self.cursor self.new ≡ Self.cursor self.old }
        ensures writes { OnOk result (Zeroes Self.write_gives offset self.old length self.new) }
        ensures refused { IfErr result (λ e. Refuses Self.write_gives offset self.old length e self.new) }
        ensures faults { FaultsOrStalls (nat_le (offset + length) greatest) (Self.fault_count self.old)
            (Self.fault_count self.new) result };
}

impl<F: SparseFile> WriteZeroesAt for F {
    fn write_zeroes_at(
        &mut self,
        alloc: Global,
        offset: u64,
        length: usize,
    ) -> Result<usize, FileError> {
        if offset > GREATEST || length as u64 > GREATEST - offset {
            return Err(FileError::EINVAL);
        }
        let mut done = 0;
        while done < length {
            let count = write_piece(alloc, self, offset + done as u64, length - done)?;
            if count == 0 {
                break;
            }
            done += count;
        }
        Ok(done)
    }

    fn write_all_zeroes_at(
        &mut self,
        alloc: Global,
        offset: u64,
        length: usize,
    ) -> Result<(), FileError> {
        let count = self.write_zeroes_at(alloc, offset, length)?;
        if count < length {
            return Err(FileError::WriteZero);
        }
        Ok(())
    }
}

// one write of zero bytes
fn write_piece<F: SparseFile>(
    alloc: Global,
    file: &mut F,
    offset: u64,
    most: usize,
) -> Result<usize, FileError>
    requires { 0 < most }
    ensures bound { IfOk result (λ n. n ≤ most) }
    ensures ok { IfOk result (λ n. Told (F.cells file.old) (F.cells file.new) (λ old new. new ≡ zeroed offset n old)) }
    ensures err { OnErr result (F.cells file.new ≡ F.cells file.old) }
    ensures stays { F.cursor file.new ≡ F.cursor file.old }
    ensures stalled { IfOk result (λ n. n ≡ 0 → Rose (F.fault_count file.old) (F.fault_count file.new)) }
    ensures gives { Answers F.write_gives offset file.old result file.new }
    ensures faults { FaultsUnless true (F.fault_count file.old) (F.fault_count file.new) result }
{
    let piece = zero_piece(most.min(PIECE));
    file.write_at(alloc, offset, piece)
}

// so many zero bytes
fn zero_piece(count: usize) -> &'static [u8]
    requires { count ≤ 4096 }
    ensures long { length result.now ≡ count }
    ensures zeroes { (k : ℕ) → k < count → slice_index result.now k ≡ 0 }
    ensures piece { result.now ≡ replicate count 0 }
{
    &ZEROES[..count]
}

/// Files in which zeroes can be written at the position, which moves by the bytes written.
pub trait WriteZeroes: SparseFile {
    /// Writes `length` zero bytes at the position, and answers how many were written: fewer only where a write wrote
    /// nothing, which the file counted. The position moves by them.
    ///
    /// # Errors
    /// As [`WriteZeroesAt::write_zeroes_at`]. The position has not moved.
    fn write_zeroes(&mut self, alloc: Global, length: usize) -> Result<usize, FileError>
        ensures invalid { IsErrOf result FileError.EINVAL ↔ (greatest < Self.cursor self.old + length) }
        ensures bound { IfOk result (λ n. n ≤ length) }
        ensures short { IfOk result (λ n. n < length → Rose (Self.fault_count self.old) (Self.fault_count self.new)) }
        ensures ok { IfOk result (λ n. Told (Self.cells self.old) (Self.cells self.new)
            (λ old new. new ≡ zeroed (Self.cursor self.old) n old)) }
        ensures moved { IfOk result (λ n. Self.cursor self.new ≡ Self.cursor self.old + n) }
        ensures err { OnErr result ((n : ℕ) × (n ≤ length)
            × Told (Self.cells self.old) (Self.cells self.new) (λ old new. new ≡ zeroed (Self.cursor self.old) n old)
            × (Self.cursor self.old ≤ Self.cursor self.new) × (Self.cursor self.new ≤ Self.cursor self.old + n)) }
        ensures unchanged { IsErrOf result FileError.EINVAL → (Self.cells self.new ≡ Self.cells self.old)
            × (Self.cursor self.new ≡ Self.cursor self.old) }
        ensures writes { IfOk result (λ n.
            StreamsUpTo Self.write_gives Self.move_gives (Self.cursor self.old) self.old length n self.new) }
        ensures refused { IfErr result (λ e.
            Refuses Self.write_gives (Self.cursor self.old) self.old length e self.new) }
        ensures faults { FaultsUnless (nat_le (Self.cursor self.old + length) greatest) (Self.fault_count self.old)
            (Self.fault_count self.new) result };

    /// Writes `length` zero bytes at the position, which moves by them.
    ///
    /// # Errors
    /// As [`WriteZeroes::write_zeroes`]; `WriteZero` where a write wrote nothing, which the file counted. Then the
    /// position has moved by what was written.
    fn write_all_zeroes(&mut self, alloc: Global, length: usize) -> Result<(), FileError>
        ensures invalid { IsErrOf result FileError.EINVAL ↔ (greatest < Self.cursor self.old + length) }
        ensures ok { OnOk result (Told (Self.cells self.old) (Self.cells self.new)
            (λ old new. new ≡ zeroed (Self.cursor self.old) length old)) }
        ensures moved { OnOk result (Self.cursor self.new ≡ Self.cursor self.old + length) }
        ensures err { OnErr result ((n : ℕ) × (n ≤ length)
            × Told (Self.cells self.old) (Self.cells self.new) (λ old new. new ≡ zeroed (Self.cursor self.old) n old)
            × (Self.cursor self.old ≤ Self.cursor self.new) × (Self.cursor self.new ≤ Self.cursor self.old + n)) }
        ensures unchanged { IsErrOf result FileError.EINVAL → (Self.cells self.new ≡ Self.cells self.old)
            × (Self.cursor self.new ≡ Self.cursor self.old) }
        ensures writes { OnOk result
            (Streams Self.write_gives Self.move_gives (Self.cursor self.old) self.old length self.new) }
        ensures refused { IfErr result (λ e.
            RefusesStream Self.write_gives Self.move_gives (Self.cursor self.old) self.old length e self.new) }
        ensures faults { FaultsOrStalls (nat_le (Self.cursor self.old + length) greatest) (Self.fault_count self.old)
            (Self.fault_count self.new) result };
}

impl<F: SparseFile> WriteZeroes for F {
    fn write_zeroes(&mut self, alloc: Global, length: usize) -> Result<usize, FileError> {
        let offset = self.position();
        let count = self.write_zeroes_at(alloc, offset, length)?;
        self.set_position(offset + count as u64);
        Ok(count)
    }

    fn write_all_zeroes(&mut self, alloc: Global, length: usize) -> Result<(), FileError> {
        let count = self.write_zeroes(alloc, length)?;
        if count < length {
            return Err(FileError::WriteZero);
        }
        Ok(())
    }
}
