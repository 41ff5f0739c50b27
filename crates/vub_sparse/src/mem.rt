ghost use Rattle.std.specs.Prelude.{◌≡◌, ◌↔◌, ◌+◌, ◌-◌, ◌<◌, ◌≤◌, ◌||◌, ◌&&◌, if◌then◌else◌, ℕ, [], true, false, length, map, take, min, nat_lt, vec_len, IfOk, IfErr, IfSome, IfNone, OnOk, OnErr, IsOk, IsErrOf};
ghost use Rattle.vub_sparse.specs.Cells.{Byte, cell_at, is_hole, byte_of, bytes_from, written, covered, set, inside, resized};
ghost use Rattle.vub_sparse.specs.Memory.{fails, stalls, Called, Writes, Flushes};
ghost use Rattle.vub_sparse.specs.Refusals.{Faults};
ghost use Rattle.vub_base.specs.Causes.{Rose};

use crate::error::FileError;
use crate::sparse::SparseFile;
use crate::{holes, store};
use std::alloc::{AllocError, Global};
use std::marker::Model;

// What a write does.
#[derive(Clone, Copy, PartialEq, Eq)]
enum Turn {
    Fails,
    Stalls,
    Goes,
}

/// A sparse file in memory: a block of bytes, and one bit a byte that says whether it is a hole. It is always
/// writable, and writes whole pieces. For tests it fails at listed calls, and at listed ones of `write_at` it writes
/// nothing; both lists number the calls that answer a `Result`, from 0, and a call on both fails.
#[derive(Debug, Drop)]
pub struct MemFile {
    bytes: Vec<u8>,
    words: Vec<u64>,
    cursor: u64,
    faults: u64,
    calls: u64,
    failing: Vec<u64>,
    stalling: Vec<u64>,
}

impl Model for MemFile {
    ghost use Rattle.vub_sparse.specs.Memory.{MemState};
    ghost use Rattle.vub_sparse.specs.Holes.{cells_of, Sound};

    ghost Value = { MemState };

    ghost view = { λ f. record {
      cells = cells_of f.bytes.items f.words.items;
      cursor = f.cursor;
      faults = f.faults;
      calls = f.calls;
      failing = f.failing.items;
      stalling = f.stalling.items;
    } };

    ghost invariant = { λ f. Sound f.bytes.items f.words.items };
}

impl MemFile {
    ghost use Rattle.std.specs.Bool.{OnTrue};

    /// An empty file, of which no call fails. Takes no memory.
    pub fn new(alloc: Global) -> MemFile
        ensures cells { result.cells ≡ [] }
        ensures counts { (result.cursor ≡ 0) × (result.faults ≡ 0) × (result.calls ≡ 0) }
        ensures lists { (result.failing ≡ []) × (result.stalling ≡ []) }
    {
        MemFile {
            bytes: Vec::new(alloc),
            words: Vec::new(alloc),
            cursor: 0,
            faults: 0,
            calls: 0,
            failing: Vec::new(alloc),
            stalling: Vec::new(alloc),
        }
    }

    /// A file with these bytes, whose calls with the numbers in `failing` fail, and whose `write_at` with the numbers
    /// in `stalling` writes nothing.
    ///
    /// # Errors
    /// Want of memory.
    pub fn from_slice(
        alloc: Global,
        bytes: &[u8],
        failing: Vec<u64>,
        stalling: Vec<u64>,
    ) -> Result<MemFile, AllocError>
        ensures cells { IfOk result (λ f. f.cells ≡ map Byte bytes.now) }
        ensures counts { IfOk result (λ f. (f.cursor ≡ 0) × (f.faults ≡ 0) × (f.calls ≡ 0)) }
        ensures lists { IfOk result (λ f. (f.failing ≡ failing.items) × (f.stalling ≡ stalling.items)) }
    {
        let (bytes, words) = store::of_bytes(alloc, bytes)?;
        Ok(MemFile {
            bytes,
            words,
            cursor: 0,
            faults: 0,
            calls: 0,
            failing,
            stalling,
        })
    }

    // counts a call, and whether it fails
    fn begins(&mut self) -> bool
        ensures fails { result ≡ fails self.old }
        ensures called { Called self.old self.new (fails self.old) }
        ensures kept { self.new.cells ≡ self.old.cells }
        ensures later { self.old.faults ≤ self.new.faults }
        ensures rose { OnTrue result (Rose self.old.faults self.new.faults) }
    {
        let failed = self.failing.contains(&self.calls);
        self.calls = self.calls.saturating_add(1);
        if failed {
            self.faults = self.faults.saturating_add(1);
        }
        failed
    }

    // counts a write, and whether it fails or writes nothing
    fn begins_write(&mut self) -> Turn
        ensures turn { result ≡ (if fails self.old then Turn.Fails
            else (if stalls self.old then Turn.Stalls else Turn.Goes)) }
        ensures called { Called self.old self.new (fails self.old || stalls self.old) }
        ensures kept { self.new.cells ≡ self.old.cells }
        ensures later { self.old.faults ≤ self.new.faults }
        ensures failed { result ≡ Turn.Fails → Rose self.old.faults self.new.faults }
        ensures stalled { result ≡ Turn.Stalls → Rose self.old.faults self.new.faults }
    {
        let stalled = self.stalling.contains(&self.calls);
        if self.begins() {
            return Turn::Fails;
        }
        if stalled {
            self.faults = self.faults.saturating_add(1);
            return Turn::Stalls;
        }
        Turn::Goes
    }
}

impl SparseFile for MemFile {
    ghost use Rattle.std.specs.Prelude.{Some};

    ghost cells = { λ f. Some f.cells };

    ghost cursor = { λ f. f.cursor };

    ghost fault_count = { λ f. f.faults };

    ghost write_gives = { Writes };

    ghost flush_gives = { Flushes };

    ghost move_gives = { λ old place new. new ≡ record old { cursor = place } };

    fn len(&self) -> u64 {
        self.bytes.as_slice().len() as u64
    }

    fn read_at(&mut self, alloc: Global, offset: u64, len: usize) -> Result<Vec<u8>, FileError>
        ensures bound { IfOk result (λ bytes. vec_len bytes ≤ len) }
        ensures bytes { IfOk result (λ bytes. bytes.items ≡ bytes_from offset len self.old.cells) }
        ensures kept { self.new.cells ≡ self.old.cells }
        ensures fails { IsErrOf result FileError.Failed ↔ (fails self.old ≡ true) }
        ensures called { Called self.old self.new (fails self.old) }
        ensures faults { Faults self.old.faults self.new.faults result }
    {
        if self.begins() {
            return Err(FileError::Failed);
        }
        Ok(store::read(alloc, self.bytes.as_slice(), offset, len)?)
    }

    fn write_at(&mut self, _alloc: Global, offset: u64, bytes: &[u8]) -> Result<usize, FileError>
        ensures ok { IfOk result (λ n. self.new.cells ≡ written offset (take n bytes.now) self.old.cells) }
        ensures err { OnErr result (self.new.cells ≡ self.old.cells) }
        ensures inside { fails self.old ≡ false → offset + length bytes.now ≤ length self.old.cells → IsOk result }
        ensures gives { Writes self.old offset bytes.now result self.new }
        ensures faults { Faults self.old.faults self.new.faults result }
    {
        match self.begins_write() {
            Turn::Fails => return Err(FileError::Failed),
            Turn::Stalls => return Ok(0),
            Turn::Goes => {}
        }
        if bytes.is_empty() {
            return Ok(0);
        }
        store::write(&mut self.bytes, &mut self.words, offset, bytes)?;
        Ok(bytes.len())
    }

    fn set_cells(
        &mut self,
        _alloc: Global,
        offset: u64,
        len: u64,
        hole: bool,
        keep_size: bool,
    ) -> Result<(), FileError>
        ensures ok { OnOk result (self.new.cells ≡ set offset len hole keep_size self.old.cells) }
        ensures err { OnErr result (self.new.cells ≡ self.old.cells) }
        ensures inside { fails self.old ≡ false → offset + len ≤ length self.old.cells → IsOk result }
        ensures fails { IsErrOf result FileError.Failed ↔ (fails self.old ≡ true) }
        ensures called { Called self.old self.new (fails self.old) }
        ensures faults { Faults self.old.faults self.new.faults result }
    {
        if self.begins() {
            return Err(FileError::Failed);
        }
        let count = range_within(self.len(), offset, len, keep_size);
        if count == 0 {
            return Ok(());
        }
        store::set(&mut self.bytes, &mut self.words, offset, count, hole)?;
        Ok(())
    }

    fn hole_at(&self, place: u64) -> bool {
        place < self.len() && holes::is_hole(self.words.as_slice(), place as usize)
    }

    fn position(&self) -> u64 {
        self.cursor
    }

    fn set_position(&mut self, place: u64)
        ensures { self.new ≡ record self.old { cursor = place } }
    {
        self.cursor = place;
    }

    fn resize(&mut self, _alloc: Global, len: u64) -> Result<(), FileError>
        ensures ok { OnOk result (self.new.cells ≡ resized len self.old.cells) }
        ensures err { OnErr result (self.new.cells ≡ self.old.cells) }
        ensures fails { IsErrOf result FileError.Failed ↔ (fails self.old ≡ true) }
        ensures called { Called self.old self.new (fails self.old) }
        ensures faults { Faults self.old.faults self.new.faults result }
    {
        if self.begins() {
            return Err(FileError::Failed);
        }
        store::resize(&mut self.bytes, &mut self.words, len as usize)?;
        Ok(())
    }

    fn flush(&mut self) -> Result<(), FileError>
        ensures gives { Flushes self.old result self.new }
        ensures failed { IfErr result (λ e. e ≡ FileError.Failed) }
        ensures faults { Faults self.old.faults self.new.faults result }
    {
        if self.begins() {
            return Err(FileError::Failed);
        }
        Ok(())
    }

    fn faults(&self) -> u64 {
        self.faults
    }
}

// How much of a range is to be set: all of it, or what lies inside the file.
fn range_within(length: u64, offset: u64, count: u64, keep_size: bool) -> u64
    ensures { result ≡ (if keep_size then inside length offset count else count) }
{
    if keep_size {
        count.min(length.saturating_sub(offset))
    } else {
        count
    }
}
