ghost use Rattle.std.specs.Prelude.{◌≡◌, ◌+◌, ◌-◌, ◌*◌, ◌/◌, ◌%◌, ◌≤◌, length, map, take, drop, true, false, IfOk};
ghost use Rattle.std.specs.List.{list_all, list_any};
ghost use Rattle.vub_sparse.specs.Cells.{Byte, is_hole};
ghost use Rattle.vub_block.specs.Disk.{AreWhole, sectors_of, blank_sectors, bytes_of, replaced, is_hole_sector};
ghost use Rattle.vub_block.specs.Answer.{erased, is_past};

use crate::erase::Erase;
use crate::request::Piece;
use crate::types::SECTOR_LEN;
use std::alloc::Global;
use std::marker::Model;
use vub_base::OutOfMemory;
use vub_sparse::{FileError, MemFile, SparseFile};

/// The sectors of a disk, kept in a sparse file of which no call fails. A contract sees a list of sectors.
#[derive(Debug, Drop)]
pub(crate) struct Sectors {
    file: MemFile,
}

impl Model for Sectors {
    ghost use Rattle.std.specs.Prelude.{List};
    ghost use Rattle.vub_sparse.specs.Cells.{Cell};
    ghost use Rattle.vub_block.specs.Disk.{sectors_of};
    ghost use Rattle.vub_block.specs.Medium.{IsMedium};

    ghost Value = { List (List Cell) };

    ghost view = { λ s. sectors_of s.file.cells };

    ghost invariant = { λ s. IsMedium s.file };
}

impl Sectors {
    /// So many sectors, all of them holes.
    ///
    /// # Errors
    /// Want of memory.
    pub(crate) fn new(alloc: Global, count: u32) -> Result<Sectors, OutOfMemory>
        requires { count ≤ 131072 }
        ensures { IfOk result (λ s. s ≡ blank_sectors count true) }
    {
        let mut file = MemFile::new(alloc);
        match file.resize(alloc, SECTOR_LEN * u64::from(count)) {
            Ok(()) => Ok(Sectors { file }),
            Err(_) => Err(OutOfMemory),
        }
    }

    /// How many sectors there are.
    pub(crate) fn count(&self) -> u64
        ensures count { result ≡ length self.now }
        ensures most { result ≤ 131072 }
        ensures whole { AreWhole self.now }
    {
        self.file.len() / SECTOR_LEN
    }

    /// The bytes of so many sectors from this one on.
    ///
    /// # Errors
    /// Want of memory.
    pub(crate) fn read(
        &mut self,
        alloc: Global,
        first: u64,
        count: u32,
    ) -> Result<Vec<u8>, OutOfMemory>
        requires { first + count ≤ length self.old }
        ensures bytes { IfOk result (λ bytes. bytes.items ≡ bytes_of first count self.old) }
        ensures long { IfOk result (λ bytes. length bytes.items ≤ 512 * count) }
        ensures kept { self.new ≡ self.old }
    {
        let len = SECTOR_LEN as usize * count as usize;
        match self.file.read_at(alloc, SECTOR_LEN * first, len) {
            Ok(bytes) => Ok(bytes),
            Err(_) => Err(OutOfMemory),
        }
    }

    /// Writes whole sectors from this one on.
    pub(crate) fn write(&mut self, alloc: Global, first: u64, payload: &[u8])
        requires whole { length payload.now % 512 ≡ 0 }
        requires within { first + length payload.now / 512 ≤ length self.old }
        ensures { self.new ≡ replaced first (sectors_of (map Byte payload.now)) self.old }
    {
        let _written = self.file.write_at(alloc, SECTOR_LEN * first, payload);
    }

    /// Makes so many sectors from this one on holes, or bytes 0.
    pub(crate) fn blank(&mut self, alloc: Global, first: u64, count: u32, hole: bool)
        requires { first + count ≤ length self.old }
        ensures { self.new ≡ replaced first (blank_sectors count hole) self.old }
    {
        let len = SECTOR_LEN * u64::from(count);
        let _done = self
            .file
            .set_cells(alloc, SECTOR_LEN * first, len, hole, true);
    }

    /// Makes the range of each piece holes or bytes 0, one after the other.
    pub(crate) fn erase(&mut self, alloc: Global, erase: Erase, pieces: &[Piece])
        requires { list_any (λ p. is_past (length self.old) p.first p.count) pieces.now ≡ false }
        ensures { self.new ≡ erased erase pieces.now self.old }
    {
        for piece in pieces {
            let hole = erase.makes_holes(*piece);
            self.blank(alloc, piece.first, piece.count, hole);
        }
    }

    /// Hands what was written to the medium, of which memory has none.
    pub(crate) fn flush(&mut self)
        ensures { self.new ≡ self.old }
    {
        let _flushed = self.file.flush();
    }

    /// Whether every cell of the sector is a hole; false past the end.
    pub(crate) fn is_hole(&self, sector: u32) -> bool
        ensures { result ≡ is_hole_sector self.now sector }
    {
        if u64::from(sector) >= self.count() {
            return false;
        }
        let first = SECTOR_LEN * u64::from(sector);
        are_holes(&self.file, first, first + SECTOR_LEN)
    }
}

/// Whether the cells of a file from one place up to another are all holes.
fn are_holes(file: &MemFile, from: u64, to: u64) -> bool
    requires { to ≤ length file.now.cells }
    ensures { result ≡ list_all is_hole (take (to - from) (drop from file.now.cells)) }
{
    for place in from..to {
        if !file.hole_at(place) {
            return false;
        }
    }
    true
}
