// The bytes and the holes of a file in memory, as lists of cells.
ghost use Rattle.std.specs.Prelude.{◌≡◌, ◌+◌, ◌-◌, ◌*◌, ◌<◌, ◌≤◌, ◌++◌, ℕ, length, max, map, take, drop, replicate, slice_index, vec_len, OnOk, OnErr, IsOk, IfOk, true, false};
ghost use Rattle.vub_sparse.specs.Cells.{Byte, replaced, resized, written, covered, blank};
ghost use Rattle.vub_sparse.specs.Holes.{hole_bit, cells_of, Sound, Put, Marked};

use crate::holes;
use std::alloc::{AllocError, Global};

// Grows the file to `end` cells where it has fewer, with holes.
pub(crate) fn reach(bytes: &mut Vec<u8>, words: &mut Vec<u64>, end: usize) -> Result<(), AllocError>
    requires { Sound bytes.old.items words.old.items }
    ensures sound { Sound bytes.new.items words.new.items }
    ensures cells { OnOk result (cells_of bytes.new.items words.new.items ≡ resized (max (length bytes.old.items) end)
        (cells_of bytes.old.items words.old.items)) }
    ensures long { OnOk result (length bytes.new.items ≡ max (length bytes.old.items) end) }
    ensures err { OnErr result (cells_of bytes.new.items words.new.items ≡ cells_of bytes.old.items words.old.items) }
    ensures inside { end ≤ length bytes.old.items → IsOk result }
{
    let start = bytes.len();
    if end <= start {
        return Ok(());
    }
    extend_words(words, end.div_ceil(64))?;
    extend_bytes(bytes, end)?;
    mark(words, start, end, true);
    Ok(())
}

fn extend_words(words: &mut Vec<u64>, count: usize) -> Result<(), AllocError>
    ensures long { OnOk result (count ≤ length words.new.items) }
    ensures longer { length words.old.items ≤ length words.new.items }
    ensures same { (k : ℕ) → k < 64 * length words.old.items → hole_bit words.new.items k ≡ hole_bit words.old.items k }
{
    if count > words.len() {
        words.resize(count, 0)?;
    }
    Ok(())
}

fn extend_bytes(bytes: &mut Vec<u8>, end: usize) -> Result<(), AllocError>
    requires { vec_len bytes.old ≤ end }
    ensures ok { OnOk result (bytes.new.items ≡ bytes.old.items ++ replicate (end - length bytes.old.items) 0) }
    ensures err { OnErr result (bytes.new.items ≡ bytes.old.items) }
{
    bytes.resize(end, 0)
}

fn mark(words: &mut Vec<u64>, from: usize, to: usize, hole: bool)
    requires order { from ≤ to }
    requires within { to ≤ 64 * length words.old.items }
    ensures { Marked words.old.items words.new.items from to hole }
{
    holes::mark(words, from, to, hole);
}

// Writes these bytes, and grows the file to their end. Takes no memory inside the file.
pub(crate) fn write(
    bytes: &mut Vec<u8>,
    words: &mut Vec<u64>,
    offset: u64,
    piece: &[u8],
) -> Result<(), AllocError>
    requires sound { Sound bytes.old.items words.old.items }
    requires some { 0 < length piece.now }
    ensures sound { Sound bytes.new.items words.new.items }
    ensures ok { OnOk result (cells_of bytes.new.items words.new.items ≡ written offset piece.now
        (cells_of bytes.old.items words.old.items)) }
    ensures err { OnErr result (cells_of bytes.new.items words.new.items ≡ cells_of bytes.old.items words.old.items) }
    ensures inside { offset + length piece.now ≤ length bytes.old.items → IsOk result }
{
    let start = offset as usize;
    let Some(end) = start.checked_add(piece.len()) else {
        return Err(AllocError);
    };
    reach(bytes, words, end)?;
    put(bytes, words, start, piece);
    Ok(())
}

// Makes cells holes or bytes 0, and grows the file to their end. Takes no memory inside the file.
pub(crate) fn set(
    bytes: &mut Vec<u8>,
    words: &mut Vec<u64>,
    offset: u64,
    count: u64,
    hole: bool,
) -> Result<(), AllocError>
    requires sound { Sound bytes.old.items words.old.items }
    requires some { 0 < count }
    ensures sound { Sound bytes.new.items words.new.items }
    ensures ok { OnOk result (cells_of bytes.new.items words.new.items ≡ covered offset count
        (λ k. blank hole) (cells_of bytes.old.items words.old.items)) }
    ensures err { OnErr result (cells_of bytes.new.items words.new.items ≡ cells_of bytes.old.items words.old.items) }
    ensures inside { offset + count ≤ length bytes.old.items → IsOk result }
{
    let start = offset as usize;
    let Some(end) = start.checked_add(count as usize) else {
        return Err(AllocError);
    };
    reach(bytes, words, end)?;
    clear(bytes, words, start, count as usize, hole);
    Ok(())
}

// Writes these bytes over cells inside the file.
fn put(bytes: &mut Vec<u8>, words: &mut Vec<u64>, offset: usize, piece: &[u8])
    requires sound { Sound bytes.old.items words.old.items }
    requires inside { offset + length piece.now ≤ length bytes.old.items }
    ensures sound { Sound bytes.new.items words.new.items }
    ensures cells { cells_of bytes.new.items words.new.items ≡ replaced offset (length piece.now)
        (λ k. Byte (slice_index piece.now k)) (cells_of bytes.old.items words.old.items) }
{
    let end = offset + piece.len();
    copy(bytes, offset, piece);
    mark(words, offset, end, false);
}

fn copy(bytes: &mut Vec<u8>, offset: usize, piece: &[u8])
    requires { offset + length piece.now ≤ length bytes.old.items }
    ensures { Put bytes.old.items bytes.new.items offset (length piece.now) (λ k. slice_index piece.now k) }
{
    bytes[offset..offset + piece.len()].copy_from_slice(piece);
}

// Makes cells inside the file holes, or bytes 0.
fn clear(bytes: &mut Vec<u8>, words: &mut Vec<u64>, offset: usize, count: usize, hole: bool)
    requires sound { Sound bytes.old.items words.old.items }
    requires inside { offset + count ≤ length bytes.old.items }
    ensures sound { Sound bytes.new.items words.new.items }
    ensures cells { cells_of bytes.new.items words.new.items ≡ replaced offset count
        (λ k. blank hole) (cells_of bytes.old.items words.old.items) }
{
    let end = offset + count;
    zero(bytes, offset, count);
    mark(words, offset, end, hole);
}

fn zero(bytes: &mut Vec<u8>, offset: usize, count: usize)
    requires { offset + count ≤ length bytes.old.items }
    ensures { Put bytes.old.items bytes.new.items offset count (λ k. 0) }
{
    bytes[offset..offset + count].fill(0);
}

// Cuts the file, or lets it grow with holes.
pub(crate) fn resize(
    bytes: &mut Vec<u8>,
    words: &mut Vec<u64>,
    length: usize,
) -> Result<(), AllocError>
    requires { Sound bytes.old.items words.old.items }
    ensures sound { Sound bytes.new.items words.new.items }
    ensures ok { OnOk result (cells_of bytes.new.items words.new.items ≡ resized length
        (cells_of bytes.old.items words.old.items)) }
    ensures err { OnErr result (cells_of bytes.new.items words.new.items ≡ cells_of bytes.old.items words.old.items) }
{
    if length < bytes.len() {
        bytes.truncate(length);
        return Ok(());
    }
    reach(bytes, words, length)
}

// At most so many bytes from this offset on.
pub(crate) fn read(
    alloc: Global,
    bytes: &[u8],
    offset: u64,
    most: usize,
) -> Result<Vec<u8>, AllocError>
    ensures { IfOk result (λ v. v.items ≡ take most (drop offset bytes.now)) }
{
    let start = bytes.len().min(offset as usize);
    let count = most.min(bytes.len() - start);
    Vec::from_slice(alloc, &bytes[start..start + count])
}

// These bytes, with no hole.
pub(crate) fn of_bytes(alloc: Global, piece: &[u8]) -> Result<(Vec<u8>, Vec<u64>), AllocError>
    ensures sound { IfOk result (λ s. Sound s.0.items s.1.items) }
    ensures cells { IfOk result (λ s. cells_of s.0.items s.1.items ≡ map Byte piece.now) }
{
    let bytes = Vec::from_slice(alloc, piece)?;
    let mut words = Vec::new(alloc);
    extend_words(&mut words, bytes.len().div_ceil(64))?;
    mark(&mut words, 0, bytes.len(), false);
    Ok((bytes, words))
}
