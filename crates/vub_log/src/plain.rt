ghost use Rattle.std.specs.Prelude.{◌≡◌, ◌↔◌, ◌⊎◌, ◌*◌, ◌/◌, ◌%◌, ◌^◌, ◌<◌, ◌≤◌, length, map, Some, IfOk, IfErr};
ghost use Rattle.std.specs.List.{range_with_len};
ghost use Rattle.vub_log.specs.Plain.{fresh, byte_of, byte_in, bytes_of, harvest_count, told_bits, IsMark, IsHarvest};

use std::alloc::Global;
use std::marker::Model;
use vub_base::{Bytes, OutOfMemory};
use vub_mem::{DirtyLog, HarvestLog, LogError};

/// A log of dirty pages in plain memory, which one owner marks, reads and harvests. It tells its words and how often
/// each was harvested.
#[derive(Drop)]
pub struct PlainLog {
    len: u64,
    words: Vec<u32>,
    counts: Vec<u32>,
}

impl Model for PlainLog {
    ghost use Rattle.vub_log.specs.Plain.{Plain};

    ghost Value = { Plain };

    ghost use Rattle.vub_log.specs.View.{plain_view, IsPlain};

    ghost view = { plain_view };

    ghost invariant = { IsPlain };
}

/// Byte `byte` of these words, which are little-endian.
fn byte_at(words: &[u32], byte: u64) -> u8
    requires { byte / 4 < length words.now }
    ensures { result ≡ byte_in words.now byte }
{
    let word = words[(byte / 4) as usize];
    ((word >> (8 * (byte % 4)) as u32) % 256) as u8
}

/// The first `len` bytes of these words.
fn bytes_in(alloc: Global, words: &[u32], len: u64) -> Result<Vec<u8>, OutOfMemory>
    requires { len ≤ 4 * length words.now }
    ensures { IfOk result (λ bytes. bytes.items ≡ map (λ n. byte_in words.now n) (range_with_len 0 len)) }
{
    let mut bytes = Vec::with_capacity(alloc, len as usize)?;
    for byte in 0..len {
        bytes.push(byte_at(words, byte))?;
    }
    Ok(bytes)
}

impl PlainLog {
    /// A log of `len` bytes, in which no page is marked and no word was harvested.
    ///
    /// # Errors
    /// `EmptyLog` exactly where `len` is 0. `OutOfMemory` from 2^61 bytes on, and for want of memory.
    pub fn new(alloc: Global, len: u64) -> Result<PlainLog, LogError>
        ensures ok { IfOk result (λ log. log ≡ fresh len) }
        ensures empty { (result ≡ Err LogError.EmptyLog) ↔ (len ≡ 0) }
        ensures large { 2 ^ 61 ≤ len → result ≡ Err LogError.OutOfMemory }
        ensures only { IfErr result (λ e. (e ≡ LogError.EmptyLog) ⊎ (e ≡ LogError.OutOfMemory)) }
    {
        if len == 0 {
            return Err(LogError::EmptyLog);
        }
        if len >= 1 << 61 {
            return Err(LogError::OutOfMemory);
        }
        let count = ((len + 3) / 4) as usize;
        let Ok(words) = vec![in alloc; 0u32; count] else {
            return Err(LogError::OutOfMemory);
        };
        let Ok(counts) = vec![in alloc; 0u32; count] else {
            return Err(LogError::OutOfMemory);
        };
        Ok(PlainLog { len, words, counts })
    }

    /// The bytes of the log: page `p` is bit `p % 8` of byte `p / 8`.
    ///
    /// # Errors
    /// Want of memory.
    pub fn to_bytes(&self, alloc: Global) -> Result<Bytes, OutOfMemory>
        ensures { IfOk result (λ bytes. bytes ≡ bytes_of self.now) }
    {
        let bytes = bytes_in(alloc, self.words.as_slice(), self.len)?;
        Ok(Bytes::from_vec(bytes))
    }
}

impl DirtyLog for PlainLog {
    ghost byte_len = { λ log. log.len };

    ghost log_bits = { λ log. Some (told_bits log) };

    ghost marks = { IsMark };

    ghost loads = { λ old byte bits new. (bits ≡ byte_of old byte) × (new ≡ old) };

    ghost use Rattle.vub_log.specs.Tells.{told_mark, told_load};

    ghost marks_its_page = { told_mark };

    ghost loads_its_byte = { told_load };

    fn len(&self) -> u64 {
        self.len
    }

    fn mark(&mut self, page: u64) {
        let word = (page / 32) as usize;
        self.words[word] |= 1 << (page % 32) as u32;
    }

    fn load(&mut self, byte: u64) -> u8 {
        byte_at(self.words.as_slice(), byte)
    }
}

impl HarvestLog for PlainLog {
    ghost harvests = { IsHarvest };

    ghost spent = { λ log word. harvest_count log word ≡ 4294967295 };

    ghost use Rattle.vub_log.specs.Tells.{told_harvest, told_spent};

    ghost harvests_its_word = { told_harvest };

    ghost spends_its_word = { told_spent };

    fn harvest(&mut self, word: u64) -> Result<u32, LogError> {
        let place = word as usize;
        let count = self.counts[place];
        if count == u32::MAX {
            return Err(LogError::GenerationsSpent);
        }
        let bits = self.words[place];
        self.words[place] = 0;
        self.counts[place] = count + 1;
        Ok(bits)
    }
}
