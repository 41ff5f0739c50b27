ghost use Rattle.std.specs.Prelude.{◌≤◌, ◌<◌, length};

use crate::source::{Source, SourceError};
use std::alloc::Global;
use vub_base::Bytes;

/// A source in memory, which tells its bytes and fails at the calls that it was told to fail at.
#[derive(Debug, Drop)]
pub struct MemSource {
    bytes: Vec<u8>,
    // how many bytes were read
    at: usize,
    // the greatest number of bytes that a read gives
    piece: usize,
    // the numbers of the reads that fail, from 0
    failing: Vec<u64>,
    // how many reads there were; it stays at 2^64 - 1
    calls: u64,
    ended: bool,
    faults: u64,
    ghost within: { at ≤ length bytes.items },
    ghost moves: { 0 < piece },
}

impl MemSource {
    ghost use Rattle.std.specs.Prelude.{◌≡◌, false};
    ghost use Rattle.vub_stream.specs.SourceInMemory.{unread};

    /// A source of these bytes, of which a read gives at most `piece`. The reads whose numbers, from 0, are in
    /// `failing` fail. Takes no memory.
    pub fn new(bytes: Vec<u8>, piece: usize, failing: Vec<u64>) -> MemSource
        requires { 0 < piece }
        ensures bytes { unread result ≡ bytes.items }
        ensures piece { result.piece ≡ piece }
        ensures failing { result.failing.items ≡ failing.items }
        ensures calls { result.calls ≡ 0 }
        ensures faults { result.faults ≡ 0 }
        ensures begins { result.ended ≡ false }
    {
        MemSource {
            bytes,
            at: 0,
            piece,
            failing,
            calls: 0,
            ended: false,
            faults: 0,
        }
    }
}

impl Source for MemSource {
    ghost use Rattle.std.specs.Prelude.{◌≡◌, [], true, take, min, Some, Err, IfOk, IsTrue};
    ghost use Rattle.vub_base.specs.Causes.{is_listed, HasCause};
    ghost use Rattle.vub_stream.specs.Told.{ReadGives};
    ghost use Rattle.vub_stream.specs.SourceInMemory.{unread, AfterRead};

    ghost left = { λ s. Some (unread s) };

    ghost ended = { λ s. s.ended };

    ghost fault_count = { λ s. s.faults };

    /// The next bytes: the least of `most`, of the greatest piece and of what is left.
    ///
    /// # Errors
    /// [`SourceError::Failed`] exactly at a call that is to fail; want of memory.
    fn read(&mut self, alloc: Global, most: usize) -> Result<Bytes, SourceError>
        requires { 0 < most }
        ensures bound { IfOk result (λ bytes. length bytes ≤ most) }
        ensures bytes { ReadGives (Some (unread self.old)) (Some (unread self.new)) result }
        ensures end { IfOk result (λ bytes. bytes ≡ [] → self.new.ended ≡ true) }
        ensures still_ended { self.old.ended ≡ true → self.new.ended ≡ true }
        ensures cause { HasCause self.old.faults self.new.faults result SourceError.Failed }
        ensures gives { IfOk result (λ bytes. bytes ≡ take (min most self.old.piece) (unread self.old)) }
        ensures fails { IsTrue (is_listed self.old.failing.items self.old.calls) → result ≡ Err SourceError.Failed }
        ensures only { result ≡ Err SourceError.Failed → IsTrue (is_listed self.old.failing.items self.old.calls) }
        ensures after { AfterRead self.old self.new result }
    {
        let call = self.calls;
        self.calls = call.saturating_add(1);
        if self.failing.contains(&call) {
            self.faults = self.faults.saturating_add(1);
            return Err(SourceError::Failed);
        }
        let rest = self.bytes.len() - self.at;
        let count = most.min(self.piece).min(rest);
        let end = self.at + count;
        let bytes = Bytes::from_slice(alloc, &self.bytes[self.at..end])?;
        self.at = end;
        self.ended = self.ended || count == 0;
        Ok(bytes)
    }

    fn faults(&self) -> u64 {
        self.faults
    }
}
