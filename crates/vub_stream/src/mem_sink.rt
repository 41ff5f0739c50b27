ghost use Rattle.std.specs.Prelude.{◌≤◌, ◌<◌, vec_len, vec_capacity};

use crate::sink::{Sink, SinkError};
use std::alloc::Global;
use vub_base::OutOfMemory;

/// A sink in memory with room for so many bytes, which tells what it took, and fails or takes nothing at the calls that
/// it was told to. Its memory is taken when it is made.
#[derive(Debug, Drop)]
pub struct MemSink {
    bytes: Vec<u8>,
    room: usize,
    // the greatest number of bytes that a write takes
    piece: usize,
    // the numbers of the writes that fail, from 0
    failing: Vec<u64>,
    // the numbers of the writes that take no byte, from 0
    stalling: Vec<u64>,
    // how many writes there were; it stays at 2^64 - 1
    calls: u64,
    faults: u64,
    ghost within: { vec_len bytes ≤ room },
    ghost reserved: { room ≤ vec_capacity bytes },
    ghost moves: { 0 < piece },
}

impl MemSink {
    ghost use Rattle.std.specs.Prelude.{◌≡◌, [], IfOk};

    /// An empty sink with room for `room` bytes, of which a write takes at most `piece`. The writes whose numbers,
    /// from 0, are in `failing` fail, and those in `stalling` take no byte; one on both lists fails.
    ///
    /// # Errors
    /// Want of memory for the room.
    pub fn new(
        alloc: Global,
        room: usize,
        piece: usize,
        failing: Vec<u64>,
        stalling: Vec<u64>,
    ) -> Result<MemSink, OutOfMemory>
        requires { 0 < piece }
        ensures bytes { IfOk result (λ s. s.bytes.items ≡ []) }
        ensures room { IfOk result (λ s. s.room ≡ room) }
        ensures piece { IfOk result (λ s. s.piece ≡ piece) }
        ensures failing { IfOk result (λ s. s.failing.items ≡ failing.items) }
        ensures stalling { IfOk result (λ s. s.stalling.items ≡ stalling.items) }
        ensures calls { IfOk result (λ s. s.calls ≡ 0) }
        ensures faults { IfOk result (λ s. s.faults ≡ 0) }
    {
        let bytes = Vec::with_capacity(alloc, room)?;
        Ok(MemSink {
            bytes,
            room,
            piece,
            failing,
            stalling,
            calls: 0,
            faults: 0,
        })
    }

    /// The bytes that it has taken.
    pub fn bytes(&self) -> &[u8]
        ensures { result.now ≡ self.now.bytes.items }
    {
        self.bytes.as_slice()
    }
}

impl Sink for MemSink {
    ghost use Rattle.std.specs.Prelude.{◌≡◌, length, Some, Ok, Err, IfOk, IsTrue};
    ghost use Rattle.std.specs.Io.{WritesAtMost};
    ghost use Rattle.std.specs.Io.KnownBytes.{WriteAppends};
    ghost use Rattle.vub_base.specs.Causes.{is_listed, HasCause, Rose};
    ghost use Rattle.vub_stream.specs.SinkInMemory.{room_for, AfterWrite};

    ghost taken = { λ s. Some s.bytes.items };

    ghost fault_count = { λ s. s.faults };

    /// Takes the least of the piece's bytes, of the greatest piece and of the room that is left, and none at a call
    /// that is to take none.
    ///
    /// # Errors
    /// [`SinkError::Failed`] exactly at a call that is to fail.
    fn write(&mut self, bytes: &[u8]) -> Result<usize, SinkError>
        ensures bound { WritesAtMost result bytes.now }
        ensures bytes { WriteAppends (Some self.old.bytes.items) (Some self.new.bytes.items) result bytes.now }
        ensures cause { HasCause self.old.faults self.new.faults result SinkError.Failed }
        ensures stalled { result ≡ Ok 0 → 0 < length bytes.now → Rose self.old.faults self.new.faults }
        ensures takes { IfOk result (λ count. count ≡ room_for self.old (length bytes.now)) }
        ensures fails { IsTrue (is_listed self.old.failing.items self.old.calls) → result ≡ Err SinkError.Failed }
        ensures only { result ≡ Err SinkError.Failed → IsTrue (is_listed self.old.failing.items self.old.calls) }
        ensures after { AfterWrite self.old self.new (length bytes.now) result }
    {
        let call = self.calls;
        self.calls = call.saturating_add(1);
        if self.failing.contains(&call) {
            self.faults = self.faults.saturating_add(1);
            return Err(SinkError::Failed);
        }
        let left = self.room - self.bytes.len();
        let count = if self.stalling.contains(&call) {
            0
        } else {
            bytes.len().min(self.piece).min(left)
        };
        if count == 0 && !bytes.is_empty() {
            self.faults = self.faults.saturating_add(1);
            return Ok(0);
        }
        self.bytes.extend_from_slice(&bytes[..count]).unwrap();
        Ok(count)
    }

    fn faults(&self) -> u64 {
        self.faults
    }
}
