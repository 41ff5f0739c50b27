ghost use Rattle.std.specs.Prelude.{None};

use crate::source::{Source, SourceError};
use std::alloc::Global;
use std::io::Read;
use vub_base::Bytes;

/// A source over any reader of the standard library, as standard input. It tells no bytes.
#[derive(Drop)]
pub struct ReadSource<R: Read + Drop> {
    inner: R,
    ended: bool,
    faults: u64,
}

impl<R: Read + Drop> ReadSource<R> {
    ghost use Rattle.std.specs.Prelude.{◌≡◌, false};

    /// A source over this reader, which has had no fault yet.
    pub fn new(inner: R) -> ReadSource<R>
        ensures reader { result.inner ≡ inner }
        ensures faults { result.faults ≡ 0 }
        ensures begins { result.ended ≡ false }
    {
        ReadSource {
            inner,
            ended: false,
            faults: 0,
        }
    }
}

impl<R: Read + Drop> Source for ReadSource<R> {
    ghost left = { λ _. None };

    ghost ended = { λ s. s.ended };

    ghost fault_count = { λ s. s.faults };

    fn read(&mut self, alloc: Global, most: usize) -> Result<Bytes, SourceError> {
        let Ok(mut buffer): Result<Vec<u8>, _> = vec![in alloc; 0; most] else {
            return Err(SourceError::OutOfMemory);
        };
        match self.inner.read(buffer.as_mut_slice()) {
            Ok(count) => {
                buffer.truncate(count);
                self.ended = self.ended || count == 0;
                Ok(Bytes::from_vec(buffer))
            }
            Err(_) => {
                self.faults = self.faults.saturating_add(1);
                Err(SourceError::Failed)
            }
        }
    }

    fn faults(&self) -> u64 {
        self.faults
    }
}
