ghost use Rattle.std.specs.Prelude.{◌≡◌};

use thiserror::Error;
use vub_base::OutOfMemory;

/// Why a ring can't go on from a record: the first of these tests that fails.
#[derive(Clone, Copy, Debug, PartialEq, Eq, Error)]
pub enum RecoverError {
    /// The record has not 16 bytes, and 16 more for each descriptor of the queue.
    #[error("length of a record does not fit the queue")]
    Length,
    /// The version is not 1.
    #[error("version of a record is not 1")]
    Version,
    /// The number of descriptors is not that of the queue.
    #[error("record is of a queue of another size")]
    Size,
    /// An in-flight byte is above 1.
    #[error("in-flight byte is above 1")]
    Flag,
    /// The last head is no descriptor of the table.
    #[error("last head is no descriptor of the table")]
    Head,
    /// Two heads in flight have one counter.
    #[error("two heads in flight have one counter")]
    Counter,
    /// The used index word is not covered.
    #[error("used index is outside guest memory")]
    Outside,
    /// The used index is neither that of the record nor the one after it.
    #[error("used index moved by more than one")]
    UsedMoved,
    /// A head that is to be served again has counter 2^64 - 1, so that none is left for the next entry.
    #[error("counter in flight is the greatest")]
    CounterSpent,
    /// Want of memory.
    #[error("out of memory")]
    OutOfMemory,
}

impl From<OutOfMemory> for RecoverError {
    ghost use Rattle.vub_inflight.specs.declared.error.RecoverError.TheVariants.{OutOfMemory};

    ghost from_gives = { λ _ e. e ≡ OutOfMemory };

    fn from(_refused: OutOfMemory) -> RecoverError {
        RecoverError::OutOfMemory
    }
}
