ghost use Rattle.std.specs.Prelude.{◌≡◌, ◌≤◌, ◌<◌, List, [], ℕ, Bool, true, Option, length, IfOk};
ghost use Rattle.vub_base.specs.Causes.{HasCause};
ghost use Rattle.vub_stream.specs.Told.{ReadGives};

use std::alloc::Global;
use thiserror::Error;
use vub_base::{Bytes, OutOfMemory};

/// Why a read gave nothing.
#[derive(Clone, Copy, Debug, PartialEq, Eq, Error)]
pub enum SourceError {
    /// The source had a fault, and counted it.
    #[error("read fault")]
    Failed,
    #[error("out of memory")]
    OutOfMemory,
}

impl From<OutOfMemory> for SourceError {
    ghost use Rattle.vub_stream.specs.declared.source.SourceError.TheVariants.{OutOfMemory};

    ghost from_gives = { λ _ e. e ≡ OutOfMemory };

    fn from(_refused: OutOfMemory) -> SourceError {
        SourceError::OutOfMemory
    }
}

/// What bytes are read from.
pub trait Source: Drop {
    // the bytes that are left, where the source tells them
    ghost left: { Self → Option (List ℕ) };

    // a read has met the end
    ghost ended: { Self → Bool };

    // how many of its reads had a fault
    ghost fault_count: { Self → ℕ };

    /// The next bytes, at least one of them unless the source is at its end, and at most `most`.
    ///
    /// # Errors
    /// [`SourceError::Failed`] only where the count of faults rose; want of memory. A refused read takes no byte.
    fn read(&mut self, alloc: Global, most: usize) -> Result<Bytes, SourceError>
        requires { 0 < most }
        ensures bound { IfOk result (λ bytes. length bytes ≤ most) }
        ensures bytes { ReadGives (left self.old) (left self.new) result }
        ensures end { IfOk result (λ bytes. bytes ≡ [] → ended self.new ≡ true) }
        ensures still_ended { ended self.old ≡ true → ended self.new ≡ true }
        ensures cause { HasCause (fault_count self.old) (fault_count self.new) result SourceError.Failed };

    /// How many reads had a fault. The count never falls, and stays at 2^64 - 1 once it is there.
    fn faults(&self) -> u64
        ensures { result ≡ fault_count self.now };
}
