ghost use Rattle.std.specs.Prelude.{◌≡◌, ◌<◌, List, ℕ, Option, Ok, length};
ghost use Rattle.std.specs.Io.{WritesAtMost};
ghost use Rattle.std.specs.Io.KnownBytes.{WriteAppends};
ghost use Rattle.vub_base.specs.Causes.{HasCause, Rose};

use thiserror::Error;

/// Why a write took nothing.
#[derive(Clone, Copy, Debug, PartialEq, Eq, Error)]
pub enum SinkError {
    /// The sink had a fault, and counted it.
    #[error("write fault")]
    Failed,
}

/// What bytes are written to.
pub trait Sink: Drop {
    // the bytes that it has taken, where the sink tells them
    ghost taken: { Self → Option (List ℕ) };

    // how many of its writes had a fault
    ghost fault_count: { Self → ℕ };

    /// Takes the first bytes of the piece, and says how many. None of a piece that isn't empty is a fault, and is
    /// counted as one.
    ///
    /// # Errors
    /// [`SinkError::Failed`] only where the count of faults rose. A refused write takes no byte.
    fn write(&mut self, bytes: &[u8]) -> Result<usize, SinkError>
        ensures bound { WritesAtMost result bytes.now }
        ensures bytes { WriteAppends (taken self.old) (taken self.new) result bytes.now }
        ensures cause { HasCause (fault_count self.old) (fault_count self.new) result SinkError.Failed }
        ensures stalled { result ≡ Ok 0 → 0 < length bytes.now → Rose (fault_count self.old) (fault_count self.new) };

    /// How many writes had a fault. The count never falls, and stays at 2^64 - 1 once it is there.
    fn faults(&self) -> u64
        ensures { result ≡ fault_count self.now };
}
