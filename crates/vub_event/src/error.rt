ghost use Rattle.std.specs.Prelude.{◌≡◌};
ghost use Rattle.vub_event.specs.Errors.{error_number};

use std::alloc::{AllocError, AllocFailed};
use thiserror::Error;
use vub_base::OutOfMemory;

/// Why a host refuses a call. The names in capitals are those of Linux's errors.
#[derive(Clone, Copy, Debug, PartialEq, Eq, Error)]
pub enum HostError {
    /// The counter is 0 at a read, or a write would take it past its greatest count.
    #[error("operation would block")]
    WouldBlock,
    /// An argument is none that the call takes.
    #[error("invalid argument")]
    EINVAL,
    /// The object is in the list already, or a listener may not have it.
    #[error("object is registered already")]
    EEXIST,
    /// The object is not in the list.
    #[error("object is not registered")]
    ENOENT,
    /// There is no object or no list of this number.
    #[error("bad object or list number")]
    EBADF,
    /// A message has more objects than there is room for.
    #[error("no buffer space available")]
    ENOBUFS,
    /// The host failed. It comes only where the host's count of faults rose, or stands at its end.
    #[error("host failed")]
    Failed,
    /// A queue holds the object, or a list has it.
    #[error("object is held")]
    Held,
    /// Memory was refused, or all numbers are given.
    #[error("out of memory")]
    OutOfMemory,
}

impl HostError {
    /// The number of this refusal, from 1 to 9 in the order of the variants.
    pub fn number(self) -> u8
        ensures { result ≡ error_number self }
    {
        match self {
            HostError::WouldBlock => 1,
            HostError::EINVAL => 2,
            HostError::EEXIST => 3,
            HostError::ENOENT => 4,
            HostError::EBADF => 5,
            HostError::ENOBUFS => 6,
            HostError::Failed => 7,
            HostError::Held => 8,
            HostError::OutOfMemory => 9,
        }
    }
}

impl From<OutOfMemory> for HostError {
    ghost use Rattle.std.specs.Prelude.{◌≡◌};
    ghost use Rattle.vub_event.specs.declared.error.HostError.{HostError};

    ghost from_gives = { λ _ e. e ≡ HostError.OutOfMemory };

    fn from(_refused: OutOfMemory) -> HostError {
        HostError::OutOfMemory
    }
}

impl From<AllocError> for HostError {
    ghost use Rattle.std.specs.Prelude.{◌≡◌};
    ghost use Rattle.vub_event.specs.declared.error.HostError.{HostError};

    ghost from_gives = { λ _ e. e ≡ HostError.OutOfMemory };

    fn from(_refused: AllocError) -> HostError {
        HostError::OutOfMemory
    }
}

impl<T: Drop> From<AllocFailed<T>> for HostError {
    ghost use Rattle.std.specs.Prelude.{◌≡◌};
    ghost use Rattle.vub_event.specs.declared.error.HostError.{HostError};

    ghost from_gives = { λ _ e. e ≡ HostError.OutOfMemory };

    fn from(_refused: AllocFailed<T>) -> HostError {
        HostError::OutOfMemory
    }
}
