ghost use Rattle.std.specs.Prelude.{◌≡◌};

use std::alloc::AllocError;
use thiserror::Error;

/// Why a call on a sparse file was refused.
#[derive(Clone, Copy, Debug, PartialEq, Eq, Error)]
pub enum FileError {
    /// The arguments are out of range.
    #[error("Invalid argument (os error 22)")]
    EINVAL = 1,
    /// A write wrote nothing.
    #[error("failed to write whole buffer")]
    WriteZero = 2,
    /// The file failed, and counted it.
    #[error("the file failed")]
    Failed = 3,
    /// Memory was refused.
    #[error("out of memory")]
    OutOfMemory = 4,
}

impl From<AllocError> for FileError {
    ghost use Rattle.vub_sparse.specs.declared.error.FileError.TheVariants.{OutOfMemory};

    ghost from_gives = { λ _ r. r ≡ OutOfMemory };

    fn from(_refused: AllocError) -> FileError {
        FileError::OutOfMemory
    }
}
