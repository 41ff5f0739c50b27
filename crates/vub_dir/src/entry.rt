ghost use Rattle.std.specs.Prelude.{◌≡◌};
ghost use Rattle.vub_dir.specs.declared.entry.TreeError.TheVariants.{OutOfMemory};

use std::alloc::{AllocError, AllocFailed};
use thiserror::Error;
use vub_base::Bytes;

/// One entry of the list that a tree is made of. The entry at place `i`, from 0 on, is node `i + 2`.
#[derive(Debug, Drop)]
pub struct TreeEntry {
    /// The node of the directory that it is in: 1 for the root, or that of an earlier entry that is a directory.
    pub parent: u64,
    /// Its name there.
    pub name: Bytes,
    /// The bytes of a file; without them it is a directory.
    pub file: Option<Bytes>,
}

/// Why no tree can be made of a list.
#[derive(Clone, Copy, Debug, PartialEq, Eq, Error)]
pub enum TreeError {
    /// A name has no byte or more than 255, has a zero byte or a `/`, or is `.` or `..`.
    #[error("not a name of a file or directory")]
    Name,
    /// A directory has a name twice.
    #[error("a directory has the name twice")]
    Twice,
    /// A file has more than 16777216 bytes, the tree has more than 65536 nodes, or directories nest more than 64
    /// deep.
    #[error("the tree is too big")]
    TooBig,
    /// Memory was refused.
    #[error("out of memory")]
    OutOfMemory,
}

impl From<AllocError> for TreeError {
    ghost from_gives = { λ _ e. e ≡ OutOfMemory };

    fn from(_refused: AllocError) -> TreeError {
        TreeError::OutOfMemory
    }
}

impl<T: Drop> From<AllocFailed<T>> for TreeError {
    ghost from_gives = { λ _ e. e ≡ OutOfMemory };

    fn from(_refused: AllocFailed<T>) -> TreeError {
        TreeError::OutOfMemory
    }
}
