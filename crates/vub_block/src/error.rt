use thiserror::Error;

/// Why no disk is made: the first of these that holds.
#[derive(Clone, Copy, Debug, PartialEq, Eq, Error)]
pub enum BlockError {
    /// More than 131072 sectors.
    #[error("disk has more than 131072 sectors")]
    TooBig,
    /// An id of more than 20 bytes.
    #[error("id has more than 20 bytes")]
    Id,
    /// Want of memory.
    #[error("out of memory")]
    OutOfMemory,
}
