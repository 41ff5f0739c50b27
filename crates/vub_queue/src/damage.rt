use thiserror::Error;

/// Why an entry of a ring can't be taken: the first test that fails.
#[derive(Clone, Copy, Debug, PartialEq, Eq, Error)]
pub enum Damage {
    /// A word or a descriptor of the ring is outside guest memory.
    #[error("word or descriptor of the ring is outside guest memory")]
    RingOutside,
    /// The available index is more than the queue's size ahead.
    #[error("available index is more than the queue's size ahead")]
    IndexAhead,
    /// The chain has more descriptors than the queue has.
    #[error("chain has more descriptors than the queue")]
    TooLong,
    /// A descriptor's number is not below the queue's size.
    #[error("descriptor's number is not below the queue's size")]
    BadNumber,
    /// A descriptor refers to an indirect table.
    #[error("descriptor refers to an indirect table")]
    Indirect,
    /// The lengths add to more than 4294967295 bytes.
    #[error("chain's lengths add to more than 4294967295 bytes")]
    TooBig,
    /// A segment is outside guest memory.
    #[error("segment is outside guest memory")]
    SegmentOutside,
}
