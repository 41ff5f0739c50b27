use thiserror::Error;

/// Why a call of a driver was refused: the first of these that holds, where several do.
#[derive(Clone, Copy, Debug, PartialEq, Eq, Error)]
pub enum DriverError {
    /// The size is no power of two from 2 to 32768.
    #[error("size is no power of two from 2 to 32768")]
    Size,
    /// The descriptor table is not at a multiple of 16, the available ring of 2, or the used ring of 4.
    #[error("part of a ring is misaligned")]
    Misaligned,
    /// Two areas meet, or one does not end before the last address.
    #[error("parts of a ring overlap")]
    Overlap,
    /// As many requests are outstanding as the ring holds.
    #[error("as many requests are outstanding as the ring holds")]
    Full,
    /// A request or its room is above the slot, or both together are above 2^32 - 1.
    #[error("request or room is too large")]
    TooLarge,
    /// A byte that is to be read or written is not in guest memory.
    #[error("part of a ring is outside guest memory")]
    Outside,
    /// The device used more elements than requests are outstanding.
    #[error("more elements were used than requests are outstanding")]
    UsedAhead,
    /// The next used element is not of the oldest request.
    #[error("used element is not of the oldest request")]
    BadId,
    /// The next used element is longer than the room of its request.
    #[error("used element is longer than the room")]
    BadLength,
    /// Want of memory.
    #[error("out of memory")]
    OutOfMemory,
}
