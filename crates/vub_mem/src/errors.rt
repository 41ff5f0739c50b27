use thiserror::Error;

/// Why a call on guest memory was refused. A refused call has changed nothing.
#[derive(Clone, Copy, Debug, PartialEq, Eq, Error)]
pub enum MemError {
    /// A region of length 0, or a table with no region.
    #[error("empty region or empty table")]
    Empty,
    /// A region starts before the one that it follows.
    #[error("regions out of order")]
    Order,
    /// Two regions share a guest address.
    #[error("regions overlap")]
    Overlap,
    /// A region passes the last guest address, 2^64 - 1.
    #[error("region past the last address")]
    Wraps,
    /// A region passes the end of its object, or no object has its number.
    #[error("region past its object")]
    PastObject,
    /// No region has this start and this length.
    #[error("no such region")]
    NoSuchRegion,
    /// Some address of the range lies in no region.
    #[error("outside of guest memory")]
    Outside,
    /// No mapping holds the address.
    #[error("no mapping holds the address")]
    MissingMemoryMapping,
    /// Want of memory.
    #[error("out of memory")]
    OutOfMemory,
}

/// Why a call on a log of dirty pages was refused. A refused call has changed nothing.
#[derive(Clone, Copy, Debug, PartialEq, Eq, Error)]
pub enum LogError {
    /// A log of no bytes.
    #[error("empty log")]
    EmptyLog,
    /// The part of the log passes its end, or no log has this number.
    #[error("log past its object")]
    PastObject,
    /// The start or the length of a region is no multiple of 4096.
    #[error("region is not page aligned")]
    NotPageAligned,
    /// The log has no bit for the last page of a region.
    #[error("log too small")]
    TooSmall,
    /// Dirty pages are not tracked.
    #[error("dirty pages are not tracked")]
    Unsupported,
    /// The word was harvested 4294967295 times.
    #[error("generations of the word are spent")]
    GenerationsSpent,
    /// Want of memory.
    #[error("out of memory")]
    OutOfMemory,
}
