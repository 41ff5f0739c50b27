use thiserror::Error;

/// Why a request was left without its answer. The steps that were played stand.
#[derive(Clone, Copy, Debug, PartialEq, Eq, Error)]
pub enum Unanswered {
    /// An entry in flight of the request's queue lets the next step wait.
    #[error("an entry is in flight")]
    Waits,
    /// Memory was refused.
    #[error("out of memory")]
    OutOfMemory,
}
