use thiserror::Error;
use vub_model::VringEpollError;
use vub_queue::QueueError;

/// Why a session was not made, or could not answer (`VhostUserHandlerError` of the Rust crate `vhost-user-backend`).
#[derive(Clone, Copy, Debug, PartialEq, Eq, Error)]
pub enum VhostUserHandlerError {
    /// The greatest size of a queue is no power of two from 1 to 32768.
    #[error("failed to create vring")]
    CreateVring(QueueError),
    /// A worker could not be opened.
    #[error("failed to create vring epoll handler")]
    CreateEpollHandler(VringEpollError),
    /// A worker could not be started.
    #[error("failed spawning the vring worker")]
    SpawnVringWorker,
    /// No mapping holds the address.
    #[error("Missing memory mapping")]
    MissingMemoryMapping,
    /// Memory was refused.
    #[error("out of memory")]
    OutOfMemory,
}
