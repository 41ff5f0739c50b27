/// What a poll came to.
#[derive(Clone, Copy, Debug, PartialEq, Eq)]
pub(crate) enum Polling {
    /// The worker isn't idle, or no member of its interest list is ready.
    Nothing,
    /// This object was polled.
    Member(u32),
    /// The host failed, and the worker has stopped.
    Failed,
}
