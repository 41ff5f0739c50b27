/// How far the use of the entry that was marked last has come. It decides which call may come next, and is no part of
/// the record.
#[derive(Clone, Copy, Debug, PartialEq, Eq)]
pub enum Stage {
    /// No head was marked, or the use of the one that was is settled.
    Settled,
    /// This head was marked last.
    Marked(u16),
    /// This head was published last, and its flag is still set.
    Published(u16),
    /// The flag of the head that was published last is cleared, and its use is not settled.
    Cleared,
}
