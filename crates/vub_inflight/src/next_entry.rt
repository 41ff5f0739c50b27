use vub_queue::{Chain, Damage};

/// What taking a step answers.
#[derive(Debug, Drop)]
pub enum NextEntry {
    /// The next entry, which is in flight from now on.
    Entry(Chain),
    /// No entry is left.
    None,
    /// The ring or the next chain fails this test first.
    Damaged(Damage),
    /// The next entry has this head, which is in flight. The entry was not taken.
    Doubled(u16),
}
