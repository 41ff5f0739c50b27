use crate::chain::Chain;
use crate::damage::Damage;

/// What a take answers.
#[derive(Debug, Drop)]
pub enum Took {
    /// The next entry.
    Entry(Chain),
    /// No entry is left.
    None,
    /// The ring or the next chain fails this test first.
    Damaged(Damage),
}
