use crate::ring::InflightRing;
use vub_base::Listed;

/// A list of heads, each the number of a descriptor in the table.
pub type Heads = Listed<u16>;

/// A ring that goes on after a cut.
#[derive(Debug, Drop)]
pub struct Resumed {
    /// The ring, whose next entry is the first that was not taken.
    pub ring: InflightRing,
    /// The heads of the entries that were taken and not published, in the order of taking. They are to be served again.
    pub again: Heads,
}
