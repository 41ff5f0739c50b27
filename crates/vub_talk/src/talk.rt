use vub_base::Listed;
use vub_driver::Done;

/// What a conversation came to.
#[derive(Debug, Drop)]
pub struct Talk {
    /// The answers, in the order of the asks.
    pub answers: Listed<Done>,
    /// For each batch of asks, how often the device signalled that it used an entry.
    pub calls: Listed<u64>,
}
