use vub_base::Bytes;
use vub_model::Entry;

/// An entry that was used, and the reply with which it was.
#[derive(Debug, Drop)]
pub struct Finished {
    pub entry: Entry,
    pub reply: Bytes,
}
