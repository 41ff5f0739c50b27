use vub_base::{Bytes, Listed};

/// A message: some bytes and the objects that go with them.
#[derive(Debug, Drop)]
pub struct Message {
    /// The bytes.
    pub bytes: Bytes,
    /// The numbers of the objects.
    pub objects: Listed<u32>,
}
