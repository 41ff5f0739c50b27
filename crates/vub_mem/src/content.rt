use vub_base::Bytes;

/// A numbered content: the bytes of an object that regions of guest memory show.
#[derive(Drop)]
pub struct Content {
    /// The number by which regions name it: of two contents with one number the first is meant.
    pub object: u32,
    /// The bytes.
    pub bytes: Bytes,
}
