/// Where a guest address lies.
#[derive(Clone, Copy, Debug, PartialEq, Eq)]
pub struct Place {
    /// The number of the object.
    pub object: u32,
    /// The byte of the object.
    pub offset: u64,
    /// How many bytes of the region there are from this one on.
    pub left: u64,
}
