use crate::segment::Segments;
use vub_base::Bytes;

/// An entry that was taken: what its chain of descriptors holds.
#[derive(Debug, Drop)]
pub struct Chain {
    /// The number of the first descriptor, by which the entry is used.
    pub head: u16,
    /// The bytes that the driver wrote, joined in order.
    pub request: Bytes,
    /// The segments that the device may write, in order.
    pub segments: Segments,
    /// How many bytes these hold.
    pub room: u32,
}
