/// Where a driver keeps its ring and its buffers: addresses in guest memory.
#[derive(Clone, Copy, Debug, PartialEq, Eq)]
pub struct Layout {
    /// How many descriptors the table has, and how many slots each ring. Half as many requests may be outstanding.
    pub size: u16,
    /// The descriptor table, of 16 bytes a descriptor.
    pub desc: u64,
    /// The available ring, of 6 bytes and 2 a slot.
    pub avail: u64,
    /// The used ring, of 6 bytes and 8 an element.
    pub used: u64,
    /// The buffers, `slot` bytes for each descriptor.
    pub buffers: u64,
    /// The most bytes that a request may have, and that a reply may.
    pub slot: u32,
}
