/// One descriptor of the table (virtio 1.2, 2.7.5).
#[derive(Clone, Copy)]
pub struct Descriptor {
    /// Where its segment begins, a guest address.
    pub addr: u64,
    /// How many bytes the segment has.
    pub len: u32,
    /// Bits of `VIRTQ_DESC_F_NEXT`, `VIRTQ_DESC_F_WRITE` and `VIRTQ_DESC_F_INDIRECT`.
    pub flags: u16,
    /// The number of the next descriptor, where NEXT is set.
    pub next: u16,
}
