use vub_base::Bytes;

/// The use of an entry: what the used ring and the writable segments got.
#[derive(Debug, Drop)]
pub struct Used {
    /// The queue's number.
    pub queue: u32,
    /// How many bases the ring was given before this entry was taken.
    pub epoch: u64,
    /// The entry's number: the base plus the entries taken before it since.
    pub number: u64,
    /// The number of its first descriptor.
    pub head: u16,
    /// The service's reply.
    pub reply: Bytes,
}
