/// Where the three parts of a ring lie in guest memory.
#[derive(Clone, Copy, Debug, PartialEq, Eq)]
pub struct Addresses {
    /// The descriptor table.
    pub desc: u64,
    /// The available ring, which the driver writes.
    pub avail: u64,
    /// The used ring, which the device writes.
    pub used: u64,
}
