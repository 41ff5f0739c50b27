//! What every batch of a conversation has.

/// The first address of guest memory.
pub(crate) const MEMORY_START: u64 = 0x10_0000;

/// How many bytes of guest memory there are.
pub(crate) const MEMORY_LEN: u64 = 0x10_0000;

/// The first address behind guest memory.
pub(crate) const MEMORY_END: u64 = 0x20_0000;

/// The number of the content behind guest memory.
pub(crate) const MEMORY: u32 = 0;

/// The number of the event by which the guest tells of new entries.
pub(crate) const KICK: u32 = 1;

/// The number of the event by which the device tells of used entries.
pub(crate) const CALL: u32 = 2;
