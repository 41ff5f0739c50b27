//! The flags of a new event counter, with the names and the numbers of eventfd(2).

/// A semaphore: each read takes 1 off the count.
pub const EFD_SEMAPHORE: i32 = 1;

/// Calls on it don't wait. No call here waits, with this flag or without it.
pub const EFD_NONBLOCK: i32 = 0x800;

/// It is closed where the process becomes another program.
pub const EFD_CLOEXEC: i32 = 0x8_0000;
