//! Rings and guest memory that threads share, each under a lock of its own.
#![tactic(auto)]

mod memory;
mod vring;

pub use memory::{GuestMemoryAtomic, HeldMemory};
pub use vring::{MutexRing, RwRing, RwRingMut, VringMutex, VringRwLock, VringT};
