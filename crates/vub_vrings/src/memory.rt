//! Guest memory that threads share, under a lock: `GuestMemoryAtomic` of the Rust crate `vm-memory`.
use std::alloc::Global;
use std::sync::{Arc, Mutex, MutexGuard, Wait};
use vub_base::OutOfMemory;
use vub_mem::{DirtyLog, GuestMemory};

/// Guest memory under a lock that one holds at a time, and that those share to whom it was cloned. What the memory held
/// before a hold is not known.
#[derive(Drop)]
pub struct GuestMemoryAtomic<L: DirtyLog + Drop, R: Wait + Copy> {
    rt: R,
    shared: Arc<Mutex<GuestMemory<L>>, Global>,
}

/// Guest memory that is held: while this is there, no other has it.
#[derive(Drop)]
pub struct HeldMemory<'a, L: DirtyLog + Drop> {
    guard: MutexGuard<'a, GuestMemory<L>>,
}

impl<'a, L: DirtyLog + Drop> HeldMemory<'a, L> {
    /// The memory.
    pub fn memory(&self) -> &GuestMemory<L> {
        &*self.guard
    }

    /// The memory, to be changed.
    pub fn memory_mut(&mut self) -> &mut GuestMemory<L> {
        &mut *self.guard
    }
}

impl<L: DirtyLog + Drop, R: Wait + Copy> GuestMemoryAtomic<L, R> {
    /// Puts guest memory under a lock.
    ///
    /// # Errors
    /// Want of memory.
    pub fn new(
        rt: R,
        alloc: Global,
        memory: GuestMemory<L>,
    ) -> Result<GuestMemoryAtomic<L, R>, OutOfMemory> {
        let shared = Arc::new(alloc, Mutex::new(memory))?;
        Ok(GuestMemoryAtomic { rt, shared })
    }

    /// The same memory, for another who shares it.
    ///
    /// # Errors
    /// Want of memory, and more than std's greatest count of those who share.
    pub fn try_clone(&self) -> Result<GuestMemoryAtomic<L, R>, OutOfMemory> {
        let shared = Arc::try_clone(&self.shared)?;
        Ok(GuestMemoryAtomic {
            rt: self.rt,
            shared,
        })
    }

    /// Takes the lock, and waits for it where another has it.
    pub fn lock(&self) -> HeldMemory<'_, L> {
        HeldMemory {
            guard: self.shared.lock(&self.rt),
        }
    }
}
