//! Rings that threads share, each under a lock: `VringT`, `VringMutex` and `VringRwLock` of the Rust crate
//! `vhost-user-backend`.
ghost use Rattle.std.specs.Prelude.{◌≡◌, ◌↔◌, ◌≤◌, [], ◌∷◌, true, IfErr, OnErr, IsOk, IsSome};
ghost use Rattle.std.specs.Int.{is_power_of_two};
ghost use Rattle.vub_event.specs.Errors.{RefusesBy};
ghost use Rattle.vub_event.specs.Faults.{CountsFaults};
ghost use Rattle.vub_queue.specs.Settings.{info_answer};
ghost use Rattle.vub_vrings.specs.Vrings.{IsOutside, IsUseError};

use std::sync::{Mutex, MutexGuard, RwLock, RwLockReadGuard, RwLockWriteGuard, Wait};
use vub_event::{Host, HostError};
use vub_mem::{DirtyLog, GuestMemory};
use vub_queue::QueueError;
use vub_ring::VringState;

/// A ring that threads share. Each call is one hold of its lock, and does on the ring what the call of this name of
/// `VringState` does. What the ring held before is not known, so the calls say only what may be refused.
pub trait VringT {
    /// The number of the next entry to take, in 16 bits.
    fn queue_next_avail(&self) -> u16;

    /// Sets whether the ring is enabled.
    fn set_enabled(&self, enabled: bool);

    /// Sets where the descriptor table, the available ring and the used ring lie.
    ///
    /// # Errors
    /// `Misaligned`, and nothing changes, where they are no multiples of 16, 2 and 4: the first that is not is named.
    fn set_queue_info(
        &self,
        desc_table: u64,
        avail_ring: u64,
        used_ring: u64,
    ) -> Result<(), QueueError>
        ensures { result ≡ info_answer desc_table avail_ring used_ring };

    /// Sets the number of the next entry to take.
    fn set_queue_next_avail(&self, base: u16);

    /// Sets the number of the next entry to use. The test for a notification counts from it.
    fn set_queue_next_used(&self, index: u16);

    /// Sets the size of the queue. It stays as it is unless this is a power of two and at most the greatest size.
    fn set_queue_size(&self, size: u16);

    /// Sets whether notifications go by index.
    fn set_queue_event_idx(&self, enabled: bool);

    /// Sets whether the queue is ready.
    fn set_queue_ready(&self, ready: bool);

    /// Sets the event by which new entries are told.
    fn set_kick(&self, kick: Option<u32>);

    /// Sets the event by which used entries are told.
    fn set_call(&self, call: Option<u32>);

    /// Sets the event by which errors are told.
    fn set_err(&self, err: Option<u32>);

    /// The index word of the used ring.
    ///
    /// # Errors
    /// `Outside` where the ring has no addresses, or the word is not in guest memory.
    fn queue_used_idx<L: DirtyLog>(&self, memory: &GuestMemory<L>) -> Result<u16, QueueError>
        ensures { IfErr result IsOutside };

    /// Uses the entry of this head.
    ///
    /// # Errors
    /// `Outside` where the ring has no addresses; else `InvalidDescriptorIndex` unless the head is below the size, then
    /// `Outside` unless the words are in guest memory. Nothing changes.
    fn add_used<L: DirtyLog>(
        &self,
        memory: &mut GuestMemory<L>,
        head: u16,
        len: u32,
    ) -> Result<(), QueueError>
        ensures only { IfErr result IsUseError }
        ensures err { OnErr result (memory.new ≡ memory.old) };

    /// Asks the driver to notify of new entries, and answers whether one is left.
    ///
    /// # Errors
    /// `Outside` where the ring has no addresses, or the word to write is not in guest memory. Nothing changes.
    fn enable_notification<L: DirtyLog>(
        &self,
        memory: &mut GuestMemory<L>,
    ) -> Result<bool, QueueError>
        ensures only { IfErr result IsOutside }
        ensures err { OnErr result (memory.new ≡ memory.old) };

    /// Asks the driver not to notify of new entries.
    ///
    /// # Errors
    /// `Outside` where the ring has no addresses, or the flags are to be written and are not in guest memory. Nothing
    /// changes.
    fn disable_notification<L: DirtyLog>(
        &self,
        memory: &mut GuestMemory<L>,
    ) -> Result<(), QueueError>
        ensures only { IfErr result IsOutside }
        ensures err { OnErr result (memory.new ≡ memory.old) };

    /// Whether the driver wants to be notified of what was used.
    ///
    /// # Errors
    /// `Outside` where the ring has no addresses, or notifications go by index and used_event is not in guest memory.
    fn needs_notification<L: DirtyLog>(&self, memory: &GuestMemory<L>) -> Result<bool, QueueError>
        ensures { IfErr result IsOutside };

    /// Signals the call, if it is set: adds 1 to its count. A full counter is no error, and stays.
    ///
    /// # Errors
    /// `EBADF` where the host has no such event, `Failed` only where the host's count of faults rose.
    fn signal_used_queue<H: Host>(&self, host: &mut H) -> Result<(), HostError>
        ensures faults { CountsFaults (H.fault_count host.old) (H.fault_count host.new) (H.never_fails host.old)
            (H.never_fails host.new) result }
        ensures refusals { RefusesBy result (HostError.Failed ∷ HostError.EINVAL ∷ HostError.EBADF ∷ []) };

    /// Reads the counter of the kick, if it is set, and says whether the ring is enabled. A count of 0 is no error.
    ///
    /// # Errors
    /// `EBADF` where the host has no such event, `Failed` only where the host's count of faults rose.
    fn read_kick<H: Host>(&self, host: &mut H) -> Result<bool, HostError>
        ensures faults { CountsFaults (H.fault_count host.old) (H.fault_count host.new) (H.never_fails host.old)
            (H.never_fails host.new) result }
        ensures refusals { RefusesBy result (HostError.Failed ∷ HostError.EBADF ∷ []) };
}

/// Whether the ring has its addresses.
fn has_addresses(ring: &VringState) -> bool
    ensures { result ≡ true → IsSome ring.now.queue.addresses }
{
    ring.get_queue().addresses().is_some()
}

fn used_idx<L: DirtyLog>(ring: &VringState, memory: &GuestMemory<L>) -> Result<u16, QueueError>
    ensures { IfErr result IsOutside }
{
    if !has_addresses(ring) {
        return Err(QueueError::Outside);
    }
    ring.queue_used_idx(memory)
}

fn use_entry<L: DirtyLog>(
    ring: &mut VringState,
    memory: &mut GuestMemory<L>,
    head: u16,
    len: u32,
) -> Result<(), QueueError>
    ensures only { IfErr result IsUseError }
    ensures err { OnErr result (memory.new ≡ memory.old) }
{
    if !has_addresses(ring) {
        return Err(QueueError::Outside);
    }
    ring.add_used(memory, head, len)
}

fn ask<L: DirtyLog>(ring: &mut VringState, memory: &mut GuestMemory<L>) -> Result<bool, QueueError>
    ensures only { IfErr result IsOutside }
    ensures err { OnErr result (memory.new ≡ memory.old) }
{
    if !has_addresses(ring) {
        return Err(QueueError::Outside);
    }
    ring.enable_notification(memory)
}

fn decline<L: DirtyLog>(
    ring: &mut VringState,
    memory: &mut GuestMemory<L>,
) -> Result<(), QueueError>
    ensures only { IfErr result IsOutside }
    ensures err { OnErr result (memory.new ≡ memory.old) }
{
    if !has_addresses(ring) {
        return Err(QueueError::Outside);
    }
    ring.disable_notification(memory)
}

fn is_asked<L: DirtyLog>(ring: &mut VringState, memory: &GuestMemory<L>) -> Result<bool, QueueError>
    ensures { IfErr result IsOutside }
{
    if !has_addresses(ring) {
        return Err(QueueError::Outside);
    }
    ring.needs_notification(memory)
}

/// A ring under a lock that one holds at a time.
#[derive(Drop)]
pub struct VringMutex<R: Wait + Copy> {
    rt: R,
    ring: Mutex<VringState>,
}

/// A ring that is held: while this is there, no other has it.
#[derive(Drop)]
pub struct MutexRing<'a> {
    guard: MutexGuard<'a, VringState>,
}

impl<'a> MutexRing<'a> {
    /// The ring.
    pub fn state(&self) -> &VringState {
        &*self.guard
    }

    /// The ring, to be changed.
    pub fn state_mut(&mut self) -> &mut VringState {
        &mut *self.guard
    }
}

impl<R: Wait + Copy> VringMutex<R> {
    /// A ring whose queue has at most `max` descriptors, as `VringState::new` makes it.
    ///
    /// # Errors
    /// `InvalidMaxSize` exactly where `max` is no power of two.
    pub fn new(rt: R, max: u16) -> Result<VringMutex<R>, QueueError>
        ensures ok { IsOk result ↔ (is_power_of_two max ≡ true) }
        ensures only { IfErr result (λ e. e ≡ QueueError.InvalidMaxSize) }
    {
        let ring = VringState::new(max)?;
        Ok(VringMutex {
            rt,
            ring: Mutex::new(ring),
        })
    }

    /// Takes the lock, to read the ring.
    pub fn get_ref(&self) -> MutexRing<'_> {
        MutexRing {
            guard: self.ring.lock(&self.rt),
        }
    }

    /// Takes the lock, to change the ring.
    pub fn get_mut(&self) -> MutexRing<'_> {
        MutexRing {
            guard: self.ring.lock(&self.rt),
        }
    }
}

impl<R: Wait + Copy> VringT for VringMutex<R> {
    fn queue_next_avail(&self) -> u16 {
        self.ring.lock(&self.rt).queue_next_avail()
    }

    fn set_queue_info(
        &self,
        desc_table: u64,
        avail_ring: u64,
        used_ring: u64,
    ) -> Result<(), QueueError> {
        self.ring
            .lock(&self.rt)
            .set_queue_info(desc_table, avail_ring, used_ring)
    }

    fn set_enabled(&self, enabled: bool) {
        self.ring.lock(&self.rt).set_enabled(enabled);
    }

    fn set_queue_next_avail(&self, base: u16) {
        self.ring.lock(&self.rt).set_queue_next_avail(base);
    }

    fn set_queue_next_used(&self, index: u16) {
        self.ring.lock(&self.rt).set_queue_next_used(index);
    }

    fn set_queue_size(&self, size: u16) {
        self.ring.lock(&self.rt).set_queue_size(size);
    }

    fn set_queue_event_idx(&self, enabled: bool) {
        self.ring.lock(&self.rt).set_queue_event_idx(enabled);
    }

    fn set_queue_ready(&self, ready: bool) {
        self.ring.lock(&self.rt).set_queue_ready(ready);
    }

    fn set_kick(&self, kick: Option<u32>) {
        self.ring.lock(&self.rt).set_kick(kick);
    }

    fn set_call(&self, call: Option<u32>) {
        self.ring.lock(&self.rt).set_call(call);
    }

    fn set_err(&self, err: Option<u32>) {
        self.ring.lock(&self.rt).set_err(err);
    }

    fn queue_used_idx<L: DirtyLog>(&self, memory: &GuestMemory<L>) -> Result<u16, QueueError> {
        let ring = self.ring.lock(&self.rt);
        used_idx(&*ring, memory)
    }

    fn add_used<L: DirtyLog>(
        &self,
        memory: &mut GuestMemory<L>,
        head: u16,
        len: u32,
    ) -> Result<(), QueueError> {
        let mut ring = self.ring.lock(&self.rt);
        use_entry(&mut *ring, memory, head, len)
    }

    fn enable_notification<L: DirtyLog>(
        &self,
        memory: &mut GuestMemory<L>,
    ) -> Result<bool, QueueError> {
        let mut ring = self.ring.lock(&self.rt);
        ask(&mut *ring, memory)
    }

    fn disable_notification<L: DirtyLog>(
        &self,
        memory: &mut GuestMemory<L>,
    ) -> Result<(), QueueError> {
        let mut ring = self.ring.lock(&self.rt);
        decline(&mut *ring, memory)
    }

    fn needs_notification<L: DirtyLog>(&self, memory: &GuestMemory<L>) -> Result<bool, QueueError> {
        let mut ring = self.ring.lock(&self.rt);
        is_asked(&mut *ring, memory)
    }

    fn signal_used_queue<H: Host>(&self, host: &mut H) -> Result<(), HostError> {
        self.ring.lock(&self.rt).signal_used_queue(host)
    }

    fn read_kick<H: Host>(&self, host: &mut H) -> Result<bool, HostError> {
        self.ring.lock(&self.rt).read_kick(host)
    }
}

/// A ring under a lock that many hold to read, or one to change it.
#[derive(Drop)]
pub struct VringRwLock<R: Wait + Copy> {
    rt: R,
    ring: RwLock<VringState>,
}

/// A ring that is held to be read: while this is there, no other changes it.
#[derive(Drop)]
pub struct RwRing<'a> {
    guard: RwLockReadGuard<'a, VringState>,
}

/// A ring that is held to be changed: while this is there, no other has it.
#[derive(Drop)]
pub struct RwRingMut<'a> {
    guard: RwLockWriteGuard<'a, VringState>,
}

impl<'a> RwRing<'a> {
    /// The ring.
    pub fn state(&self) -> &VringState {
        &*self.guard
    }
}

impl<'a> RwRingMut<'a> {
    /// The ring.
    pub fn state(&self) -> &VringState {
        &*self.guard
    }

    /// The ring, to be changed.
    pub fn state_mut(&mut self) -> &mut VringState {
        &mut *self.guard
    }
}

impl<R: Wait + Copy> VringRwLock<R> {
    /// A ring whose queue has at most `max` descriptors, as `VringState::new` makes it.
    ///
    /// # Errors
    /// `InvalidMaxSize` exactly where `max` is no power of two.
    pub fn new(rt: R, max: u16) -> Result<VringRwLock<R>, QueueError>
        ensures ok { IsOk result ↔ (is_power_of_two max ≡ true) }
        ensures only { IfErr result (λ e. e ≡ QueueError.InvalidMaxSize) }
    {
        let ring = VringState::new(max)?;
        Ok(VringRwLock {
            rt,
            ring: RwLock::new(ring),
        })
    }

    /// Takes the lock, to read the ring.
    pub fn get_ref(&self) -> RwRing<'_> {
        RwRing {
            guard: self.ring.read(&self.rt),
        }
    }

    /// Takes the lock, to change the ring.
    pub fn get_mut(&self) -> RwRingMut<'_> {
        RwRingMut {
            guard: self.ring.write(&self.rt),
        }
    }
}

impl<R: Wait + Copy> VringT for VringRwLock<R> {
    fn queue_next_avail(&self) -> u16 {
        self.ring.read(&self.rt).queue_next_avail()
    }

    fn set_queue_info(
        &self,
        desc_table: u64,
        avail_ring: u64,
        used_ring: u64,
    ) -> Result<(), QueueError> {
        self.ring
            .write(&self.rt)
            .set_queue_info(desc_table, avail_ring, used_ring)
    }

    fn set_enabled(&self, enabled: bool) {
        self.ring.write(&self.rt).set_enabled(enabled);
    }

    fn set_queue_next_avail(&self, base: u16) {
        self.ring.write(&self.rt).set_queue_next_avail(base);
    }

    fn set_queue_next_used(&self, index: u16) {
        self.ring.write(&self.rt).set_queue_next_used(index);
    }

    fn set_queue_size(&self, size: u16) {
        self.ring.write(&self.rt).set_queue_size(size);
    }

    fn set_queue_event_idx(&self, enabled: bool) {
        self.ring.write(&self.rt).set_queue_event_idx(enabled);
    }

    fn set_queue_ready(&self, ready: bool) {
        self.ring.write(&self.rt).set_queue_ready(ready);
    }

    fn set_kick(&self, kick: Option<u32>) {
        self.ring.write(&self.rt).set_kick(kick);
    }

    fn set_call(&self, call: Option<u32>) {
        self.ring.write(&self.rt).set_call(call);
    }

    fn set_err(&self, err: Option<u32>) {
        self.ring.write(&self.rt).set_err(err);
    }

    fn queue_used_idx<L: DirtyLog>(&self, memory: &GuestMemory<L>) -> Result<u16, QueueError> {
        let ring = self.ring.read(&self.rt);
        used_idx(&*ring, memory)
    }

    fn add_used<L: DirtyLog>(
        &self,
        memory: &mut GuestMemory<L>,
        head: u16,
        len: u32,
    ) -> Result<(), QueueError> {
        let mut ring = self.ring.write(&self.rt);
        use_entry(&mut *ring, memory, head, len)
    }

    fn enable_notification<L: DirtyLog>(
        &self,
        memory: &mut GuestMemory<L>,
    ) -> Result<bool, QueueError> {
        let mut ring = self.ring.write(&self.rt);
        ask(&mut *ring, memory)
    }

    fn disable_notification<L: DirtyLog>(
        &self,
        memory: &mut GuestMemory<L>,
    ) -> Result<(), QueueError> {
        let mut ring = self.ring.write(&self.rt);
        decline(&mut *ring, memory)
    }

    fn needs_notification<L: DirtyLog>(&self, memory: &GuestMemory<L>) -> Result<bool, QueueError> {
        let mut ring = self.ring.write(&self.rt);
        is_asked(&mut *ring, memory)
    }

    fn signal_used_queue<H: Host>(&self, host: &mut H) -> Result<(), HostError> {
        self.ring.read(&self.rt).signal_used_queue(host)
    }

    fn read_kick<H: Host>(&self, host: &mut H) -> Result<bool, HostError> {
        self.ring.read(&self.rt).read_kick(host)
    }
}
