//! The objects of a daemon: events, contents and logs are added, signalled, stored and read, and listeners registered.
ghost use Rattle.std.specs.Prelude.{◌≡◌, ◌↔◌, ◌⊎◌, Err, IfErr, IsErrOf};

use crate::daemon::VhostUserDaemon;
use crate::duties::DaemonEnd;
use std::sync::{Arc, Wait};
use vub_attend::Link;
use vub_base::{Bytes, OutOfMemory};
use vub_event::{EventSet, HostError};
use vub_handler::EpollHandle;
use vub_locks::{Gate, LockedParts};
use vub_log::Harvester;
use vub_loop::ListenerFault;
use vub_mem::LogError;
use vub_proto::{Service, VhostUserBackendMut};
use vub_threads::Task;
use vub_vring::{HostOp, HostSaid};

impl<
    R: Wait + Copy,
    D: VhostUserBackendMut,
    V: Service,
    G: Gate + Drop,
    K: Link + Drop,
    T: Task<DaemonEnd> + Drop,
    S: Drop,
> VhostUserDaemon<R, D, V, G, K, T, S> {
    /// Adds an event with these flags, and gives its number: `EFD_CLOEXEC`, `EFD_NONBLOCK` and `EFD_SEMAPHORE` of
    /// eventfd(2).
    ///
    /// # Errors
    /// Those of `create_event` of a host, but for a fault.
    pub fn add_event(&self, flags: u32) -> Result<u32, HostError>
        ensures { ¬ (IsErrOf result HostError.Failed) }
    {
        match self
            .shared
            .call_host(&self.rt, self.alloc, HostOp::CreateEvent(flags))
        {
            Ok(HostSaid::Number(number)) => Ok(number),
            Ok(HostSaid::Refused(error)) => Err(error),
            _ => Err(HostError::OutOfMemory),
        }
    }

    /// Adds to the count of an event.
    ///
    /// # Errors
    /// Those of `signal` of a host, but for a fault. Takes no memory.
    pub fn signal(&self, object: u32, value: u64) -> Result<(), HostError>
        ensures fault { ¬ (IsErrOf result HostError.Failed) }
        ensures memory { ¬ (IsErrOf result HostError.OutOfMemory) }
    {
        match self
            .shared
            .call_host(&self.rt, self.alloc, HostOp::Signal(object, value))
        {
            Ok(HostSaid::Refused(error)) => Err(error),
            _ => Ok(()),
        }
    }

    /// Adds a content with these bytes, and gives its number. Contents are numbered from 0, apart from events and logs.
    ///
    /// # Errors
    /// Want of memory, or 4294967295 contents were added.
    pub fn add_content(&self, bytes: Bytes) -> Result<u32, OutOfMemory> {
        self.shared.add_content(&self.rt, self.alloc, bytes)
    }

    /// Adds a log of dirty pages of `len` bytes, and gives its number and what harvests it. Logs are numbered from 0,
    /// apart from events and contents.
    ///
    /// # Errors
    /// `EmptyLog` exactly where `len` is 0. Want of memory, or 4294967295 logs were added.
    pub fn add_log(&self, len: u32) -> Result<(u32, Harvester), LogError>
        ensures empty { (result ≡ Err LogError.EmptyLog) ↔ (len ≡ 0) }
        ensures only { IfErr result (λ e. (e ≡ LogError.EmptyLog) ⊎ (e ≡ LogError.OutOfMemory)) }
    {
        self.shared.add_log(&self.rt, self.alloc, len)
    }

    /// Stores bytes in a content from byte `offset` on. False exactly where the content is missing or the bytes do not
    /// lie inside it; then nothing changes.
    pub fn store(&self, object: u32, offset: u64, bytes: &[u8]) -> bool {
        self.shared.store(&self.rt, object, offset, bytes)
    }

    /// `len` bytes of a content from byte `offset` on. None exactly where the content is missing or the bytes do not
    /// lie inside it.
    ///
    /// # Errors
    /// Want of memory.
    pub fn read_content(
        &self,
        object: u32,
        offset: u64,
        len: u32,
    ) -> Result<Option<Bytes>, OutOfMemory> {
        self.shared
            .read_content(&self.rt, self.alloc, object, offset, len)
    }

    /// Adds the event object to the list of a worker: the device handles its events under this token.
    ///
    /// # Errors
    /// Those of [`EpollHandle::register_listener`], but for a fault of the host; want of memory.
    pub fn register_listener(
        &self,
        handle: &EpollHandle,
        object: u32,
        set: EventSet,
        token: u64,
    ) -> Result<(), ListenerFault>
        ensures { ¬ (IsErrOf result ListenerFault.Host) }
    {
        let Ok(shared) = Arc::try_clone(&self.shared) else {
            return Err(ListenerFault::OutOfMemory);
        };
        let mut parts = LockedParts::new(self.rt, self.alloc, shared);
        handle.register_listener(self.alloc, &mut parts, object, set, token)
    }

    /// Takes the event object off the list of a worker.
    ///
    /// # Errors
    /// Those of [`EpollHandle::unregister_listener`], but for a fault of the host; want of memory.
    pub fn unregister_listener(
        &self,
        handle: &EpollHandle,
        object: u32,
        set: EventSet,
        token: u64,
    ) -> Result<(), ListenerFault>
        ensures { ¬ (IsErrOf result ListenerFault.Host) }
    {
        let Ok(shared) = Arc::try_clone(&self.shared) else {
            return Err(ListenerFault::OutOfMemory);
        };
        let mut parts = LockedParts::new(self.rt, self.alloc, shared);
        handle.unregister_listener(self.alloc, &mut parts, object, set, token)
    }
}
