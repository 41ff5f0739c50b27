//! A host under a lock, shared by threads.
ghost use Rattle.std.specs.Prelude.{None};

use crate::quiet_host::QuietHost;
use crate::shared::LockedHost;
use std::alloc::Global;
use std::sync::{Arc, Condvar, Mutex, Wait};
use vub_base::OutOfMemory;
use vub_event::{EventSet, Host, HostError, Ready};

/// One party's way to a host that threads share. Each call is one hold of its lock and the same call of the host that
/// lies under it, and wakes those that wait until a member of a list is ready. It tells nothing, and no call fails.
#[derive(Drop)]
pub struct SharedHost<R: Wait + Copy> {
    rt: R,
    shared: Arc<LockedHost, Global>,
}

impl<R: Wait + Copy> SharedHost<R> {
    /// A way to this host.
    ///
    /// # Errors
    /// Want of memory.
    pub fn new(rt: R, alloc: Global, host: QuietHost) -> Result<SharedHost<R>, OutOfMemory> {
        let shared = Arc::new(
            alloc,
            LockedHost {
                host: Mutex::new(host),
                changed: Condvar::new(),
            },
        )?;
        Ok(SharedHost { rt, shared })
    }

    /// The way of one more party.
    ///
    /// # Errors
    /// Want of memory.
    pub fn try_clone(&self) -> Result<SharedHost<R>, OutOfMemory> {
        let shared = Arc::try_clone(&self.shared)?;
        Ok(SharedHost {
            rt: self.rt,
            shared,
        })
    }
}

impl<R: Wait + Copy> Host for SharedHost<R> {
    ghost held = { λ _. None };

    ghost fault_count = { λ _. 0 };

    ghost never_fails = { λ _. Unit {0} };

    fn faults(&self) -> u64 {
        0
    }

    fn create_event(&mut self, alloc: Global, flags: u32) -> Result<u32, HostError> {
        let mut quiet = self.shared.host.lock(&self.rt);
        let said = quiet.host.create_event(alloc, flags);
        self.shared.changed.notify_all();
        said
    }

    fn create_list(&mut self, alloc: Global) -> Result<u32, HostError> {
        let mut quiet = self.shared.host.lock(&self.rt);
        let said = quiet.host.create_list(alloc);
        self.shared.changed.notify_all();
        said
    }

    fn signal(&mut self, object: u32, value: u64) -> Result<(), HostError> {
        let mut quiet = self.shared.host.lock(&self.rt);
        let said = quiet.host.signal(object, value);
        self.shared.changed.notify_all();
        said
    }

    fn consume(&mut self, object: u32) -> Result<u64, HostError> {
        let mut quiet = self.shared.host.lock(&self.rt);
        let said = quiet.host.consume(object);
        self.shared.changed.notify_all();
        said
    }

    fn add(
        &mut self,
        alloc: Global,
        list: u32,
        object: u32,
        set: EventSet,
        token: u64,
    ) -> Result<(), HostError> {
        let mut quiet = self.shared.host.lock(&self.rt);
        let said = quiet.host.add(alloc, list, object, set, token);
        self.shared.changed.notify_all();
        said
    }

    fn modify(
        &mut self,
        list: u32,
        object: u32,
        set: EventSet,
        token: u64,
    ) -> Result<(), HostError> {
        let mut quiet = self.shared.host.lock(&self.rt);
        let said = quiet.host.modify(list, object, set, token);
        self.shared.changed.notify_all();
        said
    }

    fn delete(&mut self, list: u32, object: u32) -> Result<(), HostError> {
        let mut quiet = self.shared.host.lock(&self.rt);
        let said = quiet.host.delete(list, object);
        self.shared.changed.notify_all();
        said
    }

    fn listen(
        &mut self,
        alloc: Global,
        list: u32,
        object: u32,
        token: u64,
    ) -> Result<(), HostError> {
        let mut quiet = self.shared.host.lock(&self.rt);
        let said = quiet.host.listen(alloc, list, object, token);
        self.shared.changed.notify_all();
        said
    }

    fn unlisten(&mut self, list: u32, object: u32, above: u64) -> Result<(), HostError> {
        let mut quiet = self.shared.host.lock(&self.rt);
        let said = quiet.host.unlisten(list, object, above);
        self.shared.changed.notify_all();
        said
    }

    fn consume_as(&mut self, list: u32, object: u32, token: u64) -> Result<bool, HostError> {
        let mut quiet = self.shared.host.lock(&self.rt);
        let said = quiet.host.consume_as(list, object, token);
        self.shared.changed.notify_all();
        said
    }

    fn ready(&mut self, list: u32) -> Result<Option<Ready>, HostError> {
        let mut quiet = self.shared.host.lock(&self.rt);
        let said = quiet.host.ready(list);
        self.shared.changed.notify_all();
        said
    }

    fn ready_many(
        &mut self,
        alloc: Global,
        list: u32,
        most: usize,
    ) -> Result<Vec<Ready>, HostError> {
        let mut quiet = self.shared.host.lock(&self.rt);
        let said = quiet.host.ready_many(alloc, list, most);
        self.shared.changed.notify_all();
        said
    }

    fn claim(&mut self, object: u32, queue: u32) -> Result<(), HostError> {
        let mut quiet = self.shared.host.lock(&self.rt);
        let said = quiet.host.claim(object, queue);
        self.shared.changed.notify_all();
        said
    }

    fn release(&mut self, object: u32) {
        let mut quiet = self.shared.host.lock(&self.rt);
        quiet.host.release(object);
        self.shared.changed.notify_all();
    }

    fn hang_up(&mut self, object: u32) {
        let mut quiet = self.shared.host.lock(&self.rt);
        quiet.host.hang_up(object);
        self.shared.changed.notify_all();
    }

    fn close(&mut self, object: u32) {
        let mut quiet = self.shared.host.lock(&self.rt);
        quiet.host.close(object);
        self.shared.changed.notify_all();
    }
}
