//! The connections of a daemon: a control thread is started over a link, and waited for.
ghost use Rattle.std.specs.Prelude.{◌≡◌, true, false, is_some, IfOk, IfErr, IfSome, OnOk};
ghost use Rattle.vub_daemon.specs.Causes.{Counts, IsStartError, IsUnstarted, Serves};
ghost use Rattle.vub_daemon.specs.Verdicts.{IsWaited};
ghost use Rattle.vub_daemon.specs.declared.error.Error.TheVariants as error;

use crate::connection::{Connection, ShutdownHandle};
use crate::daemon::VhostUserDaemon;
use crate::duties::{Control, DaemonEnd, DaemonJob};
use crate::error::Error;
use crate::starting::{Unstarted, send_exits, start_control};
use crate::verdicts::{serve_verdict, wait_verdict};
use std::alloc::Global;
use std::mem;
use std::sync::{Arc, Mutex, Wait};
use vub_attend::Link;
use vub_base::OutOfMemory;
use vub_handler::VhostUserHandler;
use vub_locks::{Gate, LockedParts};
use vub_proto::{Service, VhostUserBackendMut};
use vub_threads::{Spawner, Task};

/// What a control thread is given but for its link, and what ends it.
#[derive(Drop)]
struct Furnished<
    R: Wait + Copy,
    D: VhostUserBackendMut,
    V: Service,
    G: Gate + Drop,
    K: Link + Drop,
> {
    handle: ShutdownHandle<K::Closer>,
    handler: Arc<Mutex<VhostUserHandler>, Global>,
    parts: LockedParts<R, D, V, G>,
}

/// The error for a control thread that was not started, where this is the word for a link that can't be opened.
fn start_error(unstarted: Unstarted, unopened: Error) -> Error
    ensures { (before now : Counts) → IsUnstarted before now unstarted → IsStartError unopened before now result }
{
    match unstarted {
        Unstarted::Link => unopened,
        Unstarted::Thread => Error::StartDaemon,
        Unstarted::Memory => Error::OutOfMemory,
    }
}

impl<
    R: Wait + Copy,
    D: VhostUserBackendMut,
    V: Service,
    G: Gate + Drop,
    K: Link + Drop,
    T: Task<DaemonEnd> + Drop,
    S: Drop,
> VhostUserDaemon<R, D, V, G, K, T, S> {
    /// What a control thread over this link is given, and what ends it.
    ///
    /// # Errors
    /// Want of memory.
    fn furnish(&self, link: &K) -> Result<Furnished<R, D, V, G, K>, OutOfMemory> {
        let handle = ShutdownHandle::new(self.alloc, link.closer(self.alloc)?)?;
        let handler = Arc::try_clone(&self.handler)?;
        let shared = Arc::try_clone(&self.shared)?;
        Ok(Furnished {
            handle,
            handler,
            parts: LockedParts::new(self.rt, self.alloc, shared),
        })
    }

    /// Waits until the control thread has ended, if there is one. The daemon is not connected then, whatever is
    /// answered.
    ///
    /// # Errors
    /// That of [`wait_verdict`].
    pub fn wait(&mut self) -> Result<(), Error>
        ensures waited { IsWaited self.old.connected result }
        ensures over { self.new.connected ≡ false }
        ensures spawner { self.new.spawner ≡ self.old.spawner }
        ensures handles { self.new.handles ≡ self.old.handles }
    {
        match mem::replace(&mut self.control, None) {
            None => Ok(()),
            Some(connection) => {
                let Connection { task, handle } = connection;
                let end = task.join();
                wait_verdict(end, handle.is_requested())
            }
        }
    }

    /// What asks for the end of the connection; None exactly where the daemon is not connected.
    ///
    /// # Errors
    /// Want of memory.
    pub fn shutdown_handle(&self) -> Result<Option<ShutdownHandle<K::Closer>>, OutOfMemory>
        ensures { IfOk result (λ handle. is_some handle ≡ self.now.connected) }
    {
        match &self.control {
            None => Ok(None),
            Some(connection) => Ok(Some(connection.handle.try_clone()?)),
        }
    }

    /// Requests a shutdown of the connection, and closes its link. Where the daemon is not connected it does nothing.
    /// It may be called again. Takes no memory.
    pub fn request_shutdown(&self) {
        if let Some(connection) = &self.control {
            connection.handle.shutdown();
        }
    }
}

impl<
    R: Wait + Copy,
    D: VhostUserBackendMut,
    V: Service,
    G: Gate + Drop,
    K: Link + Drop,
    T: Task<DaemonEnd> + Drop,
    S: Spawner<DaemonJob<R, D, V, G, K>, Task = T> + Drop,
> VhostUserDaemon<R, D, V, G, K, T, S> {
    /// Opens the link, and starts a control thread over it.
    ///
    /// # Errors
    /// The link is handed back.
    fn connect(&mut self, link: K) -> Result<(), (Unstarted, K)>
        requires { S.can_spawn self.old.spawner }
        ensures can { S.can_spawn self.new.spawner }
        ensures ok { OnOk result (self.new.connected ≡ true) }
        ensures err { IfErr result (λ e. self.new.connected ≡ self.old.connected) }
        ensures handles { self.new.handles ≡ self.old.handles }
        ensures count { OnOk result (S.fault_count self.new.spawner ≡ S.fault_count self.old.spawner) }
        ensures cause { IfErr result (λ e. IsUnstarted
            (record { link = K.fault_count link; spawner = S.fault_count self.old.spawner })
            (record { link = K.fault_count e.1; spawner = S.fault_count self.new.spawner }) e.0) }
        ensures talk { IfErr result (λ e. K.talk e.1 ≡ K.talk link) }
    {
        let mut link = link;
        if link.open().is_err() {
            return Err((Unstarted::Link, link));
        }
        let Ok(furnished) = self.furnish(&link) else {
            return Err((Unstarted::Memory, link));
        };
        let Furnished {
            handle,
            handler,
            parts,
        } = furnished;
        let control = Control { handler, link };
        let name = self.name.as_str();
        match start_control(self.rt, self.alloc, &mut self.spawner, name, parts, control) {
            Ok(task) => {
                self.control = Some(Connection { task, handle });
                Ok(())
            }
            Err(link) => Err((Unstarted::Thread, link)),
        }
    }

    /// Opens the link, and starts a control thread over it, which plays its requests one after the other. The daemon is
    /// connected until it was waited for.
    ///
    /// # Errors
    /// `CreateBackendListener` where the link can't be opened, only where its count rose; `StartDaemon` only where the
    /// spawner's count rose; want of memory. The link is handed back, with its talk as it was, and the daemon is not
    /// connected.
    pub fn start(&mut self, link: K) -> Result<(), (Error, K)>
        requires can { S.can_spawn self.old.spawner }
        requires alone { self.old.connected ≡ false }
        ensures can { S.can_spawn self.new.spawner }
        ensures ok { OnOk result (self.new.connected ≡ true) }
        ensures err { IfErr result (λ e. self.new.connected ≡ false) }
        ensures handles { self.new.handles ≡ self.old.handles }
        ensures count { OnOk result (S.fault_count self.new.spawner ≡ S.fault_count self.old.spawner) }
        ensures cause { IfErr result (λ e. IsStartError error.CreateBackendListener
            (record { link = K.fault_count link; spawner = S.fault_count self.old.spawner })
            (record { link = K.fault_count e.1; spawner = S.fault_count self.new.spawner }) e.0) }
        ensures talk { IfErr result (λ e. K.talk e.1 ≡ K.talk link) }
    {
        match self.connect(link) {
            Ok(()) => Ok(()),
            Err((unstarted, link)) => {
                Err((start_error(unstarted, Error::CreateBackendListener), link))
            }
        }
    }

    /// As `start`, over the link of a client.
    ///
    /// # Errors
    /// As of `start`, but for `CreateBackendReqHandler` where the link can't be opened.
    pub fn start_client(&mut self, link: K) -> Result<(), (Error, K)>
        requires can { S.can_spawn self.old.spawner }
        requires alone { self.old.connected ≡ false }
        ensures can { S.can_spawn self.new.spawner }
        ensures ok { OnOk result (self.new.connected ≡ true) }
        ensures err { IfErr result (λ e. self.new.connected ≡ false) }
        ensures handles { self.new.handles ≡ self.old.handles }
        ensures count { OnOk result (S.fault_count self.new.spawner ≡ S.fault_count self.old.spawner) }
        ensures cause { IfErr result (λ e. IsStartError error.CreateBackendReqHandler
            (record { link = K.fault_count link; spawner = S.fault_count self.old.spawner })
            (record { link = K.fault_count e.1; spawner = S.fault_count self.new.spawner }) e.0) }
        ensures talk { IfErr result (λ e. K.talk e.1 ≡ K.talk link) }
    {
        match self.connect(link) {
            Ok(()) => Ok(()),
            Err((unstarted, link)) => {
                Err((start_error(unstarted, Error::CreateBackendReqHandler), link))
            }
        }
    }

    /// Starts a control thread over the link, waits until it has ended, and tells the workers to end.
    ///
    /// # Errors
    /// As of `start`, but for `CreateVhostUserListener` where the link can't be opened; then the link is handed back,
    /// and nothing more was done. That of [`serve_verdict`], with no link.
    pub fn serve(&mut self, link: K) -> Result<(), (Error, Option<K>)>
        requires can { S.can_spawn self.old.spawner }
        requires alone { self.old.connected ≡ false }
        ensures can { S.can_spawn self.new.spawner }
        ensures over { self.new.connected ≡ false }
        ensures handles { self.new.handles ≡ self.old.handles }
        ensures served { Serves (record { link = K.fault_count link; spawner = S.fault_count self.old.spawner })
            K.fault_count (S.fault_count self.new.spawner) result }
        ensures talk { IfErr result (λ e. IfSome e.1 (λ k. K.talk k ≡ K.talk link)) }
    {
        match self.connect(link) {
            Ok(()) => {
                let waited = self.wait();
                send_exits(&self.rt, self.alloc, &*self.shared, self.handles.as_slice());
                match serve_verdict(waited) {
                    Ok(()) => Ok(()),
                    Err(error) => Err((error, None)),
                }
            }
            Err((unstarted, link)) => {
                let error = start_error(unstarted, Error::CreateVhostUserListener);
                Err((error, Some(link)))
            }
        }
    }
}
