//! A connection: a control thread, and what ends it.
ghost use Rattle.std.specs.Prelude.{◌≡◌, true};
ghost use Rattle.vub_daemon.specs.Duties.{is_control_end};

use crate::duties::DaemonEnd;
use crate::tasks::ControlTask;
use std::alloc::Global;
use std::sync::Arc;
use std::sync::atomic::{AtomicBool, Ordering};
use vub_attend::Closer;
use vub_base::OutOfMemory;
use vub_threads::Task;

/// Asks for the end of a connection, from any thread.
#[derive(Drop)]
pub struct ShutdownHandle<C: Closer + Drop> {
    closer: Arc<C, Global>,
    requested: Arc<AtomicBool, Global>,
}

impl<C: Closer + Drop> ShutdownHandle<C> {
    /// A handle of a connection whose link this closes. No shutdown is requested yet.
    ///
    /// # Errors
    /// Want of memory.
    pub(crate) fn new(alloc: Global, closer: C) -> Result<ShutdownHandle<C>, OutOfMemory> {
        let closer = Arc::new(alloc, closer)?;
        let requested = Arc::new(alloc, AtomicBool::new(false))?;
        Ok(ShutdownHandle { closer, requested })
    }

    /// One more handle of the same connection.
    ///
    /// # Errors
    /// Want of memory.
    pub fn try_clone(&self) -> Result<ShutdownHandle<C>, OutOfMemory> {
        let closer = Arc::try_clone(&self.closer)?;
        let requested = Arc::try_clone(&self.requested)?;
        Ok(ShutdownHandle { closer, requested })
    }

    /// Requests a shutdown, and closes the link: `wait` answers Ok then. It may be called again, and after the
    /// connection has ended. Takes no memory.
    pub fn shutdown(&self) {
        self.requested.store(true, Ordering::SeqCst);
        self.closer.close();
    }

    /// Whether a shutdown was requested.
    pub(crate) fn is_requested(&self) -> bool {
        self.requested.load(Ordering::SeqCst)
    }
}

/// A control thread that was started, and what ends it.
#[derive(Drop)]
pub(crate) struct Connection<T: Task<DaemonEnd> + Drop, C: Closer + Drop> {
    pub task: ControlTask<T>,
    pub handle: ShutdownHandle<C>,
}
