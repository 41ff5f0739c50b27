//! The parts that running threads share, each under a lock of its own.
use crate::gate::Gate;
use crate::quiet_host::QuietHost;
use crate::ring_book::RingBook;
use crate::service_book::ServiceBook;
use std::alloc::Global;
use std::sync::{Condvar, Mutex};
use vub_base::OutOfMemory;
use vub_log::LogSeat;
use vub_mem::GuestMemory;
use vub_model::Constants;
use vub_proto::{Service, VhostUserBackendMut};
use vub_ring::Pending;

/// A ring under its lock, and the condition for those that wait until its entry in flight is used or held.
#[derive(Drop)]
pub(crate) struct LockedRing {
    pub ring: Mutex<RingBook>,
    pub freed: Condvar,
}

/// A host under its lock, and the condition for those that wait until a member of a list is ready.
#[derive(Drop)]
pub(crate) struct LockedHost {
    pub host: Mutex<QuietHost>,
    pub changed: Condvar,
}

/// All parts, before they lie under locks.
#[derive(Drop)]
pub struct OpenParts<D: VhostUserBackendMut, V: Service, G: Gate + Drop> {
    pub memory: GuestMemory<LogSeat>,
    /// The rings by queue.
    pub rings: Vec<RingBook>,
    pub host: QuietHost,
    /// The number of workers, each of which has a pending set.
    pub workers: usize,
    pub device: D,
    pub service: V,
    pub constants: Constants,
    pub gate: G,
}

/// The parts that all threads share. Each ring has a lock, and so have guest memory, the host, each pending set, the
/// device and the service. Locks are taken in the order ring, memory, host.
#[derive(Drop)]
pub struct SharedParts<D: VhostUserBackendMut, V: Service, G: Gate + Drop> {
    pub(crate) rings: Vec<LockedRing>,
    pub(crate) memory: Mutex<GuestMemory<LogSeat>>,
    pub(crate) host: LockedHost,
    pub(crate) pending: Vec<Mutex<Pending>>,
    pub(crate) device: Mutex<D>,
    pub(crate) service: Mutex<ServiceBook<V>>,
    pub(crate) constants: Constants,
    pub(crate) gate: G,
    // the next numbers of contents and of logs
    pub(crate) contents: Mutex<u32>,
    pub(crate) logs: Mutex<u32>,
}

// Each part lies under a lock of its own, but for the constants, which never change, and the gate.
unsafe impl<D: VhostUserBackendMut + Send, V: Service + Send, G: Gate + Drop + Send> Send
    for SharedParts<D, V, G> {}

unsafe impl<D: VhostUserBackendMut + Send, V: Service + Send, G: Gate + Drop + Sync> Sync
    for SharedParts<D, V, G> {}

/// Each ring under a lock.
///
/// # Errors
/// Want of memory.
fn locked_rings(alloc: Global, rings: Vec<RingBook>) -> Result<Vec<LockedRing>, OutOfMemory> {
    let mut locked = Vec::with_capacity(alloc, rings.len())?;
    for ring in rings {
        locked.push(LockedRing {
            ring: Mutex::new(ring),
            freed: Condvar::new(),
        })?;
    }
    Ok(locked)
}

/// An empty pending set under a lock for each worker.
///
/// # Errors
/// Want of memory.
fn locked_sets(alloc: Global, workers: usize) -> Result<Vec<Mutex<Pending>>, OutOfMemory> {
    let mut locked = Vec::with_capacity(alloc, workers)?;
    for _ in 0..workers {
        locked.push(Mutex::new(Pending::new(alloc)))?;
    }
    Ok(locked)
}

impl<D: VhostUserBackendMut, V: Service, G: Gate + Drop> SharedParts<D, V, G> {
    /// These parts under locks. No pending set has a number, and the service has answered no entry.
    ///
    /// # Errors
    /// Want of memory.
    pub fn new(
        alloc: Global,
        parts: OpenParts<D, V, G>,
    ) -> Result<SharedParts<D, V, G>, OutOfMemory> {
        let OpenParts {
            memory,
            rings,
            host,
            workers,
            device,
            service,
            constants,
            gate,
        } = parts;
        let rings = locked_rings(alloc, rings)?;
        let pending = locked_sets(alloc, workers)?;
        Ok(SharedParts {
            rings,
            memory: Mutex::new(memory),
            host: LockedHost {
                host: Mutex::new(host),
                changed: Condvar::new(),
            },
            pending,
            device: Mutex::new(device),
            service: Mutex::new(ServiceBook::new(alloc, service)),
            constants,
            gate,
            contents: Mutex::new(0),
            logs: Mutex::new(0),
        })
    }
}
