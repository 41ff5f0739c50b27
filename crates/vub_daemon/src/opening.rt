//! The parts of a new daemon, before its threads.
ghost use Rattle.std.specs.Prelude.{◌≡◌, true, is_some, IfErr, IfSome, OnOk};
ghost use Rattle.std.specs.Int.{is_power_of_two};
ghost use Rattle.vub_handler.specs.Opening.{is_greatest_size};
ghost use Rattle.vub_daemon.specs.Causes.{IsOpeningError};

use crate::error::Error;
use std::alloc::Global;
use std::sync::{Arc, Mutex, Wait};
use vub_base::OutOfMemory;
use vub_event::MemHost;
use vub_handler::{EpollHandle, VhostUserHandler, VhostUserHandlerError};
use vub_locks::{Gate, LockedParts, OpenParts, QuietHost, RingBook, SharedParts};
use vub_mem::GuestMemory;
use vub_model::Opened;
use vub_open::read_constants;
use vub_proto::{Service, VhostUserBackendMut};
use vub_queue::QueueError;
use vub_vring::{HostOp, Parts, VringState};

/// The flags of an exit object: it never blocks (`EFD_NONBLOCK` of eventfd(2)).
const NONBLOCK: u32 = 0x800;

/// The greatest size of a queue that virtio allows.
const GREATEST_SIZE: usize = 32768;

/// The parts of a daemon, and its session.
#[derive(Drop)]
pub(crate) struct Opening<D: VhostUserBackendMut, V: Service, G: Gate + Drop> {
    pub shared: Arc<SharedParts<D, V, G>, Global>,
    pub handler: Arc<Mutex<VhostUserHandler>, Global>,
    pub opened: Vec<Opened>,
    pub handles: Vec<EpollHandle>,
}

/// The greatest size of the queues, if they may have it.
fn greatest_size(max: usize) -> Option<u16>
    ensures some { IfSome result (λ n. is_power_of_two n ≡ true) }
    ensures size { is_some result ≡ is_greatest_size max }
{
    if max.is_power_of_two() && max <= GREATEST_SIZE {
        Some(max as u16)
    } else {
        None
    }
}

/// Queues of this greatest size, each with a book that begins with it.
///
/// # Errors
/// Want of memory.
fn new_rings(alloc: Global, count: usize, max: u16) -> Result<Vec<RingBook>, OutOfMemory>
    requires { is_power_of_two max ≡ true }
{
    let mut rings = Vec::new(alloc);
    for _ in 0..count {
        let Ok(ring) = VringState::new(max) else {
            unreachable!()
        };
        rings.push(RingBook::new(alloc, ring))?;
    }
    Ok(rings)
}

/// A host with so many events, numbered from 0, for the exits of workers.
///
/// # Errors
/// Want of memory.
fn new_host(alloc: Global, events: usize) -> Result<QuietHost, OutOfMemory> {
    let mut host = QuietHost::new(MemHost::new(alloc));
    for _ in 0..events {
        if host.play(alloc, HostOp::CreateEvent(NONBLOCK)).is_err() {
            return Err(OutOfMemory);
        }
    }
    Ok(host)
}

/// The parts of a device and a service, under locks, with queues of this greatest size.
///
/// # Errors
/// Want of memory.
fn new_parts<D: VhostUserBackendMut, V: Service, G: Gate + Drop>(
    alloc: Global,
    max: u16,
    device: D,
    service: V,
    gate: G,
) -> Result<SharedParts<D, V, G>, OutOfMemory>
    requires { is_power_of_two max ≡ true }
{
    let constants = read_constants(alloc, &device)?;
    let rings = new_rings(alloc, constants.queues, max)?;
    let workers = constants.masks.len();
    let host = new_host(alloc, workers)?;
    SharedParts::new(
        alloc,
        OpenParts {
            memory: GuestMemory::new(alloc),
            rings,
            host,
            workers,
            device,
            service,
            constants,
            gate,
        },
    )
}

/// Opens the workers, and makes the session over them. The host has no call to fail and the greatest size was tested,
/// so this is refused for want of memory alone.
///
/// # Errors
/// Want of memory.
fn new_session<P: Parts>(alloc: Global, parts: &mut P) -> Result<VhostUserHandler, OutOfMemory> {
    match VhostUserHandler::new(alloc, parts) {
        Ok(handler) => Ok(handler),
        Err(_) => Err(OutOfMemory),
    }
}

/// What a daemon is made of, but for its threads, over parts that are made.
///
/// # Errors
/// Want of memory.
fn over_parts<R: Wait + Copy, D: VhostUserBackendMut, V: Service, G: Gate + Drop>(
    rt: R,
    alloc: Global,
    parts: SharedParts<D, V, G>,
) -> Result<Opening<D, V, G>, OutOfMemory> {
    let shared = Arc::new(alloc, parts)?;
    let mut parts = LockedParts::new(rt, alloc, Arc::try_clone(&shared)?);
    let handler = new_session(alloc, &mut parts)?;
    let opened = Vec::from_slice(alloc, handler.opened())?;
    let handles = handler.get_epoll_handlers(alloc)?;
    let handler = Arc::new(alloc, Mutex::new(handler))?;
    Ok(Opening {
        shared,
        handler,
        opened,
        handles,
    })
}

/// What a daemon is made of, but for its threads.
///
/// # Errors
/// `CreateVring` exactly where the greatest size of a queue is no power of two from 1 to 32768. Want of memory.
pub(crate) fn open_daemon<R: Wait + Copy, D: VhostUserBackendMut, V: Service, G: Gate + Drop>(
    rt: R,
    alloc: Global,
    device: D,
    service: V,
    gate: G,
) -> Result<Opening<D, V, G>, Error>
    ensures size { OnOk result (is_greatest_size (D.greatest_size device) ≡ true) }
    ensures err { IfErr result (IsOpeningError (D.greatest_size device)) }
{
    let Some(max) = greatest_size(device.max_queue_size()) else {
        return Err(Error::NewVhostUserHandler(VhostUserHandlerError::CreateVring(
            QueueError::InvalidMaxSize,
        )));
    };
    let Ok(parts) = new_parts(alloc, max, device, service, gate) else {
        return Err(Error::OutOfMemory);
    };
    match over_parts(rt, alloc, parts) {
        Ok(opening) => Ok(opening),
        Err(_) => Err(Error::OutOfMemory),
    }
}
