//! The workers of a new session.
ghost use Rattle.std.specs.Prelude.{◌≡◌, ◌≤◌, ◌<◌, ◌^◌, IfOk, IfErr, IsTrue};
ghost use Rattle.vub_handler.specs.Opening.{OpensFirst, StopsAt, is_greatest_size, unopened};

use crate::error::VhostUserHandlerError;
use std::alloc::Global;
use vub_model::{Opened, VringEpollError};
use vub_vring::{Parts, open_worker};

/// The greatest size of a queue that virtio allows.
const GREATEST_SIZE: usize = 32768;

/// Whether a queue may have this greatest size.
pub(crate) fn is_greatest_size(max: usize) -> bool
    ensures same { result ≡ is_greatest_size max }
    ensures fits { IsTrue result → max ≤ 32768 }
{
    max.is_power_of_two() && max <= GREATEST_SIZE
}

/// The error for a worker that could not be opened.
pub(crate) fn unopened(error: VringEpollError) -> VhostUserHandlerError
    ensures { result ≡ unopened error }
{
    match error {
        VringEpollError::OutOfMemory => VhostUserHandlerError::OutOfMemory,
        error => VhostUserHandlerError::CreateEpollHandler(error),
    }
}

/// Opens the first `count` workers, one after the other.
///
/// # Errors
/// That of the first worker that can't be opened; want of memory. What was made before stays in the host.
pub(crate) fn open_workers<P: Parts>(
    alloc: Global,
    parts: &mut P,
    count: u32,
) -> Result<Vec<Opened>, VringEpollError>
    ensures ok { IfOk result (λ opened. OpensFirst count opened.items (P.state parts.old) (P.state parts.new)) }
    ensures err { IfErr result (λ e. StopsAt e (P.state parts.old) (P.state parts.new)) }
{
    let mut opened = Vec::new(alloc);
    for worker in 0..count {
        match open_worker(alloc, parts, worker) {
            Err(error) => return Err(error),
            Ok(next) => match opened.push(next) {
                Ok(()) => {}
                Err(_) => return Err(VringEpollError::OutOfMemory),
            },
        }
    }
    Ok(opened)
}
