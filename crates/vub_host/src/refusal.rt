//! Refusals of a host as error numbers of the operating system.
ghost use Rattle.std.specs.Prelude.{◌≡◌};
ghost use Rattle.vub_host.specs.Refusals.{errno_of};

use vub_event::HostError;
use vub_util::errno::Error;

/// The error that Linux answers where the host answers this one: EAGAIN for WouldBlock and ENOMEM for want of memory.
/// None where Linux has no such refusal: the host failed, or an object is held.
pub fn errno_of(refusal: HostError) -> Option<Error>
    ensures { result ≡ errno_of refusal }
{
    match refusal {
        HostError::WouldBlock => Some(Error::new(11)),
        HostError::EINVAL => Some(Error::new(22)),
        HostError::EEXIST => Some(Error::new(17)),
        HostError::ENOENT => Some(Error::new(2)),
        HostError::EBADF => Some(Error::new(9)),
        HostError::ENOBUFS => Some(Error::new(105)),
        HostError::Failed => None,
        HostError::Held => None,
        HostError::OutOfMemory => Some(Error::new(12)),
    }
}
