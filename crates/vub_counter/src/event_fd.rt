ghost use Rattle.std.specs.Prelude.{◌≡◌, ◌∷◌, [], Ok, length};
ghost use Rattle.std.specs.Int.{cast_unsigned, w32};
ghost use Rattle.vub_base.specs.Told.{Told};
ghost use Rattle.vub_event.specs.Errors.{RefusesBy};
ghost use Rattle.vub_event.specs.Faults.{CountsFaults};
ghost use Rattle.vub_event.specs.HostCalls.{SignalCall, ConsumeCall};
ghost use Rattle.vub_counter.specs.CounterCalls.{MakesEvent};

use std::alloc::Global;
use std::marker::Model;
use vub_event::{Host, HostError};

/// An event counter of a host: eventfd(2). A contract sees the number of its object.
#[derive(Debug, Drop)]
pub struct EventFd {
    object: u32,
}

impl Model for EventFd {
    ghost use Rattle.std.specs.Prelude.{ℕ};

    ghost Value = { ℕ };

    ghost view = { λ fd. fd.object };
}

impl EventFd {
    /// A new counter at 0. The flags are those of eventfd(2): [`crate::EFD_SEMAPHORE`], [`crate::EFD_NONBLOCK`] and
    /// [`crate::EFD_CLOEXEC`].
    ///
    /// # Errors
    /// As [`Host::create_event`].
    pub fn new<H: Host>(alloc: Global, host: &mut H, flags: i32) -> Result<EventFd, HostError>
        ensures faults { CountsFaults (H.fault_count host.old) (H.fault_count host.new) (H.never_fails host.old)
            (H.never_fails host.new) result }
        ensures refusals { RefusesBy result (HostError.Failed ∷ HostError.EINVAL ∷ HostError.OutOfMemory ∷ []) }
        ensures table { Told (H.held host.old) (H.held host.new)
            (MakesEvent (λ fd. fd) (cast_unsigned w32 flags) result) }
    {
        let object = host.create_event(alloc, flags.cast_unsigned())?;
        Ok(EventFd { object })
    }

    /// Adds `v` to the count.
    ///
    /// # Errors
    /// As [`Host::signal`]. A full counter is WouldBlock, whatever the flags.
    pub fn write<H: Host>(&self, host: &mut H, v: u64) -> Result<(), HostError>
        ensures faults { CountsFaults (H.fault_count host.old) (H.fault_count host.new) (H.never_fails host.old)
            (H.never_fails host.new) result }
        ensures refusals { RefusesBy result
            (HostError.Failed ∷ HostError.WouldBlock ∷ HostError.EINVAL ∷ HostError.EBADF ∷ []) }
        ensures table { Told (H.held host.old) (H.held host.new) (SignalCall self.now v result) }
    {
        host.signal(self.object, v)
    }

    /// Reads the count, which becomes 0; of a semaphore it reads 1, and the count falls by 1.
    ///
    /// # Errors
    /// As [`Host::consume`]. A count of 0 is WouldBlock, whatever the flags.
    pub fn read<H: Host>(&self, host: &mut H) -> Result<u64, HostError>
        ensures faults { CountsFaults (H.fault_count host.old) (H.fault_count host.new) (H.never_fails host.old)
            (H.never_fails host.new) result }
        ensures refusals { RefusesBy result (HostError.Failed ∷ HostError.WouldBlock ∷ HostError.EBADF ∷ []) }
        ensures table { Told (H.held host.old) (H.held host.new) (ConsumeCall self.now result) }
    {
        host.consume(self.object)
    }

    /// The same counter once more. It is never refused.
    pub fn try_clone(&self) -> Result<EventFd, HostError>
        ensures { result ≡ Ok self.now }
    {
        Ok(EventFd {
            object: self.object,
        })
    }

    /// The number of its object.
    pub fn object(&self) -> u32
        ensures { result ≡ self.now }
    {
        self.object
    }

    /// The counter of the object with this number.
    pub fn from_object(object: u32) -> EventFd
        ensures { result ≡ object }
    {
        EventFd { object }
    }
}
