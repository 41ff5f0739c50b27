ghost use Rattle.std.specs.Prelude.{◌≡◌, ◌∷◌, [], ◌+◌, Ok, if◌then◌else◌, IfOk};
ghost use Rattle.vub_base.specs.Told.{Told};
ghost use Rattle.vub_event.specs.Counter.{has_bits};
ghost use Rattle.vub_event.specs.Errors.{RefusesBy};
ghost use Rattle.vub_event.specs.Faults.{CountsFaults};
ghost use Rattle.vub_event.specs.HostCalls.{SignalCall};
ghost use Rattle.vub_counter.specs.CounterCalls.{MakesEvent, ReadsCounter};
ghost use Rattle.vub_counter.specs.Flags.{made_flags};

use crate::event_flag::EventFlag;
use std::alloc::Global;
use std::marker::Model;
use vub_event::{Host, HostError};

/// The end of an event counter that tells of an event. A contract sees the number of its object.
#[derive(Debug, Drop)]
pub struct EventNotifier {
    object: u32,
}

impl Model for EventNotifier {
    ghost use Rattle.std.specs.Prelude.{ℕ};

    ghost Value = { ℕ };

    ghost view = { λ end. end.object };
}

/// The end of an event counter that takes note of events. A contract sees the number of its object.
#[derive(Debug, Drop)]
pub struct EventConsumer {
    object: u32,
}

impl Model for EventConsumer {
    ghost use Rattle.std.specs.Prelude.{ℕ};

    ghost Value = { ℕ };

    ghost view = { λ end. end.object };
}

impl EventNotifier {
    /// Adds 1 to the count.
    ///
    /// # Errors
    /// As [`Host::signal`].
    pub fn notify<H: Host>(&self, host: &mut H) -> Result<(), HostError>
        ensures faults { CountsFaults (H.fault_count host.old) (H.fault_count host.new) (H.never_fails host.old)
            (H.never_fails host.new) result }
        ensures refusals { RefusesBy result
            (HostError.Failed ∷ HostError.WouldBlock ∷ HostError.EINVAL ∷ HostError.EBADF ∷ []) }
        ensures table { Told (H.held host.old) (H.held host.new) (SignalCall self.now 1 result) }
    {
        host.signal(self.object, 1)
    }

    /// The same end once more. It is never refused.
    pub fn try_clone(&self) -> Result<EventNotifier, HostError>
        ensures { result ≡ Ok self.now }
    {
        Ok(EventNotifier {
            object: self.object,
        })
    }

    /// The number of its object.
    pub fn object(&self) -> u32
        ensures { result ≡ self.now }
    {
        self.object
    }

    /// The notifier of the object with this number.
    pub fn from_object(object: u32) -> EventNotifier
        ensures { result ≡ object }
    {
        EventNotifier { object }
    }
}

impl EventConsumer {
    /// Reads the counter. The count is not answered.
    ///
    /// # Errors
    /// As [`Host::consume`].
    pub fn consume<H: Host>(&self, host: &mut H) -> Result<(), HostError>
        ensures faults { CountsFaults (H.fault_count host.old) (H.fault_count host.new) (H.never_fails host.old)
            (H.never_fails host.new) result }
        ensures refusals { RefusesBy result (HostError.Failed ∷ HostError.WouldBlock ∷ HostError.EBADF ∷ []) }
        ensures table { Told (H.held host.old) (H.held host.new) (ReadsCounter self.now result) }
    {
        let _count = host.consume(self.object)?;
        Ok(())
    }

    /// The same end once more. It is never refused.
    pub fn try_clone(&self) -> Result<EventConsumer, HostError>
        ensures { result ≡ Ok self.now }
    {
        Ok(EventConsumer {
            object: self.object,
        })
    }

    /// The number of its object.
    pub fn object(&self) -> u32
        ensures { result ≡ self.now }
    {
        self.object
    }

    /// The consumer of the object with this number.
    pub fn from_object(object: u32) -> EventConsumer
        ensures { result ≡ object }
    {
        EventConsumer { object }
    }
}

/// The two ends of a new event counter. NONBLOCK becomes [`crate::EFD_NONBLOCK`], CLOEXEC [`crate::EFD_CLOEXEC`].
///
/// # Errors
/// As [`Host::create_event`].
pub fn new_event_consumer_and_notifier<H: Host>(
    alloc: Global,
    host: &mut H,
    flags: EventFlag,
) -> Result<(EventConsumer, EventNotifier), HostError>
    ensures faults { CountsFaults (H.fault_count host.old) (H.fault_count host.new) (H.never_fails host.old)
        (H.never_fails host.new) result }
    ensures refusals { RefusesBy result (HostError.Failed ∷ HostError.EINVAL ∷ HostError.OutOfMemory ∷ []) }
    ensures same { IfOk result (λ ends. ends.0 ≡ ends.1) }
    ensures table { Told (H.held host.old) (H.held host.new) (MakesEvent (λ ends. ends.0) (made_flags flags.0) result) }
{
    let object = host.create_event(alloc, flags.event_flags())?;
    Ok((EventConsumer { object }, EventNotifier { object }))
}
