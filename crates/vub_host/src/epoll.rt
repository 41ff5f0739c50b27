ghost use Rattle.std.specs.Prelude.{◌≡◌, ◌≤◌, ◌∷◌, [], ◌++◌, ◌%◌, ◌^◌, Some, None, if◌then◌else◌, ◌==◌, IfOk, OnErr};
ghost use Rattle.std.specs.Prelude.{length, take, drop, map, min};
ghost use Rattle.std.specs.Int.{cast_signed, w32};
ghost use Rattle.std.specs.Int.RustNames.{bit_or};
ghost use Rattle.vub_base.specs.Told.{Told};
ghost use Rattle.vub_event.specs.Errors.{RefusesBy};
ghost use Rattle.vub_event.specs.Faults.{CountsFaults};
ghost use Rattle.vub_host.specs.Calls.{MakesList, ControlCall, WaitCall, event_of};

use bitflags::Flags;
use std::alloc::Global;
use std::fmt::{Debug, Formatter, Write};
use std::marker::Model;
use vub_event::{EventSet, Host, HostError, Ready};

/// What [`Epoll::ctl`] does.
#[derive(Clone, Copy, Debug, PartialEq, Eq)]
pub enum ControlOperation {
    /// Makes the object a member of the list.
    Add = 1,
    /// Takes it off the list.
    Delete = 2,
    /// Gives the member another set and other data.
    Modify = 3,
}

/// An event that is asked for or reported: bits and a word of data.
#[derive(Clone, Copy, Default)]
pub struct EpollEvent {
    events: u32,
    raw: u64,
}

impl Debug for EpollEvent {
    fn fmt<W: Write>(&self, f: &mut Formatter<W>) -> std::fmt::Result {
        write!(f, "{{ events: {}, data: {} }}", self.events, self.raw)
    }
}

impl EpollEvent {
    /// The bits of a report.
    const KNOWN: u32 = 0xf000_201f;

    /// An event with these bits and this data.
    pub fn new(events: EventSet, raw: u64) -> EpollEvent
        ensures { result ≡ record { events = events.0; raw = raw } }
    {
        EpollEvent {
            events: events.bits(),
            raw,
        }
    }

    /// An event with these bits, known or not, and this data.
    pub fn from_raw(events: u32, raw: u64) -> EpollEvent
        ensures { result ≡ record { events = events; raw = raw } }
    {
        EpollEvent { events, raw }
    }

    /// Its bits.
    pub fn events(&self) -> u32
        ensures { result ≡ self.now.events }
    {
        self.events
    }

    /// Its bits as a set; None exactly for an unknown bit.
    pub fn event_set(&self) -> Option<EventSet>
        ensures { result ≡ (if bit_or self.now.events 0xf000201f == 0xf000201f
            then Some record { 0 = self.now.events } else None) }
    {
        if self.events | EpollEvent::KNOWN == EpollEvent::KNOWN {
            Some(EventSet::from_bits_retain(self.events))
        } else {
            None
        }
    }

    /// Its data.
    pub fn raw_data(&self) -> u64
        ensures { result ≡ self.now.raw }
    {
        self.raw
    }

    /// The low 32 bits of its data, signed.
    pub fn fd(&self) -> i32
        ensures { result ≡ cast_signed w32 (self.now.raw % 2 ^ 32) }
    {
        ((self.raw % 0x1_0000_0000) as u32).cast_signed()
    }
}

/// An interest list of a host: epoll(7). A contract sees the number of the list.
#[derive(Debug, Drop)]
pub struct Epoll {
    list: u32,
}

impl Model for Epoll {
    ghost use Rattle.std.specs.Prelude.{ℕ};

    ghost Value = { ℕ };

    ghost view = { λ epoll. epoll.list };
}

impl Epoll {
    /// A new empty list.
    ///
    /// # Errors
    /// As [`Host::create_list`].
    pub fn new<H: Host>(alloc: Global, host: &mut H) -> Result<Epoll, HostError>
        ensures faults { CountsFaults (H.fault_count host.old) (H.fault_count host.new) (H.never_fails host.old)
            (H.never_fails host.new) result }
        ensures refusals { RefusesBy result (HostError.Failed ∷ HostError.OutOfMemory ∷ []) }
        ensures table { Told (H.held host.old) (H.held host.new) (MakesList (λ epoll. epoll) result) }
    {
        let list = host.create_list(alloc)?;
        Ok(Epoll { list })
    }

    /// The number of its list.
    pub fn list(&self) -> u32
        ensures { result ≡ self.now }
    {
        self.list
    }

    /// Adds, modifies or deletes the member for this object. The event's bits are the member's set, its data the
    /// member's token.
    ///
    /// # Errors
    /// As [`Host::add`], [`Host::modify`] and [`Host::delete`].
    pub fn ctl<H: Host>(
        &self,
        alloc: Global,
        host: &mut H,
        operation: ControlOperation,
        object: u32,
        event: EpollEvent,
    ) -> Result<(), HostError>
        ensures faults { CountsFaults (H.fault_count host.old) (H.fault_count host.new) (H.never_fails host.old)
            (H.never_fails host.new) result }
        ensures refusals { RefusesBy result
            (HostError.Failed ∷ HostError.EINVAL ∷ HostError.EEXIST ∷ HostError.ENOENT ∷ HostError.EBADF
            ∷ HostError.OutOfMemory ∷ []) }
        ensures table { Told (H.held host.old) (H.held host.new)
            (ControlCall operation self.now object event result) }
    {
        let set = EventSet::from_bits_retain(event.events);
        match operation {
            ControlOperation::Add => host.add(alloc, self.list, object, set, event.raw),
            ControlOperation::Delete => host.delete(self.list, object),
            ControlOperation::Modify => host.modify(self.list, object, set, event.raw),
        }
    }

    /// Writes the events of the first ready members, by object number, to the front of `events`, as many as it has room
    /// for, and answers how many. It doesn't wait.
    ///
    /// # Errors
    /// As [`Host::ready_many`]; then `events` stays.
    pub fn wait<H: Host>(
        &self,
        alloc: Global,
        host: &mut H,
        events: &mut [EpollEvent],
    ) -> Result<usize, HostError>
        ensures faults { CountsFaults (H.fault_count host.old) (H.fault_count host.new) (H.never_fails host.old)
            (H.never_fails host.new) result }
        ensures refusals { RefusesBy result (HostError.Failed ∷ HostError.EBADF ∷ HostError.OutOfMemory ∷ []) }
        ensures room { IfOk result (λ n. n ≤ length events.old) }
        ensures err { OnErr result (events.new ≡ events.old) }
        ensures table { Told (H.held host.old) (H.held host.new) (WaitCall self.now events.old events.new result) }
    {
        let ready = host.ready_many(alloc, self.list, events.len())?;
        Ok(write_events(events, &ready))
    }
}

/// Writes the events that report these members to the front of `events`, as many as it has room for, and answers how
/// many.
fn write_events(events: &mut [EpollEvent], ready: &[Ready]) -> usize
    ensures count { result ≡ min (length ready.now) (length events.old) }
    ensures written { events.new ≡ map event_of (take result ready.now) ++ drop result events.old }
{
    let count = ready.len().min(events.len());
    for place in 0..count {
        events[place] = EpollEvent {
            events: ready[place].events,
            raw: ready[place].token,
        };
    }
    count
}
