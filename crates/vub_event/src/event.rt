ghost use Rattle.std.specs.Prelude.{◌≡◌, Some};
ghost use Rattle.vub_event.specs.Counter.{read_value, after_read, reported_bits};
ghost use Rattle.vub_event.specs.HostCalls.{new_event};
ghost use Rattle.vub_event.specs.HostTable.{report_of};

use crate::event_set::EventSet;
use crate::member::Member;
use crate::ready::Ready;

/// An event object: a counter after Linux's eventfd(2).
#[derive(Clone, Copy, Debug, PartialEq, Eq)]
pub struct Event {
    /// The count. No write of a host takes it above [`Event::GREATEST`].
    pub count: u64,
    /// Whether a read takes 1 and not the whole count.
    pub semaphore: bool,
    /// Whether it reports HANG_UP from now on.
    pub hung_up: bool,
    /// The queue that claims it.
    pub claim: Option<u32>,
}

impl Event {
    /// The greatest count.
    pub const GREATEST: u64 = u64::MAX - 1;

    /// A new counter at 0, with the bit SEMAPHORE of these flags.
    pub fn new(flags: u32) -> Event
        ensures { result ≡ new_event flags }
    {
        Event {
            count: 0,
            semaphore: flags & 1 == 1,
            hung_up: false,
            claim: None,
        }
    }

    /// What a read takes: 1 of a semaphore, else the count.
    pub fn value(self) -> u64
        ensures { result ≡ read_value self }
    {
        if self.semaphore { 1 } else { self.count }
    }

    /// The counter after a read.
    pub fn read(self) -> Event
        ensures { result ≡ after_read self }
    {
        Event {
            count: self.count.saturating_sub(self.value()),
            ..self
        }
    }

    /// The bits with which it is reported to a member with this set.
    pub fn reported(self, set: EventSet) -> u32
        ensures { result ≡ reported_bits self set.0 }
    {
        let readable = if set.has(1) && 0 < self.count { 1 } else { 0 };
        let writable = if set.has(4) && self.count < Event::GREATEST {
            4
        } else {
            0
        };
        let hung_up = if self.hung_up { 16 } else { 0 };
        readable + writable + hung_up
    }

    /// The report for a member of this object, if it is ready.
    pub fn report(self, member: Member) -> Option<Ready>
        ensures { result ≡ report_of member (Some self) }
    {
        let events = self.reported(member.set);
        if events == 0 {
            return None;
        }
        Some(Ready {
            object: member.object,
            events,
            token: member.token,
        })
    }
}
