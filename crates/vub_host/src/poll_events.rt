ghost use Rattle.std.specs.Prelude.{◌≡◌, ◌≤◌, [], ◌∷◌, length, take, map, Some, IfOk, OnErr};
ghost use Rattle.std.specs.Iterator.{YieldsFirstBy, item_count};
ghost use Rattle.vub_base.specs.Told.{Told};
ghost use Rattle.vub_event.specs.Counter.{has_bits};
ghost use Rattle.vub_event.specs.Errors.{RefusesBy};
ghost use Rattle.vub_event.specs.Faults.{CountsFaults};
ghost use Rattle.vub_host.specs.Calls.{PollCall, event_of};
ghost use Rattle.vub_host.specs.PollEvents.{is_met, meeting};

use crate::epoll::EpollEvent;
use crate::poll_token::PollToken;
use arrayvec::ArrayVec;
use std::alloc::Global;
use std::fmt::{Debug, Formatter, Write};
use std::marker::{Model, PhantomData};
use vub_base::OutOfMemory;
use vub_event::{Host, HostError, Ready};

/// Room for the events of one wait: at most 16. A contract sees the events that are in it.
#[derive(Drop)]
pub struct EpollEvents {
    events: ArrayVec<EpollEvent, 16>,
}

impl Model for EpollEvents {
    ghost use Rattle.std.specs.Prelude.{List};
    ghost use Rattle.vub_host.specs.declared.epoll.EpollEvent.{EpollEvent};

    ghost Value = { List EpollEvent };

    ghost view = { λ e. e.events.items };
}

impl Debug for EpollEvents {
    fn fmt<W: Write>(&self, f: &mut Formatter<W>) -> std::fmt::Result {
        write!(f, "EpollEvents {:?}", self.as_slice())
    }
}

impl Default for EpollEvents {
    ghost use Rattle.std.specs.Prelude.{◌≡◌, []};

    ghost is_default = { λ e. e ≡ [] };

    fn default() -> EpollEvents {
        EpollEvents::new()
    }
}

impl EpollEvents {
    /// No events.
    pub fn new() -> EpollEvents
        ensures { result ≡ [] }
    {
        EpollEvents {
            events: ArrayVec::new(),
        }
    }

    /// These events.
    fn copied(events: &[EpollEvent]) -> EpollEvents
        requires { length events.now ≤ 16 }
        ensures { result ≡ events.now }
    {
        let mut held = ArrayVec::new();
        held.try_extend_from_slice(events).unwrap();
        EpollEvents { events: held }
    }

    /// The events, lent.
    pub fn as_slice(&self) -> &[EpollEvent]
        ensures events { result.now ≡ self.now }
        ensures few { length result.now ≤ 16 }
    {
        self.events.as_slice()
    }

    /// A copy of the events, as those that a poll answers.
    pub(crate) fn polled<T: PollToken>(&self) -> PollEvents<T>
        ensures { result ≡ self.now }
    {
        PollEvents::new(self.as_slice())
    }

    /// How many of the events are hung up.
    pub(crate) fn hangups(&self) -> u64
        ensures { result ≡ length (meeting (Some 0x10) self.now) }
    {
        let events = self.as_slice();
        events
            .iter()
            .filter(|event| event.events() & 0x10 != 0)
            .count() as u64
    }

    /// Holds the events that report these members, at most 16, and no other.
    fn hold(&mut self, ready: &[Ready])
        ensures { self.new ≡ map event_of (take 16 ready.now) }
    {
        self.events.clear();
        for place in 0..ready.len().min(16) {
            let member = ready[place];
            self.events
                .push(EpollEvent::from_raw(member.events, member.token));
        }
    }

    /// Holds the events of the first ready members of this list by object number, at most 16, and no other.
    ///
    /// # Errors
    /// As [`Host::ready_many`]; then they stay.
    pub(crate) fn fill<H: Host>(
        &mut self,
        alloc: Global,
        host: &mut H,
        list: u32,
    ) -> Result<(), HostError>
        ensures faults { CountsFaults (H.fault_count host.old) (H.fault_count host.new) (H.never_fails host.old)
            (H.never_fails host.new) result }
        ensures refusals { RefusesBy result (HostError.Failed ∷ HostError.EBADF ∷ HostError.OutOfMemory ∷ []) }
        ensures err { OnErr result (self.new ≡ self.old) }
        ensures table { Told (H.held host.old) (H.held host.new) (PollCall (λ _. self.new) list result) }
    {
        let ready = host.ready_many(alloc, list, 16)?;
        self.hold(&ready);
        Ok(())
    }
}

/// An event that a wait answered, with the token of its member. A contract sees its bits and its data.
#[derive(Debug, Drop)]
pub struct PollEvent<T> {
    event: EpollEvent,
    tokens: PhantomData<T>,
}

impl<T> Model for PollEvent<T> {
    ghost use Rattle.vub_host.specs.declared.epoll.EpollEvent.{EpollEvent};

    ghost Value = { EpollEvent };

    ghost view = { λ p. p.event };
}

impl<T: PollToken> PollEvent<T> {
    /// The token of the member.
    pub fn token(&self) -> T
        ensures { result ≡ T.token_of self.now.raw }
    {
        T::from_raw_token(self.event.raw_data())
    }

    /// The bits that are reported.
    pub fn raw_events(&self) -> u32
        ensures { result ≡ self.now.events }
    {
        self.event.events()
    }

    /// Whether there is something to read.
    pub fn readable(&self) -> bool
        ensures { result ≡ has_bits self.now.events 1 }
    {
        self.event.events() & 1 == 1
    }

    /// Whether a write is taken.
    pub fn writable(&self) -> bool
        ensures { result ≡ has_bits self.now.events 4 }
    {
        self.event.events() & 4 == 4
    }

    /// Whether it is hung up.
    pub fn hungup(&self) -> bool
        ensures { result ≡ has_bits self.now.events 0x10 }
    {
        self.event.events() & 0x10 == 0x10
    }

    /// Whether it has an error.
    pub fn has_error(&self) -> bool
        ensures { result ≡ has_bits self.now.events 8 }
    {
        self.event.events() & 8 == 8
    }
}

/// The events of a poll that were asked for, one after the other. A contract sees those that are left.
#[derive(Debug, Drop)]
pub struct PollEventIter<'a, T> {
    // the bits of which an event has one, where not all events were asked for
    mask: Option<u32>,
    events: &'a [EpollEvent],
    tokens: PhantomData<T>,
}

impl<'a, T> Model for PollEventIter<'a, T> {
    ghost use Rattle.std.specs.Prelude.{List, length, ◌≤◌};
    ghost use Rattle.vub_host.specs.declared.epoll.EpollEvent.{EpollEvent};
    ghost use Rattle.vub_host.specs.PollEvents.{meeting};

    ghost Value = { List EpollEvent };

    ghost view = { λ it. meeting it.mask it.events.now };

    ghost invariant = { λ it. length it.events.now ≤ 16 };
}

/// Whether an event is one of those that a mask asks for.
fn meets(mask: Option<u32>, event: EpollEvent) -> bool
    ensures { result ≡ is_met mask event }
{
    match mask {
        Some(bits) => event.events() & bits != 0,
        None => true,
    }
}

impl<'a, T: PollToken> Iterator for PollEventIter<'a, T> {
    type Item = PollEvent<T>;

    ghost next_gives = { YieldsFirstBy (λ item. item) (λ it. it) };

    ghost remaining = { item_count (λ it. it) };

    fn next(&mut self) -> Option<PollEvent<T>> {
        while let [event, rest @ ..] = self.events {
            self.events = rest;
            if meets(self.mask, *event) {
                let event = *event;
                let tokens = PhantomData;
                return Some(PollEvent { event, tokens });
            }
        }
        None
    }
}

/// The events that a wait answered: at most 16. A contract sees them.
#[derive(Debug, Drop)]
pub struct PollEvents<T> {
    events: EpollEvents,
    tokens: PhantomData<T>,
}

impl<T> Model for PollEvents<T> {
    ghost use Rattle.std.specs.Prelude.{List};
    ghost use Rattle.vub_host.specs.declared.epoll.EpollEvent.{EpollEvent};

    ghost Value = { List EpollEvent };

    ghost view = { λ p. p.events };
}

impl<T: PollToken> PollEvents<T> {
    /// These events.
    pub fn new(events: &[EpollEvent]) -> PollEvents<T>
        requires { length events.now ≤ 16 }
        ensures { result ≡ events.now }
    {
        PollEvents {
            events: EpollEvents::copied(events),
            tokens: PhantomData,
        }
    }

    /// A copy of them.
    ///
    /// # Errors
    /// Want of memory.
    pub fn to_owned(&self, alloc: Global) -> Result<PollEventsOwned<T>, OutOfMemory>
        ensures { IfOk result (λ owned. owned ≡ self.now) }
    {
        let events = Vec::from_slice(alloc, self.events.as_slice())?;
        Ok(PollEventsOwned {
            events,
            tokens: PhantomData,
        })
    }

    /// All events.
    #[tactic(auto, using(crate::proofs::All::all_meet))]
    pub fn iter(&self) -> PollEventIter<'_, T>
        ensures { result ≡ self.now }
    {
        PollEventIter {
            mask: None,
            events: self.events.as_slice(),
            tokens: PhantomData,
        }
    }

    /// The events with something to read.
    pub fn iter_readable(&self) -> PollEventIter<'_, T>
        ensures { result ≡ meeting (Some 1) self.now }
    {
        PollEventIter {
            mask: Some(1),
            events: self.events.as_slice(),
            tokens: PhantomData,
        }
    }

    /// The events that are hung up.
    pub fn iter_hungup(&self) -> PollEventIter<'_, T>
        ensures { result ≡ meeting (Some 0x10) self.now }
    {
        PollEventIter {
            mask: Some(0x10),
            events: self.events.as_slice(),
            tokens: PhantomData,
        }
    }
}

/// The events that a wait answered, owned: at most 16. A contract sees them.
#[derive(Debug, Drop)]
pub struct PollEventsOwned<T> {
    events: Vec<EpollEvent>,
    tokens: PhantomData<T>,
}

impl<T> Model for PollEventsOwned<T> {
    ghost use Rattle.std.specs.Prelude.{List, length, ◌≤◌};
    ghost use Rattle.vub_host.specs.declared.epoll.EpollEvent.{EpollEvent};

    ghost Value = { List EpollEvent };

    ghost view = { λ p. p.events.items };

    ghost invariant = { λ p. length p.events.items ≤ 16 };
}

impl<T: PollToken> PollEventsOwned<T> {
    /// A copy of them that takes no memory.
    pub fn as_ref(&self) -> PollEvents<T>
        ensures { result ≡ self.now }
    {
        PollEvents::new(self.events.as_slice())
    }
}
