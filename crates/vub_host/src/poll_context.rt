ghost use Rattle.std.specs.Prelude.{◌≡◌, ◌∷◌, [], ◌==◌, ◌/◌, ◌^◌, ◌-◌, ◌+◌, if◌then◌else◌, min, pos, negsuc, true};
ghost use Rattle.std.specs.Prelude.{is_ok, IfOk, OnErr};
ghost use Rattle.std.specs.Duration.{as_nanos};
ghost use Rattle.std.specs.Int.RustNames.{bit_or};
ghost use Rattle.vub_base.specs.Told.{Told};
ghost use Rattle.vub_event.specs.Errors.{RefusesBy};
ghost use Rattle.vub_event.specs.Faults.{CountsFaults};
ghost use Rattle.vub_event.specs.HostCalls.{AddCall, ModifyCall, DeleteCall, member_for};
ghost use Rattle.vub_host.specs.Calls.{MakesList, PollCall};

use crate::poll_events::{EpollEvents, PollEvents};
use crate::poll_token::PollToken;
use bitflags::Flags;
use log::{Log, warn};
use std::alloc::Global;
use std::marker::{Model, PhantomData};
use std::time::Duration;
use vub_event::{EventSet, Host, HostError};

/// The events that a member of a poll context asks for.
#[derive(Clone, Copy, Debug)]
pub struct WatchingEvents(u32);

impl WatchingEvents {
    /// None.
    pub fn empty() -> WatchingEvents
        ensures { result.0 ≡ 0 }
    {
        WatchingEvents(0)
    }

    /// Those with these bits.
    pub fn new(raw: u32) -> WatchingEvents
        ensures { result.0 ≡ raw }
    {
        WatchingEvents(raw)
    }

    /// These, and that there is something to read.
    pub fn set_read(self) -> WatchingEvents
        ensures { result.0 ≡ bit_or self.0 1 }
    {
        WatchingEvents(self.0 | 1)
    }

    /// These, and that a write is taken.
    pub fn set_write(self) -> WatchingEvents
        ensures { result.0 ≡ bit_or self.0 4 }
    {
        WatchingEvents(self.0 | 4)
    }

    /// The bits.
    pub fn get_raw(&self) -> u32
        ensures { result ≡ self.now.0 }
    {
        self.0
    }
}

/// The timeout in the unit of epoll_wait(2): -1 exactly at `i64::MAX` seconds, which stands for no end, else the whole
/// milliseconds, at most `i32::MAX`.
pub fn timeout_millis(timeout: Duration) -> i32
    ensures { result ≡ (if as_nanos timeout / 1_000_000_000 == 2 ^ 63 - 1
        then negsuc 0 else pos (min 2147483647 (as_nanos timeout / 1_000_000))) }
{
    if timeout.as_secs() == 9_223_372_036_854_775_807 {
        return -1;
    }
    let millis = timeout.as_millis();
    if millis < 2_147_483_647 {
        millis as i32
    } else {
        i32::MAX
    }
}

/// An interest list whose members are named by tokens. A contract sees the number of the list.
#[derive(Debug, Drop)]
pub struct EpollContext<T> {
    list: u32,
    tokens: PhantomData<T>,
}

impl<T> Model for EpollContext<T> {
    ghost use Rattle.std.specs.Prelude.{ℕ};

    ghost Value = { ℕ };

    ghost view = { λ context. context.list };
}

impl<T: PollToken> EpollContext<T> {
    ghost use Rattle.vub_host.specs.Waits.{events_after_wait};

    /// A new context with no member.
    ///
    /// # Errors
    /// As [`Host::create_list`].
    pub fn new<H: Host>(alloc: Global, host: &mut H) -> Result<EpollContext<T>, HostError>
        ensures faults { CountsFaults (H.fault_count host.old) (H.fault_count host.new) (H.never_fails host.old)
            (H.never_fails host.new) result }
        ensures refusals { RefusesBy result (HostError.Failed ∷ HostError.OutOfMemory ∷ []) }
        ensures table { Told (H.held host.old) (H.held host.new) (MakesList (λ context. context) result) }
    {
        let list = host.create_list(alloc)?;
        let tokens = PhantomData;
        Ok(EpollContext { list, tokens })
    }

    /// The number of its list.
    pub fn list(&self) -> u32
        ensures { result ≡ self.now }
    {
        self.list
    }

    /// Adds an object that is to be readable.
    ///
    /// # Errors
    /// As [`Host::add`].
    pub fn add<H: Host>(
        &self,
        alloc: Global,
        host: &mut H,
        object: u32,
        token: T,
    ) -> Result<(), HostError>
    where
        T: Drop,
        ensures faults { CountsFaults (H.fault_count host.old) (H.fault_count host.new) (H.never_fails host.old)
            (H.never_fails host.new) result }
        ensures refusals { RefusesBy result
            (HostError.Failed ∷ HostError.EINVAL ∷ HostError.EEXIST ∷ HostError.EBADF ∷ HostError.OutOfMemory ∷ []) }
        ensures table { Told (H.held host.old) (H.held host.new)
            (AddCall self.now (member_for object (record { 0 = 1 }) (T.raw_of token)) result) }
    {
        let set = EventSet::IN;
        host.add(alloc, self.list, object, set, token.as_raw_token())
    }

    /// Adds an object for these events.
    ///
    /// # Errors
    /// As [`Host::add`].
    pub fn add_fd_with_events<H: Host>(
        &self,
        alloc: Global,
        host: &mut H,
        object: u32,
        events: WatchingEvents,
        token: T,
    ) -> Result<(), HostError>
    where
        T: Drop,
        ensures faults { CountsFaults (H.fault_count host.old) (H.fault_count host.new) (H.never_fails host.old)
            (H.never_fails host.new) result }
        ensures refusals { RefusesBy result
            (HostError.Failed ∷ HostError.EINVAL ∷ HostError.EEXIST ∷ HostError.EBADF ∷ HostError.OutOfMemory ∷ []) }
        ensures table { Told (H.held host.old) (H.held host.new)
            (AddCall self.now (member_for object (record { 0 = events.0 }) (T.raw_of token)) result) }
    {
        let set = EventSet::from_bits_retain(events.get_raw());
        host.add(alloc, self.list, object, set, token.as_raw_token())
    }

    /// Gives the member for this object other events and another token.
    ///
    /// # Errors
    /// As [`Host::modify`].
    pub fn modify<H: Host>(
        &self,
        host: &mut H,
        object: u32,
        events: WatchingEvents,
        token: T,
    ) -> Result<(), HostError>
    where
        T: Drop,
        ensures faults { CountsFaults (H.fault_count host.old) (H.fault_count host.new) (H.never_fails host.old)
            (H.never_fails host.new) result }
        ensures refusals { RefusesBy result
            (HostError.Failed ∷ HostError.EINVAL ∷ HostError.ENOENT ∷ HostError.EBADF ∷ []) }
        ensures table { Told (H.held host.old) (H.held host.new)
            (ModifyCall self.now (member_for object (record { 0 = events.0 }) (T.raw_of token)) result) }
    {
        let set = EventSet::from_bits_retain(events.get_raw());
        host.modify(self.list, object, set, token.as_raw_token())
    }

    /// Takes the object off the list.
    ///
    /// # Errors
    /// As [`Host::delete`].
    pub fn delete<H: Host>(&self, host: &mut H, object: u32) -> Result<(), HostError>
        ensures faults { CountsFaults (H.fault_count host.old) (H.fault_count host.new) (H.never_fails host.old)
            (H.never_fails host.new) result }
        ensures refusals { RefusesBy result (HostError.Failed ∷ HostError.ENOENT ∷ HostError.EBADF ∷ []) }
        ensures table { Told (H.held host.old) (H.held host.new) (DeleteCall self.now object result) }
    {
        host.delete(self.list, object)
    }

    /// The events of the first ready members by object number, at most 16, which then stand in `events` too. It doesn't
    /// wait.
    ///
    /// # Errors
    /// As [`Host::ready_many`]; then `events` stays.
    pub fn wait<H: Host>(
        &self,
        alloc: Global,
        host: &mut H,
        events: &mut EpollEvents,
    ) -> Result<PollEvents<T>, HostError>
        ensures faults { CountsFaults (H.fault_count host.old) (H.fault_count host.new) (H.never_fails host.old)
            (H.never_fails host.new) result }
        ensures refusals { RefusesBy result (HostError.Failed ∷ HostError.EBADF ∷ HostError.OutOfMemory ∷ []) }
        ensures after { events.new ≡ events_after_wait result events.old }
        ensures table { Told (H.held host.old) (H.held host.new) (PollCall (λ polled. polled) self.now result) }
    {
        events.fill(alloc, host, self.list)?;
        Ok(events.polled())
    }

    /// As [`EpollContext::wait`]: since nothing is waited for, the timeout has no part in it.
    ///
    /// # Errors
    /// As [`Host::ready_many`].
    pub fn wait_timeout<H: Host>(
        &self,
        alloc: Global,
        host: &mut H,
        events: &mut EpollEvents,
        _timeout: Duration,
    ) -> Result<PollEvents<T>, HostError>
        ensures faults { CountsFaults (H.fault_count host.old) (H.fault_count host.new) (H.never_fails host.old)
            (H.never_fails host.new) result }
        ensures refusals { RefusesBy result (HostError.Failed ∷ HostError.EBADF ∷ HostError.OutOfMemory ∷ []) }
        ensures after { events.new ≡ events_after_wait result events.old }
        ensures table { Told (H.held host.old) (H.held host.new) (PollCall (λ polled. polled) self.now result) }
    {
        self.wait(alloc, host, events)
    }
}

/// A poll context that holds its events, and warns once of a loop that is kept busy by hung up objects. A contract sees
/// the number of its list, the events that are held, whether hang-ups are counted, and the counts of hang-ups and of
/// members.
#[derive(Debug, Drop)]
pub struct PollContext<T> {
    context: EpollContext<T>,
    events: EpollEvents,
    checks: bool,
    hangups: u64,
    members: u64,
}

impl<T> Model for PollContext<T> {
    ghost use Rattle.vub_host.specs.Waits.{Poll};

    ghost Value = { Poll };

    ghost view = { λ p. record {
      list = p.context;
      events = p.events;
      checks = p.checks;
      hangups = p.hangups;
      members = p.members;
    } };
}

impl<T: PollToken> PollContext<T> {
    ghost use Rattle.vub_host.specs.Waits.{holding, new_poll, poll_after_wait};

    /// A new context with no member.
    ///
    /// # Errors
    /// As [`Host::create_list`].
    pub fn new<H: Host>(alloc: Global, host: &mut H) -> Result<PollContext<T>, HostError>
        ensures faults { CountsFaults (H.fault_count host.old) (H.fault_count host.new) (H.never_fails host.old)
            (H.never_fails host.new) result }
        ensures refusals { RefusesBy result (HostError.Failed ∷ HostError.OutOfMemory ∷ []) }
        ensures begins { IfOk result (λ poll. poll ≡ new_poll poll.list) }
        ensures table { Told (H.held host.old) (H.held host.new) (MakesList (λ poll. poll.list) result) }
    {
        let context = EpollContext::new(alloc, host)?;
        Ok(PollContext {
            context,
            events: EpollEvents::new(),
            checks: true,
            hangups: 0,
            members: 0,
        })
    }

    /// The number of its list.
    pub fn list(&self) -> u32
        ensures { result ≡ self.now.list }
    {
        self.context.list()
    }

    /// Whether hang-ups are counted from now on. At first they are.
    pub fn set_check_for_hangup(&mut self, enable: bool)
        ensures { self.new ≡ record self.old { checks = enable } }
    {
        self.checks = enable;
    }

    /// Adds an object that is to be readable. The count of hang-ups begins anew.
    ///
    /// # Errors
    /// As [`Host::add`].
    pub fn add<H: Host>(
        &mut self,
        alloc: Global,
        host: &mut H,
        object: u32,
        token: T,
    ) -> Result<(), HostError>
    where
        T: Drop,
        ensures faults { CountsFaults (H.fault_count host.old) (H.fault_count host.new) (H.never_fails host.old)
            (H.never_fails host.new) result }
        ensures refusals { RefusesBy result
            (HostError.Failed ∷ HostError.EINVAL ∷ HostError.EEXIST ∷ HostError.EBADF ∷ HostError.OutOfMemory ∷ []) }
        ensures same { self.new.list ≡ self.old.list }
        ensures counts { self.new ≡ (if is_ok result
            then record self.old { hangups = 0; members = min (self.old.members + 1) (2 ^ 64 - 1) } else self.old) }
        ensures table { Told (H.held host.old) (H.held host.new)
            (AddCall self.old.list (member_for object (record { 0 = 1 }) (T.raw_of token)) result) }
    {
        self.context.add(alloc, host, object, token)?;
        self.hangups = 0;
        self.members = self.members.saturating_add(1);
        Ok(())
    }

    /// Adds an object for these events. The count of hang-ups begins anew.
    ///
    /// # Errors
    /// As [`Host::add`].
    pub fn add_fd_with_events<H: Host>(
        &mut self,
        alloc: Global,
        host: &mut H,
        object: u32,
        events: WatchingEvents,
        token: T,
    ) -> Result<(), HostError>
    where
        T: Drop,
        ensures faults { CountsFaults (H.fault_count host.old) (H.fault_count host.new) (H.never_fails host.old)
            (H.never_fails host.new) result }
        ensures refusals { RefusesBy result
            (HostError.Failed ∷ HostError.EINVAL ∷ HostError.EEXIST ∷ HostError.EBADF ∷ HostError.OutOfMemory ∷ []) }
        ensures same { self.new.list ≡ self.old.list }
        ensures counts { self.new ≡ (if is_ok result
            then record self.old { hangups = 0; members = min (self.old.members + 1) (2 ^ 64 - 1) } else self.old) }
        ensures table { Told (H.held host.old) (H.held host.new)
            (AddCall self.old.list (member_for object (record { 0 = events.0 }) (T.raw_of token)) result) }
    {
        self.context
            .add_fd_with_events(alloc, host, object, events, token)?;
        self.hangups = 0;
        self.members = self.members.saturating_add(1);
        Ok(())
    }

    /// Gives the member for this object other events and another token.
    ///
    /// # Errors
    /// As [`Host::modify`].
    pub fn modify<H: Host>(
        &mut self,
        host: &mut H,
        object: u32,
        events: WatchingEvents,
        token: T,
    ) -> Result<(), HostError>
    where
        T: Drop,
        ensures faults { CountsFaults (H.fault_count host.old) (H.fault_count host.new) (H.never_fails host.old)
            (H.never_fails host.new) result }
        ensures refusals { RefusesBy result
            (HostError.Failed ∷ HostError.EINVAL ∷ HostError.ENOENT ∷ HostError.EBADF ∷ []) }
        ensures same { self.new ≡ self.old }
        ensures table { Told (H.held host.old) (H.held host.new)
            (ModifyCall self.old.list (member_for object (record { 0 = events.0 }) (T.raw_of token)) result) }
    {
        self.context.modify(host, object, events, token)
    }

    /// Takes the object off the list. The count of hang-ups begins anew.
    ///
    /// # Errors
    /// As [`Host::delete`].
    pub fn delete<H: Host>(&mut self, host: &mut H, object: u32) -> Result<(), HostError>
        ensures faults { CountsFaults (H.fault_count host.old) (H.fault_count host.new) (H.never_fails host.old)
            (H.never_fails host.new) result }
        ensures refusals { RefusesBy result (HostError.Failed ∷ HostError.ENOENT ∷ HostError.EBADF ∷ []) }
        ensures same { self.new.list ≡ self.old.list }
        ensures counts { self.new ≡ (if is_ok result
            then record self.old { hangups = 0; members = self.old.members - 1 } else self.old) }
        ensures table { Told (H.held host.old) (H.held host.new) (DeleteCall self.old.list object result) }
    {
        self.context.delete(host, object)?;
        self.hangups = 0;
        self.members = self.members.saturating_sub(1);
        Ok(())
    }

    /// Takes in the events of the first ready members, and warns of a busy loop.
    fn poll<H: Host, R: Log>(
        &mut self,
        alloc: Global,
        host: &mut H,
        log: &R,
    ) -> Result<(), HostError>
        ensures faults { CountsFaults (H.fault_count host.old) (H.fault_count host.new) (H.never_fails host.old)
            (H.never_fails host.new) result }
        ensures refusals { RefusesBy result (HostError.Failed ∷ HostError.EBADF ∷ HostError.OutOfMemory ∷ []) }
        ensures err { OnErr result (self.new ≡ self.old) }
        ensures ok { IfOk result (λ _. self.new ≡ holding self.old self.new.events) }
        ensures table { Told (H.held host.old) (H.held host.new)
            (PollCall (λ _. self.new.events) self.old.list result) }
    {
        self.events.fill(alloc, host, self.context.list())?;
        if self.checks {
            let before = self.hangups;
            self.hangups = before.saturating_add(self.events.hangups());
            if before <= self.members && self.hangups > self.members {
                warn!(log; "busy poll wait loop with hungup FDs detected");
            }
        }
        Ok(())
    }

    /// The events of the first ready members by object number, at most 16. It doesn't wait. It warns by `log` when the
    /// hang-ups since the last accepted add or delete first pass the number of members.
    ///
    /// # Errors
    /// As [`Host::ready_many`]; then the context stays, its events and its count of hang-ups with it.
    pub fn wait<H: Host, R: Log>(
        &mut self,
        alloc: Global,
        host: &mut H,
        log: &R,
    ) -> Result<PollEvents<T>, HostError>
        ensures after { self.new ≡ poll_after_wait result self.old }
        ensures faults { CountsFaults (H.fault_count host.old) (H.fault_count host.new) (H.never_fails host.old)
            (H.never_fails host.new) result }
        ensures refusals { RefusesBy result (HostError.Failed ∷ HostError.EBADF ∷ HostError.OutOfMemory ∷ []) }
        ensures table { Told (H.held host.old) (H.held host.new)
            (PollCall (λ polled. polled) self.old.list result) }
    {
        self.poll(alloc, host, log)?;
        Ok(self.events.polled())
    }

    /// As [`PollContext::wait`]: since nothing is waited for, the timeout has no part in it.
    ///
    /// # Errors
    /// As [`Host::ready_many`].
    pub fn wait_timeout<H: Host, R: Log>(
        &mut self,
        alloc: Global,
        host: &mut H,
        log: &R,
        _timeout: Duration,
    ) -> Result<PollEvents<T>, HostError>
        ensures after { self.new ≡ poll_after_wait result self.old }
        ensures faults { CountsFaults (H.fault_count host.old) (H.fault_count host.new) (H.never_fails host.old)
            (H.never_fails host.new) result }
        ensures refusals { RefusesBy result (HostError.Failed ∷ HostError.EBADF ∷ HostError.OutOfMemory ∷ []) }
        ensures table { Told (H.held host.old) (H.held host.new)
            (PollCall (λ polled. polled) self.old.list result) }
    {
        self.wait(alloc, host, log)
    }
}
