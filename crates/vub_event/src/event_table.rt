ghost use Rattle.std.specs.Prelude.{◌≡◌, ◌+◌, ◌/◌, ◌<◌, ◌≤◌, ◌∷◌, [], true, not, is_some, length, map, if◌then◌else◌, IfOk, OnErr, MatchResult};
ghost use Rattle.vub_event.specs.HostTable.{empty_table, event_at, has_event, has_list, member_at, members_at, is_listed, with_event, with_members, ready_members, IsLeastOf};
ghost use Rattle.vub_event.specs.InterestList.{with_member, with_changed, without_member};
ghost use Rattle.vub_event.specs.ReadyWords.{IsReadyBut, IsReadyList, AreReadyBut, AreReady};
ghost use Rattle.vub_event.specs.HostCalls.{has_both, is_claimed, consume_after, CreateEventCall, CreateListCall, SignalCall, ConsumeCall, AddCall, ModifyCall, DeleteCall, ListenCall, UnlistenCall, ConsumeAsCall, ReadyCall, FirstReadyCall, ReadyManyCall, ClaimCall, release_after, hang_up_after, close_after};
ghost use Rattle.vub_event.specs.Errors.{RefusesBy};

use crate::error::HostError;
use crate::event::Event;
use crate::event_set::EventSet;
use crate::member::Member;
use crate::members::Members;
use crate::ready::Ready;
use crate::ready_words::ReadyWords;
use std::alloc::Global;
use std::marker::Model;
use std::sync::ledger::Ledger;
use vub_base::{OutOfMemory, Steps};

/// The objects and the interest lists of a host, with the ready members of each list. A contract sees the host table.
#[derive(Debug, Drop)]
pub struct EventTable {
    objects: Vec<Option<Event>>,
    lists: Vec<Members>,
    ready: Vec<ReadyWords>,
}

impl Model for EventTable {
    ghost use Rattle.vub_event.specs.HostTable.{HostTable};

    ghost Value = { HostTable };

    ghost use Rattle.vub_event.specs.ReadyWords.{AreReady};

    ghost view = { λ t. record { objects = t.objects.items; lists = t.lists.items } };

    ghost invariant = { λ t. AreReady t.objects.items t.lists.items t.ready.items };
}

/// How many objects, or lists, are ever made.
const MOST: usize = 4_294_967_295;

/// The flags of a new event object, as eventfd(2) has them: SEMAPHORE, NONBLOCK and CLOEXEC.
const FLAGS: u32 = 0x8_0801;

/// The number of the next object or list where so many were made.
///
/// # Errors
/// [`HostError::OutOfMemory`] exactly where all numbers are given.
fn next_number(made: usize) -> Result<u32, HostError>
    ensures { MatchResult result (λ number. (number ≡ made) × (number < 4294967295))
        (λ e. (e ≡ HostError.OutOfMemory) × (4294967295 ≤ made)) }
{
    if made >= MOST {
        return Err(HostError::OutOfMemory);
    }
    Ok(made as u32)
}

/// Writes into the words of a list whether the member for this object is ready.
fn refresh(objects: &[Option<Event>], members: &Members, words: &mut ReadyWords, object: u32)
    requires { IsReadyBut object objects.now members.now words.old }
    ensures { IsReadyList objects.now members.now words.new }
{
    let is_ready = members.report(objects, object).is_some();
    words.put(object, is_ready);
}

/// Writes into the words of each list whether the member for this object is ready.
fn refresh_all(objects: &[Option<Event>], lists: &[Members], ready: &mut [ReadyWords], object: u32)
    requires { AreReadyBut object objects.now lists.now ready.old }
    ensures { AreReady objects.now lists.now ready.new }
{
    for i in 0..lists.len() {
        refresh(objects, &lists[i], &mut ready[i], object);
    }
}

/// Takes this object off each list.
fn take_off(lists: &mut [Members], object: u32)
    ensures { lists.new ≡ map (λ members. without_member members object) lists.old }
{
    for members in lists.iter_mut() {
        let _removed = members.remove(object);
    }
}

impl EventTable {
    /// No object and no list. Takes no memory.
    pub fn new(alloc: Global) -> EventTable
        ensures { result ≡ empty_table }
    {
        EventTable {
            objects: Vec::new(alloc),
            lists: Vec::new(alloc),
            ready: Vec::new(alloc),
        }
    }

    /// The object of this number.
    pub fn event(&self, object: u32) -> Option<Event>
        ensures { result ≡ event_at self.now object }
    {
        match self.objects.get(object as usize) {
            Some(event) => *event,
            None => None,
        }
    }

    /// The members of this list.
    pub fn members(&self, list: u32) -> &[Member]
        ensures { result.now ≡ members_at self.now list }
    {
        match self.lists.get(list as usize) {
            Some(members) => members.as_slice(),
            None => &[],
        }
    }

    /// Puts an object in the place of the one of this number.
    fn put(&mut self, object: u32, event: Option<Event>)
        ensures { self.new ≡ with_event self.old object event }
    {
        if (object as usize) < self.objects.len() {
            self.objects[object as usize] = event;
            refresh_all(&self.objects, &self.lists, &mut self.ready, object);
        }
    }

    /// Adds a member to this list. False exactly where its object has one, which then stays.
    ///
    /// # Errors
    /// Want of memory leaves the table as it was.
    fn enlist(&mut self, list: u32, member: Member) -> Result<bool, OutOfMemory>
        requires { has_both self.old list member.object ≡ true }
        ensures answer { IfOk result (λ added. added ≡ not (is_some (member_at self.old list member.object))) }
        ensures after { IfOk result (λ added. self.new ≡ (if added
            then with_members self.old list (with_member (members_at self.old list) member) else self.old)) }
        ensures err { OnErr result (self.new ≡ self.old) }
    {
        let place = list as usize;
        self.ready[place].make_room(member.object)?;
        if !self.lists[place].add(member)? {
            return Ok(false);
        }
        refresh(
            &self.objects,
            &self.lists[place],
            &mut self.ready[place],
            member.object,
        );
        Ok(true)
    }

    /// Puts this member in the place of the one of this list for its object. False exactly where there is none.
    fn amend(&mut self, list: u32, member: Member) -> bool
        requires { has_list self.old list ≡ true }
        ensures answer { result ≡ is_some (member_at self.old list member.object) }
        ensures after { self.new ≡ (if result
            then with_members self.old list (with_changed (members_at self.old list) member) else self.old) }
    {
        let place = list as usize;
        if !self.lists[place].change(member) {
            return false;
        }
        refresh(
            &self.objects,
            &self.lists[place],
            &mut self.ready[place],
            member.object,
        );
        true
    }

    /// Takes the member for this object off this list. False exactly where there is none.
    fn strike(&mut self, list: u32, object: u32) -> bool
        requires { has_list self.old list ≡ true }
        ensures answer { result ≡ is_some (member_at self.old list object) }
        ensures after { self.new ≡ (if result
            then with_members self.old list (without_member (members_at self.old list) object) else self.old) }
    {
        let place = list as usize;
        if !self.lists[place].remove(object) {
            return false;
        }
        refresh(
            &self.objects,
            &self.lists[place],
            &mut self.ready[place],
            object,
        );
        true
    }

    /// Whether there is a list of this number.
    fn has_list(&self, list: u32) -> bool
        ensures { result ≡ has_list self.now list }
    {
        (list as usize) < self.lists.len()
    }

    /// Whether both this list and this object are there.
    fn has_both(&self, list: u32, object: u32) -> bool
        ensures { result ≡ has_both self.now list object }
    {
        self.has_list(list) && self.event(object).is_some()
    }

    /// The member of this list for this object.
    fn member(&self, list: u32, object: u32) -> Option<Member>
        ensures { result ≡ member_at self.now list object }
    {
        match self.lists.get(list as usize) {
            Some(members) => members.get(object),
            None => None,
        }
    }

    /// Whether some list has a member for this object.
    fn is_listed(&self, object: u32) -> bool
        ensures { result ≡ is_listed self.now object }
    {
        self.lists
            .iter()
            .any(|members| members.get(object).is_some())
    }

    /// Whether a queue claims this object.
    fn is_claimed(&self, object: u32) -> bool
        ensures { result ≡ is_claimed (event_at self.now object) }
    {
        match self.event(object) {
            Some(event) => event.claim.is_some(),
            None => false,
        }
    }

    /// Reads this counter, as far as there is anything to read.
    #[tactic(auto, unfolding(crate::specs::HostCalls::consume_after))]
    fn read(&mut self, object: u32)
        ensures { self.new ≡ consume_after self.old object }
    {
        if let Some(event) = self.event(object) {
            self.put(object, Some(event.read()));
        }
    }

    /// As [`Host::create_event`](crate::Host::create_event).
    #[tactic(auto, unfolding(crate::specs::HostCalls::create_event_after))]
    pub fn create_event(&mut self, flags: u32) -> Result<u32, HostError>
        ensures refusals { RefusesBy result (HostError.EINVAL ∷ HostError.OutOfMemory ∷ []) }
        ensures table { CreateEventCall flags result self.old self.new }
    {
        if flags | FLAGS != FLAGS {
            return Err(HostError::EINVAL);
        }
        let number = next_number(self.objects.len())?;
        self.objects.push(Some(Event::new(flags)))?;
        Ok(number)
    }

    /// As [`Host::create_list`](crate::Host::create_list).
    #[tactic(auto, unfolding(crate::specs::HostCalls::create_list_after))]
    pub fn create_list(&mut self, alloc: Global) -> Result<u32, HostError>
        ensures refusals { RefusesBy result (HostError.OutOfMemory ∷ []) }
        ensures table { CreateListCall result self.old self.new }
    {
        let number = next_number(self.lists.len())?;
        self.ready.push(ReadyWords::new(alloc))?;
        match self.lists.push(Members::new(alloc)) {
            Ok(()) => Ok(number),
            Err(_) => {
                let _dropped = self.ready.pop();
                Err(HostError::OutOfMemory)
            }
        }
    }

    /// As [`Host::signal`](crate::Host::signal).
    #[tactic(auto, unfolding(crate::specs::HostCalls::signal_refusal, crate::specs::HostCalls::signal_after))]
    pub fn signal(&mut self, object: u32, value: u64) -> Result<(), HostError>
        ensures refusals { RefusesBy result (HostError.WouldBlock ∷ HostError.EINVAL ∷ HostError.EBADF ∷ []) }
        ensures table { SignalCall object value result self.old self.new }
    {
        let Some(event) = self.event(object) else {
            return Err(HostError::EBADF);
        };
        if value == u64::MAX {
            return Err(HostError::EINVAL);
        }
        let Some(count) = event.count.checked_add(value) else {
            return Err(HostError::WouldBlock);
        };
        if count > Event::GREATEST {
            return Err(HostError::WouldBlock);
        }
        self.put(object, Some(Event { count, ..event }));
        Ok(())
    }

    /// As [`Host::consume`](crate::Host::consume).
    #[tactic(auto, unfolding(crate::specs::HostCalls::consume_refusal, crate::specs::HostCalls::consume_value, crate::specs::HostCalls::consume_after))]
    pub fn consume(&mut self, object: u32) -> Result<u64, HostError>
        ensures refusals { RefusesBy result (HostError.WouldBlock ∷ HostError.EBADF ∷ []) }
        ensures table { ConsumeCall object result self.old self.new }
    {
        let Some(event) = self.event(object) else {
            return Err(HostError::EBADF);
        };
        if event.count == 0 {
            return Err(HostError::WouldBlock);
        }
        self.put(object, Some(event.read()));
        Ok(event.value())
    }

    /// As [`Host::add`](crate::Host::add).
    #[tactic(auto, unfolding(crate::specs::HostCalls::add_refusal, crate::specs::HostCalls::add_after))]
    pub fn add(&mut self, list: u32, member: Member) -> Result<(), HostError>
        ensures refusals { RefusesBy result
            (HostError.EINVAL ∷ HostError.EEXIST ∷ HostError.EBADF ∷ HostError.OutOfMemory ∷ []) }
        ensures table { AddCall list member result self.old self.new }
    {
        if !self.has_both(list, member.object) {
            return Err(HostError::EBADF);
        }
        if member.set.is_refused() {
            return Err(HostError::EINVAL);
        }
        if !self.enlist(list, member)? {
            return Err(HostError::EEXIST);
        }
        Ok(())
    }

    /// As [`Host::modify`](crate::Host::modify).
    #[tactic(auto, unfolding(crate::specs::HostCalls::modify_refusal, crate::specs::HostCalls::modify_after))]
    pub fn modify(&mut self, list: u32, member: Member) -> Result<(), HostError>
        ensures refusals { RefusesBy result (HostError.EINVAL ∷ HostError.ENOENT ∷ HostError.EBADF ∷ []) }
        ensures table { ModifyCall list member result self.old self.new }
    {
        if !self.has_both(list, member.object) {
            return Err(HostError::EBADF);
        }
        if member.set.is_refused() {
            return Err(HostError::EINVAL);
        }
        if !self.amend(list, member) {
            return Err(HostError::ENOENT);
        }
        Ok(())
    }

    /// As [`Host::delete`](crate::Host::delete).
    #[tactic(auto, unfolding(crate::specs::HostCalls::delete_refusal, crate::specs::HostCalls::delete_after))]
    pub fn delete(&mut self, list: u32, object: u32) -> Result<(), HostError>
        ensures refusals { RefusesBy result (HostError.ENOENT ∷ HostError.EBADF ∷ []) }
        ensures table { DeleteCall list object result self.old self.new }
    {
        if !self.has_both(list, object) {
            return Err(HostError::EBADF);
        }
        if !self.strike(list, object) {
            return Err(HostError::ENOENT);
        }
        Ok(())
    }

    /// As [`Host::listen`](crate::Host::listen).
    #[tactic(auto, unfolding(crate::specs::HostCalls::listen_refusal, crate::specs::HostCalls::add_after))]
    pub fn listen(&mut self, list: u32, object: u32, token: u64) -> Result<(), HostError>
        ensures refusals { RefusesBy result (HostError.EEXIST ∷ HostError.EBADF ∷ HostError.OutOfMemory ∷ []) }
        ensures table { ListenCall list object token result self.old self.new }
    {
        if !self.has_both(list, object) {
            return Err(HostError::EBADF);
        }
        if self.member(list, object).is_some() || self.is_claimed(object) {
            return Err(HostError::EEXIST);
        }
        let set = EventSet::IN;
        let _added = self.enlist(list, Member { object, set, token })?;
        Ok(())
    }

    /// As [`Host::unlisten`](crate::Host::unlisten).
    #[tactic(auto, unfolding(crate::specs::HostCalls::unlisten_refusal, crate::specs::HostCalls::delete_after))]
    pub fn unlisten(&mut self, list: u32, object: u32, above: u64) -> Result<(), HostError>
        ensures refusals { RefusesBy result (HostError.ENOENT ∷ HostError.EBADF ∷ []) }
        ensures table { UnlistenCall list object above result self.old self.new }
    {
        if !self.has_both(list, object) {
            return Err(HostError::EBADF);
        }
        match self.member(list, object) {
            Some(member) if member.token > above => {
                let _removed = self.strike(list, object);
                Ok(())
            }
            _ => Err(HostError::ENOENT),
        }
    }

    /// As [`Host::consume_as`](crate::Host::consume_as).
    #[tactic(auto, unfolding(crate::specs::HostCalls::is_listed_as, crate::specs::HostCalls::consume_after))]
    pub fn consume_as(&mut self, list: u32, object: u32, token: u64) -> Result<bool, HostError>
        ensures refusals { RefusesBy result (HostError.EBADF ∷ []) }
        ensures table { ConsumeAsCall list object token result self.old self.new }
    {
        if !self.has_list(list) {
            return Err(HostError::EBADF);
        }
        match self.member(list, object) {
            Some(member) if member.token == token => {
                self.read(object);
                Ok(true)
            }
            _ => Ok(false),
        }
    }

    /// As [`Host::ready`](crate::Host::ready). A step is a look at a word.
    pub fn ready_counted<K: Ledger>(
        &self,
        list: u32,
        steps: &mut Steps<K>,
    ) -> Result<Option<Ready>, HostError>
        ensures refusals { RefusesBy result (HostError.EBADF ∷ []) }
        ensures table { FirstReadyCall list result self.now self.now }
        ensures steps { steps.new ≤ steps.old + length self.now.objects / 4096 + 2 }
    {
        let place = list as usize;
        if place >= self.lists.len() {
            return Err(HostError::EBADF);
        }
        let first = self.lists[place].first_ready(&self.objects, &self.ready[place], steps);
        Ok(first)
    }

    /// As [`Host::ready_many`](crate::Host::ready_many).
    pub fn ready_many(&self, alloc: Global, list: u32, most: usize) -> Result<Vec<Ready>, HostError>
        ensures refusals { RefusesBy result (HostError.EBADF ∷ HostError.OutOfMemory ∷ []) }
        ensures table { ReadyManyCall list most result self.now self.now }
    {
        match self.lists.get(list as usize) {
            Some(members) => Ok(members.all_ready(alloc, &self.objects, most)?),
            None => Err(HostError::EBADF),
        }
    }

    /// As [`Host::claim`](crate::Host::claim).
    #[tactic(auto, unfolding(crate::specs::HostCalls::claim_refusal, crate::specs::HostCalls::claim_after))]
    pub fn claim(&mut self, object: u32, queue: u32) -> Result<(), HostError>
        ensures refusals { RefusesBy result (HostError.EBADF ∷ HostError.Held ∷ []) }
        ensures table { ClaimCall object queue result self.old self.new }
    {
        let Some(event) = self.event(object) else {
            return Err(HostError::EBADF);
        };
        let is_free = match event.claim {
            Some(owner) => owner == queue,
            None => !self.is_listed(object),
        };
        if !is_free {
            return Err(HostError::Held);
        }
        let claim = Some(queue);
        self.put(object, Some(Event { claim, ..event }));
        Ok(())
    }

    /// As [`Host::release`](crate::Host::release).
    #[tactic(auto, unfolding(crate::specs::HostCalls::release_after))]
    pub fn release(&mut self, object: u32)
        ensures { self.new ≡ release_after self.old object }
    {
        if let Some(event) = self.event(object) {
            let claim = None;
            self.put(object, Some(Event { claim, ..event }));
        }
    }

    /// As [`Host::hang_up`](crate::Host::hang_up).
    #[tactic(auto, unfolding(crate::specs::HostCalls::hang_up_after))]
    pub fn hang_up(&mut self, object: u32)
        ensures { self.new ≡ hang_up_after self.old object }
    {
        if let Some(event) = self.event(object) {
            let hung_up = true;
            self.put(object, Some(Event { hung_up, ..event }));
        }
    }

    /// As [`Host::close`](crate::Host::close).
    #[tactic(auto, unfolding(crate::specs::HostCalls::close_after))]
    pub fn close(&mut self, object: u32)
        ensures { self.new ≡ close_after self.old object }
    {
        if (object as usize) < self.objects.len() {
            self.objects[object as usize] = None;
        }
        take_off(&mut self.lists, object);
        refresh_all(&self.objects, &self.lists, &mut self.ready, object);
    }
}
