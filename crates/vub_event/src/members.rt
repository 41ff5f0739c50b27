ghost use Rattle.std.specs.Prelude.{◌≡◌, [], ◌∷◌, length, not, is_some, IfOk, OnErr, if◌then◌else◌, take, slice_get, slice_index_or, ◌+◌, ◌/◌, ◌≤◌, None};
ghost use Rattle.vub_event.specs.HostTable.{report_of, reports_of, IsLeastOf};
ghost use Rattle.vub_event.specs.InterestList.{IsOrdered, member_of, with_member, with_changed, without_member};
ghost use Rattle.vub_event.specs.Place.{MeetsAt};
ghost use Rattle.vub_event.specs.ReadyWords.{report_for, IsReadyList};

use crate::event::Event;
use crate::member::Member;
use crate::ready::Ready;
use crate::ready_words::ReadyWords;
use std::alloc::Global;
use std::marker::Model;
use std::sync::ledger::Ledger;
use vub_base::{OutOfMemory, Steps};

/// The members of an interest list, in order of their objects' numbers. A contract sees their list.
#[derive(Debug, Drop)]
pub struct Members {
    members: Vec<Member>,
}

impl Model for Members {
    ghost use Rattle.std.specs.Prelude.{List};
    ghost use Rattle.vub_event.specs.declared.member.Member.{Member};
    ghost use Rattle.vub_event.specs.InterestList.{IsOrdered};

    ghost Value = { List Member };

    ghost view = { λ a. a.members.items };

    ghost invariant = { λ a. IsOrdered a.members.items };
}

/// The place of the member for this object, or the place where it would go.
fn place(members: &[Member], object: u32) -> Result<usize, usize>
    requires { IsOrdered members.now }
    ensures { MeetsAt members.now object result }
{
    let at = members.partition_point(|member| member.object < object);
    if at < members.len() && members[at].object == object {
        Ok(at)
    } else {
        Err(at)
    }
}

impl Members {
    /// No members. Takes no memory.
    pub fn new(alloc: Global) -> Members
        ensures { result ≡ [] }
    {
        Members {
            members: Vec::new(alloc),
        }
    }

    /// The members, lent.
    pub fn as_slice(&self) -> &[Member]
        ensures { result.now ≡ self.now }
    {
        self.members.as_slice()
    }

    /// The member for this object.
    pub fn get(&self, object: u32) -> Option<Member>
        ensures { result ≡ member_of self.now object }
    {
        match place(&self.members, object) {
            Ok(at) => Some(self.members[at]),
            Err(_) => None,
        }
    }

    /// Adds a member. False exactly where its object has one, which then stays.
    ///
    /// # Errors
    /// Want of memory leaves the members as they were.
    pub fn add(&mut self, member: Member) -> Result<bool, OutOfMemory>
        ensures answer { IfOk result (λ added. added ≡ not (is_some (member_of self.old member.object))) }
        ensures after { IfOk result (λ added. self.new ≡ (if added then with_member self.old member else self.old)) }
        ensures err { OnErr result (self.new ≡ self.old) }
    {
        match place(&self.members, member.object) {
            Ok(_) => Ok(false),
            Err(at) => {
                self.members.insert(at, member)?;
                Ok(true)
            }
        }
    }

    /// Puts this member in the place of the one for its object. False exactly where there is none.
    pub fn change(&mut self, member: Member) -> bool
        ensures answer { result ≡ is_some (member_of self.old member.object) }
        ensures after { self.new ≡ (if result then with_changed self.old member else self.old) }
    {
        match place(&self.members, member.object) {
            Ok(at) => {
                self.members[at] = member;
                true
            }
            Err(_) => false,
        }
    }

    /// Removes the member for this object. False exactly where there is none.
    pub fn remove(&mut self, object: u32) -> bool
        ensures answer { result ≡ is_some (member_of self.old object) }
        ensures after { self.new ≡ (if result then without_member self.old object else self.old) }
        ensures without { self.new ≡ without_member self.old object }
    {
        match place(&self.members, object) {
            Ok(at) => {
                let _removed = self.members.remove(at);
                true
            }
            Err(_) => false,
        }
    }

    /// The report for the member for this object, if there is one and it is ready.
    pub fn report(&self, objects: &[Option<Event>], object: u32) -> Option<Ready>
        ensures { result ≡ report_for objects.now (member_of self.now object) }
    {
        match self.get(object) {
            Some(member) => report(objects, member),
            None => None,
        }
    }

    /// The report for the first member that is ready, whose words these are. A step is a look at a word.
    pub fn first_ready<K: Ledger>(
        &self,
        objects: &[Option<Event>],
        ready: &ReadyWords,
        steps: &mut Steps<K>,
    ) -> Option<Ready>
        requires { IsReadyList objects.now self.now ready.now }
        ensures first { result ≡ slice_get (reports_of objects.now self.now) 0 }
        ensures least { IsLeastOf (reports_of objects.now self.now) result }
        ensures steps { steps.new ≤ steps.old + (length ready.now + 63) / 64 + 1 }
    {
        if self.members.is_empty() {
            return None;
        }
        match ready.first(steps) {
            Some(object) => self.report(objects, object),
            None => None,
        }
    }

    /// The reports for the first `most` members that are ready.
    ///
    /// # Errors
    /// Want of memory.
    pub fn all_ready(
        &self,
        alloc: Global,
        objects: &[Option<Event>],
        most: usize,
    ) -> Result<Vec<Ready>, OutOfMemory>
        ensures { IfOk result (λ found. found.items ≡ take most (reports_of objects.now self.now)) }
    {
        let members = self.members.as_slice();
        let mut found = Vec::new(alloc);
        for member in members {
            if found.len() >= most {
                return Ok(found);
            }
            if let Some(ready) = report(objects, *member) {
                found.push(ready)?;
            }
        }
        Ok(found)
    }
}

/// The report for this member, if it is ready.
fn report(objects: &[Option<Event>], member: Member) -> Option<Ready>
    ensures { result ≡ report_of member (slice_index_or objects.now member.object None) }
{
    match objects.get(member.object as usize) {
        Some(Some(event)) => event.report(member),
        _ => None,
    }
}
