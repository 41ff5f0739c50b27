ghost use Rattle.std.proofs.Props.{props};
ghost use Rattle.std.specs.Prelude.{◌≡◌, ◌+◌, ◌/◌, ◌<◌, ◌≤◌, ℕ, length, [], ◌∷◌, Some, IfOk, IsOk, slice_get};
ghost use Rattle.vub_base.specs.Told.{Told};
ghost use Rattle.vub_event.specs.Errors.{RefusesBy};
ghost use Rattle.vub_event.specs.Faults.{CountsFaults};
ghost use Rattle.vub_event.specs.HostTable.{empty_table, event_at, members_at};
ghost use Rattle.vub_event.specs.HostCalls.{member_for, CreateEventCall, CreateListCall, SignalCall, ConsumeCall, AddCall, ModifyCall, DeleteCall, ListenCall, UnlistenCall, ConsumeAsCall, FirstReadyCall, ReadyCall, ReadyManyCall, ClaimCall, release_after, hang_up_after, close_after};
ghost use Rattle.vub_event.specs.Orderly.{IsOrderly, IsOrdered-prop};
ghost use Rattle.vub_event.specs.Plan.{GoesByPlan};

use crate::error::HostError;
use crate::event::Event;
use crate::event_set::EventSet;
use crate::event_table::EventTable;
use crate::fault_plan::FaultPlan;
use crate::host::Host;
use crate::member::Member;
use crate::ready::Ready;
use std::alloc::Global;
use std::marker::Brand;
use std::sync::ledger::{Blank, Ledger};
use vub_base::{OutOfMemory, Steps};

/// A host in memory. It tells its table, and of several ready members it takes the one with the least object number.
#[derive(Debug, Drop)]
pub struct MemHost {
    table: EventTable,
    plan: FaultPlan,
    ghost orderly: { IsOrderly table } by { Prim.hlevel (props, IsOrdered-prop) },
}

impl MemHost {
    /// A host with no object, no list and no call to fail. Takes no memory.
    pub fn new(alloc: Global) -> MemHost
        ensures table { result.table ≡ empty_table }
        ensures calls { result.plan.calls.items ≡ [] }
        ensures made { result.plan.made ≡ 0 }
        ensures faults { result.plan.faults ≡ 0 }
    {
        MemHost {
            table: EventTable::new(alloc),
            plan: FaultPlan::new(Vec::new(alloc)),
        }
    }

    /// A host that fails the calls with these numbers, counted from 0 over the calls that answer a Result. A call that
    /// is to fail answers Failed before any other test. The list is kept as it is, so this takes no memory and is never
    /// refused.
    pub fn failing(alloc: Global, calls: Vec<u64>) -> Result<MemHost, OutOfMemory>
        ensures ok { IsOk result }
        ensures table { IfOk result (λ h. h.table ≡ empty_table) }
        ensures calls { IfOk result (λ h. h.plan.calls.items ≡ calls.items) }
        ensures made { IfOk result (λ h. h.plan.made ≡ 0) }
        ensures faults { IfOk result (λ h. h.plan.faults ≡ 0) }
    {
        Ok(MemHost {
            table: EventTable::new(alloc),
            plan: FaultPlan::new(calls),
        })
    }

    /// The object of this number; None where it was never made or is closed.
    pub fn event(&self, object: u32) -> Option<Event>
        ensures { result ≡ event_at self.now.table object }
    {
        self.table.event(object)
    }

    /// The members of this list by object number; none where the list was never made.
    pub fn members(&self, list: u32) -> &[Member]
        ensures { result.now ≡ members_at self.now.table list }
    {
        self.table.members(list)
    }

    /// As [`Host::ready`], on a counter of steps. A step is a look at a word of 64 objects, or of 64 such words.
    ///
    /// # Errors
    /// As [`Host::ready`].
    pub fn ready_counted<K: Ledger>(
        &mut self,
        list: u32,
        steps: &mut Steps<K>,
    ) -> Result<Option<Ready>, HostError>
        ensures faults { CountsFaults self.old.plan.faults self.new.plan.faults (self.old.plan.calls.items ≡ [])
            (self.new.plan.calls.items ≡ []) result }
        ensures refusals { RefusesBy result (HostError.Failed ∷ HostError.EBADF ∷ []) }
        ensures table { ReadyCall list result self.old.table self.new.table }
        ensures least { FirstReadyCall list result self.old.table self.new.table }
        ensures plan { GoesByPlan self.old.plan self.new.plan result }
        ensures steps { steps.new ≤ steps.old + length self.old.table.objects / 4096 + 2 }
    {
        if self.plan.strikes() {
            return Err(HostError::Failed);
        }
        self.table.ready_counted(list, steps)
    }
}

/// As [`Host::ready`], on a counter of steps that nobody reads.
fn ready_with<K: Ledger>(
    host: &mut MemHost,
    list: u32,
    blank: Blank,
) -> Result<Option<Ready>, HostError>
    requires name { blank.name ≡ K.name }
    requires parts { blank.parts ≡ K.parts }
    requires some { 0 < K.parts }
    ensures faults { CountsFaults host.old.plan.faults host.new.plan.faults (host.old.plan.calls.items ≡ [])
        (host.new.plan.calls.items ≡ []) result }
    ensures refusals { RefusesBy result (HostError.Failed ∷ HostError.EBADF ∷ []) }
    ensures table { ReadyCall list result host.old.table host.new.table }
    ensures least { FirstReadyCall list result host.old.table host.new.table }
    ensures plan { GoesByPlan host.old.plan host.new.plan result }
{
    let mut steps = Steps::<K>::new(blank);
    host.ready_counted(list, &mut steps)
}

impl Host for MemHost {
    ghost held = { λ h. Some h.table };

    ghost fault_count = { λ h. h.plan.faults };

    ghost never_fails = { λ h. h.plan.calls.items ≡ [] };

    fn faults(&self) -> u64 {
        self.plan.faults
    }

    fn create_event(&mut self, _alloc: Global, flags: u32) -> Result<u32, HostError>
        ensures faults { CountsFaults self.old.plan.faults self.new.plan.faults (self.old.plan.calls.items ≡ [])
            (self.new.plan.calls.items ≡ []) result }
        ensures refusals { RefusesBy result (HostError.Failed ∷ HostError.EINVAL ∷ HostError.OutOfMemory ∷ []) }
        ensures table { CreateEventCall flags result self.old.table self.new.table }
        ensures plan { GoesByPlan self.old.plan self.new.plan result }
    {
        if self.plan.strikes() {
            return Err(HostError::Failed);
        }
        self.table.create_event(flags)
    }

    fn create_list(&mut self, alloc: Global) -> Result<u32, HostError>
        ensures faults { CountsFaults self.old.plan.faults self.new.plan.faults (self.old.plan.calls.items ≡ [])
            (self.new.plan.calls.items ≡ []) result }
        ensures refusals { RefusesBy result (HostError.Failed ∷ HostError.OutOfMemory ∷ []) }
        ensures table { CreateListCall result self.old.table self.new.table }
        ensures plan { GoesByPlan self.old.plan self.new.plan result }
    {
        if self.plan.strikes() {
            return Err(HostError::Failed);
        }
        self.table.create_list(alloc)
    }

    fn signal(&mut self, object: u32, value: u64) -> Result<(), HostError>
        ensures faults { CountsFaults self.old.plan.faults self.new.plan.faults (self.old.plan.calls.items ≡ [])
            (self.new.plan.calls.items ≡ []) result }
        ensures refusals { RefusesBy result
            (HostError.Failed ∷ HostError.WouldBlock ∷ HostError.EINVAL ∷ HostError.EBADF ∷ []) }
        ensures table { SignalCall object value result self.old.table self.new.table }
        ensures plan { GoesByPlan self.old.plan self.new.plan result }
    {
        if self.plan.strikes() {
            return Err(HostError::Failed);
        }
        self.table.signal(object, value)
    }

    fn consume(&mut self, object: u32) -> Result<u64, HostError>
        ensures faults { CountsFaults self.old.plan.faults self.new.plan.faults (self.old.plan.calls.items ≡ [])
            (self.new.plan.calls.items ≡ []) result }
        ensures refusals { RefusesBy result (HostError.Failed ∷ HostError.WouldBlock ∷ HostError.EBADF ∷ []) }
        ensures table { ConsumeCall object result self.old.table self.new.table }
        ensures plan { GoesByPlan self.old.plan self.new.plan result }
    {
        if self.plan.strikes() {
            return Err(HostError::Failed);
        }
        self.table.consume(object)
    }

    fn add(
        &mut self,
        _alloc: Global,
        list: u32,
        object: u32,
        set: EventSet,
        token: u64,
    ) -> Result<(), HostError>
        ensures faults { CountsFaults self.old.plan.faults self.new.plan.faults (self.old.plan.calls.items ≡ [])
            (self.new.plan.calls.items ≡ []) result }
        ensures refusals { RefusesBy result
            (HostError.Failed ∷ HostError.EINVAL ∷ HostError.EEXIST ∷ HostError.EBADF ∷ HostError.OutOfMemory ∷ []) }
        ensures table { AddCall list (member_for object set token) result self.old.table self.new.table }
        ensures plan { GoesByPlan self.old.plan self.new.plan result }
    {
        if self.plan.strikes() {
            return Err(HostError::Failed);
        }
        self.table.add(list, Member { object, set, token })
    }

    fn modify(&mut self, list: u32, object: u32, set: EventSet, token: u64) -> Result<(), HostError>
        ensures faults { CountsFaults self.old.plan.faults self.new.plan.faults (self.old.plan.calls.items ≡ [])
            (self.new.plan.calls.items ≡ []) result }
        ensures refusals { RefusesBy result
            (HostError.Failed ∷ HostError.EINVAL ∷ HostError.ENOENT ∷ HostError.EBADF ∷ []) }
        ensures table { ModifyCall list (member_for object set token) result self.old.table self.new.table }
        ensures plan { GoesByPlan self.old.plan self.new.plan result }
    {
        if self.plan.strikes() {
            return Err(HostError::Failed);
        }
        self.table.modify(list, Member { object, set, token })
    }

    fn delete(&mut self, list: u32, object: u32) -> Result<(), HostError>
        ensures faults { CountsFaults self.old.plan.faults self.new.plan.faults (self.old.plan.calls.items ≡ [])
            (self.new.plan.calls.items ≡ []) result }
        ensures refusals { RefusesBy result (HostError.Failed ∷ HostError.ENOENT ∷ HostError.EBADF ∷ []) }
        ensures table { DeleteCall list object result self.old.table self.new.table }
        ensures plan { GoesByPlan self.old.plan self.new.plan result }
    {
        if self.plan.strikes() {
            return Err(HostError::Failed);
        }
        self.table.delete(list, object)
    }

    fn listen(
        &mut self,
        _alloc: Global,
        list: u32,
        object: u32,
        token: u64,
    ) -> Result<(), HostError>
        ensures faults { CountsFaults self.old.plan.faults self.new.plan.faults (self.old.plan.calls.items ≡ [])
            (self.new.plan.calls.items ≡ []) result }
        ensures refusals { RefusesBy result
            (HostError.Failed ∷ HostError.EEXIST ∷ HostError.EBADF ∷ HostError.OutOfMemory ∷ []) }
        ensures table { ListenCall list object token result self.old.table self.new.table }
        ensures plan { GoesByPlan self.old.plan self.new.plan result }
    {
        if self.plan.strikes() {
            return Err(HostError::Failed);
        }
        self.table.listen(list, object, token)
    }

    fn unlisten(&mut self, list: u32, object: u32, above: u64) -> Result<(), HostError>
        ensures faults { CountsFaults self.old.plan.faults self.new.plan.faults (self.old.plan.calls.items ≡ [])
            (self.new.plan.calls.items ≡ []) result }
        ensures refusals { RefusesBy result (HostError.Failed ∷ HostError.ENOENT ∷ HostError.EBADF ∷ []) }
        ensures table { UnlistenCall list object above result self.old.table self.new.table }
        ensures plan { GoesByPlan self.old.plan self.new.plan result }
    {
        if self.plan.strikes() {
            return Err(HostError::Failed);
        }
        self.table.unlisten(list, object, above)
    }

    fn consume_as(&mut self, list: u32, object: u32, token: u64) -> Result<bool, HostError>
        ensures faults { CountsFaults self.old.plan.faults self.new.plan.faults (self.old.plan.calls.items ≡ [])
            (self.new.plan.calls.items ≡ []) result }
        ensures refusals { RefusesBy result (HostError.Failed ∷ HostError.EBADF ∷ []) }
        ensures table { ConsumeAsCall list object token result self.old.table self.new.table }
        ensures plan { GoesByPlan self.old.plan self.new.plan result }
    {
        if self.plan.strikes() {
            return Err(HostError::Failed);
        }
        self.table.consume_as(list, object, token)
    }

    fn ready(&mut self, list: u32) -> Result<Option<Ready>, HostError>
        ensures faults { CountsFaults self.old.plan.faults self.new.plan.faults (self.old.plan.calls.items ≡ [])
            (self.new.plan.calls.items ≡ []) result }
        ensures refusals { RefusesBy result (HostError.Failed ∷ HostError.EBADF ∷ []) }
        ensures table { ReadyCall list result self.old.table self.new.table }
        ensures least { FirstReadyCall list result self.old.table self.new.table }
        ensures plan { GoesByPlan self.old.plan self.new.plan result }
    {
        ready_with::<Brand>(self, list, Blank::new(1))
    }

    fn ready_many(&mut self, alloc: Global, list: u32, most: usize) -> Result<Vec<Ready>, HostError>
        ensures faults { CountsFaults self.old.plan.faults self.new.plan.faults (self.old.plan.calls.items ≡ [])
            (self.new.plan.calls.items ≡ []) result }
        ensures refusals { RefusesBy result (HostError.Failed ∷ HostError.EBADF ∷ HostError.OutOfMemory ∷ []) }
        ensures table { ReadyManyCall list most result self.old.table self.new.table }
        ensures plan { GoesByPlan self.old.plan self.new.plan result }
    {
        if self.plan.strikes() {
            return Err(HostError::Failed);
        }
        self.table.ready_many(alloc, list, most)
    }

    fn claim(&mut self, object: u32, queue: u32) -> Result<(), HostError>
        ensures faults { CountsFaults self.old.plan.faults self.new.plan.faults (self.old.plan.calls.items ≡ [])
            (self.new.plan.calls.items ≡ []) result }
        ensures refusals { RefusesBy result (HostError.Failed ∷ HostError.EBADF ∷ HostError.Held ∷ []) }
        ensures table { ClaimCall object queue result self.old.table self.new.table }
        ensures plan { GoesByPlan self.old.plan self.new.plan result }
    {
        if self.plan.strikes() {
            return Err(HostError::Failed);
        }
        self.table.claim(object, queue)
    }

    fn release(&mut self, object: u32)
        ensures faults { self.new.plan.faults ≡ self.old.plan.faults }
        ensures still { self.old.plan.calls.items ≡ [] → self.new.plan.calls.items ≡ [] }
        ensures table { self.new.table ≡ release_after self.old.table object }
        ensures plan { self.new.plan ≡ self.old.plan }
    {
        self.table.release(object);
    }

    fn hang_up(&mut self, object: u32)
        ensures faults { self.new.plan.faults ≡ self.old.plan.faults }
        ensures still { self.old.plan.calls.items ≡ [] → self.new.plan.calls.items ≡ [] }
        ensures table { self.new.table ≡ hang_up_after self.old.table object }
        ensures plan { self.new.plan ≡ self.old.plan }
    {
        self.table.hang_up(object);
    }

    fn close(&mut self, object: u32)
        ensures faults { self.new.plan.faults ≡ self.old.plan.faults }
        ensures still { self.old.plan.calls.items ≡ [] → self.new.plan.calls.items ≡ [] }
        ensures table { self.new.table ≡ close_after self.old.table object }
        ensures plan { self.new.plan ≡ self.old.plan }
    {
        self.table.close(object);
    }
}
