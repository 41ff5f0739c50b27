//! The host of a new machine: an event for each object, and a bell and an interest list for each worker.
ghost use Rattle.std.specs.Prelude.{◌≡◌, ℕ, ◌+◌, ◌<◌, ◌^◌, true, [], ◌∷◌, ◌++◌, length, map, Some, IfOk, OnOk, IfSome};
ghost use Rattle.std.specs.List.{range_with_len};
ghost use Rattle.vub_event.specs.HostTable.{has_event, members_at, with_members};
ghost use Rattle.vub_event.specs.HostCalls.{new_event, create_event_after, create_list_after, add_refusal};
ghost use Rattle.vub_event.specs.InterestList.{with_member};
ghost use Rattle.vub_model.specs.Opening.{flags_of, opening_events, opened_worker, wiring_of, listed, exit_member, opening_members, opening_table};
ghost use Rattle.vub_open.specs.Hosts.{NeverFails};
ghost use Rattle.vub_open.specs.Opened.{ExitsAreThere};

use std::alloc::Global;
use vub_base::OutOfMemory;
use vub_event::{EventSet, Host, HostError, MemHost};
use vub_model::{Constants, Object, Opened};

/// The flags that an event may have: SEMAPHORE 1, NONBLOCK 0x800 and CLOEXEC 0x80000 (eventfd(2)).
const EVENT_FLAGS: u32 = 0x80801;

/// The one reason for which a host refuses a call that it else takes.
fn only_memory(fault: HostError) -> OutOfMemory
    requires { fault ≡ HostError.OutOfMemory }
{
    match fault {
        HostError::OutOfMemory => OutOfMemory,
        _ => unreachable!(),
    }
}

/// A new event with those of these flags that an event may have.
#[tactic(auto, using(crate::proofs::NewEvents::cut_event), unfolding(vub_event::specs::HostCalls::create_event_after))]
fn create_event(alloc: Global, host: &mut MemHost, flags: u32) -> Result<(), OutOfMemory>
    requires { NeverFails host.old }
    ensures table { OnOk result (host.new.table ≡ create_event_after host.old.table flags) }
    ensures sound { NeverFails host.new }
{
    match host.create_event(alloc, flags & EVENT_FLAGS) {
        Ok(_) => Ok(()),
        Err(fault) => Err(only_memory(fault)),
    }
}

/// The flags of an object: those of an event.
fn flags_of(object: &Object) -> u32
    ensures { result ≡ flags_of object.now }
{
    match object {
        Object::Event { flags } => *flags,
        Object::Content(_) | Object::Log { .. } => 0,
    }
}

/// An event for each object, behind those that there are.
#[tactic(auto, unfolding(vub_event::specs::HostCalls::create_event_after))]
fn create_events(alloc: Global, host: &mut MemHost, objects: &[Object]) -> Result<(), OutOfMemory>
    requires { NeverFails host.old }
    ensures objects { OnOk result (host.new.table.objects ≡ host.old.table.objects ++ map
        (λ o. Some (new_event (flags_of o))) objects.now) }
    ensures lists { OnOk result (host.new.table.lists ≡ host.old.table.lists) }
    ensures sound { NeverFails host.new }
{
    for object in objects {
        create_event(alloc, host, flags_of(object))?;
    }
    Ok(())
}

/// A bell for each worker, behind the events that there are.
#[tactic(auto, unfolding(vub_event::specs::HostCalls::create_event_after))]
fn create_bells(alloc: Global, host: &mut MemHost, masks: &[u64]) -> Result<(), OutOfMemory>
    requires { NeverFails host.old }
    ensures objects { OnOk result (host.new.table.objects ≡ host.old.table.objects ++ map
        (λ mask. Some (new_event 0)) masks.now) }
    ensures lists { OnOk result (host.new.table.lists ≡ host.old.table.lists) }
    ensures sound { NeverFails host.new }
{
    for _mask in masks {
        create_event(alloc, host, 0)?;
    }
    Ok(())
}

/// Makes the object a member of the list that asks for IN alone.
#[tactic(auto, unfolding(vub_event::specs::HostCalls::add_after))]
pub(crate) fn add_member(
    alloc: Global,
    host: &mut MemHost,
    list: u32,
    object: u32,
    token: u64,
) -> Result<(), OutOfMemory>
    requires sound { NeverFails host.old }
    requires taken { add_refusal host.old.table list (listed object token) ≡ None }
    ensures table { OnOk result (host.new.table ≡ with_members host.old.table list (with_member
        (members_at host.old.table list) (listed object token))) }
    ensures sound { NeverFails host.new }
{
    match host.add(alloc, list, object, EventSet::IN, token) {
        Ok(()) => Ok(()),
        Err(fault) => Err(only_memory(fault)),
    }
}

/// Makes the exit object, if there is one, a member of this list, which has no member.
#[tactic(auto, using(crate::proofs::NewLists::with_none, crate::proofs::NewLists::with_first))]
fn add_exit(
    alloc: Global,
    host: &mut MemHost,
    list: u32,
    exit: Option<u32>,
    token: u64,
) -> Result<(), OutOfMemory>
    requires sound { NeverFails host.old }
    requires none { members_at host.old.table list ≡ [] }
    requires list { list < length host.old.table.lists }
    requires there { IfSome exit (λ x. has_event host.old.table x ≡ true) }
    ensures table { OnOk result (host.new.table ≡ with_members host.old.table list (exit_member exit token)) }
    ensures sound { NeverFails host.new }
{
    match exit {
        None => Ok(()),
        Some(object) => add_member(alloc, host, list, object, token),
    }
}

/// A new interest list, behind those that there are.
fn create_list(alloc: Global, host: &mut MemHost) -> Result<u32, OutOfMemory>
    requires { NeverFails host.old }
    ensures list { IfOk result (λ list. list ≡ length host.old.table.lists) }
    ensures table { OnOk result (host.new.table ≡ create_list_after host.old.table) }
    ensures sound { NeverFails host.new }
{
    match host.create_list(alloc) {
        Ok(list) => Ok(list),
        Err(fault) => Err(only_memory(fault)),
    }
}

/// The interest list of a worker, behind those that there are: its exit object and its bell.
#[tactic(auto, using(crate::proofs::NewLists::new_list_empty, crate::proofs::NewLists::new_list))]
fn open_list(
    alloc: Global,
    host: &mut MemHost,
    opened: Opened,
    token: u64,
) -> Result<(), OutOfMemory>
    requires sound { NeverFails host.old }
    requires exit { IfSome opened.exit (λ x. has_event host.old.table x ≡ true) }
    requires bell { has_event host.old.table opened.bell ≡ true }
    requires apart { opened.exit ≡ Some opened.bell → ⊥ }
    ensures table { OnOk result (host.new.table
        ≡ record host.old.table { lists = host.old.table.lists ++ opening_members token opened ∷ [] }) }
    ensures sound { NeverFails host.new }
{
    let list = create_list(alloc, host)?;
    add_exit(alloc, host, list, opened.exit, token)?;
    add_member(alloc, host, list, opened.bell, token)?;
    Ok(())
}

/// A worker as it is opened behind `count` objects.
pub fn opened_worker(count: u32, exits: &[Option<u32>], worker: u32) -> Opened
    requires { count + worker < 2 ^ 32 }
    ensures { result ≡ opened_worker count exits.now worker }
{
    let exit = match exits.get(worker as usize) {
        Some(exit) => *exit,
        None => None,
    };
    Opened {
        worker,
        list: worker,
        bell: count + worker,
        exit,
    }
}

// Not `vub_vring::open_worker` for each: that works over parts, which lend a service and a device and have their rings
// already, and it asks for the constants anew for each worker.
/// The interest lists of the workers.
fn open_lists(
    alloc: Global,
    host: &mut MemHost,
    constants: &Constants,
    count: u32,
) -> Result<(), OutOfMemory>
    requires numbers { count + length constants.now.masks < 2 ^ 32 }
    requires sound { NeverFails host.old }
    requires none { host.old.table.lists ≡ [] }
    requires there { (object : ℕ) → object < count + length constants.now.masks
        → has_event host.old.table object ≡ true }
    requires exits { ExitsAreThere constants.now count }
    ensures lists { OnOk result (host.new.table.lists ≡ map (λ w. opening_members constants.now.queues w)
        (wiring_of constants.now count).opened) }
    ensures objects { OnOk result (host.new.table.objects ≡ host.old.table.objects) }
    ensures sound { NeverFails host.new }
{
    for worker in 0..constants.masks.len() as u32 {
        let opened = opened_worker(count, constants.exits.as_slice(), worker);
        open_list(alloc, host, opened, constants.queues as u64)?;
    }
    Ok(())
}

/// A host with an event for each object, and a bell and an interest list for each worker.
///
/// # Errors
/// Want of memory.
pub(crate) fn open_host(
    alloc: Global,
    objects: &[Object],
    constants: &Constants,
) -> Result<MemHost, OutOfMemory>
    requires numbers { length objects.now + length constants.now.masks < 2 ^ 32 }
    requires exits { ExitsAreThere constants.now (length objects.now) }
    ensures table { IfOk result (λ h. h.table ≡ opening_table constants.now objects.now) }
    ensures sound { IfOk result (λ h. NeverFails h) }
{
    let mut host = MemHost::new(alloc);
    create_events(alloc, &mut host, objects)?;
    create_bells(alloc, &mut host, constants.masks.as_slice())?;
    open_lists(alloc, &mut host, constants, objects.len() as u32)?;
    Ok(host)
}
