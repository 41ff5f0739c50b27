//! Laws of every host, each as the contract of a small function that makes the calls it speaks of.
ghost use Rattle.std.specs.Prelude.{◌≡◌, ◌∷◌, [], IfOk};
ghost use Rattle.vub_base.specs.Told.{Told};
ghost use Rattle.vub_event.specs.Errors.{RefusesBy};
ghost use Rattle.vub_event.specs.Faults.{CountsFaults};
ghost use Rattle.vub_event.specs.HostCalls.{member_for};
ghost use Rattle.vub_event.specs.Orderly.{ReportsByObject};
ghost use Rattle.vub_event.specs.Laws.{AddsAndDeletes, AddsTwice, WritesAndReads, passed_over, WritesOne, WritesAllAndReads};

use crate::error::HostError;
use crate::event_set::EventSet;
use crate::host::Host;
use std::alloc::Global;

/// Adds an object to a list and takes it off again. Once both are done, the add was accepted and the table is what it
/// was.
///
/// # Errors
/// Those of [`Host::add`], with the table as it was; else those of [`Host::delete`], of which only a fault is due, with
/// the object in the list.
pub fn add_then_delete<H: Host>(
    host: &mut H,
    alloc: Global,
    list: u32,
    object: u32,
    set: EventSet,
    token: u64,
) -> Result<(), HostError>
    ensures faults { CountsFaults (H.fault_count host.old) (H.fault_count host.new) (H.never_fails host.old)
        (H.never_fails host.new) result }
    ensures refusals { RefusesBy result (HostError.Failed ∷ HostError.EINVAL ∷ HostError.EEXIST ∷ HostError.ENOENT
        ∷ HostError.EBADF ∷ HostError.OutOfMemory ∷ []) }
    ensures table { Told (H.held host.old) (H.held host.new)
        (AddsAndDeletes list (member_for object set token) result) }
{
    host.add(alloc, list, object, set, token)?;
    host.delete(list, object)
}

/// Adds an object to a list twice, and answers what the second call answered: EEXIST, where it met neither a fault nor
/// want of memory. The second call adds nothing.
///
/// # Errors
/// Those of [`Host::add`] at the first call, with the table as it was.
pub fn add_twice<H: Host>(
    host: &mut H,
    alloc: Global,
    list: u32,
    object: u32,
    set: EventSet,
    token: u64,
) -> Result<Result<(), HostError>, HostError>
    ensures faults { CountsFaults (H.fault_count host.old) (H.fault_count host.new) (H.never_fails host.old)
        (H.never_fails host.new) result }
    ensures refusals { RefusesBy result (HostError.Failed ∷ HostError.EINVAL ∷ HostError.EEXIST ∷ HostError.EBADF
        ∷ HostError.OutOfMemory ∷ []) }
    ensures second { IfOk result (λ second. CountsFaults (H.fault_count host.old) (H.fault_count host.new)
        (H.never_fails host.old) (H.never_fails host.new) second) }
    ensures table { Told (H.held host.old) (H.held host.new) (AddsTwice list (member_for object set token) result) }
{
    host.add(alloc, list, object, set, token)?;
    Ok(host.add(alloc, list, object, set, token))
}

/// Writes this value to a counter and reads it. Once both are done, the read of a counter that is no semaphore gave the
/// count before and the value, and left 0.
///
/// # Errors
/// Those of [`Host::signal`], with the table as it was; else those of [`Host::consume`], with the value added: a fault,
/// or WouldBlock where the count before and the value are 0.
pub fn write_then_read<H: Host>(host: &mut H, object: u32, value: u64) -> Result<u64, HostError>
    ensures faults { CountsFaults (H.fault_count host.old) (H.fault_count host.new) (H.never_fails host.old)
        (H.never_fails host.new) result }
    ensures refusals { RefusesBy result (HostError.Failed ∷ HostError.WouldBlock ∷ HostError.EINVAL ∷ HostError.EBADF
        ∷ []) }
    ensures table { Told (H.held host.old) (H.held host.new) (WritesAndReads object value result) }
{
    host.signal(object, value)?;
    host.consume(object)
}

/// The answer of a write, where one that the counter refuses is passed over.
fn passed_over(answer: Result<(), HostError>) -> Result<(), HostError>
    ensures { result ≡ passed_over answer }
{
    match answer {
        Err(HostError::WouldBlock) => Ok(()),
        Err(HostError::EINVAL) => Ok(()),
        answer => answer,
    }
}

/// Writes this value to a counter, and passes over a write that the counter refuses.
fn write_one<H: Host>(host: &mut H, object: u32, value: u64) -> Result<(), HostError>
    ensures faults { CountsFaults (H.fault_count host.old) (H.fault_count host.new) (H.never_fails host.old)
        (H.never_fails host.new) result }
    ensures refusals { RefusesBy result (HostError.Failed ∷ HostError.EBADF ∷ []) }
    ensures table { Told (H.held host.old) (H.held host.new) (WritesOne object value result) }
{
    let answer = host.signal(object, value);
    passed_over(answer)
}

/// Writes these values to a counter, one after the other, and reads it. A write that the counter refuses is passed
/// over. The read of a counter that is no semaphore gives the count before and the sum of the accepted writes, and
/// leaves 0.
///
/// # Errors
/// EBADF where there is no such object; WouldBlock where the count before and all accepted writes are 0; a fault of the
/// host, which leaves what the writes before it made.
pub fn writes_then_read<H: Host>(
    host: &mut H,
    object: u32,
    values: &[u64],
) -> Result<u64, HostError>
    ensures faults { CountsFaults (H.fault_count host.old) (H.fault_count host.new) (H.never_fails host.old)
        (H.never_fails host.new) result }
    ensures refusals { RefusesBy result (HostError.Failed ∷ HostError.WouldBlock ∷ HostError.EBADF ∷ []) }
    ensures table { Told (H.held host.old) (H.held host.new) (WritesAllAndReads object values.now result) }
{
    for value in values {
        write_one(host, object, *value)?;
    }
    host.consume(object)
}

/// Law: of a host that tells its table, as [`Host::faults`] gives it, [`Host::ready_many`] answers its reports in order
/// of their objects, and of no object two.
pub fn reports_stand_by_object()
    ensures { ReportsByObject }
{}
