//! Signals and reads of one event, as rings make them.
ghost use Rattle.std.specs.Prelude.{◌≡◌, [], ◌∷◌, IsErrOf};
ghost use Rattle.vub_base.specs.Told.{Told};
ghost use Rattle.vub_event.specs.Errors.{RefusesBy};
ghost use Rattle.vub_event.specs.Faults.{CountsFaults};
ghost use Rattle.vub_ring.specs.Events.{settled, unless_failed, table_raised, table_read, RaisesEvent, ReadsEvent};
ghost use Rattle.vub_ring.specs.Faults.{CountsFaults as CountsPartsFaults};
ghost use Rattle.vub_ring.specs.Play.{OnTable};

use crate::ops::PartsError;
use vub_event::{Host, HostError};

/// An answer that would block is as one that was done.
fn settle<T: Drop>(answer: Result<T, HostError>) -> Result<(), HostError>
    ensures { result ≡ settled answer }
{
    match answer {
        Ok(_) | Err(HostError::WouldBlock) => Ok(()),
        Err(error) => Err(error),
    }
}

/// Adds 1 to the count of this event. A full counter stays, and is no error.
///
/// # Errors
/// `EBADF` where the host has no such event; `Failed` only where the host's count of faults rose.
#[tactic(auto, using(crate::proofs::Settling::told_signals, crate::proofs::Settling::counts_settled, crate::proofs::Settling::refuses_settled))]
pub(crate) fn raise<H: Host>(host: &mut H, object: u32) -> Result<(), HostError>
    ensures table { Told (H.held host.old) (H.held host.new) (RaisesEvent object result) }
    ensures faults { CountsFaults (H.fault_count host.old) (H.fault_count host.new) (H.never_fails host.old)
        (H.never_fails host.new) result }
    ensures refusals { RefusesBy result (HostError.Failed ∷ HostError.EINVAL ∷ HostError.EBADF ∷ []) }
{
    settle(host.signal(object, 1))
}

/// Reads the counter of this event. A count of 0 stays, and is no error.
///
/// # Errors
/// `EBADF` where the host has no such event; `Failed` only where the host's count of faults rose.
#[tactic(auto, using(crate::proofs::Settling::told_reads, crate::proofs::Settling::counts_settled, crate::proofs::Settling::refuses_settled))]
pub(crate) fn read<H: Host>(host: &mut H, object: u32) -> Result<(), HostError>
    ensures table { Told (H.held host.old) (H.held host.new) (ReadsEvent object result) }
    ensures faults { CountsFaults (H.fault_count host.old) (H.fault_count host.new) (H.never_fails host.old)
        (H.never_fails host.new) result }
    ensures refusals { RefusesBy result (HostError.Failed ∷ HostError.EBADF ∷ []) }
    ensures wider { RefusesBy result (HostError.Failed ∷ HostError.EINVAL ∷ HostError.EBADF ∷ []) }
{
    settle(host.consume(object))
}

/// A refusal of the host is no error unless the host failed: an event that it does not have counts 0 and stays so.
fn unless_failed(answer: Result<(), HostError>) -> Result<(), PartsError>
    ensures { result ≡ unless_failed answer }
{
    match answer {
        Err(HostError::Failed) => Err(PartsError::Fault),
        _ => Ok(()),
    }
}

/// Adds 1 to the count of this event, if the host has it and it is not full.
///
/// # Errors
/// `Fault` only where the host's count of faults rose; nothing changes.
#[tactic(auto, using(crate::proofs::Settling::told_raised, crate::proofs::Settling::counts_unless_failed))]
pub fn raise_anyway<H: Host>(host: &mut H, object: u32) -> Result<(), PartsError>
    ensures table { OnTable result (H.held host.old) (H.held host.new) (λ done old new. new ≡ table_raised old object) }
    ensures faults { CountsPartsFaults (H.fault_count host.old) (H.fault_count host.new) (H.never_fails host.old)
        (H.never_fails host.new) result }
    ensures only { ¬ (IsErrOf result PartsError.OutOfMemory) }
{
    unless_failed(raise(host, object))
}

/// Reads the counter of this event, if the host has it.
///
/// # Errors
/// `Fault` only where the host's count of faults rose; nothing changes.
#[tactic(auto, using(crate::proofs::Settling::told_read, crate::proofs::Settling::counts_unless_failed))]
pub(crate) fn read_anyway<H: Host>(host: &mut H, object: u32) -> Result<(), PartsError>
    ensures table { OnTable result (H.held host.old) (H.held host.new) (λ done old new. new ≡ table_read old object) }
    ensures faults { CountsPartsFaults (H.fault_count host.old) (H.fault_count host.new) (H.never_fails host.old)
        (H.never_fails host.new) result }
    ensures only { ¬ (IsErrOf result PartsError.OutOfMemory) }
{
    unless_failed(read(host, object))
}
