//! A call of a host, as the parts make it.
ghost use Rattle.std.specs.Prelude.{◌≡◌, IfOk, IsErrOf, IsTrue};
ghost use Rattle.vub_vring.specs.Calls.{IsSaid, takes_memory};
ghost use Rattle.vub_vring.specs.Hosting.{CountsOver, PlaysOver, HostPlays, said_by, said_refused};

use crate::ops::{HostOp, HostSaid};
use std::alloc::Global;
use vub_event::{Host, HostError, Ready};
use vub_ring::PartsError;

fn refused(error: HostError) -> Result<HostSaid, PartsError>
    ensures { result ≡ said_refused error }
{
    match error {
        HostError::Failed => Err(PartsError::Fault),
        HostError::OutOfMemory => Err(PartsError::OutOfMemory),
        _ => Ok(HostSaid::Refused(error)),
    }
}

fn number(answer: Result<u32, HostError>) -> Result<HostSaid, PartsError>
    ensures { result ≡ said_by (λ n. HostSaid.Number n) answer }
{
    match answer {
        Ok(number) => Ok(HostSaid::Number(number)),
        Err(error) => refused(error),
    }
}

fn done(answer: Result<(), HostError>) -> Result<HostSaid, PartsError>
    ensures { result ≡ said_by (λ done. HostSaid.Done) answer }
{
    match answer {
        Ok(()) => Ok(HostSaid::Done),
        Err(error) => refused(error),
    }
}

fn count(answer: Result<u64, HostError>) -> Result<HostSaid, PartsError>
    ensures { result ≡ said_by (λ n. HostSaid.Count n) answer }
{
    match answer {
        Ok(count) => Ok(HostSaid::Count(count)),
        Err(error) => refused(error),
    }
}

fn member(answer: Result<bool, HostError>) -> Result<HostSaid, PartsError>
    ensures { result ≡ said_by (λ b. HostSaid.Member b) answer }
{
    match answer {
        Ok(is_member) => Ok(HostSaid::Member(is_member)),
        Err(error) => refused(error),
    }
}

pub(crate) fn ready(answer: Result<Option<Ready>, HostError>) -> Result<HostSaid, PartsError>
    ensures { result ≡ said_by (λ found. HostSaid.Ready found) answer }
{
    match answer {
        Ok(found) => Ok(HostSaid::Ready(found)),
        Err(error) => refused(error),
    }
}

/// Makes this call of the host.
///
/// # Errors
/// `Fault` only where the host's count of faults rose; want of memory only for `CreateEvent`,
/// `CreateList`, `Add` and `Listen`. Nothing changes.
#[tactic(auto, using(crate::proofs::Saying::host_calls))]
pub fn play_host<H: Host>(alloc: Global, host: &mut H, op: HostOp) -> Result<HostSaid, PartsError>
    ensures table { PlaysOver H.Host host.old host.new result (HostPlays op) }
    ensures said { IfOk result IsSaid }
    ensures memory { IsErrOf result PartsError.OutOfMemory → IsTrue (takes_memory op) }
    ensures faults { CountsOver H.Host host.old host.new result }
{
    match op {
        HostOp::CreateEvent(flags) => number(host.create_event(alloc, flags)),
        HostOp::CreateList => number(host.create_list(alloc)),
        HostOp::Signal(object, value) => done(host.signal(object, value)),
        HostOp::Consume(object) => count(host.consume(object)),
        HostOp::Add(list, object, set, token) => done(host.add(alloc, list, object, set, token)),
        HostOp::Delete(list, object) => done(host.delete(list, object)),
        HostOp::Listen(list, object, token) => done(host.listen(alloc, list, object, token)),
        HostOp::Unlisten(list, object, above) => done(host.unlisten(list, object, above)),
        HostOp::ConsumeAs(list, object, token) => member(host.consume_as(list, object, token)),
        HostOp::Ready(list) => ready(host.ready(list)),
        HostOp::Claim(object, queue) => done(host.claim(object, queue)),
        HostOp::Release(object) => {
            host.release(object);
            Ok(HostSaid::Done)
        }
    }
}
