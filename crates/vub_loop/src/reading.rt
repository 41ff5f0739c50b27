ghost use Rattle.std.specs.Prelude.{◌≡◌, if◌then◌else◌, is_some};
ghost use Rattle.vub_model.specs.declared.cause.StopCause.TheVariants.{Exit};
ghost use Rattle.vub_model.specs.declared.phase.Phase.TheVariants.{Idle, Stopped};
ghost use Rattle.vub_model.specs.Work.{after_kick, after_bell, after_listener};
ghost use Rattle.vub_loop.specs.Stepping.{ReadsBy, ReadFrame};

use crate::said::{was_counted, was_member};
use std::alloc::Global;
use vub_model::{Opened, Phase, Queues, StopCause, VringEpollError};
use vub_vring::{HostOp, KickSaid, Parts, PartsError};

/// The phase after the kick of this queue was read.
///
/// # Errors
/// Want of memory.
pub(crate) fn kicked<P: Parts>(
    alloc: Global,
    parts: &mut P,
    queue: u32,
    object: u32,
) -> Result<Phase, VringEpollError>
    ensures row { ReadsBy (P.state parts.old) (P.state parts.new) result
        (λ shared. after_kick shared queue object) VringEpollError.HandleEventReadKick }
    ensures frame { ReadFrame (P.state parts.old) (P.state parts.new) result }
{
    let Ok(one) = Queues::one(alloc, queue) else {
        return Err(VringEpollError::OutOfMemory);
    };
    match parts.ring_host(alloc, queue, object) {
        Ok(KickSaid::Serve) => Ok(Phase::Serving(one)),
        Ok(KickSaid::Stale) => Ok(Phase::Idle),
        Ok(KickSaid::Quiet) => Ok(Phase::Idle),
        Err(PartsError::Fault) => Ok(Phase::Stopped(StopCause::Fault(
            VringEpollError::HandleEventReadKick,
        ))),
        Err(PartsError::OutOfMemory) => Err(VringEpollError::OutOfMemory),
    }
}

/// The phase of a worker whose bell stands at zero: one with an exit object was told to end.
fn unrung(exit: Option<u32>) -> Phase
    ensures { result ≡ (if is_some exit then Stopped Exit else Idle) }
{
    match exit {
        Some(_) => Phase::Stopped(StopCause::Exit),
        None => Phase::Idle,
    }
}

/// The phase after the bell was read.
///
/// # Errors
/// Want of memory.
pub(crate) fn rung<P: Parts>(
    alloc: Global,
    parts: &mut P,
    opened: Opened,
) -> Result<Phase, VringEpollError>
    ensures row { ReadsBy (P.state parts.old) (P.state parts.new) result
        (λ shared. after_bell shared opened.bell opened.exit) VringEpollError.HandleVringEnabledEventConsume }
    ensures frame { ReadFrame (P.state parts.old) (P.state parts.new) result }
{
    match parts.host(alloc, HostOp::Consume(opened.bell)) {
        Ok(said) => {
            if was_counted(said) {
                Ok(Phase::Sweep)
            } else {
                Ok(unrung(opened.exit))
            }
        }
        Err(PartsError::Fault) => Ok(Phase::Stopped(StopCause::Fault(
            VringEpollError::HandleVringEnabledEventConsume,
        ))),
        Err(PartsError::OutOfMemory) => Err(VringEpollError::OutOfMemory),
    }
}

/// The phase after the counter of a listener was read.
///
/// # Errors
/// Want of memory.
pub(crate) fn heard<P: Parts>(
    alloc: Global,
    parts: &mut P,
    list: u32,
    object: u32,
    token: u64,
) -> Result<Phase, VringEpollError>
    ensures row { ReadsBy (P.state parts.old) (P.state parts.new) result
        (λ shared. after_listener shared list object token) VringEpollError.HandleEventReadKick }
    ensures frame { ReadFrame (P.state parts.old) (P.state parts.new) result }
{
    match parts.host(alloc, HostOp::ConsumeAs(list, object, token)) {
        Ok(said) => {
            if was_member(said) {
                Ok(Phase::Heard { token })
            } else {
                Ok(Phase::Idle)
            }
        }
        Err(PartsError::Fault) => Ok(Phase::Stopped(StopCause::Fault(
            VringEpollError::HandleEventReadKick,
        ))),
        Err(PartsError::OutOfMemory) => Err(VringEpollError::OutOfMemory),
    }
}
