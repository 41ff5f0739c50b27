//! The small steps that call the host.
ghost use Rattle.std.specs.Prelude.{◌≡◌};
ghost use Rattle.vub_handler.specs.Acting.{TurnsBy, CausedBy, PlainFrame};

use crate::turns::{added, claimed, host_failed, listened, unlistened};
use std::alloc::Global;
use vub_base::OutOfMemory;
use vub_event::EventSet;
use vub_model::Small;
use vub_plan::{Turn, Wired};
use vub_vring::{HostOp, Parts, PartsError};

/// The event becomes the kick of this queue alone.
#[tactic(auto, using(crate::proofs::HostRows::claim_told))]
pub(crate) fn claim<P: Parts>(
    alloc: Global,
    parts: &mut P,
    wired: &Wired,
    object: u32,
    queue: u32,
) -> Result<Turn, OutOfMemory>
    ensures row { TurnsBy wired.now (Small.Claim object queue) result (P.state parts.old) (P.state parts.new) }
    ensures cause { CausedBy result (P.state parts.old) (P.state parts.new) }
    ensures frame { PlainFrame (P.state parts.old) (P.state parts.new) result }
{
    match parts.host(alloc, HostOp::Claim(object, queue)) {
        Ok(said) => Ok(claimed(said)),
        Err(PartsError::Fault) => Ok(host_failed()),
        Err(PartsError::OutOfMemory) => Err(OutOfMemory),
    }
}

/// No queue claims the event any more.
pub(crate) fn release<P: Parts>(
    alloc: Global,
    parts: &mut P,
    wired: &Wired,
    object: u32,
) -> Result<Turn, OutOfMemory>
    ensures row { TurnsBy wired.now (Small.Release object) result (P.state parts.old) (P.state parts.new) }
    ensures cause { CausedBy result (P.state parts.old) (P.state parts.new) }
    ensures frame { PlainFrame (P.state parts.old) (P.state parts.new) result }
{
    match parts.host(alloc, HostOp::Release(object)) {
        Ok(_) => Ok(Turn::Goes),
        Err(PartsError::Fault) => Ok(host_failed()),
        Err(PartsError::OutOfMemory) => Err(OutOfMemory),
    }
}

/// The event joins the worker's interest list.
#[tactic(auto, using(crate::proofs::HostRows::add_told))]
pub(crate) fn add<P: Parts>(
    alloc: Global,
    parts: &mut P,
    wired: &Wired,
    worker: u32,
    object: u32,
    token: u64,
) -> Result<Turn, OutOfMemory>
    ensures row { TurnsBy wired.now (Small.Add worker object token) result (P.state parts.old) (P.state parts.new) }
    ensures cause { CausedBy result (P.state parts.old) (P.state parts.new) }
    ensures frame { PlainFrame (P.state parts.old) (P.state parts.new) result }
{
    match parts.host(
        alloc,
        HostOp::Add(wired.opened_at(worker).list, object, EventSet::IN, token),
    ) {
        Ok(said) => Ok(added(said)),
        Err(PartsError::Fault) => Ok(host_failed()),
        Err(PartsError::OutOfMemory) => Err(OutOfMemory),
    }
}

/// The event leaves that list.
#[tactic(auto, using(crate::proofs::HostRows::delete_told))]
pub(crate) fn delete<P: Parts>(
    alloc: Global,
    parts: &mut P,
    wired: &Wired,
    worker: u32,
    object: u32,
) -> Result<Turn, OutOfMemory>
    ensures row { TurnsBy wired.now (Small.Delete worker object) result (P.state parts.old) (P.state parts.new) }
    ensures cause { CausedBy result (P.state parts.old) (P.state parts.new) }
    ensures frame { PlainFrame (P.state parts.old) (P.state parts.new) result }
{
    match parts.host(alloc, HostOp::Delete(wired.opened_at(worker).list, object)) {
        Ok(_) => Ok(Turn::Goes),
        Err(PartsError::Fault) => Ok(host_failed()),
        Err(PartsError::OutOfMemory) => Err(OutOfMemory),
    }
}

/// The event joins the worker's interest list as a listener.
#[tactic(auto, using(crate::proofs::HostRows::listen_told))]
pub(crate) fn listen<P: Parts>(
    alloc: Global,
    parts: &mut P,
    wired: &Wired,
    worker: u32,
    object: u32,
    token: u64,
) -> Result<Turn, OutOfMemory>
    ensures row { TurnsBy wired.now (Small.Listen worker object token) result (P.state parts.old) (P.state parts.new) }
    ensures cause { CausedBy result (P.state parts.old) (P.state parts.new) }
    ensures frame { PlainFrame (P.state parts.old) (P.state parts.new) result }
{
    match parts.host(
        alloc,
        HostOp::Listen(wired.opened_at(worker).list, object, token),
    ) {
        Ok(said) => Ok(listened(said)),
        Err(PartsError::Fault) => Ok(host_failed()),
        Err(PartsError::OutOfMemory) => Err(OutOfMemory),
    }
}

/// The listener leaves that list.
#[tactic(auto, using(crate::proofs::HostRows::unlisten_told))]
pub(crate) fn unlisten<P: Parts>(
    alloc: Global,
    parts: &mut P,
    wired: &Wired,
    worker: u32,
    object: u32,
    above: u64,
) -> Result<Turn, OutOfMemory>
    ensures row { TurnsBy wired.now (Small.Unlisten worker object above) result
        (P.state parts.old) (P.state parts.new) }
    ensures cause { CausedBy result (P.state parts.old) (P.state parts.new) }
    ensures frame { PlainFrame (P.state parts.old) (P.state parts.new) result }
{
    match parts.host(
        alloc,
        HostOp::Unlisten(wired.opened_at(worker).list, object, above),
    ) {
        Ok(said) => Ok(unlistened(said)),
        Err(PartsError::Fault) => Ok(host_failed()),
        Err(PartsError::OutOfMemory) => Err(OutOfMemory),
    }
}

/// 1 is added to a bell or an exit object. A full counter stays.
#[tactic(auto, using(crate::proofs::HostRows::bell_told))]
pub(crate) fn bell<P: Parts>(
    alloc: Global,
    parts: &mut P,
    wired: &Wired,
    object: u32,
) -> Result<Turn, OutOfMemory>
    ensures row { TurnsBy wired.now (Small.Bell object) result (P.state parts.old) (P.state parts.new) }
    ensures cause { CausedBy result (P.state parts.old) (P.state parts.new) }
    ensures frame { PlainFrame (P.state parts.old) (P.state parts.new) result }
{
    match parts.host(alloc, HostOp::Signal(object, 1)) {
        Ok(_) => Ok(Turn::Goes),
        Err(PartsError::Fault) => Ok(host_failed()),
        Err(PartsError::OutOfMemory) => Err(OutOfMemory),
    }
}
