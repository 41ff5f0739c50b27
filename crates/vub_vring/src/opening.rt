//! Opening a worker.
ghost use Rattle.std.specs.Prelude.{◌≡◌, IfOk, IfErr};
ghost use Rattle.std.specs.Option.{ForSome};
ghost use Rattle.vub_model.specs.Opening.{listed};
ghost use Rattle.vub_vring.specs.Worker.{exit_in, number_of, error_of, MakesList, MakesBell, Joins, JoinsExit, OpensFor, KeepsOpening, Stops, LeavesMade};
ghost use Rattle.vub_vring.specs.PartsState.{Tells};

use crate::ops::{HostOp, HostSaid};
use crate::parts::Parts;
use std::alloc::Global;
use vub_event::EventSet;
use vub_model::{Constants, Opened, VringEpollError};
use vub_ring::PartsError;

/// The flags of a bell: it never blocks (`EFD_NONBLOCK` of eventfd(2)).
const NONBLOCK: u32 = 0x800;

/// The number that the host gave. Parts that tell nothing may say none, and then no object and no list has this one.
fn number_of(said: HostSaid) -> u32
    ensures { result ≡ number_of said }
{
    match said {
        HostSaid::Number(number) => number,
        _ => u32::MAX,
    }
}

/// Why the host was not called, at a call whose fault is this error.
fn error_of(error: PartsError, fault: VringEpollError) -> VringEpollError
    ensures { result ≡ error_of error fault }
{
    match error {
        PartsError::Fault => fault,
        PartsError::OutOfMemory => VringEpollError::OutOfMemory,
    }
}

/// The exit object of a worker, if it has one.
fn exit_of(constants: &Constants, worker: u32) -> Option<u32>
    ensures { result ≡ exit_in constants.now worker }
{
    match constants.exits.as_slice().get(worker as usize) {
        Some(exit) => *exit,
        None => None,
    }
}

/// A new interest list.
#[tactic(auto, using(crate::proofs::Working::told_list, crate::proofs::Working::opens_ok, crate::proofs::Working::opens_err, crate::proofs::Working::stops_by))]
fn new_list<P: Parts>(alloc: Global, parts: &mut P) -> Result<u32, VringEpollError>
    ensures told { IfOk result (λ n. Tells (P.state parts.old) (P.state parts.new) (MakesList n)) }
    ensures stops { IfErr result (Stops VringEpollError.EpollCreateFd (P.state parts.old).shared
        (P.state parts.new).shared) }
    ensures frame { KeepsOpening (P.state parts.old) (P.state parts.new) result }
{
    match parts.host(alloc, HostOp::CreateList) {
        Ok(said) => Ok(number_of(said)),
        Err(error) => Err(error_of(error, VringEpollError::EpollCreateFd)),
    }
}

/// A new bell.
#[tactic(auto, using(crate::proofs::Working::told_bell, crate::proofs::Working::opens_ok, crate::proofs::Working::opens_err, crate::proofs::Working::stops_by))]
fn new_bell<P: Parts>(alloc: Global, parts: &mut P) -> Result<u32, VringEpollError>
    ensures told { IfOk result (λ n. Tells (P.state parts.old) (P.state parts.new) (MakesBell n)) }
    ensures stops { IfErr result (Stops VringEpollError.NewEventConsumerNotifier (P.state parts.old).shared
        (P.state parts.new).shared) }
    ensures frame { KeepsOpening (P.state parts.old) (P.state parts.new) result }
{
    match parts.host(alloc, HostOp::CreateEvent(NONBLOCK)) {
        Ok(said) => Ok(number_of(said)),
        Err(error) => Err(error_of(error, VringEpollError::NewEventConsumerNotifier)),
    }
}

/// Adds the exit object of a worker to its list, if it has one.
#[tactic(auto, using(crate::proofs::Working::told_join, crate::proofs::Working::opens_ok, crate::proofs::Working::opens_err, vub_ring::proofs::Settling::told_same, crate::proofs::Working::stops_by))]
fn join_exit<P: Parts>(
    alloc: Global,
    parts: &mut P,
    list: u32,
    exit: Option<u32>,
    token: u64,
) -> Result<(), VringEpollError>
    ensures told { IfOk result (λ done. Tells (P.state parts.old) (P.state parts.new) (JoinsExit list exit token)) }
    ensures stops { IfErr result (Stops VringEpollError.RegisterExitEvent (P.state parts.old).shared
        (P.state parts.new).shared) }
    ensures frame { KeepsOpening (P.state parts.old) (P.state parts.new) result }
{
    match exit {
        None => Ok(()),
        Some(exit) => match parts.host(alloc, HostOp::Add(list, exit, EventSet::IN, token)) {
            Ok(_) => Ok(()),
            Err(error) => Err(error_of(error, VringEpollError::RegisterExitEvent)),
        },
    }
}

/// Adds the bell of a worker to its list.
#[tactic(auto, using(crate::proofs::Working::told_join, crate::proofs::Working::opens_ok, crate::proofs::Working::opens_err, crate::proofs::Working::stops_by))]
fn join_bell<P: Parts>(
    alloc: Global,
    parts: &mut P,
    list: u32,
    bell: u32,
    token: u64,
) -> Result<(), VringEpollError>
    ensures told { IfOk result (λ done. Tells (P.state parts.old) (P.state parts.new)
        (Joins list (listed bell token))) }
    ensures stops { IfErr result (Stops VringEpollError.RegisterVringEnabledEvent (P.state parts.old).shared
        (P.state parts.new).shared) }
    ensures frame { KeepsOpening (P.state parts.old) (P.state parts.new) result }
{
    match parts.host(alloc, HostOp::Add(list, bell, EventSet::IN, token)) {
        Ok(_) => Ok(()),
        Err(error) => Err(error_of(error, VringEpollError::RegisterVringEnabledEvent)),
    }
}

/// Opens a worker: makes its interest list, adds its exit object, if it has one, and a new event, its bell, both with
/// the number of queues as their token.
///
/// # Errors
/// `EpollCreateFd` for the list, `RegisterExitEvent` for the exit object, `NewEventConsumerNotifier` for the bell and
/// `RegisterVringEnabledEvent` for adding it, each only where the host's count of faults rose; want of memory at any
/// step. What was made before stays in the host, and nothing else changes.
pub fn open_worker<P: Parts>(
    alloc: Global,
    parts: &mut P,
    worker: u32,
) -> Result<Opened, VringEpollError>
    ensures worker { IfOk result (λ opened. opened.worker ≡ worker) }
    ensures told { IfOk result (λ opened. ForSome (P.state parts.old).constants
        (λ constants. OpensFor constants worker opened (P.state parts.old).shared (P.state parts.new).shared)) }
    ensures stopped { IfErr result (λ e. ForSome (P.state parts.old).constants
        (λ constants. Tells (P.state parts.old) (P.state parts.new)
        (LeavesMade constants.queues (exit_in constants worker) e))) }
    ensures frame { KeepsOpening (P.state parts.old) (P.state parts.new) result }
{
    let Ok(constants) = parts.constants(alloc) else {
        return Err(VringEpollError::OutOfMemory);
    };
    let token = constants.queues as u64;
    let exit = exit_of(&constants, worker);
    let list = new_list(alloc, parts)?;
    join_exit(alloc, parts, list, exit, token)?;
    let bell = new_bell(alloc, parts)?;
    join_bell(alloc, parts, list, bell, token)?;
    Ok(Opened {
        worker,
        list,
        bell,
        exit,
    })
}
