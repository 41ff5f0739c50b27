//! The small steps that change a worker's pending set.
ghost use Rattle.std.specs.Prelude.{◌≡◌};
ghost use Rattle.vub_handler.specs.Acting.{TurnsBy, CausedBy, PlainFrame};

use std::alloc::Global;
use vub_base::OutOfMemory;
use vub_model::Small;
use vub_plan::{Turn, Wired};
use vub_vring::{Parts, PendOp};

/// The event number leaves the worker's pending set.
#[tactic(auto, using(crate::proofs::PartRows::remove_told))]
pub(crate) fn remove<P: Parts>(
    alloc: Global,
    parts: &mut P,
    wired: &Wired,
    worker: u32,
    number: u32,
) -> Result<Turn, OutOfMemory>
    ensures row { TurnsBy wired.now (Small.Remove worker number) result (P.state parts.old) (P.state parts.new) }
    ensures cause { CausedBy result (P.state parts.old) (P.state parts.new) }
    ensures frame { PlainFrame (P.state parts.old) (P.state parts.new) result }
{
    match parts.pend(alloc, worker, PendOp::Remove(number)) {
        Ok(_) => Ok(Turn::Goes),
        Err(_) => Err(OutOfMemory),
    }
}

/// The event number joins the worker's pending set.
#[tactic(auto, using(crate::proofs::PartRows::insert_told))]
pub(crate) fn insert<P: Parts>(
    alloc: Global,
    parts: &mut P,
    wired: &Wired,
    worker: u32,
    number: u32,
) -> Result<Turn, OutOfMemory>
    ensures row { TurnsBy wired.now (Small.Insert worker number) result (P.state parts.old) (P.state parts.new) }
    ensures cause { CausedBy result (P.state parts.old) (P.state parts.new) }
    ensures frame { PlainFrame (P.state parts.old) (P.state parts.new) result }
{
    match parts.pend(alloc, worker, PendOp::Insert(number)) {
        Ok(_) => Ok(Turn::Goes),
        Err(_) => Err(OutOfMemory),
    }
}
