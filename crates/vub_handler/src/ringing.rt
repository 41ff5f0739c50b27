//! The small steps that change a ring. An entry in flight lets some of them wait.
ghost use Rattle.std.specs.Prelude.{◌≡◌};
ghost use Rattle.vub_vring.specs.Calls.{telling};
ghost use Rattle.vub_handler.specs.Acting.{ActsBy, PlainFrame};

use crate::acted::{Acted, made};
use crate::turns::addressed;
use std::alloc::Global;
use vub_base::OutOfMemory;
use vub_model::{RingOp, RingSaid, Small};
use vub_plan::{Turn, Wired};
use vub_vring::{Parts, TableRing, TableRingSaid};

/// A ring is changed.
#[tactic(auto, using(crate::proofs::PartRows::set_made, crate::proofs::PartRows::set_still))]
pub(crate) fn set<P: Parts>(
    alloc: Global,
    parts: &mut P,
    wired: &Wired,
    queue: u32,
    op: RingOp,
) -> Result<Acted, OutOfMemory>
    ensures row { ActsBy (telling P.Device.said P.Device.moved) wired.now (Small.Set queue op) result
        (P.state parts.old) (P.state parts.new) }
    ensures frame { PlainFrame (P.state parts.old) (P.state parts.new) result }
{
    match parts.ring(alloc, queue, op) {
        Ok(RingSaid::Waits) => Ok(Acted::Waits),
        Ok(RingSaid::Done) => Ok(made(Turn::Goes)),
        Ok(RingSaid::Base(_)) => Ok(made(Turn::Goes)),
        Err(_) => Err(OutOfMemory),
    }
}

/// A ring gets its addresses, and the next used index that stands at them.
#[tactic(auto, using(crate::proofs::PartRows::info_made, crate::proofs::PartRows::info_still))]
pub(crate) fn info<P: Parts>(
    alloc: Global,
    parts: &mut P,
    wired: &Wired,
    queue: u32,
    desc: u64,
    avail: u64,
    used: u64,
) -> Result<Acted, OutOfMemory>
    ensures row { ActsBy (telling P.Device.said P.Device.moved) wired.now (Small.Info queue desc avail used) result
        (P.state parts.old) (P.state parts.new) }
    ensures frame { PlainFrame (P.state parts.old) (P.state parts.new) result }
{
    match parts.ring_table(alloc, queue, TableRing::Info { desc, avail, used }) {
        Ok(TableRingSaid::Waits) => Ok(Acted::Waits),
        Ok(said) => Ok(made(addressed(said))),
        Err(_) => Err(OutOfMemory),
    }
}
