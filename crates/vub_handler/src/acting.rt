//! A small step that is no Answer.
ghost use Rattle.std.specs.Prelude.{◌≡◌};
ghost use Rattle.vub_vring.specs.Calls.{telling};
ghost use Rattle.vub_handler.specs.Acting.{ActsBy, ActFrame};

use crate::acted::{Acted, made};
use crate::asking::ask;
use crate::changing::{log, table};
use crate::hosting::{add, bell, claim, delete, listen, release, unlisten};
use crate::pending::{insert, remove};
use crate::ringing::{info, set};
use std::alloc::Global;
use vub_base::OutOfMemory;
use vub_model::Small;
use vub_plan::{Turn, Wired};
use vub_vring::Parts;

/// Makes a small step, or finds that an entry in flight lets it wait.
///
/// # Errors
/// Want of memory leaves the parts as they were.
#[tactic(auto, using(crate::proofs::PartRows::plain_made))]
pub(crate) fn act<P: Parts>(
    alloc: Global,
    parts: &mut P,
    wired: &Wired,
    small: &Small,
) -> Result<Acted, OutOfMemory>
    ensures row { ActsBy (telling P.Device.said P.Device.moved) wired.now small.now result
        (P.state parts.old) (P.state parts.new) }
    ensures frame { ActFrame (P.state parts.old) (P.state parts.new) result }
{
    match small {
        Small::Claim { object, queue } => Ok(made(claim(alloc, parts, wired, *object, *queue)?)),
        Small::Release { object } => Ok(made(release(alloc, parts, wired, *object)?)),
        Small::Add {
            worker,
            object,
            token,
        } => Ok(made(add(alloc, parts, wired, *worker, *object, *token)?)),
        Small::Delete { worker, object } => {
            Ok(made(delete(alloc, parts, wired, *worker, *object)?))
        }
        Small::Listen {
            worker,
            object,
            token,
        } => Ok(made(listen(alloc, parts, wired, *worker, *object, *token)?)),
        Small::Unlisten {
            worker,
            object,
            above,
        } => Ok(made(unlisten(alloc, parts, wired, *worker, *object, *above)?)),
        Small::Bell { object } => Ok(made(bell(alloc, parts, wired, *object)?)),
        Small::Remove { worker, number } => {
            Ok(made(remove(alloc, parts, wired, *worker, *number)?))
        }
        Small::Insert { worker, number } => {
            Ok(made(insert(alloc, parts, wired, *worker, *number)?))
        }
        Small::Set { queue, op } => set(alloc, parts, wired, *queue, *op),
        Small::Info {
            queue,
            desc,
            avail,
            used,
        } => info(alloc, parts, wired, *queue, *desc, *avail, *used),
        Small::Table(op) => Ok(made(table(alloc, parts, wired, op)?)),
        Small::Log {
            object,
            offset,
            size,
        } => Ok(made(log(parts, wired, *object, *offset, *size)?)),
        Small::Device(op) => ask(alloc, parts, wired, op),
        Small::Answer => Ok(made(Turn::Goes)),
    }
}
