//! The small steps that change the table of guest memory, and its log.
ghost use Rattle.std.specs.Prelude.{◌≡◌, IfOk};
ghost use Rattle.vub_vring.specs.Calls.{TableCall, IsTableSaid};
ghost use Rattle.vub_handler.specs.Acting.{log_turn, table_turn, TurnsBy, CausedBy, PlainFrame, TellsOf};

use crate::copies::copied_change;
use std::alloc::Global;
use vub_base::OutOfMemory;
use vub_model::{Small, TableOp};
use vub_plan::{Turn, Wired};
use vub_proto::{Answer, Cause, VhostUserError};
use vub_vring::{LogSaid, Parts, TableSaid};

/// The table of guest memory is changed, or memory refuses that.
pub(crate) fn change<P: Parts>(
    alloc: Global,
    parts: &mut P,
    change: TableOp,
) -> Result<TableSaid, OutOfMemory>
    ensures row { TellsOf result (P.state parts.old) (P.state parts.new) (TableCall change) }
    ensures said { IfOk result IsTableSaid }
    ensures frame { PlainFrame (P.state parts.old) (P.state parts.new) result }
{
    match parts.table(alloc, change) {
        Ok(said) => Ok(said),
        Err(_) => Err(OutOfMemory),
    }
}

/// After a change of the table.
pub(crate) fn changed(said: TableSaid) -> Turn
    ensures { result ≡ table_turn said }
{
    match said {
        TableSaid::Regions(_) => Turn::Goes,
        TableSaid::Memory(error) => Turn::Instead(Answer::Failed(VhostUserError::ReqHandlerError(
            Cause::Memory(error),
        ))),
    }
}

/// The table of guest memory is changed.
#[tactic(auto, using(crate::proofs::PartRows::table_told))]
pub(crate) fn table<P: Parts>(
    alloc: Global,
    parts: &mut P,
    wired: &Wired,
    op: &TableOp,
) -> Result<Turn, OutOfMemory>
    ensures row { TurnsBy wired.now (Small.Table op.now) result (P.state parts.old) (P.state parts.new) }
    ensures cause { CausedBy result (P.state parts.old) (P.state parts.new) }
    ensures frame { PlainFrame (P.state parts.old) (P.state parts.new) result }
{
    let op = copied_change(alloc, op)?;
    Ok(changed(change(alloc, parts, op)?))
}

/// After a log was given or refused.
pub(crate) fn logged(said: LogSaid) -> Turn
    ensures { result ≡ log_turn said }
{
    match said {
        LogSaid::Done => Turn::Goes,
        LogSaid::Log(error) => Turn::Instead(Answer::Failed(VhostUserError::ReqHandlerError(
            Cause::Log(error),
        ))),
    }
}

/// The regions of guest memory get a log.
#[tactic(auto, using(crate::proofs::PartRows::log_told))]
pub(crate) fn log<P: Parts>(
    parts: &mut P,
    wired: &Wired,
    object: u32,
    offset: u64,
    size: u64,
) -> Result<Turn, OutOfMemory>
    ensures row { TurnsBy wired.now (Small.Log object offset size) result (P.state parts.old) (P.state parts.new) }
    ensures cause { CausedBy result (P.state parts.old) (P.state parts.new) }
    ensures frame { PlainFrame (P.state parts.old) (P.state parts.new) result }
{
    match parts.set_log(object, offset, size, wired.tracks()) {
        Ok(said) => Ok(logged(said)),
        Err(_) => Err(OutOfMemory),
    }
}
