//! The logs of dirty pages at the end of a run.
ghost use Rattle.std.specs.Prelude.{◌≡◌, map, IfOk};
ghost use Rattle.vub_model.specs.RunRecords.{log_bytes};

use std::alloc::Global;
use vub_base::OutOfMemory;
use vub_log::PlainLog;
use vub_mem::Stored;
use vub_model::LogBytes;

/// These logs, byte by byte.
pub(crate) fn logs_of(
    alloc: Global,
    logs: &[Stored<PlainLog>],
) -> Result<Vec<LogBytes>, OutOfMemory>
    ensures { IfOk result (λ all. all.items ≡ map log_bytes logs.now) }
{
    let mut all = Vec::with_capacity(alloc, logs.len())?;
    for stored in logs {
        all.push(LogBytes {
            object: stored.object,
            bytes: stored.log.to_bytes(alloc)?,
        })?;
    }
    Ok(all)
}
