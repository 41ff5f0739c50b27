//! How all workers of a daemon have ended, and the comparison of what they used with what the service was asked.
ghost use Rattle.std.specs.Prelude.{IfOk, IfErr};
ghost use Rattle.vub_model.specs.Service.{meaning};
ghost use Rattle.vub_daemon.specs.Reports.{IsReport, IsReportError};

use crate::duties::{DaemonEnd, WorkerEnd};
use crate::error::Error;
use crate::tasks::WorkerTask;
use std::alloc::Global;
use std::sync::Wait;
use vub_base::OutOfMemory;
use vub_locks::{CompareError, Gate, SharedParts, Spent};
use vub_model::{Stop, StopCause, VringEpollError};
use vub_proto::{Service, VhostUserBackendMut};
use vub_threads::Task;

/// What a daemon did.
#[derive(Debug, Drop)]
pub struct Report {
    /// The entries that were used.
    pub uses: u64,
    /// The calls of the service: one for each entry that was used or is held.
    pub served: u64,
    /// How each worker has ended, by worker.
    pub stops: Vec<Stop>,
}

/// The records of the workers that have ended, and how they did.
#[derive(Drop)]
pub(crate) struct Ends {
    spent: Vec<Spent>,
    stops: Vec<Stop>,
    /// Memory was refused, to a worker or here: some record is missing.
    lacking: bool,
}

/// Whether a worker has ended for want of memory.
fn lacked_memory(stop: &Stop) -> bool {
    matches!(stop.cause, StopCause::Fault(VringEpollError::OutOfMemory))
}

impl Ends {
    /// No worker has ended.
    fn new(alloc: Global) -> Ends {
        Ends {
            spent: Vec::new(alloc),
            stops: Vec::new(alloc),
            lacking: false,
        }
    }

    /// Keeps how a worker has ended.
    ///
    /// # Errors
    /// Want of memory.
    fn keep(&mut self, end: WorkerEnd) -> Result<(), OutOfMemory> {
        let WorkerEnd { stop, mut spent } = end;
        if lacked_memory(&stop) {
            self.lacking = true;
        }
        self.stops.push(stop)?;
        self.spent.append(&mut spent)?;
        Ok(())
    }
}

/// Waits until each of these workers has ended.
pub(crate) fn join_workers<T: Task<DaemonEnd> + Drop>(
    alloc: Global,
    workers: Vec<WorkerTask<T>>,
) -> Ends {
    let mut ends = Ends::new(alloc);
    for worker in workers {
        if ends.keep(worker.join()).is_err() {
            ends.lacking = true;
        }
    }
    ends
}

/// Compares the records of all workers with the calls of the service, under its lock.
///
/// # Errors
/// `Mismatch` with what stands at the first place at which they differ; want of memory, and then nothing is compared
/// where it was a worker's.
pub(crate) fn compared<R: Wait, D: VhostUserBackendMut, V: Service, G: Gate + Drop>(
    rt: &R,
    alloc: Global,
    shared: &SharedParts<D, V, G>,
    ends: Ends,
) -> Result<Report, Error>
    ensures same { IfOk result (IsReport (meaning V.reply_of V.after)) }
    ensures differ { IfErr result IsReportError }
{
    let Ends {
        spent,
        stops,
        lacking,
    } = ends;
    if lacking {
        return Err(Error::OutOfMemory);
    }
    match shared.compare_uses(rt, alloc, spent) {
        Ok(totals) => Ok(Report {
            uses: totals.uses,
            served: totals.served,
            stops,
        }),
        Err(CompareError::Mismatch { used, served }) => Err(Error::Mismatch { used, served }),
        Err(CompareError::OutOfMemory) => Err(Error::OutOfMemory),
    }
}
