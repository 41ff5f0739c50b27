//! The holds: each takes the locks of the parts that it touches, in the order ring, memory, host, makes one step on
//! what lies under them, and wakes those that wait for what it may have changed.
ghost use Rattle.std.specs.Prelude.{◌≡◌, ◌≢◌, ◌≤◌, IfOk, OnErr, IsErrOf, IsTrue, length, sum_by};
ghost use Rattle.vub_vring.specs.Calls.{IsSaid, IsTableSaid, IsLogSaid, takes_memory};
ghost use Rattle.vub_ring.specs.Play.{HasRoom};

use crate::ring_book::RingBook;
use crate::shared::{LockedHost, LockedRing};
use std::alloc::Global;
use std::sync::{Mutex, Wait};
use vub_log::LogSeat;
use vub_mem::GuestMemory;
use vub_model::{Entry, RingOp, RingSaid};
use vub_ring::{
    KickSaid, PartsError, PutSaid, TableRing, TableRingSaid, play_put, play_ring, play_table,
};
use vub_vring::{HostOp, HostSaid};

/// Applies an op to a ring. Where an entry in flight lets it wait, it waits until that is used or held.
pub(crate) fn hold_ring<R: Wait>(
    rt: &R,
    alloc: Global,
    locked: &LockedRing,
    op: RingOp,
) -> Result<RingSaid, PartsError>
    ensures only { ¬ (IsErrOf result PartsError.Fault) }
    ensures waits { IfOk result (λ said. said ≢ RingSaid.Waits) }
{
    let mut book = locked.ring.lock(rt);
    for _ in rt.forever() {
        match play_ring(alloc, &mut *book, op)? {
            RingSaid::Waits => book = locked.freed.wait(rt, book),
            said => {
                locked.freed.notify_all();
                return Ok(said);
            }
        }
    }
    unreachable!()
}

/// Makes a step of a ring together with guest memory.
fn table_step<R: Wait>(
    rt: &R,
    alloc: Global,
    book: &mut RingBook,
    memory: &Mutex<GuestMemory<LogSeat>>,
    op: TableRing,
) -> Result<TableRingSaid, PartsError>
    ensures room { IfOk result HasRoom }
    ensures only { ¬ (IsErrOf result PartsError.Fault) }
{
    let mut memory = memory.lock(rt);
    play_table(alloc, book, &mut *memory, op)
}

/// Makes a step of a ring together with guest memory. Where an entry in flight lets it wait, it waits until that is
/// used or held, with guest memory unlocked.
pub(crate) fn hold_table<R: Wait>(
    rt: &R,
    alloc: Global,
    locked: &LockedRing,
    memory: &Mutex<GuestMemory<LogSeat>>,
    op: TableRing,
) -> Result<TableRingSaid, PartsError>
    ensures room { IfOk result HasRoom }
    ensures only { ¬ (IsErrOf result PartsError.Fault) }
    ensures waits { IfOk result (λ said. said ≢ TableRingSaid.Waits) }
{
    let mut book = locked.ring.lock(rt);
    for _ in rt.forever() {
        match table_step(rt, alloc, &mut *book, memory, op)? {
            TableRingSaid::Waits => book = locked.freed.wait(rt, book),
            said => {
                locked.freed.notify_all();
                return Ok(said);
            }
        }
    }
    unreachable!()
}

/// Reads the counter of this event, if it is the kick of a ring.
pub(crate) fn hold_kick<R: Wait>(
    rt: &R,
    alloc: Global,
    locked: &LockedRing,
    host: &LockedHost,
    object: u32,
) -> Result<KickSaid, PartsError>
    ensures fault { ¬ (IsErrOf result PartsError.Fault) }
    ensures only { ¬ (IsErrOf result PartsError.OutOfMemory) }
{
    let mut book = locked.ring.lock(rt);
    let mut quiet = host.host.lock(rt);
    let said = quiet.read_kick(alloc, &mut *book, object);
    host.changed.notify_all();
    said
}

/// Uses the entry with this reply, and signals the call of its ring where the driver wants it; or holds the entry.
pub(crate) fn hold_put<R: Wait>(
    rt: &R,
    alloc: Global,
    locked: &LockedRing,
    memory: &Mutex<GuestMemory<LogSeat>>,
    host: &LockedHost,
    entry: &Entry,
    reply: &[u8],
) -> Result<PutSaid, PartsError>
    requires fits { length reply.now ≤ entry.now.chain.room }
    requires room { entry.now.chain.room ≡ sum_by (λ s. s.len) entry.now.chain.segments }
    ensures only { ¬ (IsErrOf result PartsError.Fault) }
{
    let mut book = locked.ring.lock(rt);
    let mut memory = memory.lock(rt);
    let mut quiet = host.host.lock(rt);
    let said = play_put(
        alloc,
        &mut *book,
        &mut *memory,
        &mut quiet.host,
        entry,
        reply,
    );
    locked.freed.notify_all();
    host.changed.notify_all();
    said
}

/// Makes this call of the host.
pub(crate) fn hold_host<R: Wait>(
    rt: &R,
    alloc: Global,
    host: &LockedHost,
    op: HostOp,
) -> Result<HostSaid, PartsError>
    ensures said { IfOk result IsSaid }
    ensures memory { IsErrOf result PartsError.OutOfMemory → IsTrue (takes_memory op) }
    ensures fault { ¬ (IsErrOf result PartsError.Fault) }
{
    let mut quiet = host.host.lock(rt);
    let said = quiet.play(alloc, op);
    host.changed.notify_all();
    said
}

/// Waits until a member of this list is ready. Of a list that is not there it waits for nothing.
pub(crate) fn await_ready<R: Wait>(rt: &R, host: &LockedHost, list: u32) {
    let mut quiet = host.host.lock(rt);
    for _ in rt.forever() {
        if !quiet.is_quiet(list) {
            return;
        }
        quiet = host.changed.wait(rt, quiet);
    }
    unreachable!()
}
