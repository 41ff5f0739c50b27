//! All parts but the service, and the steps on the ring of one queue and the pending set of one worker.
ghost use Rattle.std.specs.Prelude.{◌≡◌, ◌≤◌, [], Some, Ok, IfOk, OnOk, OnErr, IsErrOf, IsTrue, length, sum_by, slice_set};
ghost use Rattle.vub_mem.specs.Marks.{MarksAll, page_marks};
ghost use Rattle.vub_model.specs.RingRecord.{closed_ring, ring_said, ring_after};
ghost use Rattle.vub_ring.specs.Play.{HasRoom};
ghost use Rattle.vub_vring.specs.Calls.{HostTableCall, IsSaid, takes_memory};
ghost use Rattle.vub_ring.specs.Faults.{CountsFaults};
ghost use Rattle.vub_ring.specs.Play.{OnTable, KickTable, kick_said, put_found, table_marks, use_marks, PutTable, table_put, PendPlays, inserts};
ghost use Rattle.vub_vring.specs.Hosting.{CountsOver, PlaysOver};
ghost use Rattle.vub_vring.specs.Store.{ring_in, left_by, RingTableAt, ClosedPlays, PutsAt, PendsAt};

use crate::hosting::{play_host, ready};
use crate::ops::{HostOp, HostSaid};
use std::alloc::Global;
use vub_base::{Listed, OutOfMemory};
use vub_event::{Host, MemHost};
use vub_log::PlainLog;
use vub_mem::{DirtyLog, GuestMemory};
use vub_model::{Constants, Entry, RingOp, RingSaid};
use vub_queue::PutFault;
use vub_ring::{
    KickSaid, PartsError, PendOp, PendSaid, Pending, PutSaid, TableRing, TableRingSaid, VringState,
    play_kick, play_pend, play_put, play_ring, play_table,
};

/// All parts but the service: guest memory, the rings by queue, the host, and the pending sets by worker.
#[derive(Drop)]
pub struct Store {
    pub memory: GuestMemory<PlainLog>,
    pub rings: Vec<VringState>,
    pub host: MemHost,
    pub pending: Vec<Pending>,
}

/// What a ring that is not there says: Done, or base 0.
pub fn closed_said(op: RingOp) -> RingSaid
    ensures { result ≡ ring_said closed_ring op }
{
    match op {
        RingOp::GetBase => RingSaid::Base(0),
        _ => RingSaid::Done,
    }
}

/// Applies an op to the ring of a queue.
#[tactic(auto, using(crate::proofs::Places::ring_there, crate::proofs::Places::ring_missing, crate::proofs::Places::set_missing))]
pub(crate) fn ring_at(
    alloc: Global,
    rings: &mut Vec<VringState>,
    queue: u32,
    op: RingOp,
) -> Result<RingSaid, PartsError>
    ensures said { IfOk result (λ said. said ≡ ring_said (ring_in rings.old.items queue) op) }
    ensures rings { OnOk result (rings.new.items ≡ slice_set rings.old.items queue
        (ring_after (ring_in rings.old.items queue) op)) }
    ensures err { OnErr result (rings.new.items ≡ rings.old.items) }
    ensures only { ¬ (IsErrOf result PartsError.Fault) }
{
    match rings.get_mut(queue as usize) {
        Some(ring) => play_ring(alloc, ring, op),
        None => Ok(closed_said(op)),
    }
}

/// What a ring that is not there says together with guest memory: a Take finds Nothing, and an Info says whether the
/// used index could be read.
pub fn closed_table_said<L: DirtyLog>(memory: &GuestMemory<L>, op: TableRing) -> TableRingSaid
    ensures row { ClosedPlays op result memory.now.guest }
    ensures room { HasRoom result }
    ensures logs { table_marks memory.now.guest.regions closed_ring result ≡ [] }
{
    match op {
        TableRing::Take => TableRingSaid::Nothing,
        TableRing::Info { used, .. } => match memory.locate(used, 2, 2) {
            None => TableRingSaid::Outside,
            Some(_) => TableRingSaid::Done,
        },
    }
}

/// Makes a step of the ring of a queue together with guest memory.
#[tactic(auto, using(crate::proofs::Places::table_there, crate::proofs::Places::table_missing))]
pub(crate) fn table_at<L: DirtyLog>(
    alloc: Global,
    rings: &mut Vec<VringState>,
    memory: &mut GuestMemory<L>,
    queue: u32,
    op: TableRing,
) -> Result<TableRingSaid, PartsError>
    ensures row { IfOk result (λ said. RingTableAt queue op said rings.old.items memory.old.guest rings.new.items
        memory.new.guest) }
    ensures logs { IfOk result (λ said. MarksAll (page_marks L.byte_len L.marks) memory.old.logs
        (table_marks memory.old.guest.regions (ring_in rings.old.items queue) said) memory.new.logs) }
    ensures room { IfOk result HasRoom }
    ensures rings { OnErr result (rings.new.items ≡ rings.old.items) }
    ensures err { OnErr result (memory.new ≡ memory.old) }
    ensures guest { OnErr result (memory.new.guest ≡ memory.old.guest) }
    ensures only { ¬ (IsErrOf result PartsError.Fault) }
{
    match rings.get_mut(queue as usize) {
        Some(ring) => play_table(alloc, ring, memory, op),
        None => Ok(closed_table_said(memory, op)),
    }
}

/// Reads the counter of this event, if it is the kick of a queue.
#[tactic(auto, using(crate::proofs::Places::ring_there, crate::proofs::Places::ring_missing, crate::proofs::Places::set_same))]
pub(crate) fn kick_at<H: Host>(
    alloc: Global,
    rings: &mut Vec<VringState>,
    host: &mut H,
    queue: u32,
    object: u32,
) -> Result<KickSaid, PartsError>
    ensures said { IfOk result (λ said. said ≡ kick_said (ring_in rings.old.items queue) object) }
    ensures rings { rings.new.items ≡ rings.old.items }
    ensures table { PlaysOver H.Host host.old host.new result (KickTable object) }
    ensures faults { CountsOver H.Host host.old host.new result }
    ensures only { ¬ (IsErrOf result PartsError.OutOfMemory) }
{
    match rings.get_mut(queue as usize) {
        Some(ring) => play_kick(alloc, ring, host, object),
        None => Ok(KickSaid::Stale),
    }
}

/// Uses an entry of its queue with this reply.
#[tactic(auto, using(crate::proofs::Places::put_there, crate::proofs::Places::put_missing, crate::proofs::Places::ring_there, crate::proofs::Places::ring_missing, vub_ring::proofs::Settling::told_same))]
pub(crate) fn put_at<L: DirtyLog, H: Host>(
    alloc: Global,
    rings: &mut Vec<VringState>,
    memory: &mut GuestMemory<L>,
    host: &mut H,
    entry: &Entry,
    reply: &[u8],
) -> Result<PutSaid, PartsError>
    requires fits { length reply.now ≤ entry.now.chain.room }
    requires room { entry.now.chain.room ≡ sum_by (λ s. s.len) entry.now.chain.segments }
    ensures row { IfOk result (λ said. PutsAt entry.now.queue entry.now.chain reply.now said rings.old.items
        memory.old.guest rings.new.items memory.new.guest) }
    ensures logs { IfOk result (λ said. MarksAll (page_marks L.byte_len L.marks) memory.old.logs
        (use_marks memory.old.guest.regions (ring_in rings.old.items entry.now.queue) entry.now.chain reply.now said)
        memory.new.logs) }
    ensures table { OnTable result (H.held host.old) (H.held host.new)
        (λ said old new. PutTable (H.fault_count host.old) (H.fault_count host.new)
        (ring_in rings.old.items entry.now.queue).call
        (put_found memory.old.guest (ring_in rings.old.items entry.now.queue) entry.now.chain reply.now) old new) }
    ensures sound { H.never_fails host.old
        → OnTable result (H.held host.old) (H.held host.new)
        (λ said old new. new ≡ table_put (ring_in rings.old.items entry.now.queue).call
        (put_found memory.old.guest (ring_in rings.old.items entry.now.queue) entry.now.chain reply.now) old) }
    ensures rings { OnErr result (rings.new.items ≡ rings.old.items) }
    ensures memory { OnErr result (memory.new ≡ memory.old) }
    ensures guest { OnErr result (memory.new.guest ≡ memory.old.guest) }
    ensures host { OnErr result (host.new ≡ host.old) }
    ensures only { ¬ (IsErrOf result PartsError.Fault) }
    ensures faults { CountsOver H.Host host.old host.new result }
{
    match rings.get_mut(entry.queue as usize) {
        Some(ring) => play_put(alloc, ring, memory, host, entry, reply),
        None => Ok(PutSaid::Held(PutFault::RingOutside)),
    }
}

/// Changes the pending set of a worker.
#[tactic(auto, using(crate::proofs::Places::pend_there, crate::proofs::Places::pend_missing))]
pub(crate) fn pend_at(
    alloc: Global,
    pending: &mut Vec<Pending>,
    worker: u32,
    op: PendOp,
) -> Result<PendSaid, PartsError>
    ensures row { IfOk result (λ said. PendsAt worker op said pending.old.items pending.new.items) }
    ensures memory { IsErrOf result PartsError.OutOfMemory → IsTrue (inserts op) }
    ensures err { OnErr result (pending.new.items ≡ pending.old.items) }
    ensures only { ¬ (IsErrOf result PartsError.Fault) }
{
    match pending.get_mut(worker as usize) {
        Some(set) => play_pend(alloc, set, op),
        None => Ok(missing_said(alloc, op)),
    }
}

/// What a pending set that is not there says: Done, or no numbers. Takes no memory.
pub fn missing_said(alloc: Global, op: PendOp) -> PendSaid
    ensures { PendPlays op result [] (left_by op) }
{
    match op {
        PendOp::TakeAll => PendSaid::All(Pending::new(alloc)),
        PendOp::Insert(_) => PendSaid::Done,
        PendOp::Remove(_) => PendSaid::Done,
    }
}

/// Makes this call of a host in memory. Of several ready members it gives the one with the least object number.
#[tactic(auto, using(crate::proofs::Saying::first_ready_says, crate::proofs::Saying::counts_said, crate::proofs::Saying::said_is, crate::proofs::Saying::no_lack))]
pub(crate) fn host_at(alloc: Global, host: &mut MemHost, op: HostOp) -> Result<HostSaid, PartsError>
    ensures table { OnTable result (Some host.old.table) (Some host.new.table) (HostTableCall op) }
    ensures said { IfOk result IsSaid }
    ensures memory { IsErrOf result PartsError.OutOfMemory → IsTrue (takes_memory op) }
    ensures faults { CountsFaults host.old.plan.faults host.new.plan.faults (host.old.plan.calls.items ≡ [])
        (host.new.plan.calls.items ≡ []) result }
{
    match op {
        HostOp::Ready(list) => ready(host.ready(list)),
        HostOp::CreateEvent(_) => play_host(alloc, host, op),
        HostOp::CreateList => play_host(alloc, host, op),
        HostOp::Signal(_, _) => play_host(alloc, host, op),
        HostOp::Consume(_) => play_host(alloc, host, op),
        HostOp::Add(_, _, _, _) => play_host(alloc, host, op),
        HostOp::Delete(_, _) => play_host(alloc, host, op),
        HostOp::Listen(_, _, _) => play_host(alloc, host, op),
        HostOp::Unlisten(_, _, _) => play_host(alloc, host, op),
        HostOp::ConsumeAs(_, _, _) => play_host(alloc, host, op),
        HostOp::Claim(_, _) => play_host(alloc, host, op),
        HostOp::Release(_) => play_host(alloc, host, op),
    }
}

/// A copy of these constants.
///
/// # Errors
/// Want of memory.
pub fn copy_constants(alloc: Global, constants: &Constants) -> Result<Constants, OutOfMemory>
    ensures { IfOk result (λ c. c ≡ constants.now) }
{
    let masks = Vec::from_slice(alloc, constants.masks.as_slice())?;
    let exits = Vec::from_slice(alloc, constants.exits.as_slice())?;
    Ok(Constants {
        queues: constants.queues,
        max: constants.max,
        features: constants.features,
        protocol: constants.protocol,
        tracks: constants.tracks,
        masks: Listed::from_vec(masks),
        exits: Listed::from_vec(exits),
    })
}
