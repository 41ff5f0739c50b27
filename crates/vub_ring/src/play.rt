//! The steps of the machine on lent parts, for any ring that ops change, any log of dirty pages and any host.
ghost use Rattle.std.specs.Prelude.{◌≡◌, ◌≤◌, ◌<◌, IsSome, Ok, Err, IfOk, OnOk, OnErr, IsErrOf, IsOk, IsTrue, length, sum_by, if◌then◌else◌, is_some};
ghost use Rattle.vub_base.specs.Told.{Told};
ghost use Rattle.vub_mem.specs.Marks.{MarksAll, page_marks};
ghost use Rattle.vub_queue.specs.Function.{took_of};
ghost use Rattle.vub_queue.specs.Take as take_specs;
ghost use Rattle.vub_queue.specs.Put.{put_guest, put_marks};
ghost use Rattle.vub_model.specs.Control.{used_index_covers, next_used_at};
ghost use Rattle.vub_model.specs.RingRecord.{ring_said, ring_after};
ghost use Rattle.vub_ring.specs.Faults.{CountsFaults};
ghost use Rattle.vub_ring.specs.Play.{found, guest_found, marks_found, table_marks, use_marks, info_said, info_after, HasRoom, OnTable, TablePlays, TakePlays, kick_said, KickTable, put_found, PutPlays, table_put, table_called, table_wanted, CallsIf, PutTable, PendPlays, inserts};

use crate::events::{raise_anyway, read_anyway};
use crate::ops::{KickSaid, PartsError, PendOp, PendSaid, PutSaid, TableRing, TableRingSaid};
use crate::pending::Pending;
use crate::ring_state::RingState;
use crate::state::VringState;
use std::alloc::Global;
use std::marker::Brand;
use std::mem;
use std::sync::ledger::{Blank, Ledger};
use vub_base::{OutOfMemory, Steps};
use vub_event::Host;
use vub_mem::{DirtyLog, GuestMemory};
use vub_model::{Entry, RingOp, RingSaid};
use vub_queue::{Chain, PutFault, Queue, Took, put, take};

/// Takes the next entry on a counter of descriptor reads.
#[tactic(auto, using(crate::proofs::Takes::takes_some))]
fn take_with<L: DirtyLog, K: Ledger>(
    alloc: Global,
    queue: &mut Queue,
    memory: &mut GuestMemory<L>,
    blank: Blank,
) -> Result<Took, OutOfMemory>
    requires addresses { IsSome queue.old.addresses }
    requires name { blank.name ≡ K.name }
    requires parts { blank.parts ≡ K.parts }
    requires some { 0 < K.parts }
    ensures took { IfOk result (λ t. t ≡ took_of memory.old.guest queue.old) }
    ensures guest { IfOk result (λ t. memory.new.guest ≡ take_specs.guest_taken memory.old.guest queue.old t) }
    ensures logs { IfOk result (λ t. MarksAll (page_marks L.byte_len L.marks) memory.old.logs
        (take_specs.marks_taken memory.old.guest.regions queue.old t) memory.new.logs) }
    ensures room { IfOk result take_specs.HasRoom }
    ensures err { OnErr result (memory.new ≡ memory.old) }
{
    let mut steps = Steps::<K>::new(blank);
    take(alloc, queue, memory, &mut steps)
}

/// Takes the next entry, and counts nothing.
fn take_uncounted<L: DirtyLog>(
    alloc: Global,
    queue: &mut Queue,
    memory: &mut GuestMemory<L>,
) -> Result<Took, OutOfMemory>
    requires { IsSome queue.old.addresses }
    ensures took { IfOk result (λ t. t ≡ took_of memory.old.guest queue.old) }
    ensures guest { IfOk result (λ t. memory.new.guest ≡ take_specs.guest_taken memory.old.guest queue.old t) }
    ensures logs { IfOk result (λ t. MarksAll (page_marks L.byte_len L.marks) memory.old.logs
        (take_specs.marks_taken memory.old.guest.regions queue.old t) memory.new.logs) }
    ensures room { IfOk result take_specs.HasRoom }
    ensures err { OnErr result (memory.new ≡ memory.old) }
{
    take_with::<L, Brand>(alloc, queue, memory, Blank::new(1))
}

/// Applies an op to a ring. An op that the ring does not take is not applied, changes nothing and says Done.
///
/// # Errors
/// Want of memory leaves the ring as it was; never where there is room for an op.
pub fn play_ring<R: RingState>(
    _alloc: Global,
    ring: &mut R,
    op: RingOp,
) -> Result<RingSaid, PartsError>
    ensures said { IfOk result (λ said. said ≡ ring_said (R.ring ring.old) op) }
    ensures ring { OnOk result (R.ring ring.new ≡ ring_after (R.ring ring.old) op) }
    ensures spare { 0 < R.spare ring.old → IsOk result }
    ensures err { OnErr result (R.ring ring.new ≡ R.ring ring.old) }
    ensures only { ¬ (IsErrOf result PartsError.Fault) }
{
    if !ring.state().fits(op) && !ring.state().waits(op) {
        return Ok(RingSaid::Done);
    }
    match ring.apply(op) {
        Ok(said) => Ok(said),
        Err(_) => Err(PartsError::OutOfMemory),
    }
}

/// Applies an op for which there is room.
fn apply_now<R: RingState>(ring: &mut R, op: RingOp)
    requires { 0 < R.spare ring.old }
    ensures { R.ring ring.new ≡ ring_after (R.ring ring.old) op }
{
    let _said = ring.apply(op);
}

/// Takes the next entry of a ring that is live, and finds none in any other. The ring stays as it is.
fn take_found<L: DirtyLog>(
    alloc: Global,
    ring: &VringState,
    memory: &mut GuestMemory<L>,
) -> Result<Took, OutOfMemory>
    ensures took { IfOk result (λ t. t ≡ found memory.old.guest ring.now) }
    ensures guest { IfOk result (λ t. memory.new.guest ≡ guest_found memory.old.guest ring.now t) }
    ensures logs { IfOk result (λ t. MarksAll (page_marks L.byte_len L.marks) memory.old.logs
        (marks_found memory.old.guest.regions ring.now t) memory.new.logs) }
    ensures room { IfOk result take_specs.HasRoom }
    ensures err { OnErr result (memory.new ≡ memory.old) }
{
    if !ring.may_take() {
        return Ok(Took::None);
    }
    let mut queue = ring.get_queue().copy();
    take_uncounted(alloc, &mut queue, memory)
}

/// Takes the next entry of a ring.
fn play_take<R: RingState, L: DirtyLog>(
    alloc: Global,
    ring: &mut R,
    memory: &mut GuestMemory<L>,
) -> Result<TableRingSaid, OutOfMemory>
    ensures row { IfOk result (λ said. TakePlays said (R.ring ring.old) memory.old.guest (R.ring ring.new)
        memory.new.guest) }
    ensures logs { IfOk result (λ said. MarksAll (page_marks L.byte_len L.marks) memory.old.logs
        (table_marks memory.old.guest.regions (R.ring ring.old) said) memory.new.logs) }
    ensures room { IfOk result HasRoom }
    ensures ring { OnErr result (R.ring ring.new ≡ R.ring ring.old) }
    ensures err { OnErr result (memory.new ≡ memory.old) }
{
    ring.reserve()?;
    let epoch = ring.state().get_epoch();
    let number = ring.state().next_number();
    match take_found(alloc, ring.state(), memory)? {
        Took::None => Ok(TableRingSaid::Nothing),
        Took::Damaged(damage) => Ok(TableRingSaid::Damaged(damage)),
        Took::Entry(chain) => {
            apply_now(ring, RingOp::Taken);
            Ok(TableRingSaid::Taken {
                epoch,
                number,
                chain,
            })
        }
    }
}

/// The word at the index of this used ring, if it is in guest memory.
fn next_used_at<L: DirtyLog>(memory: &GuestMemory<L>, used: u64) -> Option<u16>
    ensures word { result ≡ next_used_at memory.now.guest used }
    ensures there { is_some result ≡ used_index_covers memory.now.guest used }
{
    match memory.locate(used, 2, 2) {
        None => None,
        Some(word) => Some(memory.u16_at(word)),
    }
}

/// Whether the used index could be read.
fn info_said(is_there: bool) -> TableRingSaid
    ensures { result ≡ (if is_there then TableRingSaid.Done else TableRingSaid.Outside) }
{
    if is_there {
        TableRingSaid::Done
    } else {
        TableRingSaid::Outside
    }
}

/// Sets the addresses of a ring, and the next used index that stands there.
fn play_info<R: RingState, L: DirtyLog>(
    alloc: Global,
    ring: &mut R,
    memory: &GuestMemory<L>,
    desc: u64,
    avail: u64,
    used: u64,
) -> Result<TableRingSaid, PartsError>
    ensures said { IfOk result (λ said. said ≡ info_said (R.ring ring.old) memory.now.guest used) }
    ensures ring { OnOk result (R.ring ring.new ≡ info_after (R.ring ring.old) memory.now.guest desc avail used) }
    ensures err { OnErr result (R.ring ring.new ≡ R.ring ring.old) }
    ensures only { ¬ (IsErrOf result PartsError.Fault) }
{
    let next_used = next_used_at(memory, used);
    let op = RingOp::SetInfo {
        desc,
        avail,
        used,
        next_used,
    };
    match play_ring(alloc, ring, op)? {
        RingSaid::Waits => Ok(TableRingSaid::Waits),
        _ => Ok(info_said(next_used.is_some())),
    }
}

/// A step of a ring together with guest memory. An Info sets the addresses, and the next used index that stands in
/// memory at the used ring; it says Outside where that is not there, and where an entry is in flight it says Waits and
/// changes nothing. Addresses that are misaligned are not set. A Take gives the next entry of a ring that is ready and
/// enabled, has its addresses and no entry in flight, and from which fewer than 2^63 were taken since its base; else it
/// says Nothing and changes nothing.
///
/// # Errors
/// Want of memory leaves ring and memory as they were.
pub fn play_table<R: RingState, L: DirtyLog>(
    alloc: Global,
    ring: &mut R,
    memory: &mut GuestMemory<L>,
    op: TableRing,
) -> Result<TableRingSaid, PartsError>
    ensures row { IfOk result (λ said. TablePlays op said (R.ring ring.old) memory.old.guest (R.ring ring.new)
        memory.new.guest) }
    ensures logs { IfOk result (λ said. MarksAll (page_marks L.byte_len L.marks) memory.old.logs
        (table_marks memory.old.guest.regions (R.ring ring.old) said) memory.new.logs) }
    ensures room { IfOk result HasRoom }
    ensures ring { OnErr result (R.ring ring.new ≡ R.ring ring.old) }
    ensures err { OnErr result (memory.new ≡ memory.old) }
    ensures only { ¬ (IsErrOf result PartsError.Fault) }
{
    match op {
        TableRing::Info { desc, avail, used } => {
            play_info(alloc, ring, memory, desc, avail, used)
        }
        TableRing::Take => match play_take(alloc, ring, memory) {
            Ok(said) => Ok(said),
            Err(_) => Err(PartsError::OutOfMemory),
        },
    }
}

/// Reads the counter of this event, if it is the kick of the ring: Serve where the ring is ready and enabled, else
/// Quiet. Stale, and nothing is read, where it is not its kick.
///
/// # Errors
/// `Fault` only where the host's count of faults rose; nothing changes.
pub fn play_kick<R: RingState, H: Host>(
    _alloc: Global,
    ring: &mut R,
    host: &mut H,
    object: u32,
) -> Result<KickSaid, PartsError>
    ensures said { IfOk result (λ said. said ≡ kick_said (R.ring ring.old) object) }
    ensures ring { R.ring ring.new ≡ R.ring ring.old }
    ensures table { OnTable result (H.held host.old) (H.held host.new) (KickTable object) }
    ensures faults { CountsFaults (H.fault_count host.old) (H.fault_count host.new) (H.never_fails host.old)
        (H.never_fails host.new) result }
    ensures only { ¬ (IsErrOf result PartsError.OutOfMemory) }
{
    if !ring.state().is_kick(object) {
        return Ok(KickSaid::Stale);
    }
    read_anyway(host, object)?;
    if ring.state().is_on() {
        Ok(KickSaid::Serve)
    } else {
        Ok(KickSaid::Quiet)
    }
}

/// Uses the entry with this reply, without a call: the ring stays as it is.
#[tactic(auto, unfolding(crate::specs::Play::put_found))]
fn put_found<L: DirtyLog>(
    ring: &VringState,
    memory: &mut GuestMemory<L>,
    chain: &Chain,
    reply: &[u8],
) -> Result<bool, PutFault>
    requires fits { length reply.now ≤ chain.now.room }
    requires room { chain.now.room ≡ sum_by (λ s. s.len) chain.now.segments }
    ensures answer { result ≡ put_found memory.old.guest ring.now chain.now reply.now }
    ensures put { OnOk result (memory.new.guest ≡ put_guest memory.old.guest ring.now.queue chain.now reply.now) }
    ensures logs { OnOk result (MarksAll (page_marks L.byte_len L.marks) memory.old.logs
        (put_marks memory.old.guest.regions ring.now.queue chain.now reply.now) memory.new.logs) }
    ensures err { OnErr result (memory.new ≡ memory.old) }
{
    let mut queue = ring.get_queue().copy();
    if queue.addresses().is_none() {
        return Err(PutFault::RingOutside);
    }
    put(&mut queue, memory, chain, reply)
}

/// Signals the call of a ring, if it has one.
fn call_now<R: RingState, H: Host>(ring: &R, host: &mut H) -> Result<(), PartsError>
    ensures table { OnTable result (H.held host.old) (H.held host.new)
        (λ done old new. new ≡ table_called (R.ring ring.now).call old) }
    ensures faults { CountsFaults (H.fault_count host.old) (H.fault_count host.new) (H.never_fails host.old)
        (H.never_fails host.new) result }
    ensures only { ¬ (IsErrOf result PartsError.OutOfMemory) }
{
    match ring.state().get_call() {
        None => Ok(()),
        Some(object) => raise_anyway(host, object),
    }
}

/// Signals the call of a ring, if the driver wants it and there is one. A fault of the host is passed over.
#[tactic(auto, using(crate::proofs::Settling::called_if, crate::proofs::Settling::called_sound))]
fn call_if<R: RingState, H: Host>(ring: &R, host: &mut H, wanted: bool)
    ensures table { Told (H.held host.old) (H.held host.new)
        (λ old new. CallsIf (H.fault_count host.old) (H.fault_count host.new) (R.ring ring.now).call wanted old new) }
    ensures sound { H.never_fails host.old
        → Told (H.held host.old) (H.held host.new) (λ old new. new ≡ table_wanted (R.ring ring.now).call wanted old) }
    ensures later { H.fault_count host.old ≤ H.fault_count host.new }
    ensures still { H.never_fails host.old → H.never_fails host.new }
{
    if wanted {
        let _passed = call_now(ring, host);
    }
}

/// Uses the entry with this reply, over a ring in which there is room for an op.
fn play_use<R: RingState, L: DirtyLog, H: Host>(
    ring: &mut R,
    memory: &mut GuestMemory<L>,
    host: &mut H,
    entry: &Entry,
    reply: &[u8],
) -> PutSaid
    requires spare { 0 < R.spare ring.old }
    requires fits { length reply.now ≤ entry.now.chain.room }
    requires room { entry.now.chain.room ≡ sum_by (λ s. s.len) entry.now.chain.segments }
    ensures row { PutPlays entry.now.chain reply.now result (R.ring ring.old) memory.old.guest (R.ring ring.new)
        memory.new.guest }
    ensures logs { MarksAll (page_marks L.byte_len L.marks) memory.old.logs
        (use_marks memory.old.guest.regions (R.ring ring.old) entry.now.chain reply.now result) memory.new.logs }
    ensures table { Told (H.held host.old) (H.held host.new)
        (λ old new. PutTable (H.fault_count host.old) (H.fault_count host.new) (R.ring ring.old).call
        (put_found memory.old.guest (R.ring ring.old) entry.now.chain reply.now) old new) }
    ensures sound { H.never_fails host.old
        → Told (H.held host.old) (H.held host.new)
        (λ old new. new ≡ table_put (R.ring ring.old).call
        (put_found memory.old.guest (R.ring ring.old) entry.now.chain reply.now) old) }
    ensures later { H.fault_count host.old ≤ H.fault_count host.new }
    ensures still { H.never_fails host.old → H.never_fails host.new }
{
    match put_found(ring.state(), memory, &entry.chain, reply) {
        Ok(wanted) => {
            apply_now(ring, RingOp::Put);
            call_if(ring, host, wanted);
            PutSaid::Done
        }
        Err(fault) => {
            apply_now(ring, RingOp::Hold);
            PutSaid::Held(fault)
        }
    }
}

/// Uses the entry with this reply, and signals the call of the ring where the driver wants it; or holds the entry,
/// where a byte of the use is outside guest memory or the ring has no addresses. A signal at which the host fails is
/// passed over.
///
/// # Errors
/// Want of memory leaves ring, memory and host as they were.
#[tactic(auto, using(crate::proofs::Settling::told_same))]
pub fn play_put<R: RingState, L: DirtyLog, H: Host>(
    _alloc: Global,
    ring: &mut R,
    memory: &mut GuestMemory<L>,
    host: &mut H,
    entry: &Entry,
    reply: &[u8],
) -> Result<PutSaid, PartsError>
    requires fits { length reply.now ≤ entry.now.chain.room }
    requires room { entry.now.chain.room ≡ sum_by (λ s. s.len) entry.now.chain.segments }
    ensures row { IfOk result (λ said. PutPlays entry.now.chain reply.now said (R.ring ring.old) memory.old.guest
        (R.ring ring.new) memory.new.guest) }
    ensures logs { IfOk result (λ said. MarksAll (page_marks L.byte_len L.marks) memory.old.logs
        (use_marks memory.old.guest.regions (R.ring ring.old) entry.now.chain reply.now said) memory.new.logs) }
    ensures table { OnTable result (H.held host.old) (H.held host.new)
        (λ said old new. PutTable (H.fault_count host.old) (H.fault_count host.new) (R.ring ring.old).call
        (put_found memory.old.guest (R.ring ring.old) entry.now.chain reply.now) old new) }
    ensures sound { H.never_fails host.old
        → OnTable result (H.held host.old) (H.held host.new)
        (λ said old new. new ≡ table_put (R.ring ring.old).call
        (put_found memory.old.guest (R.ring ring.old) entry.now.chain reply.now) old) }
    ensures ring { OnErr result (R.ring ring.new ≡ R.ring ring.old) }
    ensures memory { OnErr result (memory.new ≡ memory.old) }
    ensures host { OnErr result (host.new ≡ host.old) }
    ensures only { ¬ (IsErrOf result PartsError.Fault) }
    ensures faults { CountsFaults (H.fault_count host.old) (H.fault_count host.new) (H.never_fails host.old)
        (H.never_fails host.new) result }
{
    if ring.reserve().is_err() {
        return Err(PartsError::OutOfMemory);
    }
    Ok(play_use(ring, memory, host, entry, reply))
}

/// Changes a pending set.
///
/// # Errors
/// Want of memory at an Insert leaves the set as it was.
pub fn play_pend(alloc: Global, pending: &mut Pending, op: PendOp) -> Result<PendSaid, PartsError>
    ensures row { IfOk result (λ said. PendPlays op said pending.old pending.new) }
    ensures memory { IsErrOf result PartsError.OutOfMemory → IsTrue (inserts op) }
    ensures err { OnErr result (pending.new ≡ pending.old) }
    ensures only { ¬ (IsErrOf result PartsError.Fault) }
{
    match op {
        PendOp::Insert(number) => match pending.insert(number) {
            Ok(()) => Ok(PendSaid::Done),
            Err(_) => Err(PartsError::OutOfMemory),
        },
        PendOp::Remove(number) => {
            pending.remove(number);
            Ok(PendSaid::Done)
        }
        PendOp::TakeAll => {
            let all = mem::replace(pending, Pending::new(alloc));
            Ok(PendSaid::All(all))
        }
    }
}
