ghost use Rattle.std.specs.Prelude.{◌≡◌, ◌<◌, ◌^◌, IfOk, OnOk, OnErr, IsSome, ◌++◌, ◌+◌, ◌≤◌, sum_by};
ghost use Rattle.std.specs.List.{AllByRecursion};
ghost use Rattle.vub_mem.specs.Marks.{MarksAll, page_marks};
ghost use Rattle.vub_queue.specs.Chain.{IsCovered, chain_of, read_part, request_of, segments_of, total};
ghost use Rattle.vub_queue.specs.Take.{Costs, HasRoom, Looks, Taken, guest_taken, marks_taken, ring_taken};
ghost use Rattle.vub_queue.specs.declared.damage.Damage.{Damage};
ghost use Rattle.vub_queue.specs.declared.took.Took.{Took};

use crate::chain::Chain;
use crate::descriptor::Descriptor;
use crate::head::{Head, next_head};
use crate::head_chain::chain_at;
use crate::layout::VIRTQ_DESC_F_WRITE;
use crate::publishing::finish;
use crate::queue::Queue;
use crate::segment::{Segment, Segments};
use crate::took::Took;
use std::alloc::Global;
use std::sync::ledger::Ledger;
use vub_base::{Bytes, OutOfMemory, Steps};
use vub_mem::{DirtyLog, GuestMemory};

/// Appends the bytes of one segment, if the driver wrote it. The first bytes are kept as they were read.
#[tactic(auto, unfolding(crate::specs::Chain::read_part))]
fn append_part<L: DirtyLog>(
    alloc: Global,
    memory: &GuestMemory<L>,
    descriptor: &Descriptor,
    request: &mut Vec<u8>,
) -> Result<(), OutOfMemory>
    requires { IsCovered memory.now.guest descriptor.now }
    ensures { OnOk result (request.new.items ≡ request.old.items ++ read_part memory.now.guest descriptor.now) }
{
    if descriptor.flags & VIRTQ_DESC_F_WRITE != 0 {
        return Ok(());
    }
    let bytes = memory.read_covered(alloc, descriptor.addr, descriptor.len as u64)?;
    if request.is_empty() {
        *request = bytes.into_vec();
        return Ok(());
    }
    request.extend_from_slice(bytes.as_slice())?;
    Ok(())
}

/// The bytes that the driver wrote.
#[tactic(auto, unfolding(crate::specs::Chain::request_of))]
fn read_request<L: DirtyLog>(
    alloc: Global,
    memory: &GuestMemory<L>,
    descriptors: &[Descriptor],
) -> Result<Bytes, OutOfMemory>
    requires { AllByRecursion (λ d. IsCovered memory.now.guest d) descriptors.now }
    ensures { IfOk result (λ b. b ≡ request_of memory.now.guest descriptors.now) }
{
    let mut request = Vec::new(alloc);
    for descriptor in descriptors {
        append_part(alloc, memory, descriptor, &mut request)?;
    }
    Ok(Bytes::from_vec(request))
}

/// The segments that the device may write.
#[tactic(auto, unfolding(crate::specs::Chain::segments_of))]
fn writable_segments(alloc: Global, descriptors: &[Descriptor]) -> Result<Segments, OutOfMemory>
    ensures { IfOk result (λ s. s ≡ segments_of descriptors.now) }
{
    let mut items = Vec::new(alloc);
    for descriptor in descriptors {
        if descriptor.flags & VIRTQ_DESC_F_WRITE != 0 {
            items.push(Segment {
                addr: descriptor.addr,
                len: descriptor.len,
            })?;
        }
    }
    Ok(Segments::from_vec(items))
}

/// How many bytes the segments hold.
fn room(segments: &[Segment]) -> u32
    requires { sum_by (λ s. s.len) segments.now < 2 ^ 32 }
    ensures { result ≡ sum_by (λ s. s.len) segments.now }
{
    segments.iter().map(|s| s.len).sum()
}

/// The entry that the descriptors make.
pub(crate) fn make_chain<L: DirtyLog>(
    alloc: Global,
    memory: &GuestMemory<L>,
    head: u16,
    descriptors: &[Descriptor],
) -> Result<Chain, OutOfMemory>
    requires small { total descriptors.now ≤ 4294967295 }
    requires covered { AllByRecursion (λ d. IsCovered memory.now.guest d) descriptors.now }
    ensures chain { IfOk result (λ c. c ≡ chain_of memory.now.guest head descriptors.now) }
    ensures room { IfOk result (λ c. c.room ≡ sum_by (λ s. s.len) c.segments) }
{
    let request = read_request(alloc, memory, descriptors)?;
    let segments = writable_segments(alloc, descriptors)?;
    let room = room(segments.as_slice());
    Ok(Chain {
        head,
        request,
        segments,
        room,
    })
}

/// What the ring gives next.
fn look<L: DirtyLog, K: Ledger>(
    alloc: Global,
    queue: &Queue,
    memory: &GuestMemory<L>,
    steps: &mut Steps<K>,
) -> Result<Took, OutOfMemory>
    requires { IsSome queue.now.addresses }
    ensures took { IfOk result (Looks memory.now.guest queue.now) }
    ensures cost { IfOk result (Costs memory.now.guest queue.now steps.old steps.new) }
    ensures room { IfOk result HasRoom }
    ensures most { steps.new ≤ steps.old + queue.now.size }
{
    match next_head(memory, queue) {
        Head::Empty => Ok(Took::None),
        Head::Broken(damage) => Ok(Took::Damaged(damage)),
        Head::At(head) => chain_at(alloc, queue, memory, head, steps),
    }
}

/// Takes the next entry of the available ring (virtio 1.2, 2.7.6 and 2.7.13). It answers Entry where the next head has
/// a chain, with the bytes that the driver wrote and the segments that the device may write; None where nothing is
/// left; and else Damaged with the first test that fails, which changes nothing. Each descriptor that is read is one
/// step on the counter, at most as many as the queue's size.
///
/// Where nothing is left and notifications go by index, it asks the driver to notify of the next entry. The addresses
/// are to be set. Want of memory changes neither the queue nor the memory; the counter may have risen.
pub fn take<L: DirtyLog, K: Ledger>(
    alloc: Global,
    queue: &mut Queue,
    memory: &mut GuestMemory<L>,
    steps: &mut Steps<K>,
) -> Result<Took, OutOfMemory>
    requires { IsSome queue.old.addresses }

    // The answer is one that the relation allows, and each that it allows is the answer.
    ensures taken { IfOk result (Taken memory.old.guest queue.old) }
    ensures only { (t : Took) → Taken memory.old.guest queue.old t → IfOk result (λ r. r ≡ t) }
    ensures queue { IfOk result (λ t. queue.new ≡ ring_taken queue.old t) }
    ensures guest { IfOk result (λ t. memory.new.guest ≡ guest_taken memory.old.guest queue.old t) }
    ensures regions { memory.new.guest.regions ≡ memory.old.guest.regions }
    ensures logs { IfOk result (λ t. MarksAll (page_marks L.byte_len L.marks) memory.old.logs
        (marks_taken memory.old.guest.regions queue.old t) memory.new.logs) }
    ensures cost { IfOk result (Costs memory.old.guest queue.old steps.old steps.new) }
    ensures long { IfOk result (λ t. t ≡ Took.Damaged Damage.TooLong → steps.new ≡ steps.old + queue.old.size) }
    ensures most { steps.new ≤ steps.old + queue.old.size }
    ensures room { IfOk result HasRoom }
    ensures err { OnErr result (queue.new ≡ queue.old) }
    ensures same { OnErr result (memory.new ≡ memory.old) }
{
    let looked = look(alloc, queue, memory, steps)?;
    let took = finish(queue, memory, looked);
    if let Took::Entry(_) = &took {
        queue.step_avail();
    }
    Ok(took)
}
