ghost use Rattle.std.specs.Prelude.{◌≡◌, ◌+◌, ◌≤◌, IfOk, IsSome};
ghost use Rattle.vub_queue.specs.HeadChain.{ChainCosts, ChainGives};
ghost use Rattle.vub_queue.specs.Take.{HasRoom};
ghost use Rattle.vub_queue.specs.declared.took.Took.{Took};

use crate::queue::Queue;
use crate::taking::make_chain;
use crate::took::Took;
use crate::walk::{Walk, read_chain};
use std::alloc::Global;
use std::sync::ledger::Ledger;
use vub_base::{OutOfMemory, Steps};
use vub_mem::{DirtyLog, GuestMemory};

/// The chain of a head (virtio 1.2, 2.7.5): Entry with the bytes that the driver wrote and the segments that the device
/// may write, or Damaged with the first test that a descriptor fails; never None. The queue stays as it is: a device
/// asks for a head that it took before, and that it is to serve again. Each descriptor that is read is one step on the
/// counter, at most as many as the queue's size. The addresses are to be set.
pub fn chain_at<L: DirtyLog, K: Ledger>(
    alloc: Global,
    queue: &Queue,
    memory: &GuestMemory<L>,
    head: u16,
    steps: &mut Steps<K>,
) -> Result<Took, OutOfMemory>
    requires { IsSome queue.now.addresses }

    // The answer is one that the relation allows, and each that it allows is the answer.
    ensures gives { IfOk result (ChainGives memory.now.guest queue.now head) }
    ensures only { (t : Took) → ChainGives memory.now.guest queue.now head t → IfOk result (λ r. r ≡ t) }
    ensures cost { IfOk result (ChainCosts memory.now.guest queue.now head steps.old steps.new) }
    ensures room { IfOk result HasRoom }
    ensures most { steps.new ≤ steps.old + queue.now.size }
{
    let at = queue.placed();
    match read_chain(alloc, memory, at.desc, queue.size(), head, steps)? {
        Walk::Failed(damage) => Ok(Took::Damaged(damage)),
        Walk::Whole(descriptors) => {
            let chain = make_chain(alloc, memory, head, descriptors.as_slice())?;
            Ok(Took::Entry(chain))
        }
    }
}
