ghost use Rattle.std.specs.Prelude.{◌≡◌, IfOk, slice_index_or};
ghost use Rattle.vub_model.specs.Wiring.{queues_in};

use std::alloc::Global;
use vub_base::{Listed, OutOfMemory};
use vub_model::Constants;

/// The queues of a mask, of this many queues, in order.
///
/// # Errors
/// Want of memory.
pub(crate) fn queues_of_mask(
    alloc: Global,
    count: usize,
    mask: u64,
) -> Result<Vec<u32>, OutOfMemory>
    ensures { IfOk result (λ queues. queues.items ≡ queues_in count mask) }
{
    let mut queues = Vec::new(alloc);
    for queue in 0..count.min(64) {
        if (mask >> queue) & 1 == 1 {
            queues.push(queue as u32)?;
        }
    }
    Ok(queues)
}

/// The queues of a worker's mask, in order. A worker without a mask has none.
///
/// # Errors
/// Want of memory.
pub(crate) fn queues_of_worker(
    alloc: Global,
    constants: &Constants,
    worker: u32,
) -> Result<Listed<u32>, OutOfMemory>
    ensures { IfOk result (λ queues. queues ≡
        (let mask = slice_index_or constants.now.masks worker 0 in queues_in constants.now.queues mask)) }
{
    let mask = match constants.masks.as_slice().get(worker as usize) {
        Some(mask) => *mask,
        None => 0,
    };
    let queues = queues_of_mask(alloc, constants.queues, mask)?;
    Ok(Listed::from_vec(queues))
}
