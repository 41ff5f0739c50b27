//! Where a queue is served.
ghost use Rattle.std.specs.Prelude.{◌≡◌, ◌≤◌, ◌<◌, ◌^◌, length, filter, position, IfSome};
ghost use Rattle.std.specs.List.{range_with_len};
ghost use Rattle.vub_model.specs.Wiring.{has_bit, number_in, place_with};

use vub_model::Place;

/// Whether the mask has the bit of this queue.
#[tactic(auto, using(crate::proofs::MaskBits::bit_there, crate::proofs::MaskBits::bit_missing, crate::proofs::MaskBits::bit_beyond))]
pub fn has_bit(mask: u64, queue: u32) -> bool
    ensures { result ≡ has_bit mask queue }
{
    queue < 64 && (mask >> queue) & 1 == 1
}

/// The first worker that has this queue.
fn worker_of(masks: &[u64], queue: u32) -> Option<usize>
    ensures worker { result ≡ position (λ mask. has_bit mask queue) masks.now }
    ensures there { IfSome result (λ worker. worker < length masks.now) }
{
    masks.iter().position(|mask| has_bit(*mask, queue))
}

/// How many queues of the mask lie below this one.
fn number_in(mask: u64, queue: u32) -> u32
    ensures { result ≡ number_in mask queue }
{
    let mut number = 0;
    for other in 0..queue {
        if has_bit(mask, other) {
            number += 1;
        }
    }
    number
}

/// The place of a queue, if a worker has it.
pub fn place_of(masks: &[u64], queue: u32) -> Option<Place>
    requires { length masks.now < 2 ^ 32 }
    ensures place { result ≡ place_with masks.now queue (position (λ mask. has_bit mask queue) masks.now) }
    ensures there { IfSome result (λ place. place.worker < length masks.now) }
{
    match worker_of(masks, queue) {
        None => None,
        Some(worker) => Some(Place {
            worker: worker as u32,
            number: number_in(masks[worker], queue),
        }),
    }
}
