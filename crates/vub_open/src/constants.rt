//! What a device never changes.
ghost use Rattle.std.specs.Prelude.{◌≡◌, ℕ, List, Option, map, IfOk};
ghost use Rattle.std.specs.List.{range_with_len};
ghost use Rattle.vub_open.specs.Asked.{constants_by};

use std::alloc::Global;
use vub_base::{Listed, OutOfMemory};
use vub_mem::BitmapReplace;
use vub_model::Constants;
use vub_proto::VhostUserBackendMut;

/// The exit objects of the first `count` workers.
fn exits_of<D: VhostUserBackendMut>(
    alloc: Global,
    device: &D,
    count: usize,
) -> Result<Vec<Option<u32>>, OutOfMemory>
    ensures { IfOk result (λ exits. exits.items ≡ map (D.exit_of device.now) (range_with_len 0 count)) }
{
    let exits = (0..count)
        .map(|worker| device.exit_event(worker))
        .collect(alloc)?;
    Ok(exits)
}

/// Asks a device for its constants, and for each of its workers once for the exit object.
///
/// # Errors
/// Want of memory.
pub fn read_constants<D: VhostUserBackendMut>(
    alloc: Global,
    device: &D,
) -> Result<Constants, OutOfMemory>
    ensures { IfOk result (λ c. c ≡ constants_by D.VhostUserBackendMut D.Bitmap.TRACKS device.now) }
{
    let masks = device.queues_per_thread(alloc)?;
    let exits = exits_of(alloc, device, masks.len())?;
    Ok(Constants {
        queues: device.num_queues(),
        max: device.max_queue_size(),
        features: device.features(),
        protocol: device.protocol_features(),
        tracks: D::Bitmap::TRACKS,
        masks: Listed::from_vec(masks),
        exits: Listed::from_vec(exits),
    })
}
