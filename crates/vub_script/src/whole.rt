ghost use Rattle.std.specs.Prelude.{◌≡◌, true, IfOk};
ghost use Rattle.serde_json.specs.View.{view};
ghost use Rattle.vub_forms.specs.Reading.{Gives};
ghost use Rattle.vub_script.specs.Directory.{is_served};
ghost use Rattle.vub_script.specs.Draft.{device_of, fields_of, draft_of_tree};

use crate::device_form::{BitmapForm, DeviceForm};
use crate::draft::Draft;
use crate::service_form::ServiceForm;
use serde_json::Value;
use std::alloc::Global;
use vub_base::{Bytes, Listed};
use vub_forms::{Refusal, is_in_form, part_or, script_fault};

/// The features that a device offers where the script does not say: VIRTIO_F_VERSION_1 (bit 32),
/// VHOST_USER_F_PROTOCOL_FEATURES (30), VIRTIO_RING_F_EVENT_IDX (29) and VHOST_F_LOG_ALL (26).
const FEATURES: u64 = 0x1_6400_0000;

/// The protocol features that a device offers where the script does not say: VHOST_USER_PROTOCOL_F_LOG_SHMFD (bit 1),
/// VHOST_USER_PROTOCOL_F_REPLY_ACK (3) and VHOST_USER_PROTOCOL_F_CONFIG (9).
const PROTOCOL_FEATURES: u64 = 0x20a;

/// The mask of the one worker that a device has where the script does not say: queues 0 to 31.
const MASK: u64 = 0xffff_ffff;

#[tactic(auto, unfolding(crate::specs::Draft::device_of))]
fn device_from(alloc: Global, value: &Value) -> Result<DeviceForm, Refusal>
    ensures { Gives result (device_of (view value.now)) }
{
    let mut mask: Listed<u64> = Listed::new(alloc);
    mask.push(MASK)?;
    let queues = part_or(alloc, value, "queues", 1)?;
    let max_size = part_or(alloc, value, "max_size", 256)?;
    let masks = part_or(alloc, value, "masks", mask)?;
    let features = part_or(alloc, value, "features", FEATURES)?;
    let protocol = part_or(alloc, value, "protocol", PROTOCOL_FEATURES)?;
    let config = part_or(alloc, value, "config", Bytes::new(alloc))?;
    let bitmap = part_or(alloc, value, "bitmap", BitmapForm::None)?;
    let exits = part_or(alloc, value, "exits", Listed::new(alloc))?;
    let refuse = part_or(alloc, value, "refuse", Listed::new(alloc))?;
    Ok(DeviceForm {
        queues,
        max_size,
        masks,
        features,
        protocol,
        config,
        bitmap,
        exits,
        refuse,
    })
}

#[tactic(auto, unfolding(crate::specs::Draft::fields_of))]
fn fields_from(alloc: Global, value: &Value) -> Result<Draft, Refusal>
    ensures { Gives result (fields_of (view value.now)) }
{
    let objects = part_or(alloc, value, "objects", Listed::new(alloc))?;
    let regions = part_or(alloc, value, "regions", Listed::new(alloc))?;
    let rings = part_or(alloc, value, "rings", Listed::new(alloc))?;
    let requests = part_or(alloc, value, "requests", Listed::new(alloc))?;
    let guest = part_or(alloc, value, "guest", Listed::new(alloc))?;
    let device = device_from(alloc, value)?;
    let service = part_or(alloc, value, "service", ServiceForm::Echo)?;
    let listed = part_or(alloc, value, "schedule", Listed::new(alloc))?;
    let rounds = part_or(alloc, value, "rounds", 0)?;
    Ok(Draft {
        objects,
        regions,
        rings,
        requests,
        guest,
        device,
        service,
        listed,
        rounds,
    })
}

/// What a tree says, where it is in the grammar.
///
/// # Errors
/// [`Refusal::NoScript`] exactly where the tree is not in the grammar, and want of memory.
#[tactic(auto, unfolding(crate::specs::Draft::draft_of_tree))]
pub fn draft_from(alloc: Global, value: &Value) -> Result<Draft, Refusal>
    ensures draft { Gives result (draft_of_tree (view value.now)) }
    ensures service { IfOk result (λ draft. is_served draft.service ≡ true) }
{
    if is_in_form(value) {
        fields_from(alloc, value)
    } else {
        Err(Refusal::NoScript(script_fault(alloc, value)?))
    }
}
