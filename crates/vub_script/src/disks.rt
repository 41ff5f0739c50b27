//! A disk that a script asks for.

ghost use Rattle.std.specs.Prelude.{◌≡◌, string_bytes};
ghost use Rattle.std.specs.List.{list_all};
ghost use Rattle.std.specs.BTreeMap.{keys};
ghost use Rattle.serde_json.specs.View.{view};
ghost use Rattle.vub_forms.specs.Reading.{Gives};
ghost use Rattle.vub_forms.specs.Keys.{object_keys_are};
ghost use Rattle.vub_script.specs.Disks.{is_disk_key, disk_of};

use crate::service_form::ServiceForm;
use serde_json::{Map, Value};
use std::alloc::Global;
use vub_base::Bytes;
use vub_block::disk_fault;
use vub_forms::{Fault, Refusal, Rule, part_given};

fn has_only_disk_keys(map: &Map<String, Value>) -> bool
    ensures { result ≡ list_all (λ k. is_disk_key (string_bytes k)) (keys map.now) }
{
    map.keys()
        .all(|key| key.as_str() == "block" || key.as_str() == "id")
}

/// Whether the tree is an object with a disk's keys and no others.
pub fn is_in_disk_form(value: &Value) -> bool
    ensures { result ≡ object_keys_are is_disk_key (view value.now) }
{
    match value {
        Value::Object(map) => has_only_disk_keys(map),
        _ => false,
    }
}

/// The disk of a tree with a disk's keys: its sectors at `block`, the bytes of its id at `id`.
#[tactic(auto, unfolding(crate::specs::Disks::disk_of))]
pub fn disk_from(alloc: Global, value: &Value) -> Result<ServiceForm, Refusal>
    ensures { Gives result (disk_of (view value.now)) }
{
    let sectors: u32 = part_given(alloc, value, "block")?;
    let id: Bytes = part_given(alloc, value, "id")?;
    match disk_fault(sectors, id.len()) {
        None => Ok(ServiceForm::Block { sectors, id }),
        Some(fault) => Err(Refusal::NoScript(Fault::of(alloc, Rule::Disk(fault)))),
    }
}
