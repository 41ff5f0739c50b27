ghost use Rattle.std.specs.Prelude.{map};
ghost use Rattle.serde_json.specs.View.{view};
ghost use Rattle.vub_forms.specs.Reading.{Gives};
ghost use Rattle.vub_forms.specs.Rings.{info_form, info_of, ring_fields, ring_of};

use crate::fault::Fault;
use crate::keys::{is_in_ring_form, ring_fault};
use crate::refusal::Refusal;
use crate::rule::Rule;
use crate::tree::{FromTree, element_at, part_given};
use serde_json::Value;
use std::alloc::Global;
use vub_model::{GivenRing, Info};

fn info_at(alloc: Global, list: &[Value]) -> Result<Info, Refusal>
    ensures { Gives result (info_form (map view list.now)) }
{
    match list {
        [desc, avail, used] => {
            let desc = element_at(alloc, desc, 0)?;
            let avail = element_at(alloc, avail, 1)?;
            let used = element_at(alloc, used, 2)?;
            Ok(Info { desc, avail, used })
        }
        _ => Err(Refusal::NoScript(Fault::of(alloc, Rule::Info))),
    }
}

impl FromTree for Info {
    ghost reads = { info_of };

    #[tactic(auto, using(crate::proofs::Trees::items_listed), unfolding(crate::specs::Rings::info_of))]
    fn from_tree(alloc: Global, value: &Value) -> Result<Info, Refusal> {
        match value {
            Value::Array(list) => info_at(alloc, list),
            _ => Err(Refusal::NoScript(Fault::of(alloc, Rule::Info))),
        }
    }
}

#[tactic(auto, unfolding(crate::specs::Rings::ring_fields))]
fn ring_fields_from(alloc: Global, value: &Value) -> Result<GivenRing, Refusal>
    ensures { Gives result (ring_fields (view value.now)) }
{
    let queue = part_given(alloc, value, "queue")?;
    let size = part_given(alloc, value, "size")?;
    let info = part_given(alloc, value, "info")?;
    let base = part_given(alloc, value, "base")?;
    let next_used = part_given(alloc, value, "next_used")?;
    let kick = part_given(alloc, value, "kick")?;
    let call = part_given(alloc, value, "call")?;
    let ready = part_given(alloc, value, "ready")?;
    let enabled = part_given(alloc, value, "enabled")?;
    Ok(GivenRing {
        queue,
        size,
        info,
        base,
        next_used,
        kick,
        call,
        ready,
        enabled,
    })
}

impl FromTree for GivenRing {
    ghost reads = { ring_of };

    #[tactic(auto, unfolding(crate::specs::Rings::ring_of))]
    fn from_tree(alloc: Global, value: &Value) -> Result<GivenRing, Refusal> {
        if is_in_ring_form(value) {
            ring_fields_from(alloc, value)
        } else {
            Err(Refusal::NoScript(ring_fault(alloc, value)?))
        }
    }
}
