ghost use Rattle.std.specs.Prelude.{◌≡◌, option_map};
ghost use Rattle.serde_json.specs.View.{view, members_view};
ghost use Rattle.vub_forms.specs.Reading.{Gives};
ghost use Rattle.vub_script.specs.Objects.{lone_member, object_form, object_of};

use crate::draft::ObjectDraft;
use serde_json::{Map, Value};
use std::alloc::Global;
use vub_forms::{Fault, FromTree, Refusal, Rule, member_at};

/// The only member, where there is one and no other.
pub fn lone_member_of(map: &Map<String, Value>) -> Option<(&str, &Value)>
    ensures { option_map (λ p. (p.0.now, view p.1.now)) result
        ≡ lone_member (members_view map.now.entries) }
{
    if map.len() != 1 {
        return None;
    }
    match map.first_key_value() {
        Some((key, value)) => Some((key.as_str(), value)),
        None => None,
    }
}

fn object_at(alloc: Global, key: &str, value: &Value) -> Result<ObjectDraft, Refusal>
    ensures { Gives result (object_form key.now (view value.now)) }
{
    if key == "event" {
        let flags = member_at(alloc, value, "event")?;
        Ok(ObjectDraft::Event { flags })
    } else if key == "bytes" {
        let length = member_at(alloc, value, "bytes")?;
        Ok(ObjectDraft::Zeros { length })
    } else if key == "hex" {
        let bytes = member_at(alloc, value, "hex")?;
        Ok(ObjectDraft::Content(bytes))
    } else if key == "log" {
        let len = member_at(alloc, value, "log")?;
        Ok(ObjectDraft::Log { len })
    } else {
        Err(Refusal::NoScript(Fault::of(alloc, Rule::Object)))
    }
}

impl FromTree for ObjectDraft {
    ghost reads = { object_of };

    #[tactic(auto, unfolding(crate::specs::Objects::object_of))]
    fn from_tree(alloc: Global, value: &Value) -> Result<ObjectDraft, Refusal> {
        let Value::Object(map) = value else {
            return Err(Refusal::NoScript(Fault::of(alloc, Rule::Object)));
        };
        match lone_member_of(map) {
            Some((key, inner)) => object_at(alloc, key, inner),
            None => Err(Refusal::NoScript(Fault::of(alloc, Rule::Object))),
        }
    }
}
