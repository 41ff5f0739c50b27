ghost use Rattle.std.specs.Prelude.{map};
ghost use Rattle.serde_json.specs.View.{view};
ghost use Rattle.vub_forms.specs.Reading.{Gives};
ghost use Rattle.vub_forms.specs.Parts.{part_form, part_of};

use crate::fault::Fault;
use crate::refusal::Refusal;
use crate::rule::Rule;
use crate::tree::{FromTree, element_at};
use serde_json::Value;
use std::alloc::Global;
use vub_proto::Part;

fn part_at(alloc: Global, list: &[Value]) -> Result<Part, Refusal>
    ensures { Gives result (part_form (map view list.now)) }
{
    match list {
        [start, len, user, offset] => {
            let start = element_at(alloc, start, 0)?;
            let len = element_at(alloc, len, 1)?;
            let user = element_at(alloc, user, 2)?;
            let offset = element_at(alloc, offset, 3)?;
            Ok(Part {
                start,
                len,
                user,
                offset,
            })
        }
        _ => Err(Refusal::NoScript(Fault::of(alloc, Rule::Part))),
    }
}

impl FromTree for Part {
    ghost reads = { part_of };

    #[tactic(auto, using(crate::proofs::Trees::items_listed), unfolding(crate::specs::Parts::part_of))]
    fn from_tree(alloc: Global, value: &Value) -> Result<Part, Refusal> {
        match value {
            Value::Array(list) => part_at(alloc, list),
            _ => Err(Refusal::NoScript(Fault::of(alloc, Rule::Part))),
        }
    }
}
