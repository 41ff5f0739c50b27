ghost use Rattle.std.specs.Prelude.{map};
ghost use Rattle.serde_json.specs.View.{view};
ghost use Rattle.vub_forms.specs.Reading.{Gives};
ghost use Rattle.vub_forms.specs.Regions.{region_form, region_of};

use crate::fault::Fault;
use crate::refusal::Refusal;
use crate::rule::Rule;
use crate::tree::{FromTree, element_at};
use serde_json::Value;
use std::alloc::Global;
use vub_model::GivenRegion;

fn region_at(alloc: Global, list: &[Value]) -> Result<GivenRegion, Refusal>
    ensures { Gives result (region_form (map view list.now)) }
{
    match list {
        [start, len, user, offset, object] => {
            let start = element_at(alloc, start, 0)?;
            let len = element_at(alloc, len, 1)?;
            let user = element_at(alloc, user, 2)?;
            let offset = element_at(alloc, offset, 3)?;
            let object = element_at(alloc, object, 4)?;
            Ok(GivenRegion {
                start,
                len,
                user,
                offset,
                object,
            })
        }
        _ => Err(Refusal::NoScript(Fault::of(alloc, Rule::Region))),
    }
}

impl FromTree for GivenRegion {
    ghost reads = { region_of };

    #[tactic(auto, using(crate::proofs::Trees::items_listed), unfolding(crate::specs::Regions::region_of))]
    fn from_tree(alloc: Global, value: &Value) -> Result<GivenRegion, Refusal> {
        match value {
            Value::Array(list) => region_at(alloc, list),
            _ => Err(Refusal::NoScript(Fault::of(alloc, Rule::Region))),
        }
    }
}
