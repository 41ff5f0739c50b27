ghost use Rattle.std.specs.Prelude.{map};
ghost use Rattle.serde_json.specs.View.{view};
ghost use Rattle.vub_forms.specs.Reading.{Gives};
ghost use Rattle.vub_forms.specs.Lists.{each, list_of};

use crate::fault::Fault;
use crate::refusal::Refusal;
use crate::rule::Rule;
use crate::tree::{FromTree, element_at};
use serde_json::Value;
use std::alloc::Global;
use vub_base::Listed;

/// Each of them, in order.
fn each_of<T: FromTree>(alloc: Global, list: &[Value]) -> Result<Listed<T>, Refusal>
    ensures { Gives result (each T.reads (map view list.now)) }
{
    let mut found: Vec<T> = Vec::with_capacity(alloc, list.len())?;
    for (number, value) in list.iter().enumerate() {
        let part = element_at(alloc, value, number)?;
        found.push(part)?;
    }
    Ok(Listed::from_vec(found))
}

impl<T: FromTree> FromTree for Listed<T> {
    ghost reads = { list_of T.reads };

    fn from_tree(alloc: Global, value: &Value) -> Result<Listed<T>, Refusal> {
        match value {
            Value::Array(list) => each_of(alloc, list),
            _ => Err(Refusal::NoScript(Fault::of(alloc, Rule::List))),
        }
    }
}
