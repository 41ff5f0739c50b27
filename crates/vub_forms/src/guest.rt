ghost use Rattle.std.specs.Prelude.{map};
ghost use Rattle.serde_json.specs.View.{view};
ghost use Rattle.vub_forms.specs.Reading.{Gives};
ghost use Rattle.vub_forms.specs.Guest.{store_of, signal_of, harvest_of, action_called, guest_form, guest_of};

use crate::arguments::{one_argument, three_arguments, two_arguments};
use crate::fault::Fault;
use crate::leaves::is_the_text;
use crate::refusal::Refusal;
use crate::rule::Rule;
use crate::tree::FromTree;
use serde_json::Value;
use std::alloc::Global;
use vub_base::Bytes;
use vub_model::Guest;

fn store_from(alloc: Global, list: &[Value]) -> Result<Guest, Refusal>
    ensures { Gives result (store_of (map view list.now)) }
{
    let (object, offset, bytes) = three_arguments::<u32, u64, Bytes>(alloc, list)?;
    Ok(Guest::Store {
        object,
        offset,
        bytes,
    })
}

fn signal_from(alloc: Global, list: &[Value]) -> Result<Guest, Refusal>
    ensures { Gives result (signal_of (map view list.now)) }
{
    let object: u32 = one_argument(alloc, list)?;
    Ok(Guest::Signal { object })
}

fn harvest_from(alloc: Global, list: &[Value]) -> Result<Guest, Refusal>
    ensures { Gives result (harvest_of (map view list.now)) }
{
    let (object, word) = two_arguments::<u32, u64>(alloc, list)?;
    Ok(Guest::Harvest { object, word })
}

/// The action with this name and these arguments.
fn action_called(alloc: Global, word: &Value, list: &[Value]) -> Result<Guest, Refusal>
    ensures { Gives result (action_called (view word.now) (map view list.now)) }
{
    if is_the_text(word, "store") {
        store_from(alloc, list)
    } else if is_the_text(word, "signal") {
        signal_from(alloc, list)
    } else if is_the_text(word, "harvest") {
        harvest_from(alloc, list)
    } else {
        Err(Refusal::NoScript(Fault::of(alloc, Rule::Action)))
    }
}

fn action_at(alloc: Global, list: &[Value]) -> Result<Guest, Refusal>
    ensures { Gives result (guest_form (map view list.now)) }
{
    match list {
        [word, arguments @ ..] => action_called(alloc, word, arguments),
        _ => Err(Refusal::NoScript(Fault::of(alloc, Rule::Action))),
    }
}

impl FromTree for Guest {
    ghost reads = { guest_of };

    #[tactic(auto, using(crate::proofs::Trees::items_listed), unfolding(crate::specs::Guest::guest_of))]
    fn from_tree(alloc: Global, value: &Value) -> Result<Guest, Refusal> {
        match value {
            Value::Array(list) => action_at(alloc, list),
            _ => Err(Refusal::NoScript(Fault::of(alloc, Rule::Action))),
        }
    }
}
