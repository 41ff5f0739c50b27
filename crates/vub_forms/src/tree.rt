ghost use Rattle.serde_json.specs.Find.{get};
ghost use Rattle.serde_json.specs.View.{view};
ghost use Rattle.vub_forms.specs.Reading.{Gives, or_default, given};

use crate::fault::Fault;
use crate::refusal::Refusal;
use crate::rule::Rule;
use serde_json::Value;
use std::alloc::Global;

/// A part of a script that a JSON tree may be.
pub trait FromTree: Drop {
    ghost use Rattle.std.specs.declared.option.Option.{Option};
    ghost use Rattle.serde_json.specs.Data.{Data};
    ghost use Rattle.serde_json.specs.View.{view};
    ghost use Rattle.vub_forms.specs.Reading.{Gives};

    ghost reads: { Data → Option Self };

    /// The part that this tree is.
    fn from_tree(alloc: Global, value: &Value) -> Result<Self, Refusal>
        ensures { Gives result (reads (view value.now)) };
}

/// The part that the element of a list with this number is.
#[tactic(auto, using(crate::proofs::Refusals::gives_below))]
pub fn element_at<T: FromTree>(alloc: Global, value: &Value, number: usize) -> Result<T, Refusal>
    ensures { Gives result (T.reads (view value.now)) }
{
    match T::from_tree(alloc, value) {
        Ok(part) => Ok(part),
        Err(refusal) => Err(refusal.in_element(number)),
    }
}

/// The part that stands at a key.
#[tactic(auto, using(crate::proofs::Refusals::gives_below))]
pub fn member_at<T: FromTree>(alloc: Global, value: &Value, key: &str) -> Result<T, Refusal>
    ensures { Gives result (T.reads (view value.now)) }
{
    match T::from_tree(alloc, value) {
        Ok(part) => Ok(part),
        Err(refusal) => Err(refusal.at_key(alloc, key)),
    }
}

/// The part that stands at a key of this tree, or the default where the key is missing.
pub fn part_or<T: FromTree>(
    alloc: Global,
    tree: &Value,
    key: &str,
    default: T,
) -> Result<T, Refusal>
    ensures { Gives result (or_default default T.reads (get key.now (view tree.now))) }
{
    match tree.get(key) {
        None => Ok(default),
        Some(value) => member_at(alloc, value, key),
    }
}

/// The part that stands at a key of this tree, which has to be given.
#[tactic(auto, using(crate::proofs::Refusals::gives_below))]
pub fn part_given<T: FromTree>(alloc: Global, tree: &Value, key: &str) -> Result<T, Refusal>
    ensures { Gives result (given T.reads (get key.now (view tree.now))) }
{
    match tree.get(key) {
        None => Err(Refusal::NoScript(Fault::of(alloc, Rule::Given)).at_key(alloc, key)),
        Some(value) => member_at(alloc, value, key),
    }
}
