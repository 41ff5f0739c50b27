ghost use Rattle.std.specs.Prelude.{◌≡◌};
ghost use Rattle.serde_json.specs.View.{view};
ghost use Rattle.vub_forms.specs.Leaves.{bool_of, or_null, is_text};

use crate::fault::Fault;
use crate::refusal::Refusal;
use crate::rule::Rule;
use crate::tree::FromTree;
use serde_json::Value;
use std::alloc::Global;

impl FromTree for bool {
    ghost reads = { bool_of };

    fn from_tree(alloc: Global, value: &Value) -> Result<bool, Refusal> {
        match value.as_bool() {
            Some(truth) => Ok(truth),
            None => Err(Refusal::NoScript(Fault::of(alloc, Rule::Truth))),
        }
    }
}

/// The part, or null for none.
impl<T: FromTree> FromTree for Option<T> {
    ghost reads = { or_null T.reads };

    fn from_tree(alloc: Global, value: &Value) -> Result<Option<T>, Refusal> {
        match value {
            Value::Null => Ok(None),
            _ => {
                let part = T::from_tree(alloc, value)?;
                Ok(Some(part))
            }
        }
    }
}

/// Whether the tree is this text.
pub fn is_the_text(value: &Value, text: &str) -> bool
    ensures { result ≡ is_text (view value.now) text.now }
{
    match value {
        Value::String(found) => found.as_str() == text,
        _ => false,
    }
}
