ghost use Rattle.std.specs.Prelude.{◌≡◌, true, IfOk};
ghost use Rattle.vub_script.specs.Directory.{is_served};
ghost use Rattle.vub_forms.specs.Reading.{Gives};
ghost use Rattle.vub_script.specs.Script.{read_draft};

use crate::draft::Draft;
use crate::whole::draft_from;
use serde_json::Value;
use std::alloc::Global;
use vub_forms::{Fault, Refusal, Rule};

/// What a text says, where it is a script: JSON in UTF-8 (RFC 8259, as the crate serde_json reads it) whose tree is
/// in the grammar.
///
/// # Errors
/// [`Refusal::NoScript`] exactly where the text is no script, and want of memory.
pub fn draft_of_bytes(alloc: Global, bytes: &[u8]) -> Result<Draft, Refusal>
    ensures draft { Gives result (read_draft bytes.now) }
    ensures service { IfOk result (λ draft. is_served draft.service ≡ true) }
{
    match Value::from_slice(alloc, bytes) {
        Ok(value) => draft_from(alloc, &value),
        Err(error) => {
            if error.is_memory() {
                Err(Refusal::OutOfMemory)
            } else {
                let rule = Rule::Json {
                    line: error.line(),
                    column: error.column(),
                };
                Err(Refusal::NoScript(Fault::of(alloc, rule)))
            }
        }
    }
}
