ghost use Rattle.std.specs.Prelude.{◌≡◌, true, IfOk, IfSome, option_map};
ghost use Rattle.serde_json.specs.View.{view};
ghost use Rattle.vub_script.specs.Draft.{draft_of_tree};
ghost use Rattle.vub_script.specs.Script.{is_within, script_from};

use crate::device_form::DeviceForm;
use crate::limits::is_within_limits;
use crate::service_form::ServiceForm;
use crate::whole::draft_from;
use crate::write_out::script_of_draft;
use serde_json::Value;
use std::alloc::Global;
use vub_base::{Listed, OutOfMemory};
use vub_forms::Refusal;
use vub_model::Setup;

/// What a script says, written out.
#[derive(Debug, Drop)]
pub struct Script {
    /// What the run begins with.
    pub setup: Setup,
    pub device: DeviceForm,
    pub service: ServiceForm,
    /// The party of each turn.
    pub schedule: Listed<u32>,
}

/// The script that a tree is; `None` where the tree is not in the grammar.
///
/// # Errors
/// Want of memory, and so for each script that is past a limit: it is not written out.
pub fn script_of(alloc: Global, value: &Value) -> Result<Option<Script>, OutOfMemory>
    ensures script { IfOk result
        (λ script. script ≡ option_map script_from (draft_of_tree (view value.now))) }
    ensures limits { IfOk result
        (λ _. IfSome (draft_of_tree (view value.now)) (λ draft. is_within draft ≡ true)) }
{
    match draft_from(alloc, value) {
        Ok(draft) => {
            if !is_within_limits(&draft) {
                return Err(OutOfMemory);
            }
            let script = script_of_draft(alloc, draft)?;
            Ok(Some(script))
        }
        Err(Refusal::NoScript(_)) => Ok(None),
        Err(Refusal::OutOfMemory) => Err(OutOfMemory),
    }
}
