//! The service that a script asks for.

ghost use Rattle.serde_json.specs.View.{view};
ghost use Rattle.vub_forms.specs.Reading.{Gives};
ghost use Rattle.vub_script.specs.Directory.{directory_of, service_form, service_of};

use crate::disks::{disk_from, is_in_disk_form};
use crate::entries::entries_from;
use crate::objects::lone_member_of;
use crate::service_form::ServiceForm;
use serde_json::Value;
use std::alloc::Global;
use vub_dir::{Tree, TreeError};
use vub_forms::{Fault, FromTree, Refusal, Rule, is_the_text};

/// The directory service of these entries, if they make a tree.
#[tactic(auto, unfolding(crate::specs::Directory::directory_of))]
fn directory_from(alloc: Global, value: &Value) -> Result<ServiceForm, Refusal>
    ensures { Gives result (directory_of (view value.now)) }
{
    let entries = entries_from(alloc, value)?;
    match Tree::new(alloc, entries.as_slice()) {
        Ok(_) => Ok(ServiceForm::Dir(entries)),
        Err(TreeError::OutOfMemory) => Err(Refusal::OutOfMemory),
        Err(error) => Err(Refusal::NoScript(Fault::of(alloc, Rule::Tree(error)))),
    }
}

fn service_at(alloc: Global, key: &str, value: &Value) -> Result<ServiceForm, Refusal>
    ensures { Gives result (service_form key.now (view value.now)) }
{
    if key == "dir" {
        match directory_from(alloc, value) {
            Ok(service) => Ok(service),
            Err(refusal) => Err(refusal.at_key(alloc, "dir")),
        }
    } else {
        Err(Refusal::NoScript(Fault::of(alloc, Rule::Service)))
    }
}

impl FromTree for ServiceForm {
    ghost reads = { service_of };

    #[tactic(auto, unfolding(crate::specs::Directory::service_of))]
    fn from_tree(alloc: Global, value: &Value) -> Result<ServiceForm, Refusal> {
        if is_the_text(value, "echo") {
            return Ok(ServiceForm::Echo);
        }
        if is_in_disk_form(value) {
            return disk_from(alloc, value);
        }
        let Value::Object(map) = value else {
            return Err(Refusal::NoScript(Fault::of(alloc, Rule::Service)));
        };
        match lone_member_of(map) {
            Some((key, inner)) => service_at(alloc, key, inner),
            None => Err(Refusal::NoScript(Fault::of(alloc, Rule::Service))),
        }
    }
}
