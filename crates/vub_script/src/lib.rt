//! The script: a JSON text that says what a run begins with and whose turns it plays. Here stands its grammar, as a
//! function from texts to drafts, the limits on a draft, and the script that a draft is written out to.
#![tactic(auto)]

mod bitmaps;
mod device_form;
mod disks;
mod draft;
mod entries;
mod limits;
mod objects;
mod read;
mod script;
mod service_form;
mod services;
mod whole;
mod write_out;

pub use device_form::{BitmapForm, DeviceForm};
pub use draft::{Draft, ObjectDraft};
pub use limits::{Limit, is_within_limits, limit_passed};
pub use read::draft_of_bytes;
pub use script::{Script, script_of};
pub use service_form::ServiceForm;
pub use vub_forms::{Fault, Refusal, Rule};
pub use whole::draft_from;
pub use write_out::script_of_draft;
