ghost use Rattle.vub_script.specs.Bitmaps.{bitmap_of};

use crate::device_form::BitmapForm;
use serde_json::Value;
use std::alloc::Global;
use vub_forms::{Fault, FromTree, Refusal, Rule, is_the_text};

impl FromTree for BitmapForm {
    ghost reads = { bitmap_of };

    fn from_tree(alloc: Global, value: &Value) -> Result<BitmapForm, Refusal> {
        if is_the_text(value, "none") {
            Ok(BitmapForm::None)
        } else if is_the_text(value, "pages") {
            Ok(BitmapForm::Pages)
        } else {
            Err(Refusal::NoScript(Fault::of(alloc, Rule::Bitmap)))
        }
    }
}
