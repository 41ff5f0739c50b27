ghost use Rattle.std.specs.Prelude.{◌≡◌, ◌++◌, OnOk, string_bytes};
ghost use Rattle.vub_text.specs.Lines.{log_line, harvest_line};

use crate::hexadecimal::push_hex;
use crate::lines::Line;
use crate::pieces::push_number;
use std::alloc::Global;
use vub_base::OutOfMemory;
use vub_model::{Harvested, LogBytes};

impl Line for LogBytes {
    ghost line = { log_line };

    #[tactic(auto, using(std::proofs::Common::append_assoc), unfolding(crate::specs::Lines::log_line))]
    fn push_line(&self, _alloc: Global, text: &mut String) -> Result<(), OutOfMemory> {
        push_number(text, "log ", self.object)?;
        text.push_str(" ")?;
        push_hex(text, self.bytes.as_slice())?;
        text.push_str("\n")?;
        Ok(())
    }
}

impl Line for Harvested {
    ghost line = { harvest_line };

    #[tactic(auto, using(std::proofs::Common::append_assoc), unfolding(crate::specs::Lines::harvest_line))]
    fn push_line(&self, _alloc: Global, text: &mut String) -> Result<(), OutOfMemory> {
        push_number(text, "harvest ", self.object)?;
        push_number(text, " ", self.word)?;
        text.push_str(" ")?;
        push_hex(text, &self.bits.to_le_bytes())?;
        text.push_str("\n")?;
        Ok(())
    }
}
