ghost use Rattle.vub_text.specs.Lines.{count_line, write_line};

use crate::hexadecimal::push_hex;
use crate::lines::Line;
use crate::pieces::push_number;
use std::alloc::Global;
use vub_base::OutOfMemory;
use vub_model::{Count, Span};

impl Line for Count {
    ghost line = { count_line };

    #[tactic(auto, using(std::proofs::Common::append_assoc), unfolding(crate::specs::Lines::count_line))]
    fn push_line(&self, _alloc: Global, text: &mut String) -> Result<(), OutOfMemory> {
        push_number(text, "count ", self.object)?;
        push_number(text, " ", self.count)?;
        text.push_str("\n")?;
        Ok(())
    }
}

impl Line for Span {
    ghost line = { write_line };

    #[tactic(auto, using(std::proofs::Common::append_assoc), unfolding(crate::specs::Lines::write_line))]
    fn push_line(&self, _alloc: Global, text: &mut String) -> Result<(), OutOfMemory> {
        push_number(text, "write ", self.object)?;
        push_number(text, " ", self.offset)?;
        text.push_str(" ")?;
        push_hex(text, self.bytes.as_slice())?;
        text.push_str("\n")?;
        Ok(())
    }
}
