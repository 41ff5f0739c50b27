ghost use Rattle.std.specs.Prelude.{◌≡◌, IfOk};
ghost use Rattle.vub_text.specs.Text.{run_text};

use crate::answers::push_answer_lines;
use crate::lines::push_lines;
use crate::turns::push_turns_line;
use std::alloc::Global;
use vub_base::{Bytes, OutOfMemory};
use vub_model::Run;

/// The text of a run, each line ended by a newline byte.
///
/// # Errors
/// Want of memory.
#[tactic(auto, using(std::proofs::Common::append_assoc), unfolding(crate::specs::Text::run_text))]
pub fn print_run(alloc: Global, run: &Run) -> Result<Bytes, OutOfMemory>
    ensures { IfOk result (λ text. text ≡ run_text run.now) }
{
    let mut text = String::new(alloc);
    push_turns_line(&mut text, run.labels.as_slice(), run.rest)?;
    push_answer_lines(alloc, &mut text, run.answers.as_slice())?;
    push_lines(alloc, &mut text, run.device.as_slice())?;
    push_lines(alloc, &mut text, run.takes.as_slice())?;
    push_lines(alloc, &mut text, run.uses.as_slice())?;
    push_lines(alloc, &mut text, run.stops.as_slice())?;
    push_lines(alloc, &mut text, run.counts.as_slice())?;
    push_lines(alloc, &mut text, run.written.as_slice())?;
    push_lines(alloc, &mut text, run.logs.as_slice())?;
    push_lines(alloc, &mut text, run.harvests.as_slice())?;
    Ok(Bytes::from_vec(text.into_bytes()))
}
