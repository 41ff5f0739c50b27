ghost use Rattle.std.specs.Prelude.{◌≡◌, ◌≤◌, ◌<◌, ◌*◌, ◌^◌, ◌++◌, length, sum_by, IfOk, OnOk, string_bytes};
ghost use Rattle.vub_text.specs.Text.{reply_total, summary_counts, summary_end, summary_text};

use crate::pieces::push_number;
use crate::turns::word_of;
use std::alloc::Global;
use vub_base::{Bytes, OutOfMemory};
use vub_model::Run;
use vub_proto::Used;

/// How many bytes the replies of these uses have together.
fn reply_total(uses: &[Used]) -> u128
    ensures { result ≡ sum_by (λ u. length u.reply) uses.now }
{
    let mut total: u128 = 0;
    for used in uses {
        total += used.reply.len() as u128;
    }
    total
}

#[tactic(auto, using(std::proofs::Common::append_assoc))]
fn push_counts(text: &mut String, count: u32, run: &Run) -> Result<(), OutOfMemory>
    ensures { OnOk result (string_bytes text.new ≡ string_bytes text.old ++ summary_counts count run.now) }
{
    push_number(text, "make ", count)?;
    push_number(text, " turns ", run.labels.len())?;
    push_number(text, " takes ", run.takes.len())
}

#[tactic(auto, using(std::proofs::Common::append_assoc))]
fn push_end(text: &mut String, run: &Run) -> Result<(), OutOfMemory>
    ensures { OnOk result (string_bytes text.new ≡ string_bytes text.old ++ summary_end run.now) }
{
    push_number(text, " uses ", run.uses.len())?;
    push_number(text, " bytes ", reply_total(run.uses.as_slice()))?;
    text.push_str(" rest ")?;
    text.push_str(word_of(run.rest))?;
    text.push_str("\n")?;
    Ok(())
}

/// The summary of the run of a generated script with so many entries, ended by a newline byte.
///
/// # Errors
/// Want of memory.
#[tactic(auto, using(std::proofs::Common::append_assoc), unfolding(crate::specs::Text::summary_text))]
pub fn print_summary(alloc: Global, count: u32, run: &Run) -> Result<Bytes, OutOfMemory>
    ensures { IfOk result (λ text. text ≡ summary_text count run.now) }
{
    let mut text = String::new(alloc);
    push_counts(&mut text, count, run)?;
    push_end(&mut text, run)?;
    Ok(Bytes::from_vec(text.into_bytes()))
}
