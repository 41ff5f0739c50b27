ghost use Rattle.std.specs.Prelude.{◌≡◌, ◌++◌, OnOk, string_bytes};
ghost use Rattle.vub_text.specs.Lines.{take_place, take_content, take_line, use_place, use_content, use_line};

use crate::hexadecimal::push_hex;
use crate::lines::Line;
use crate::pieces::push_number;
use std::alloc::Global;
use vub_base::OutOfMemory;
use vub_model::Take;
use vub_proto::Used;

#[tactic(auto, using(std::proofs::Common::append_assoc))]
fn push_take_place(text: &mut String, take: &Take) -> Result<(), OutOfMemory>
    ensures { OnOk result (string_bytes text.new ≡ string_bytes text.old ++ take_place take.now) }
{
    let Take {
        queue,
        epoch,
        number,
        head,
        ..
    } = take;
    push_number(text, "take ", *queue)?;
    push_number(text, " ", *epoch)?;
    push_number(text, " ", *number)?;
    push_number(text, " head ", *head)
}

#[tactic(auto, using(std::proofs::Common::append_assoc))]
fn push_take_content(text: &mut String, take: &Take) -> Result<(), OutOfMemory>
    ensures { OnOk result (string_bytes text.new ≡ string_bytes text.old ++ take_content take.now) }
{
    text.push_str(" request ")?;
    push_hex(text, take.request.as_slice())?;
    push_number(text, " room ", take.room)?;
    text.push_str("\n")?;
    Ok(())
}

impl Line for Take {
    ghost line = { take_line };

    #[tactic(auto, using(std::proofs::Common::append_assoc), unfolding(crate::specs::Lines::take_line))]
    fn push_line(&self, _alloc: Global, text: &mut String) -> Result<(), OutOfMemory> {
        push_take_place(text, self)?;
        push_take_content(text, self)
    }
}

#[tactic(auto, using(std::proofs::Common::append_assoc))]
fn push_use_place(text: &mut String, used: &Used) -> Result<(), OutOfMemory>
    ensures { OnOk result (string_bytes text.new ≡ string_bytes text.old ++ use_place used.now) }
{
    let Used {
        queue,
        epoch,
        number,
        head,
        ..
    } = used;
    push_number(text, "use ", *queue)?;
    push_number(text, " ", *epoch)?;
    push_number(text, " ", *number)?;
    push_number(text, " head ", *head)
}

#[tactic(auto, using(std::proofs::Common::append_assoc))]
fn push_use_content(text: &mut String, used: &Used) -> Result<(), OutOfMemory>
    ensures { OnOk result (string_bytes text.new ≡ string_bytes text.old ++ use_content used.now) }
{
    push_number(text, " length ", used.reply.len())?;
    text.push_str(" reply ")?;
    push_hex(text, used.reply.as_slice())?;
    text.push_str("\n")?;
    Ok(())
}

impl Line for Used {
    ghost line = { use_line };

    #[tactic(auto, using(std::proofs::Common::append_assoc), unfolding(crate::specs::Lines::use_line))]
    fn push_line(&self, _alloc: Global, text: &mut String) -> Result<(), OutOfMemory> {
        push_use_place(text, self)?;
        push_use_content(text, self)
    }
}
