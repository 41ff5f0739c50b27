ghost use Rattle.std.specs.Prelude.{◌≡◌, ◌++◌, OnOk, string_bytes};
ghost use Rattle.vub_text.specs.Answers.{memory_number, log_number, request_cause_text, refusal_name, detail_text, refusal_text, listener_name, object_text, answer_text};
ghost use Rattle.vub_text.specs.Lines.{answer_line, answer_lines};

use crate::hexadecimal::push_hex;
use crate::pieces::push_number;
use std::alloc::Global;
use vub_base::OutOfMemory;
use vub_mem::{LogError, MemError};
use vub_proto::{Answer, Cause, ListenerError, VhostUserError};

fn number_of_memory(refusal: MemError) -> u32
    ensures { result ≡ memory_number refusal }
{
    match refusal {
        MemError::Empty => 1,
        MemError::Order => 2,
        MemError::Overlap => 3,
        MemError::Wraps => 4,
        MemError::PastObject => 5,
        MemError::NoSuchRegion => 6,
        MemError::Outside => 7,
        MemError::MissingMemoryMapping => 8,
        MemError::OutOfMemory => 9,
    }
}

fn number_of_log(refusal: LogError) -> u32
    ensures { result ≡ log_number refusal }
{
    match refusal {
        LogError::EmptyLog => 1,
        LogError::PastObject => 2,
        LogError::NotPageAligned => 3,
        LogError::TooSmall => 4,
        LogError::Unsupported => 5,
        LogError::GenerationsSpent => 6,
        LogError::OutOfMemory => 7,
    }
}

#[tactic(auto, unfolding(crate::specs::Answers::request_cause_text))]
fn push_request_cause(text: &mut String, cause: Cause) -> Result<(), OutOfMemory>
    ensures { OnOk result (string_bytes text.new ≡ string_bytes text.old ++ request_cause_text cause) }
{
    match cause {
        Cause::Device(number) => push_number(text, " device ", number)?,
        Cause::Memory(refusal) => push_number(text, " memory ", number_of_memory(refusal))?,
        Cause::Log(refusal) => push_number(text, " log ", number_of_log(refusal))?,
        Cause::Host => {}
    }
    Ok(())
}

fn name_of_refusal(refusal: VhostUserError) -> &'static str
    ensures { result.now ≡ refusal_name refusal }
{
    match refusal {
        VhostUserError::InvalidParam => "InvalidParam",
        VhostUserError::InvalidOperation(_) => "InvalidOperation",
        VhostUserError::InactiveFeature => "InactiveFeature",
        VhostUserError::ReqHandlerError(_) => "ReqHandlerError",
        VhostUserError::BackendInternalError => "BackendInternalError",
        VhostUserError::Disconnected => "Disconnected",
        VhostUserError::PartialMessage => "PartialMessage",
        VhostUserError::SocketBroken => "SocketBroken",
        VhostUserError::InvalidMessage => "InvalidMessage",
        VhostUserError::OutOfMemory => "OutOfMemory",
    }
}

/// What a refusal says beside its name.
fn push_detail(text: &mut String, refusal: VhostUserError) -> Result<(), OutOfMemory>
    ensures { OnOk result (string_bytes text.new ≡ string_bytes text.old ++ detail_text refusal) }
{
    match refusal {
        VhostUserError::InvalidOperation(denied) => write!(text, " {denied}")?,
        VhostUserError::ReqHandlerError(cause) => push_request_cause(text, cause)?,
        _ => {}
    }
    Ok(())
}

#[tactic(auto, using(std::proofs::Common::append_assoc), unfolding(crate::specs::Answers::refusal_text))]
fn push_refusal(text: &mut String, refusal: VhostUserError) -> Result<(), OutOfMemory>
    ensures { OnOk result (string_bytes text.new ≡ string_bytes text.old ++ refusal_text refusal) }
{
    text.push_str(name_of_refusal(refusal))?;
    push_detail(text, refusal)
}

fn name_of_listener(refusal: ListenerError) -> &'static str
    ensures { result.now ≡ listener_name refusal }
{
    match refusal {
        ListenerError::EINVAL => "EINVAL",
        ListenerError::AlreadyExists => "AlreadyExists",
        ListenerError::NotFound => "NotFound",
    }
}

fn push_object(text: &mut String, object: Option<u32>) -> Result<(), OutOfMemory>
    ensures { OnOk result (string_bytes text.new ≡ string_bytes text.old ++ object_text object) }
{
    match object {
        Some(object) => push_number(text, "", object)?,
        None => text.push_str("-")?,
    }
    Ok(())
}

#[tactic(auto, using(std::proofs::Common::append_assoc), unfolding(crate::specs::Answers::answer_text))]
fn push_answer(text: &mut String, answer: &Answer) -> Result<(), OutOfMemory>
    ensures { OnOk result (string_bytes text.new ≡ string_bytes text.old ++ answer_text answer.now) }
{
    match answer {
        Answer::Ok => text.push_str("ok")?,
        Answer::Number(number) => push_number(text, "ok ", *number)?,
        Answer::Content(bytes) => {
            text.push_str("content ")?;
            push_hex(text, bytes.as_slice())?
        }
        Answer::Object(object) => {
            text.push_str("object ")?;
            push_object(text, *object)?
        }
        Answer::Base { index, num } => {
            push_number(text, "base ", *index)?;
            push_number(text, " ", *num)?
        }
        Answer::Failed(refusal) => push_refusal(text, *refusal)?,
        Answer::Listener(refusal) => text.push_str(name_of_listener(*refusal))?,
    }
    Ok(())
}

/// Appends the line of an answer to the request with this number.
///
/// # Errors
/// Want of memory. The text may then end within the line.
#[tactic(auto, using(std::proofs::Common::append_assoc), unfolding(crate::specs::Lines::answer_line))]
pub fn push_answer_line(
    _alloc: Global,
    text: &mut String,
    number: usize,
    answer: &Answer,
) -> Result<(), OutOfMemory>
    ensures { OnOk result (string_bytes text.new ≡ string_bytes text.old ++ answer_line number answer.now) }
{
    push_number(text, "answer ", number)?;
    text.push_str(" ")?;
    push_answer(text, answer)?;
    text.push_str("\n")?;
    Ok(())
}

/// Appends the lines of the answers, numbered from 0.
///
/// # Errors
/// Want of memory. The text may then end within a line.
pub fn push_answer_lines(
    alloc: Global,
    text: &mut String,
    answers: &[Answer],
) -> Result<(), OutOfMemory>
    ensures { OnOk result (string_bytes text.new ≡ string_bytes text.old ++ answer_lines 0 answers.now) }
{
    for (number, answer) in answers.iter().enumerate() {
        push_answer_line(alloc, text, number, answer)?;
    }
    Ok(())
}
