//! The text of a trace.
ghost use Rattle.std.specs.Prelude.{◌≡◌, ◌≤◌, ◌<◌, ◌^◌, ◌++◌, length, option_copied, IfOk, OnOk, string_bytes};
ghost use Rattle.vub_model.specs.RunOf.{party_of};
ghost use Rattle.vub_trace.specs.Past.{IsWithin, none_past};
ghost use Rattle.vub_trace.specs.Text.{action_line, answer_line_at, record_line, poll_line, change_line, request_text, next_call, next_take, next_use, next_answer, next_action, worker_line, step_line, turn_text, turn_line, lines_from, trace_text};

use crate::kind::{Kind, follows_of, kind_of};
use crate::past::{NONE_PAST, Past, past_after};
use crate::words::{push_action, push_party, push_poll, push_small};
use std::alloc::Global;
use vub_base::{Bytes, OutOfMemory};
use vub_model::{Guest, Label, Party, Run, Setup};
use vub_proto::Answer;
use vub_text::{Line, push_answer_line, push_lines};

/// Appends the line of an action of the guest.
#[tactic(auto, using(std::proofs::Common::append_assoc))]
fn push_action_line(
    alloc: Global,
    text: &mut String,
    action: Option<&Guest>,
) -> Result<(), OutOfMemory>
    ensures { OnOk result (string_bytes text.new ≡ string_bytes text.old ++ action_line (option_copied action.entry)) }
{
    match action {
        Some(action) => {
            push_action(alloc, text, action)?;
            text.push_str("\n")?
        }
        None => text.push_str("\n")?,
    }
    Ok(())
}

/// Appends the line of an answer to the request with this number.
fn push_answer_at(
    alloc: Global,
    text: &mut String,
    number: usize,
    answer: Option<&Answer>,
) -> Result<(), OutOfMemory>
    ensures { OnOk result (string_bytes text.new
        ≡ string_bytes text.old ++ answer_line_at number (option_copied answer.entry)) }
{
    match answer {
        Some(answer) => push_answer_line(alloc, text, number, answer),
        None => {
            text.push_str("\n")?;
            Ok(())
        }
    }
}

/// Appends the line of a record.
fn push_record<T: Line>(
    alloc: Global,
    text: &mut String,
    record: Option<&T>,
) -> Result<(), OutOfMemory>
    ensures { OnOk result (string_bytes text.new
        ≡ string_bytes text.old ++ record_line T.line (option_copied record.entry)) }
{
    match record {
        Some(record) => record.push_line(alloc, text),
        None => {
            text.push_str("\n")?;
            Ok(())
        }
    }
}

/// Appends the line of a poll, where there are so many objects.
#[tactic(auto, using(std::proofs::Common::append_assoc))]
fn push_poll_line(text: &mut String, objects: usize, label: &Label) -> Result<(), OutOfMemory>
    ensures { OnOk result (string_bytes text.new ≡ string_bytes text.old ++ poll_line objects label.now) }
{
    match label {
        Label::Poll { object } => {
            push_poll(text, objects, *object)?;
            text.push_str("\n")?
        }
        _ => text.push_str("\n")?,
    }
    Ok(())
}

/// Appends the line of a change that control made.
#[tactic(auto, using(std::proofs::Common::append_assoc))]
fn push_change_line(text: &mut String, label: &Label) -> Result<(), OutOfMemory>
    ensures { OnOk result (string_bytes text.new ≡ string_bytes text.old ++ change_line label.now) }
{
    match label {
        Label::Control(small) => {
            push_small(text, small.get())?;
            text.push_str("\n")?
        }
        _ => text.push_str("\n")?,
    }
    Ok(())
}

/// Appends which request control is at.
fn push_request(text: &mut String, number: usize) -> Result<(), OutOfMemory>
    ensures { OnOk result (string_bytes text.new ≡ string_bytes text.old ++ request_text number) }
{
    write!(text, "request {number} ")?;
    Ok(())
}

/// Appends the line of the next call of the device.
fn push_next_call(
    alloc: Global,
    text: &mut String,
    run: &Run,
    past: Past,
) -> Result<(), OutOfMemory>
    ensures { OnOk result (string_bytes text.new ≡ string_bytes text.old ++ next_call run.now past) }
{
    push_record(alloc, text, run.device.as_slice().get(past.called))
}

/// Appends the line of the next entry that was taken.
fn push_next_take(
    alloc: Global,
    text: &mut String,
    run: &Run,
    past: Past,
) -> Result<(), OutOfMemory>
    ensures { OnOk result (string_bytes text.new ≡ string_bytes text.old ++ next_take run.now past) }
{
    push_record(alloc, text, run.takes.as_slice().get(past.taken))
}

/// Appends the line of the next entry that was used.
fn push_next_use(alloc: Global, text: &mut String, run: &Run, past: Past) -> Result<(), OutOfMemory>
    ensures { OnOk result (string_bytes text.new ≡ string_bytes text.old ++ next_use run.now past) }
{
    push_record(alloc, text, run.uses.as_slice().get(past.used))
}

/// Appends the line of the next answer.
fn push_next_answer(
    alloc: Global,
    text: &mut String,
    run: &Run,
    past: Past,
) -> Result<(), OutOfMemory>
    ensures { OnOk result (string_bytes text.new ≡ string_bytes text.old ++ next_answer run.now past) }
{
    push_answer_at(
        alloc,
        text,
        past.answered,
        run.answers.as_slice().get(past.answered),
    )
}

/// Appends the line of the next action of the guest.
fn push_next_action(
    alloc: Global,
    text: &mut String,
    setup: &Setup,
    past: Past,
) -> Result<(), OutOfMemory>
    ensures { OnOk result (string_bytes text.new ≡ string_bytes text.old ++ next_action setup.now past) }
{
    push_action_line(alloc, text, setup.guest.as_slice().get(past.acted))
}

/// Appends what is told of a worker's step of this kind.
#[tactic(auto, unfolding(crate::specs::Text::worker_line))]
fn push_worker_step(
    alloc: Global,
    text: &mut String,
    setup: &Setup,
    run: &Run,
    past: Past,
    label: &Label,
    kind: Kind,
) -> Result<(), OutOfMemory>
    ensures { OnOk result (string_bytes text.new
        ≡ string_bytes text.old ++ worker_line setup.now run.now past label.now kind) }
{
    match kind {
        Kind::Poll => push_poll_line(text, setup.objects.len(), label)?,
        Kind::Event => text.push_str("event\n")?,
        Kind::Sweep => text.push_str("sweep\n")?,
        Kind::Hear => push_next_call(alloc, text, run, past)?,
        Kind::Take => push_next_take(alloc, text, run, past)?,
        Kind::Look => text.push_str("take nothing\n")?,
        Kind::Serve => text.push_str("serve\n")?,
        Kind::Use => push_next_use(alloc, text, run, past)?,
        Kind::Miss => text.push_str("use refused\n")?,
        _ => text.push_str("\n")?,
    }
    Ok(())
}

/// Appends what is told of a step of this kind, from the next record of the list that tells of it.
#[tactic(auto, using(std::proofs::Common::append_assoc), unfolding(crate::specs::Text::step_line))]
fn push_step(
    alloc: Global,
    text: &mut String,
    setup: &Setup,
    run: &Run,
    past: Past,
    label: &Label,
    kind: Kind,
) -> Result<(), OutOfMemory>
    ensures { OnOk result (string_bytes text.new
        ≡ string_bytes text.old ++ step_line setup.now run.now past label.now kind) }
{
    match kind {
        Kind::Pass => text.push_str("pass\n")?,
        Kind::Act => push_next_action(alloc, text, setup, past)?,
        Kind::Change => {
            push_request(text, past.answered)?;
            push_change_line(text, label)?
        }
        Kind::Call => {
            push_request(text, past.answered)?;
            push_next_call(alloc, text, run, past)?
        }
        Kind::Answer => push_next_answer(alloc, text, run, past)?,
        _ => push_worker_step(alloc, text, setup, run, past, label, kind)?,
    }
    Ok(())
}

/// The party of a turn.
fn party_of(turn: u32) -> Party
    ensures { result ≡ party_of turn }
{
    match turn {
        0 => Party::Guest,
        1 => Party::Control,
        _ => Party::Worker(turn - 2),
    }
}

/// Appends a turn's number and its party.
#[tactic(auto, using(std::proofs::Common::append_assoc))]
fn push_turn(text: &mut String, number: usize, party: u32) -> Result<(), OutOfMemory>
    ensures { OnOk result (string_bytes text.new ≡ string_bytes text.old ++ turn_text number party) }
{
    write!(text, "{number} ")?;
    push_party(text, party_of(party))?;
    text.push_str(" ")?;
    Ok(())
}

/// Appends the line of a turn of this kind.
#[tactic(auto, using(std::proofs::Common::append_assoc), unfolding(crate::specs::Text::turn_line))]
fn push_turn_line(
    alloc: Global,
    text: &mut String,
    setup: &Setup,
    run: &Run,
    past: Past,
    party: u32,
    label: &Label,
    kind: Kind,
) -> Result<(), OutOfMemory>
    ensures { OnOk result (string_bytes text.new
        ≡ string_bytes text.old ++ turn_line setup.now run.now past party label.now kind) }
{
    push_turn(text, past.turns, party)?;
    push_step(alloc, text, setup, run, past, label, kind)
}

/// Appends the lines of the turns.
fn push_turn_lines(
    alloc: Global,
    text: &mut String,
    setup: &Setup,
    masks: &[u64],
    schedule: &[u32],
    labels: &[Label],
    run: &Run,
) -> Result<(), OutOfMemory>
    ensures { OnOk result (string_bytes text.new
        ≡ string_bytes text.old ++ lines_from setup.now masks.now run.now none_past schedule.now labels.now) }
{
    let mut past = NONE_PAST;
    for at in 0..schedule.len() {
        if at >= labels.len() {
            return Ok(());
        }
        let party = schedule[at];
        let next = follows_of(party, &schedule[at + 1..], &labels[at + 1..]);
        let worker = party.saturating_sub(2);
        let kind = kind_of(masks, run, past, worker, &labels[at], next);
        push_turn_line(alloc, text, setup, run, past, party, &labels[at], kind)?;
        past = past_after(past, kind);
    }
    Ok(())
}

/// The trace of a run over this set-up, by a device with these masks, for this schedule: a line for each turn, with its
/// number, its party and its step, and then a line for each worker that has stopped.
///
/// # Errors
/// Want of memory.
#[tactic(auto, unfolding(crate::specs::Text::trace_text))]
pub fn print_trace(
    alloc: Global,
    setup: &Setup,
    masks: &[u64],
    schedule: &[u32],
    run: &Run,
) -> Result<Bytes, OutOfMemory>
    ensures { IfOk result (λ text. text ≡ trace_text setup.now masks.now schedule.now run.now) }
{
    let mut text = String::new(alloc);
    let labels = run.labels.as_slice();
    push_turn_lines(alloc, &mut text, setup, masks, schedule, labels, run)?;
    push_lines(alloc, &mut text, run.stops.as_slice())?;
    Ok(Bytes::from_vec(text.into_bytes()))
}
