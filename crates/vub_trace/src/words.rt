//! The words of a turn.
ghost use Rattle.std.specs.Prelude.{◌≡◌, ◌++◌, OnOk, string_bytes};
ghost use Rattle.vub_text.specs.Answers.{object_text};
ghost use Rattle.vub_trace.specs.Words.{party_text, action_text, op_text, table_text, small_text, poll_text};

use std::alloc::Global;
use vub_base::OutOfMemory;
use vub_model::{Guest, Party, RingOp, Small, TableOp};
use vub_text::{hex_of, word_of};

/// Appends a party's name.
pub fn push_party(text: &mut String, party: Party) -> Result<(), OutOfMemory>
    ensures { OnOk result (string_bytes text.new ≡ string_bytes text.old ++ party_text party) }
{
    match party {
        Party::Guest => text.push_str("guest")?,
        Party::Control => text.push_str("control")?,
        Party::Worker(worker) => write!(text, "worker {worker}")?,
    }
    Ok(())
}

/// Appends an action of the guest.
#[tactic(auto, using(std::proofs::Common::append_assoc), unfolding(crate::specs::Words::action_text))]
pub fn push_action(alloc: Global, text: &mut String, action: &Guest) -> Result<(), OutOfMemory>
    ensures { OnOk result (string_bytes text.new ≡ string_bytes text.old ++ action_text action.now) }
{
    match action {
        Guest::Store {
            object,
            offset,
            bytes,
        } => {
            let bytes = hex_of(alloc, bytes.as_slice())?;
            write!(text, "store {object} {offset} {bytes}")?
        }
        Guest::Signal { object } => write!(text, "signal {object}")?,
        Guest::Harvest { object, word } => write!(text, "harvest {object} {word}")?,
    }
    Ok(())
}

fn push_object(text: &mut String, object: Option<u32>) -> Result<(), OutOfMemory>
    ensures { OnOk result (string_bytes text.new ≡ string_bytes text.old ++ object_text object) }
{
    match object {
        Some(object) => write!(text, "{object}")?,
        None => text.push_str("-")?,
    }
    Ok(())
}

#[tactic(auto, using(std::proofs::Common::append_assoc))]
fn push_event(text: &mut String, word: &str, object: Option<u32>) -> Result<(), OutOfMemory>
    ensures { OnOk result (string_bytes text.new ≡ string_bytes text.old ++ (word.now ++ object_text object)) }
{
    text.push_str(word)?;
    push_object(text, object)
}

/// Appends a change of a ring.
#[tactic(auto, using(std::proofs::Common::append_assoc), unfolding(crate::specs::Words::op_text))]
fn push_op(text: &mut String, op: RingOp) -> Result<(), OutOfMemory>
    ensures { OnOk result (string_bytes text.new ≡ string_bytes text.old ++ op_text op) }
{
    match op {
        RingOp::SetEnabled(set) => write!(text, "enabled {}", word_of(set))?,
        RingOp::SetReady(set) => write!(text, "ready {}", word_of(set))?,
        RingOp::SetSize(size) => write!(text, "size {size}")?,
        RingOp::SetInfo {
            desc,
            avail,
            used,
            ..
        } => write!(text, "addresses {desc} {avail} {used}")?,
        RingOp::SetBase(base) => write!(text, "base {base}")?,
        RingOp::SetEventIdx(set) => write!(text, "event_idx {}", word_of(set))?,
        RingOp::SetKick(event) => push_event(text, "kick ", event)?,
        RingOp::SetCall(event) => push_event(text, "call ", event)?,
        RingOp::SetErr(event) => push_event(text, "err ", event)?,
        RingOp::Taken => text.push_str("taken")?,
        RingOp::Put => text.push_str("put")?,
        RingOp::Hold => text.push_str("hold")?,
        RingOp::GetBase => text.push_str("asked for its base")?,
    }
    Ok(())
}

/// Appends a change of the table of guest memory.
fn push_table(text: &mut String, table: &TableOp) -> Result<(), OutOfMemory>
    ensures { OnOk result (string_bytes text.new ≡ string_bytes text.old ++ table_text table.now) }
{
    match table {
        TableOp::Replace(regions) => {
            let count = regions.len();
            write!(text, "table of regions: {count}")?
        }
        TableOp::Insert(region) => {
            let start = region.start;
            let len = region.len;
            write!(text, "region added: {start} length {len}")?
        }
        TableOp::Remove { start, len } => write!(text, "region removed: {start} length {len}")?,
    }
    Ok(())
}

/// Appends a small step of control that neither calls the device nor answers.
#[tactic(auto, using(std::proofs::Common::append_assoc), unfolding(crate::specs::Words::small_text))]
pub fn push_small(text: &mut String, small: &Small) -> Result<(), OutOfMemory>
    ensures { OnOk result (string_bytes text.new ≡ string_bytes text.old ++ small_text small.now) }
{
    match small {
        Small::Claim { object, queue } => write!(text, "claim {object} queue {queue}")?,
        Small::Release { object } => write!(text, "release {object}")?,
        Small::Add {
            worker,
            object,
            token,
        } => write!(text, "add {object} worker {worker} token {token}")?,
        Small::Delete { worker, object } => write!(text, "delete {object} worker {worker}")?,
        Small::Listen {
            worker,
            object,
            token,
        } => write!(text, "listen {object} worker {worker} token {token}")?,
        Small::Unlisten { worker, object, .. } => {
            write!(text, "unlisten {object} worker {worker}")?
        }
        Small::Bell { object } => write!(text, "ring {object}")?,
        Small::Remove { worker, number } => write!(text, "unpending {number} worker {worker}")?,
        Small::Insert { worker, number } => write!(text, "pending {number} worker {worker}")?,
        Small::Set { queue, op } => {
            write!(text, "queue {queue} ")?;
            push_op(text, *op)?
        }
        Small::Info {
            queue,
            desc,
            avail,
            used,
        } => write!(text, "queue {queue} addresses {desc} {avail} {used}")?,
        Small::Table(table) => push_table(text, table)?,
        Small::Log {
            object,
            offset,
            size,
        } => write!(text, "log {object} offset {offset} size {size}")?,
        Small::Device(_) | Small::Answer => {}
    }
    Ok(())
}

/// Appends a poll of an object of the set-up, of which there are so many, or of a bell.
#[tactic(auto, unfolding(crate::specs::Words::poll_text))]
pub fn push_poll(text: &mut String, objects: usize, object: u32) -> Result<(), OutOfMemory>
    ensures { OnOk result (string_bytes text.new ≡ string_bytes text.old ++ poll_text objects object) }
{
    if (object as usize) < objects {
        write!(text, "poll {object}")?;
    } else {
        text.push_str("poll bell")?;
    }
    Ok(())
}
