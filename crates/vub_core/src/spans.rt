ghost use Rattle.std.specs.Prelude.{◌≡◌, ◌<◌, ◌≤◌, ◌++◌, ◌-◌, ◌^◌, List, Bool, true, false, [], length, slice_index_or, take, drop, OnOk, IfOk};
ghost use Rattle.std.specs.List.{list_any};
ghost use Rattle.vub_mem.specs.Place.{content_of};
ghost use Rattle.vub_model.specs.RunRecords.{spans_in, spans_from};
ghost use Rattle.vub_core.specs.Spans.{IsSpan};

use crate::written::Written;
use std::alloc::Global;
use vub_base::{Bytes, OutOfMemory};
use vub_log::PlainLog;
use vub_mem::GuestMemory;
use vub_model::{Object, Span};

/// Whether the byte at this place was written.
fn is_flagged(flags: &[bool], place: usize) -> bool
    ensures { result ≡ slice_index_or flags.now place false }
{
    match flags.get(place) {
        Some(flag) => *flag,
        None => false,
    }
}

/// The end of the run of written bytes that begins at `start`, of `len` bytes.
fn end_of_run(flags: &[bool], start: usize, len: usize) -> usize
    requires within { start < len }
    requires flagged { slice_index_or flags.now start false ≡ true }
    ensures { IsSpan flags.now start len result }
{
    let mut end = start + 1;
    while end < len && is_flagged(flags, end) {
        end += 1;
    }
    end
}

/// The run of bytes from `start` to `end` of a content.
fn span_of(
    alloc: Global,
    object: u32,
    content: &[u8],
    start: usize,
    end: usize,
) -> Result<Span, OutOfMemory>
    requires { (start ≤ end) × (end ≤ length content.now) }
    ensures { IfOk result (λ s. s ≡ record {
      object = object;
      offset = start;
      bytes = take (end - start)
          (drop start content.now);
    }) }
{
    Ok(Span {
        object,
        offset: start as u64,
        bytes: Bytes::from_slice(alloc, &content[start..end])?,
    })
}

/// Appends the runs of written bytes of one content.
fn push_runs(
    alloc: Global,
    spans: &mut Vec<Span>,
    object: u32,
    flags: &[bool],
    content: &[u8],
) -> Result<(), OutOfMemory>
    ensures { (all : List (List Bool)) → slice_index_or all object [] ≡ flags.now
        → OnOk result (spans.new.items ≡ spans.old.items ++ spans_in all object 0 content.now) }
{
    let mut at = 0;
    while at < content.len() {
        if is_flagged(flags, at) {
            let end = end_of_run(flags, at, content.len());
            spans.push(span_of(alloc, object, content, at, end)?)?;
            at = end;
        } else {
            at += 1;
        }
    }
    Ok(())
}

/// Whether a byte was written.
fn has_flag(flags: &[bool]) -> bool
    ensures { result ≡ list_any (λ flag. flag) flags.now }
{
    flags.iter().any(|flag| *flag)
}

/// Appends the runs of written bytes of an object. Its content is looked up only where a byte was written.
fn push_content(
    alloc: Global,
    spans: &mut Vec<Span>,
    object: u32,
    flags: &[bool],
    memory: &GuestMemory<PlainLog>,
) -> Result<(), OutOfMemory>
    ensures { (all : List (List Bool)) → slice_index_or all object [] ≡ flags.now
        → OnOk result (spans.new.items ≡ spans.old.items ++ spans_in all object 0
        (content_of memory.now.guest.contents object)) }
{
    if has_flag(flags) {
        push_runs(alloc, spans, object, flags, memory.content(object))
    } else {
        Ok(())
    }
}

/// The runs of bytes that were written, by object and offset, with what stands there.
pub(crate) fn spans_of(
    alloc: Global,
    written: &Written,
    memory: &GuestMemory<PlainLog>,
    objects: &[Object],
) -> Result<Vec<Span>, OutOfMemory>
    requires { length objects.now < 2 ^ 32 }
    ensures { IfOk result (λ spans. spans.items ≡ spans_from written.now memory.now.guest 0 objects.now) }
{
    let mut spans = Vec::new(alloc);
    for number in 0..objects.len() as u32 {
        let flags = written.of(number as usize);
        push_content(alloc, &mut spans, number, flags, memory)?;
    }
    Ok(spans)
}
