//! The program: a script is read from a source and played, and the trace of its run is written to a sink.
ghost use Rattle.std.specs.Prelude.{◌≡◌, ◌⊎◌, ◌↔◌, ◌<◌, ◌≤◌, ℕ, List, length, true, Some, None, Err, IfOk, IfErr, IfSome, IsSome};
ghost use Rattle.std.specs.Io.KnownBytes.{Appends};
ghost use Rattle.vub_base.specs.Causes.{Rose};
ghost use Rattle.vub_stream.specs.Whole.{WritesFront};
ghost use Rattle.vub_script.specs.Directory.{is_served};
ghost use Rattle.vub_share.specs.Inputs.{IsTooLong, IsNoScript, IsSetUpRefused};
ghost use Rattle.vub_share.specs.ScriptRun.{CausedBy};
ghost use Rattle.vub_share.specs.declared.no_run.NoRun.{NoRun};
ghost use Rattle.vub_trace.specs.Traces.{IsTraceOf, HasTrace, CallsForTrace};

use crate::text::print_trace;
use std::alloc::Global;
use vub_base::{Bytes, Listed};
use vub_script::Script;
use vub_share::{NoRun, Status, play_script, read_script};
use vub_stream::{Sink, Source, write_all};

/// How the program has ended.
#[derive(Debug, Drop)]
pub struct Traced {
    /// The exit status; [`Status`] names them.
    pub status: u8,
    /// Why there is no trace, where none could be written.
    pub why: Option<NoRun>,
}

/// The trace of a script.
///
/// # Errors
/// [`NoRun::Unfit`] with the first test that the set-up fails; want of memory.
fn trace_of_script(alloc: Global, script: Script) -> Result<Bytes, NoRun>
    requires { is_served script.service ≡ true }
    ensures trace { IfOk result (IsTraceOf script) }
    ensures refused { IfErr result (CausedBy script) }
{
    let Script {
        setup,
        device,
        service,
        schedule,
    } = script;
    let masks = match Listed::from_slice(alloc, device.masks.as_slice()) {
        Ok(masks) => masks,
        Err(_) => return Err(NoRun::Memory),
    };
    let run = play_script(alloc, &setup, device, service, schedule.as_slice())?;
    match print_trace(alloc, &setup, masks.as_slice(), schedule.as_slice(), &run) {
        Ok(text) => Ok(text),
        Err(_) => Err(NoRun::Memory),
    }
}

/// The trace of the script that a source gives.
fn trace_of_source<S: Source>(alloc: Global, source: &mut S) -> Result<Bytes, NoRun>
    ensures calls { IfSome (S.left source.old) (λ input. CallsForTrace input result) }
    ensures read { result ≡ Err NoRun.Read → Rose (S.fault_count source.old) (S.fault_count source.new) }
{
    let script = read_script(alloc, source)?;
    match trace_of_script(alloc, script) {
        Ok(text) => Ok(text),
        Err(why) => Err(why),
    }
}

/// The program over its words, what it reads from and what it writes to. With no words it reads a script to its end,
/// plays it, and writes the trace of its run. Other words are none that it knows.
///
/// Its statuses are those of [`run_script`](vub_share::run_script). Where there is no trace, the answer says why.
pub fn trace_script<S: Source, K: Sink>(
    alloc: Global,
    words: &[String],
    source: &mut S,
    sink: &mut K,
) -> Traced
    ensures words { (result.status ≡ 1) ↔ (0 < length words.now) }
    ensures read { result.status ≡ 4 → Rose (S.fault_count source.old) (S.fault_count source.new) }
    ensures long { result.status ≡ 7 → IfSome (S.left source.old) IsTooLong }
    ensures script { result.status ≡ 2 → IfSome (S.left source.old) IsNoScript }
    ensures set_up { result.status ≡ 3 → IfSome (S.left source.old) IsSetUpRefused }
    ensures write { result.status ≡ 5 → Rose (K.fault_count sink.old) (K.fault_count sink.new) }
    ensures statuses { result.status ≤ 7 }

    // at 0 the trace of the script that was read was written and nothing else, at 5 a front of it, else nothing
    ensures text { result.status ≡ 0 → IfSome (S.left source.old) (λ input. (text : List ℕ)
        × HasTrace input text × Appends (K.taken sink.old) (K.taken sink.new) text) }
    ensures front { result.status ≡ 5 → IfSome (S.left source.old) (λ input. (text : List ℕ)
        × HasTrace input text × WritesFront (K.taken sink.old) (K.taken sink.new) text) }
    ensures nothing { (result.status ≡ 0) ⊎ (result.status ≡ 5) ⊎ (sink.new ≡ sink.old) }
    ensures unread { result.status ≡ 1 → source.new ≡ source.old }
{
    if !words.is_empty() {
        return Traced {
            status: Status::Words.number(),
            why: None,
        };
    }
    match trace_of_source(alloc, source) {
        Ok(text) => Traced {
            status: match write_all(sink, text.as_slice()) {
                Ok(()) => Status::Done.number(),
                Err(_) => Status::Write.number(),
            },
            why: None,
        },
        Err(why) => Traced {
            status: why.status().number(),
            why: Some(why),
        },
    }
}
