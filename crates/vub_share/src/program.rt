ghost use Rattle.std.specs.Prelude.{◌≡◌, ◌⊎◌, ◌↔◌, ◌<◌, ◌≤◌, ℕ, List, true, Some, None, IfOk, IfSome, IsSome, IsNone};
ghost use Rattle.std.specs.Io.KnownBytes.{Appends};
ghost use Rattle.vub_base.specs.Causes.{Rose};
ghost use Rattle.vub_stream.specs.Whole.{WritesFront};
ghost use Rattle.vub_text.specs.Text.{run_text, summary_text};
ghost use Rattle.vub_share.specs.Generator.{made};
ghost use Rattle.vub_share.specs.Inputs.{IsTooLong, IsNoScript, IsSetUpRefused, IsRunnable, CallsFor, SaysEnded};
ghost use Rattle.vub_share.specs.Asked.{asked, OnInput, IsRunFor, IsOnlyRunFor, text_for};
ghost use Rattle.vub_share.specs.Endings.{IsStatus};
ghost use Rattle.vub_share.specs.ScriptRun.{IsRunOf};
ghost use Rattle.vub_share.specs.declared.command.Command.{Command};
ghost use Rattle.vub_share.specs.declared.no_run.NoRun.{NoRun};

use crate::command::{Command, command_of};
use crate::finished::Finished;
use crate::generator::make_script;
use crate::no_run::NoRun;
use crate::playing::run_of;
use crate::reading::read_script;
use crate::status::Status;
use std::alloc::Global;
use vub_base::OutOfMemory;
use vub_model::Run;
use vub_stream::{Sink, Source, write_all};
use vub_text::{print_run, print_summary};

/// Reads a script, and plays it.
fn run_of_source<S: Source>(alloc: Global, source: &mut S) -> Result<Run, NoRun>
    ensures calls { IfSome (S.left source.old) (λ input. CallsFor input result) }
    ensures read { result ≡ Err NoRun.Read → Rose (S.fault_count source.old) (S.fault_count source.new) }
    ensures ended { SaysEnded result → S.ended source.new ≡ true }
    ensures later { S.fault_count source.old ≤ S.fault_count source.new }
{
    let script = read_script(alloc, source)?;
    match run_of(alloc, script) {
        Ok(run) => Ok(run),
        Err(why) => Err(why),
    }
}

/// A script that passes all tests has no run for want of memory alone.
fn memory_of(why: NoRun) -> OutOfMemory
    requires { why ≡ NoRun.Memory }
{
    match why {
        NoRun::Memory => OutOfMemory,
        _ => unreachable!("all tests pass"),
    }
}

/// Plays the generated script with so many entries.
fn run_of_make(alloc: Global, count: u32) -> Result<Run, OutOfMemory>
    requires { count ≤ 100000 }
    ensures { IfOk result (IsRunOf (made count)) }
{
    let script = make_script(alloc, count)?;
    match run_of(alloc, script) {
        Ok(run) => Ok(run),
        Err(why) => Err(memory_of(why)),
    }
}

/// Writes the text of a run. The text is whole in memory before its first byte is written.
fn write_run<K: Sink>(alloc: Global, run: Run, sink: &mut K) -> Finished
    ensures done { result.status ≡ 0 → (result.run ≡ Some run)
        × Appends (K.taken sink.old) (K.taken sink.new) (run_text run) }
    ensures failed { result.status ≡ 5 → (result.run ≡ Some run)
        × WritesFront (K.taken sink.old) (K.taken sink.new) (run_text run)
        × Rose (K.fault_count sink.old) (K.fault_count sink.new) }
    ensures memory { result.status ≡ 6 → (result.run ≡ None) × (sink.new ≡ sink.old) }
    ensures statuses { (result.status ≡ 0) ⊎ (result.status ≡ 5) ⊎ (result.status ≡ 6) }
{
    match print_run(alloc, &run) {
        Err(_) => Finished::new(Status::Memory, None),
        Ok(text) => match write_all(sink, text.as_slice()) {
            Ok(()) => Finished::new(Status::Done, Some(run)),
            Err(_) => Finished::new(Status::Write, Some(run)),
        },
    }
}

/// Writes the summary of a generated script's run.
fn write_summary<K: Sink>(alloc: Global, count: u32, run: Run, sink: &mut K) -> Finished
    ensures done { result.status ≡ 0 → (result.run ≡ Some run)
        × Appends (K.taken sink.old) (K.taken sink.new) (summary_text count run) }
    ensures failed { result.status ≡ 5 → (result.run ≡ Some run)
        × WritesFront (K.taken sink.old) (K.taken sink.new) (summary_text count run)
        × Rose (K.fault_count sink.old) (K.fault_count sink.new) }
    ensures memory { result.status ≡ 6 → (result.run ≡ None) × (sink.new ≡ sink.old) }
    ensures statuses { (result.status ≡ 0) ⊎ (result.status ≡ 5) ⊎ (result.status ≡ 6) }
{
    match print_summary(alloc, count, &run) {
        Err(_) => Finished::new(Status::Memory, None),
        Ok(line) => match write_all(sink, line.as_slice()) {
            Ok(()) => Finished::new(Status::Done, Some(run)),
            Err(_) => Finished::new(Status::Write, Some(run)),
        },
    }
}

/// The program over its words, what it reads from and what it writes to. The words are the arguments after the program's
/// name. With none it reads a script to its end, plays it, and writes the text of the run. With `make` and a number from 0
/// to 100000, in decimal digits without a leading zero, it plays the generated script with so many entries
/// ([`make_script`]), and writes the summary of the run.
///
/// Its status is, in this order: 1 for other words; 4 for a fault of the source; 7 for more than 16777216 bytes; 2 for no
/// script; 3 past a limit or where the set-up can't be run; 6 for want of memory; 5 for a fault of the sink; 0 where all was
/// written. Only at 0 and 5 there is a run and something was written: the text, or a front of it.
pub fn run_script<S: Source, K: Sink>(
    alloc: Global,
    words: &[String],
    source: &mut S,
    sink: &mut K,
) -> Finished
    // each status and its cause; of the input, over a source that tells its bytes
    ensures words { (result.status ≡ 1) ↔ (asked words.now ≡ None) }
    ensures read { result.status ≡ 4 → Rose (S.fault_count source.old) (S.fault_count source.new) }
    ensures long { result.status ≡ 7 → IfSome (S.left source.old) IsTooLong }
    ensures script { result.status ≡ 2 → IfSome (S.left source.old) IsNoScript }
    ensures set_up { result.status ≡ 3 → IfSome (S.left source.old) IsSetUpRefused }
    ensures write { result.status ≡ 5 → Rose (K.fault_count sink.old) (K.fault_count sink.new) }
    ensures statuses { result.status ≤ 7 }

    // with no words each of these inputs has that status, unless the source had a fault or memory was refused
    ensures only_long { OnInput S.Source source.old words.now IsTooLong (IsStatus 7 result.status) }
    ensures only_script { OnInput S.Source source.old words.now IsNoScript (IsStatus 2 result.status) }
    ensures only_set_up { OnInput S.Source source.old words.now IsSetUpRefused (IsStatus 3 result.status) }
    ensures complete { OnInput S.Source source.old words.now IsRunnable ((result.status ≡ 5)
        ⊎ IsStatus 0 result.status) }

    // with `make` all is written, unless the sink had a fault or memory was refused
    ensures makes { (count : ℕ) → asked words.now ≡ Some (Command.Make count)
        → (result.status ≡ 0) ⊎ (result.status ≡ 5) ⊎ (result.status ≡ 6) }

    // a run is there exactly at 0 and 5: the one that the words ask for; its text was written, or a front of it, and
    // nothing else
    ensures run { IfSome result.run (IsRunFor (asked words.now) (S.left source.old)) }
    ensures only_run { IfSome result.run (IsOnlyRunFor (asked words.now) (S.left source.old)) }
    ensures has_run { ((result.status ≡ 0) ⊎ (result.status ≡ 5)) ↔ IsSome result.run }
    ensures text { result.status ≡ 0 → IfSome result.run
        (λ run. Appends (K.taken sink.old) (K.taken sink.new) (text_for (asked words.now) run)) }
    ensures front { result.status ≡ 5 → IfSome result.run
        (λ run. WritesFront (K.taken sink.old) (K.taken sink.new) (text_for (asked words.now) run)) }
    ensures nothing { IsNone result.run → sink.new ≡ sink.old }

    // with words nothing is read; with none, at these statuses the source was read to its end
    ensures unread { (asked words.now ≡ Some Command.Play) ⊎ (source.new ≡ source.old) }
    ensures ended { asked words.now ≡ Some Command.Play → ((result.status ≡ 0) ⊎ (result.status ≡ 5)
        ⊎ (result.status ≡ 2) ⊎ (result.status ≡ 3)) → S.ended source.new ≡ true }
{
    match command_of(words) {
        None => Finished::new(Status::Words, None),
        Some(Command::Play) => match run_of_source(alloc, source) {
            Ok(run) => write_run(alloc, run, sink),
            Err(why) => Finished::new(why.status(), None),
        },
        Some(Command::Make(count)) => match run_of_make(alloc, count) {
            Ok(run) => write_summary(alloc, count, run, sink),
            Err(_) => Finished::new(Status::Memory, None),
        },
    }
}
