//! From a source to a script.
ghost use Rattle.std.specs.Prelude.{◌≡◌, ◌≤◌, length, true, IfOk, IfSome, Err};
ghost use Rattle.vub_base.specs.Causes.{Rose};
ghost use Rattle.vub_script.specs.Directory.{is_served};
ghost use Rattle.vub_share.specs.Inputs.{DraftSays, Says, SaysEnded, IsOfInput};
ghost use Rattle.vub_share.specs.declared.no_run.NoRun.{NoRun};

use crate::no_run::{NoRun, Unfit};
use std::alloc::Global;
use vub_script::{Draft, Refusal, Script, draft_of_bytes, limit_passed, script_of_draft};
use vub_stream::{Input, Source, SourceError, read_input};

/// The script that a draft is written out to, if it is within the limits.
fn script_within(alloc: Global, draft: Draft) -> Result<Script, NoRun>
    requires { is_served draft.service ≡ true }
    ensures script { DraftSays draft result }
    ensures service { IfOk result (λ script. is_served script.service ≡ true) }
{
    if let Some(limit) = limit_passed(&draft) {
        return Err(NoRun::Unfit(Unfit::Limit(limit)));
    }
    match script_of_draft(alloc, draft) {
        Ok(script) => Ok(script),
        Err(_) => Err(NoRun::Memory),
    }
}

/// The script that the bytes are.
fn script_of_bytes(alloc: Global, bytes: &[u8]) -> Result<Script, NoRun>
    requires { length bytes.now ≤ 16777216 }
    ensures script { Says bytes.now result }
    ensures service { IfOk result (λ script. is_served script.service ≡ true) }
    ensures kind { IsOfInput result }
{
    match draft_of_bytes(alloc, bytes) {
        Ok(draft) => script_within(alloc, draft),
        Err(Refusal::NoScript(fault)) => Err(NoRun::NotAScript(fault)),
        Err(Refusal::OutOfMemory) => Err(NoRun::Memory),
    }
}

/// Reads a source to its end, or to one byte past 16777216, and gives the script that its bytes are. Contents and turns
/// are written out only within the limits.
///
/// # Errors
/// [`NoRun::Read`] only where the source's count of faults rose; [`NoRun::TooLong`], [`NoRun::NotAScript`] and
/// [`NoRun::Unfit`] exactly where the input has more bytes, is no script, or is one past a limit; want of memory.
pub fn read_script<S: Source>(alloc: Global, source: &mut S) -> Result<Script, NoRun>
    ensures script { IfSome (S.left source.old) (λ input. Says input result) }
    ensures service { IfOk result (λ script. is_served script.service ≡ true) }
    ensures read { result ≡ Err NoRun.Read → Rose (S.fault_count source.old) (S.fault_count source.new) }
    ensures ended { SaysEnded result → S.ended source.new ≡ true }
    ensures later { S.fault_count source.old ≤ S.fault_count source.new }
{
    match read_input(alloc, source) {
        Ok(Input::Whole(bytes)) => script_of_bytes(alloc, bytes.as_slice()),
        Ok(Input::TooLong) => Err(NoRun::TooLong),
        Err(SourceError::Failed) => Err(NoRun::Read),
        Err(SourceError::OutOfMemory) => Err(NoRun::Memory),
    }
}
