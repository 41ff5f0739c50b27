ghost use Rattle.std.specs.Prelude.{IfOk};
ghost use Rattle.vub_base.specs.Causes.{HasCause};
ghost use Rattle.vub_stream.specs.Whole.{IsWholeInput, IsLongInput, TakesInput};

use crate::source::{Source, SourceError};
use std::alloc::Global;
use vub_base::Bytes;

/// The greatest length of an input, in bytes.
pub const LIMIT: usize = 16777216;

/// How many bytes are asked for at a time.
const PIECE: usize = 65536;

/// What a source held.
#[derive(Debug, Drop)]
pub enum Input {
    /// All bytes up to the end.
    Whole(Bytes),
    /// More bytes than [`LIMIT`].
    TooLong,
}

/// Reads a source to its end, but no further than one byte past [`LIMIT`]: where so many come, a later fault is not
/// met.
///
/// # Errors
/// [`SourceError::Failed`] only where the source's count of faults rose, and then no byte past [`LIMIT`] was taken;
/// want of memory.
pub fn read_input<S: Source>(alloc: Global, source: &mut S) -> Result<Input, SourceError>
    ensures whole { IfOk result (IsWholeInput (S.left source.old) (S.ended source.new)) }
    ensures long { IfOk result (IsLongInput (S.left source.old)) }
    ensures takes { TakesInput (S.left source.old) (S.left source.new) result }
    ensures cause { HasCause (S.fault_count source.old) (S.fault_count source.new) result SourceError.Failed }
{
    let mut found: Vec<u8> = Vec::new(alloc);
    while found.len() <= LIMIT {
        let most = PIECE.min(LIMIT + 1 - found.len());
        let piece = source.read(alloc, most)?;
        if piece.is_empty() {
            return Ok(Input::Whole(Bytes::from_vec(found)));
        }
        if found.extend_from_slice(piece.as_slice()).is_err() {
            return Err(SourceError::OutOfMemory);
        }
    }
    Ok(Input::TooLong)
}
