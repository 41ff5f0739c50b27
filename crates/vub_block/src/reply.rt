ghost use Rattle.std.specs.Prelude.{◌≡◌, ◌+◌, ◌<◌, ◌≤◌, length, IfOk};
ghost use Rattle.vub_block.specs.Answer.{filled};

use crate::status::Status;
use std::alloc::Global;
use vub_base::{Bytes, OutOfMemory};

/// A reply that fills the room: these bytes, zeros, and the status last.
///
/// # Errors
/// Want of memory.
#[tactic(auto, unfolding(crate::specs::Answer::filled))]
pub(crate) fn filled(
    alloc: Global,
    room: u32,
    status: Status,
    bytes: &[u8],
) -> Result<Bytes, OutOfMemory>
    requires { length bytes.now < room }
    ensures reply { IfOk result (λ r. r ≡ filled room status bytes.now) }
    ensures fits { IfOk result (λ r. length r ≤ room) }
{
    let mut out = Vec::with_capacity(alloc, room as usize)?;
    out.extend_from_slice(bytes)?;
    out.resize((room - 1) as usize, 0)?;
    out.push(status.byte())?;
    Ok(Bytes::from_vec(out))
}
