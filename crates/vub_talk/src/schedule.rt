ghost use Rattle.std.specs.Prelude.{◌≡◌, ◌++◌, IfOk, OnOk};
ghost use Rattle.std.specs.List.{range_with_len};
ghost use Rattle.vub_talk.specs.Batches.{schedule_of};

use std::alloc::Global;
use vub_base::OutOfMemory;

/// Appends a turn for each party.
fn push_round(turns: &mut Vec<u32>, parties: u32) -> Result<(), OutOfMemory>
    ensures { OnOk result (turns.new.items ≡ turns.old.items ++ range_with_len 0 parties) }
{
    for party in 0..parties {
        turns.push(party)?;
    }
    Ok(())
}

/// So many rounds, in each of which each party has a turn, by number.
///
/// # Errors
/// Want of memory.
pub(crate) fn schedule_of(alloc: Global, rounds: u32, parties: u32) -> Result<Vec<u32>, OutOfMemory>
    ensures { IfOk result (λ turns. turns.items ≡ schedule_of rounds parties) }
{
    let mut turns = Vec::new(alloc);
    for _ in 0..rounds {
        push_round(&mut turns, parties)?;
    }
    Ok(turns)
}
