//! Harvests the words of a numbered log.
ghost use Rattle.std.specs.Prelude.{◌≡◌, ℕ, ◌↔◌, ◌*◌, ◌<◌, IfOk, OnErr};
ghost use Rattle.vub_mem.specs.Logs.{log_len, ChangesOne, HoldsOf};

use crate::dirty::{HarvestLog, Stored};
use crate::errors::LogError;
use crate::marks::log_place;

/// Hands out the bits of a word of the log with this number, which has it, and clears them.
pub(crate) fn harvest_log<L: HarvestLog>(
    logs: &mut [Stored<L>],
    object: u32,
    word: u64,
) -> Result<u32, LogError>
    requires { 4 * word < log_len L.byte_len logs.old object }
    ensures harvested { IfOk result (λ bits. ChangesOne
        (λ old new. L.harvests old word bits new) logs.old object logs.new) }
    ensures spent { (result ≡ Err LogError.GenerationsSpent) ↔ HoldsOf (λ log. L.spent log word) logs.old object }
    ensures only { OnErr result (result ≡ Err LogError.GenerationsSpent) }
    ensures err { OnErr result (logs.new ≡ logs.old) }
    ensures keeps { (o : ℕ) → log_len L.byte_len logs.new o ≡ log_len L.byte_len logs.old o }
{
    match log_place(logs, object) {
        None => unreachable!(),
        Some(index) => {
            let stored = &mut logs[index];
            stored.log.harvest(word)
        }
    }
}
