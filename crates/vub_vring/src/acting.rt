//! What the guest does by itself.
ghost use Rattle.std.specs.Prelude.{◌≡◌, [], ◌+◌, nat_le};
ghost use Rattle.vub_model.specs.Logs.{log_at, word_at, without_word};
ghost use Rattle.vub_model.specs.World.{acted, stored, harvests_by};
ghost use Rattle.vub_ring.specs.Events.{table_raised};
ghost use Rattle.vub_vring.specs.Store.{shared_of, MayHarvest, MayAct, from_option};

use crate::store::Store;
use vub_event::MemHost;
use vub_log::PlainLog;
use vub_mem::{DirtyLog, GuestMemory};
use vub_model::{Guest, Harvested};
use vub_ring::raise_anyway;

/// Whether `len` bytes from byte `offset` on end within the first `room`.
fn fits(room: usize, offset: u64, len: usize) -> bool
    ensures { result ≡ nat_le (offset + len) room }
{
    let room = room as u64;
    offset <= room && len as u64 <= room - offset
}

/// Stores bytes in a content from byte `offset` on. Bytes that reach past its end are not stored.
#[tactic(auto, using(crate::proofs::Storing::stored_on, crate::proofs::Storing::stored_off))]
fn store_bytes<L: DirtyLog>(memory: &mut GuestMemory<L>, object: u32, offset: u64, bytes: &[u8])
    ensures guest { memory.new.guest ≡ stored memory.old.guest object offset bytes.now }
    ensures logs { memory.new.logs ≡ memory.old.logs }
{
    if fits(memory.content(object).len(), offset, bytes.len()) {
        memory.store(object, offset, bytes);
    }
}

/// Adds 1 to the count of an event. A full counter stays.
#[tactic(auto, using(vub_ring::proofs::Settling::raised_sound))]
fn signal_event(host: &mut MemHost, object: u32)
    ensures table { host.old.plan.calls.items ≡ [] → host.new.table ≡ table_raised host.old.table object }
    ensures still { host.old.plan.calls.items ≡ [] → host.new.plan.calls.items ≡ [] }
{
    let _passed = raise_anyway(host, object);
}

/// Hands out a word of a log and clears it.
#[tactic(auto, using(crate::proofs::Harvesting::has_the_word, crate::proofs::Harvesting::not_spent))]
fn harvest_word(memory: &mut GuestMemory<PlainLog>, object: u32, word: u64) -> u32
    requires { MayHarvest memory.old.logs object word }
    ensures bits { result ≡ word_at (log_at memory.old.logs object) word }
    ensures logs { memory.new.logs ≡ without_word memory.old.logs object word }
    ensures guest { memory.new.guest ≡ memory.old.guest }
{
    match memory.harvest(object, word) {
        Ok(bits) => bits,
        Err(_) => unreachable!(),
    }
}

impl Store {
    /// Plays an action of the guest. A store that reaches past the end of its content does nothing; a full counter
    /// stays. A harvest answers the bits of its word. `V` is the service's type, which the action leaves alone.
    pub fn act<V>(&mut self, action: &Guest) -> Option<Harvested>
        requires possible { MayAct self.old.memory.logs action.now }
        ensures harvested { (v : V) → from_option result ≡ harvests_by (shared_of self.old v) action.now }
        ensures shared { self.old.host.plan.calls.items ≡ [] → (v : V)
            → shared_of self.new v ≡ acted (shared_of self.old v) action.now }
        ensures still { self.old.host.plan.calls.items ≡ [] → self.new.host.plan.calls.items ≡ [] }
    {
        match action {
            Guest::Store {
                object,
                offset,
                bytes,
            } => {
                store_bytes(&mut self.memory, *object, *offset, bytes.as_slice());
                None
            }
            Guest::Signal { object } => {
                signal_event(&mut self.host, *object);
                None
            }
            Guest::Harvest { object, word } => Some(Harvested {
                object: *object,
                word: *word,
                bits: harvest_word(&mut self.memory, *object, *word),
            }),
        }
    }
}
