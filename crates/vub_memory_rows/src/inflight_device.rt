//! Calls of a device under test. Each makes one call on a counter of its own, where that may be made, and has no
//! clause, so that the tests' own proofs stay small.

ghost use Rattle.std.specs.Prelude.{◌≡◌, ◌<◌, ◌-◌, ◌^◌};
ghost use Rattle.vub_inflight.specs.declared.stage.Stage.{Stage};

use std::alloc::Global;
use std::marker::Brand;
use std::sync::ledger::{Blank, Ledger};
use vub_base::{OutOfMemory, Steps};
use vub_inflight::{InflightRing, NextEntry, Stage};
use vub_mem::GuestMemory;
use vub_queue::{Took, chain_at};

/// What a take answered, without the chain.
#[derive(Clone, Copy, Debug, PartialEq, Eq)]
pub enum Taken {
    Entry(u16),
    Doubled(u16),
    Other,
}

fn without_chain(answer: NextEntry) -> Taken {
    match answer {
        NextEntry::Entry(chain) => Taken::Entry(chain.head),
        NextEntry::Doubled(head) => Taken::Doubled(head),
        _ => Taken::Other,
    }
}

#[tactic(auto, using(vub_inflight::proofs::Conditions::may_take))]
fn take_with<K: Ledger>(
    alloc: Global,
    ring: &mut InflightRing,
    memory: &mut GuestMemory<()>,
    blank: Blank,
) -> Result<Taken, OutOfMemory>
    requires settled { ring.old.stage ≡ Stage.Settled }
    requires left { ring.old.next < 2 ^ 64 - 1 }
    requires name { blank.name ≡ K.name }
    requires parts { blank.parts ≡ K.parts }
    requires some { 0 < K.parts }
{
    let mut steps = Steps::<K>::new(blank);
    let answer = ring.take_step(alloc, memory, &mut steps)?;
    Ok(without_chain(answer))
}

/// Takes the next entry, where no use has begun.
pub fn take(
    alloc: Global,
    ring: &mut InflightRing,
    memory: &mut GuestMemory<()>,
) -> Result<Taken, OutOfMemory> {
    match ring.stage() {
        Stage::Settled => {
            if ring.next_counter() == u64::MAX {
                return Ok(Taken::Other);
            }
            take_with::<Brand>(alloc, ring, memory, Blank::new(1))
        }
        _ => Ok(Taken::Other),
    }
}

#[tactic(auto, using(vub_inflight::proofs::Conditions::may_mark))]
fn mark(ring: &mut InflightRing, head: u16) -> bool
    requires { ring.old.stage ≡ Stage.Settled }
{
    if !ring.is_in_flight(head) {
        return false;
    }
    ring.mark_head(head);
    true
}

#[tactic(auto, using(vub_inflight::proofs::Conditions::may_publish))]
fn publish_with<K: Ledger>(
    alloc: Global,
    ring: &mut InflightRing,
    memory: &mut GuestMemory<()>,
    head: u16,
    blank: Blank,
) -> Result<bool, OutOfMemory>
    requires marked { ring.old.stage ≡ Stage.Marked head }
    requires name { blank.name ≡ K.name }
    requires parts { blank.parts ≡ K.parts }
    requires some { 0 < K.parts }
{
    let mut steps = Steps::<K>::new(blank);
    match chain_at(alloc, ring.queue(), memory, head, &mut steps)? {
        Took::Entry(chain) => {
            if chain.head != head || chain.room < 2 {
                return Ok(false);
            }
            Ok(ring.publish(memory, &chain, b"ok").is_ok())
        }
        _ => Ok(false),
    }
}

/// Makes the next call of the use of an entry: marks its head, publishes "ok", clears the flag, or settles. False where
/// the call may not be made, or the reply is refused.
pub fn advance(
    alloc: Global,
    ring: &mut InflightRing,
    memory: &mut GuestMemory<()>,
    head: u16,
) -> Result<bool, OutOfMemory> {
    match ring.stage() {
        Stage::Settled => Ok(mark(ring, head)),
        Stage::Marked(marked) => {
            publish_with::<Brand>(alloc, ring, memory, marked, Blank::new(1))
        }
        Stage::Published(published) => {
            ring.clear(published);
            Ok(true)
        }
        Stage::Cleared => {
            ring.settle();
            Ok(true)
        }
    }
}

#[tactic(auto, using(vub_inflight::proofs::Conditions::may_mark))]
fn finish_with<K: Ledger>(
    alloc: Global,
    ring: &mut InflightRing,
    memory: &mut GuestMemory<()>,
    head: u16,
    blank: Blank,
) -> Result<bool, OutOfMemory>
    requires settled { ring.old.stage ≡ Stage.Settled }
    requires name { blank.name ≡ K.name }
    requires parts { blank.parts ≡ K.parts }
    requires some { 0 < K.parts }
{
    let mut steps = Steps::<K>::new(blank);
    match chain_at(alloc, ring.queue(), memory, head, &mut steps)? {
        Took::Entry(chain) => {
            if !ring.is_in_flight(chain.head) {
                return Ok(false);
            }
            Ok(ring.finish(memory, &chain, b"").is_ok())
        }
        _ => Ok(false),
    }
}

/// Uses the entry of a head at once, with an empty reply, where no use has begun. False where it is not in flight, or
/// the reply is refused.
pub fn finish(
    alloc: Global,
    ring: &mut InflightRing,
    memory: &mut GuestMemory<()>,
    head: u16,
) -> Result<bool, OutOfMemory> {
    match ring.stage() {
        Stage::Settled => finish_with::<Brand>(alloc, ring, memory, head, Blank::new(1)),
        _ => Ok(false),
    }
}
