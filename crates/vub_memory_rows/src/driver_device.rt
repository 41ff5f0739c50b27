//! A device under test, which serves one entry at a time. Its calls have no clause, so that the tests' own proofs stay
//! small.
ghost use Rattle.std.specs.Prelude.{◌≡◌, ◌<◌, IsSome};

use std::alloc::Global;
use std::marker::Brand;
use std::sync::ledger::{Blank, Ledger};
use vub_base::{OutOfMemory, Steps};
use vub_mem::GuestMemory;
use vub_queue::{Queue, Took, put, take};

/// What became of the next entry.
#[derive(Clone, Copy, Debug, PartialEq, Eq)]
pub enum Served {
    /// It was put, and the driver wants to be notified or not.
    Put(bool),
    /// No entry is left.
    Nothing,
    /// The ring is damaged, or the reply was refused.
    Refused,
}

fn serve_with<K: Ledger>(
    alloc: Global,
    queue: &mut Queue,
    memory: &mut GuestMemory<()>,
    blank: Blank,
) -> Result<Served, OutOfMemory>
    requires addresses { IsSome queue.old.addresses }
    requires name { blank.name ≡ K.name }
    requires parts { blank.parts ≡ K.parts }
    requires some { 0 < K.parts }
{
    let mut steps = Steps::<K>::new(blank);
    match take(alloc, queue, memory, &mut steps)? {
        Took::None => Ok(Served::Nothing),
        Took::Damaged(_) => Ok(Served::Refused),
        Took::Entry(chain) => {
            let request = chain.request.as_slice();
            let reply = &request[..request.len().min(chain.room as usize)];
            match put(queue, memory, &chain, reply) {
                Ok(wanted) => Ok(Served::Put(wanted)),
                Err(_) => Ok(Served::Refused),
            }
        }
    }
}

/// Takes the next entry and puts the front of its request as its reply.
pub fn serve(
    alloc: Global,
    queue: &mut Queue,
    memory: &mut GuestMemory<()>,
) -> Result<Served, OutOfMemory> {
    if queue.addresses().is_none() {
        return Ok(Served::Refused);
    }
    serve_with::<Brand>(alloc, queue, memory, Blank::new(1))
}
