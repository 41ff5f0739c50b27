//! Callers of take and put, as a service loop makes them.
ghost use Rattle.std.specs.Prelude.{◌≡◌, ◌+◌, ◌<◌, IsSome, IfOk};
ghost use Rattle.std.specs.Bool.{OnTrue};
ghost use Rattle.vub_queue.specs.Take.{HasRoom};

use std::alloc::Global;
use std::marker::Brand;
use std::sync::ledger::{Blank, Ledger};
use vub_base::{OutOfMemory, Steps};
use vub_mem::{DirtyLog, GuestMemory};
use vub_queue::{Damage, PutFault, Queue, Took, put, take};

/// What became of the next entry.
#[derive(Clone, Copy, Debug, PartialEq, Eq)]
pub(crate) enum Echoed {
    Put(bool),
    Refused(PutFault),
    Nothing,
    Damaged(Damage),
}

/// Takes the next entry and puts the front of its request as its reply.
pub(crate) fn echo_once<L: DirtyLog, K: Ledger>(
    alloc: Global,
    queue: &mut Queue,
    memory: &mut GuestMemory<L>,
    steps: &mut Steps<K>,
) -> Result<Echoed, OutOfMemory>
    requires { IsSome queue.old.addresses }
    ensures { IsSome queue.new.addresses }
{
    match take(alloc, queue, memory, steps)? {
        Took::None => Ok(Echoed::Nothing),
        Took::Damaged(damage) => Ok(Echoed::Damaged(damage)),
        Took::Entry(chain) => {
            let request = chain.request.as_slice();
            let room = chain.room as usize;
            let reply = if request.len() <= room {
                request
            } else {
                &request[..room]
            };
            match put(queue, memory, &chain, reply) {
                Ok(wanted) => Ok(Echoed::Put(wanted)),
                Err(fault) => Ok(Echoed::Refused(fault)),
            }
        }
    }
}

/// Whether a take finds a chain that is too long, which costs as many steps as the ring has descriptors.
pub(crate) fn is_too_long<L: DirtyLog, K: Ledger>(
    alloc: Global,
    queue: &mut Queue,
    memory: &mut GuestMemory<L>,
    steps: &mut Steps<K>,
) -> Result<bool, OutOfMemory>
    requires { IsSome queue.old.addresses }
    ensures { IfOk result (λ long. OnTrue long (steps.new ≡ steps.old + queue.old.size)) }
{
    match take(alloc, queue, memory, steps)? {
        Took::Damaged(damage) => match damage {
            Damage::TooLong => Ok(true),
            _ => Ok(false),
        },
        _ => Ok(false),
    }
}

fn take_with<K: Ledger>(
    alloc: Global,
    queue: &mut Queue,
    memory: &mut GuestMemory<()>,
    blank: Blank,
) -> Result<Took, OutOfMemory>
    requires addresses { IsSome queue.old.addresses }
    requires name { blank.name ≡ K.name }
    requires parts { blank.parts ≡ K.parts }
    requires some { 0 < K.parts }
    ensures addresses { IsSome queue.new.addresses }
    ensures room { IfOk result HasRoom }
{
    let mut steps = Steps::<K>::new(blank);
    take(alloc, queue, memory, &mut steps)
}

/// Takes the next entry on a counter of its own.
pub(crate) fn take_uncounted(
    alloc: Global,
    queue: &mut Queue,
    memory: &mut GuestMemory<()>,
) -> Result<Took, OutOfMemory>
    requires { IsSome queue.old.addresses }
    ensures addresses { IsSome queue.new.addresses }
    ensures room { IfOk result HasRoom }
{
    take_with::<Brand>(alloc, queue, memory, Blank::new(1))
}

fn echo_with<K: Ledger>(
    alloc: Global,
    queue: &mut Queue,
    memory: &mut GuestMemory<()>,
    blank: Blank,
) -> Result<Echoed, OutOfMemory>
    requires addresses { IsSome queue.old.addresses }
    requires name { blank.name ≡ K.name }
    requires parts { blank.parts ≡ K.parts }
    requires some { 0 < K.parts }
    ensures { IsSome queue.new.addresses }
{
    let mut steps = Steps::<K>::new(blank);
    echo_once(alloc, queue, memory, &mut steps)
}

/// Echoes the next entry on a counter of its own.
pub(crate) fn echo_uncounted(
    alloc: Global,
    queue: &mut Queue,
    memory: &mut GuestMemory<()>,
) -> Result<Echoed, OutOfMemory>
    requires { IsSome queue.old.addresses }
    ensures { IsSome queue.new.addresses }
{
    echo_with::<Brand>(alloc, queue, memory, Blank::new(1))
}

fn is_too_long_with<K: Ledger>(
    alloc: Global,
    queue: &mut Queue,
    memory: &mut GuestMemory<()>,
    blank: Blank,
) -> Result<bool, OutOfMemory>
    requires addresses { IsSome queue.old.addresses }
    requires name { blank.name ≡ K.name }
    requires parts { blank.parts ≡ K.parts }
    requires some { 0 < K.parts }
{
    let mut steps = Steps::<K>::new(blank);
    is_too_long(alloc, queue, memory, &mut steps)
}

/// Whether a take on a counter of its own finds a chain that is too long.
pub(crate) fn is_too_long_uncounted(
    alloc: Global,
    queue: &mut Queue,
    memory: &mut GuestMemory<()>,
) -> Result<bool, OutOfMemory>
    requires { IsSome queue.old.addresses }
{
    is_too_long_with::<Brand>(alloc, queue, memory, Blank::new(1))
}
